//! The master's messages: its configuration to each running node, switches first.
ghost use Rattle.std.specs.Prelude.{◌≡◌, ◌≤◌, ◌++◌, ◌∷◌, [], length, map, IfOk, OnOk};
ghost use Rattle.rp_base.specs.declared.node.Node.{Node as NodeValue};
ghost use Rattle.proto_model.specs.World.{numbers_from};
ghost use Rattle.proto_model.specs.WorldStep.{announcements};
ghost use Rattle.world_state.specs.Announcing.{config_to, replica_runs, switch_runs};
ghost use Rattle.world_state.specs.WorldStates.{world_of};

use crate::nodes::{ReplicaNode, SwitchNode};
use crate::state::WorldState;
use proto_model::{Body, Config, Msg};
use rp_base::{NoMemory, Node};
use sqlite_items::Items;
use store_replica::Msgs;

// The master tells a node its configuration.
fn push_config(msgs: &mut Msgs, to: Node, config: &Config) -> Result<(), NoMemory>
    ensures { OnOk result (msgs.new ≡ msgs.old ++ config_to config.now to ∷ []) }
{
    let config = Config {
        number: config.number,
        chain: config.chain.copy()?,
    };
    msgs.push(Msg {
        from: Node::Master,
        to,
        body: Body::Config(config),
    })?;
    Ok(())
}

// A message to each switch that runs.
fn push_to_switches(
    msgs: &mut Msgs,
    switches: &[SwitchNode],
    config: &Config,
) -> Result<(), NoMemory>
    requires few { length switches.now ≤ 8 }
    ensures { OnOk result (msgs.new ≡ msgs.old ++ map (λ n. config_to config.now (NodeValue.Switch n)) (numbers_from switch_runs 0 switches.now)) }
{
    for n in 0..switches.len() {
        if switches[n].runs {
            push_config(msgs, Node::Switch(n as u8), config)?;
        }
    }
    Ok(())
}

// A message to each replica that runs.
fn push_to_replicas(
    msgs: &mut Msgs,
    replicas: &[ReplicaNode],
    config: &Config,
) -> Result<(), NoMemory>
    requires few { length replicas.now ≤ 5 }
    ensures { OnOk result (msgs.new ≡ msgs.old ++ map (λ n. config_to config.now (NodeValue.Replica n)) (numbers_from replica_runs 0 replicas.now)) }
{
    for n in 0..replicas.len() {
        if replicas[n].runs {
            push_config(msgs, Node::Replica(n as u8), config)?;
        }
    }
    Ok(())
}

impl WorldState {
    /// The messages of an announcement, in order of sending.
    ///
    /// # Errors
    /// `NoMemory`.
    pub(crate) fn announcements(&self) -> Result<Msgs, NoMemory>
        requires routed { length self.now.router.believed ≡ length self.now.switches }
        requires some { length self.now.switches ≤ 8 }
        requires few { length self.now.replicas ≤ 5 }
        ensures { IfOk result (λ msgs. msgs ≡ announcements (world_of self.now)) }
    {
        let mut msgs = Items::new(self.alloc);
        push_to_switches(&mut msgs, self.switches.as_slice(), self.router.config())?;
        push_to_replicas(&mut msgs, self.replicas.as_slice(), self.router.config())?;
        Ok(msgs)
    }
}
