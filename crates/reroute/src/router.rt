//! The view of the master: which nodes it believes up. It changes by detections alone.
ghost use Rattle.std.specs.Prelude.{◌≡◌, ◌≤◌, option_map, replicate, true, false};

use crate::{chain, up};
use arrayvec::ArrayVec;
use proto_data::Config;
use rp_base::{Key, Node};
use std::marker::Model;

/// Why a detection is refused.
#[derive(Clone, Copy, Debug, PartialEq, Eq)]
pub enum DetectEnd {
    /// The node runs, and is believed up.
    Alive,
    /// The node has failed, and is believed down.
    Known,
}

/// Which of up to 8 switches are believed up, and the configuration of up to 5 replicas. Takes no memory.
#[derive(Debug, Drop)]
pub struct Router {
    believed: ArrayVec<bool, 8>,
    config: Config,
}

impl Model for Router {
    ghost use Rattle.reroute.specs.Routes.{Routes, IsRoutes};

    ghost Value = { Routes };

    ghost view = { λ r. record { believed = r.believed.items; config = r.config } };

    ghost invariant = { λ r. IsRoutes (record { believed = r.believed.items; config = r.config }) };
}

impl Router {
    ghost use Rattle.proto_model.specs.Routing.{picked};
    ghost use Rattle.reroute.specs.Routes.{first_routes, switches_up, is_up, seen, detection};

    /// A run of 1 to 8 switches and 1 to 5 replicas, all believed up. Configuration 1 has all replicas in order.
    pub fn open(switches: u8, replicas: u8) -> Router
        requires some_switch { 1 ≤ switches }
        requires switches_fit { switches ≤ 8 }
        requires some_replica { 1 ≤ replicas }
        requires replicas_fit { replicas ≤ 5 }
        ensures { result ≡ first_routes switches replicas }
    {
        Router {
            believed: all_up(switches),
            config: Config {
                number: 1,
                chain: chain::whole(replicas),
            },
        }
    }

    /// The present configuration.
    pub fn config(&self) -> &Config
        ensures { result.now ≡ self.now.config }
    {
        &self.config
    }

    /// The switch for packets of a key, or without one, of those that are believed up: the member whose place is the sum of the
    /// key's bytes modulo how many there are. `None` exactly where there is none.
    pub fn pick(&self, key: Option<&Key>) -> Option<u8>
        ensures { result ≡ picked (switches_up self.now.believed) (option_map (λ k. k.now) key.entry) }
    {
        let up = up::switches_up(self.believed.as_slice());
        let switches = up.as_slice();
        if switches.is_empty() {
            return None;
        }
        Some(switches[up::key_sum(key) % switches.len()])
    }

    /// Whether a node is believed up: a switch by the view, a replica exactly where it is in the configuration. The master isn't.
    pub fn is_up(&self, n: Node) -> bool
        ensures { result ≡ is_up self.now n }
    {
        match n {
            Node::Switch(n) => match self.believed.as_slice().get(n as usize) {
                Some(up) => *up,
                None => false,
            },
            Node::Replica(n) => chain::has(self.config.chain.as_slice(), n),
            Node::Master => false,
        }
    }

    // The view of a node becomes true: it runs, or doesn't.
    fn see(&mut self, n: Node, runs: bool)
        requires { runs ≡ false → is_up self.old n ≡ true }
        ensures { self.new ≡ seen self.old n runs }
    {
        match n {
            Node::Switch(n) => {
                if let Some(up) = self.believed.get_mut(n as usize) {
                    *up = runs;
                }
            }
            Node::Replica(n) if !runs => {
                self.config = Config {
                    number: self.config.number + 1,
                    chain: chain::without(self.config.chain.as_slice(), n),
                };
            }
            Node::Replica(_) | Node::Master => (),
        }
    }

    /// The view of a node becomes true: it runs, or doesn't. A replica that doesn't run leaves the configuration, whose number rises.
    ///
    /// # Errors
    /// `Alive` exactly where the node runs and is believed up, `Known` exactly where it doesn't run and is believed down; the view
    /// is unchanged.
    pub fn detect(&mut self, n: Node, runs: bool) -> Result<(), DetectEnd>
        ensures { (self.new, result) ≡ detection self.old n runs }
    {
        let up = self.is_up(n);
        if runs && up {
            return Err(DetectEnd::Alive);
        }
        if !runs && !up {
            return Err(DetectEnd::Known);
        }
        self.see(n, runs);
        Ok(())
    }
}

// So many switches, all believed up.
fn all_up(switches: u8) -> ArrayVec<bool, 8>
    requires { switches ≤ 8 }
    ensures { result.items ≡ replicate switches true }
{
    let mut believed = ArrayVec::new();
    for _ in 0..switches {
        believed.push(true);
    }
    believed
}
