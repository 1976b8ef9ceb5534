//! What a datagram that came from a link comes to.
ghost use Rattle.std.specs.Prelude.{◌≡◌, ◌<◌, ◌≤◌, ◌+◌, ◌∷◌, [], true, length, slice_get, IfOk, IfSome, OnOk};
ghost use Rattle.proto_model.specs.Handing.{found};
ghost use Rattle.proto_model.specs.Lines.{Stranger};
ghost use Rattle.proto_model.specs.WorldStep.{runs_now};
ghost use Rattle.rp_frame.specs.Spelling.{spelling};
ghost use Rattle.run_history.specs.Shown.{shown};
ghost use Rattle.link_run.specs.Answering.{datagram_step, handed_step, shown_datagram};

use proto_data::{FRAMES, MESSAGES};
use rp_app::App;
use rp_base::{Line, Lines, NoMemory, Node, Refusal};
use rp_world::World;
use run_history::refused;
use std::alloc::Global;

// The line of a datagram that is no frame of the run.
fn stranger(alloc: Global, event: u64, node: Node) -> Result<Lines, NoMemory>
    ensures { IfOk result (λ lines. lines ≡ shown (Stranger event node ∷ [])) }
{
    let mut lines = Lines::new(alloc);
    lines.push(Line::Stranger { event, node })?;
    Ok(lines)
}

// A frame that came from the link is handed over, where there is room for what that sends. Gives the lines, and whether the pump ends.
fn handed<A: App>(
    alloc: Global,
    world: &mut World<A>,
    event: u64,
    frame: u64,
) -> Result<(Lines, bool), NoMemory>
    requires event { event ≡ world.old.world.event }
    requires frame { frame < length world.old.world.frames }
    requires runs { IfSome (slice_get world.old.world.frames frame) (λ m. runs_now world.old.world m.to ≡ true) }
    requires count { world.old.calls < 1000000000 }
    ensures step { IfOk result (λ r. (world.new.world, r.0, r.1) ≡ shown_datagram (handed_step (A.meaning world.old.app) world.old.world frame)) }
    ensures calls { OnOk result (world.new.calls ≤ world.old.calls + 1) }
    ensures app { world.new.app ≡ world.old.app }
    ensures setup { world.new.setup ≡ world.old.setup }
{
    if world.frames() as usize > FRAMES - MESSAGES {
        let lines = refused(alloc, event, Refusal::FramesFull)?;
        return Ok((lines, true));
    }
    let lines = world.hand(frame)?;
    Ok((lines, false))
}

/// A datagram came for this node, which runs, within this event. If it is a frame that was sent to the node, the frame is handed over;
/// where there is no room for what that may send, the pump ends; any other datagram is a stranger. Gives the lines, and whether the
/// pump ends.
///
/// # Errors
/// `NoMemory`.
pub fn take_datagram<A: App>(
    alloc: Global,
    world: &mut World<A>,
    event: u64,
    node: Node,
    bytes: &[u8],
) -> Result<(Lines, bool), NoMemory>
    requires event { event ≡ world.old.world.event }
    requires runs { runs_now world.old.world node ≡ true }
    requires count { world.old.calls < 1000000000 }
    ensures step { IfOk result (λ r. (world.new.world, r.0, r.1) ≡ shown_datagram (datagram_step (A.meaning world.old.app) node world.old.world (found spelling world.old.world node bytes.now))) }
    ensures calls { OnOk result (world.new.calls ≤ world.old.calls + 1) }
    ensures app { world.new.app ≡ world.old.app }
    ensures setup { world.new.setup ≡ world.old.setup }
{
    match world.find(node, bytes) {
        Some(frame) => handed(alloc, world, event, frame),
        None => {
            let lines = stranger(alloc, event, node)?;
            Ok((lines, false))
        }
    }
}
