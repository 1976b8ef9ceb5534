//! Straight paths: what comes of a request that goes through the whole chain, and back, with nothing in its way.

ghost use Rattle.proto_model.specs.Runs.{Run};
ghost use Rattle.proto_model.specs.Straight.{AsksAnswered, PutsRelease};

/// In strict mode, where a Put with an output goes to the head, entry by entry to the tail, and the answer comes back, while no
/// node fails, boots or is detected, the slot keeps its lease's epoch, fewer than 64 later marks enter its ring and the output
/// isn't released before: the output is released at the event that delivers the answer. So in every run, over any chain.
pub fn puts_release()
    ensures { (r : Run) → PutsRelease r }
{}

/// In strict mode, where an Ask with a packet goes to the head, which appends a Grant, and on to the tail, whose Grant comes back
/// while the slot waits for it in time: the packet is processed at the event that delivers the Grant, or it is dropped there,
/// since the switch has 1,024 copies. So in every run, over any chain.
pub fn asks_are_answered()
    ensures { (r : Run) → AsksAnswered r }
{}
