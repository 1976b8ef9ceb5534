//! The induction over a run: what the ways in which a world changes keep, holds after every list of events.

ghost use Rattle.std.specs.Prelude.{List};
ghost use Rattle.rp_base.specs.declared.event.Event.{Event};
ghost use Rattle.rp_app.specs.Application.{Application};
ghost use Rattle.proto_model.specs.World.{World};
ghost use Rattle.proto_model.specs.WorldStep.{world_after};
ghost use Rattle.proto_safety.specs.Changes.{Keeps, KeepsGiven};

/// A fact of worlds.
pub trait Fact {
    ghost holds: { World → Type 0 };
}

/// A fact that each way in which the world changes keeps, holds after every list of events where it holds before them.
pub fn kept_facts_hold<I: Fact>()
    ensures { (app : Application) → Keeps app I.holds → (events : List Event) (w : World) → I.holds w → I.holds (world_after app w events) }
{}

/// A fact that is kept where another one is known, which is kept by itself, holds with it after every list of events.
pub fn facts_kept_given_another_hold<I: Fact, J: Fact>()
    ensures { (app : Application) → Keeps app I.holds → KeepsGiven app I.holds J.holds → (events : List Event) (w : World) → I.holds w → J.holds w →
        I.holds (world_after app w events) × J.holds (world_after app w events) }
{}
