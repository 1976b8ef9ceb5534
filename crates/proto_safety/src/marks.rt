//! Where marks stand: each packet waits in one place, is processed once and is released once.

ghost use Rattle.std.specs.Prelude.{◌≢◌, List, ℕ};
ghost use Rattle.rp_base.specs.declared.event.Event.{Event};
ghost use Rattle.rp_app.specs.Application.{Application, IsApplication};
ghost use Rattle.proto_model.specs.Feeds.{Pairwise};
ghost use Rattle.proto_model.specs.World.{World, Setup, opened};
ghost use Rattle.proto_model.specs.WorldStep.{world_after};
ghost use Rattle.proto_safety.specs.CellLaws.{MarksStand, released_marks};

/// A mark stands in at most one journal, once, and at most once in all rings of all slots of all switches.
/// A mark that is asked for stands in no journal, one that waits was never released, and each of them was fed.
pub fn marks_stand()
    ensures { (app : Application) → IsApplication app → (setup : Setup) (events : List Event) →
        MarksStand (world_after app (opened app.cell_count setup) events) }
{}

/// A mark is released at most once.
pub fn marks_are_released_once()
    ensures { (app : Application) → IsApplication app → (setup : Setup) (events : List Event) →
        Pairwise (λ (a b : ℕ). a ≢ b) (released_marks (world_after app (opened app.cell_count setup) events)) }
{}
