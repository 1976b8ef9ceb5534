//! First facts: marks, clocks and the list of frames.

ghost use Rattle.std.specs.Prelude.{◌≡◌, ◌≢◌, ◌≤◌, ◌+◌, List, Some, length, slice_get, ℕ};
ghost use Rattle.rp_base.specs.declared.event.Event.{Event};
ghost use Rattle.rp_app.specs.Application.{Application};
ghost use Rattle.proto_model.specs.Clocks.{Aged, clocks};
ghost use Rattle.proto_model.specs.Feeds.{Pairwise};
ghost use Rattle.proto_model.specs.Runs.{Run, before, clock};
ghost use Rattle.proto_model.specs.World.{World, Setup, opened};
ghost use Rattle.rp_base.specs.declared.legality.Fed.{Fed};
ghost use Rattle.proto_model.specs.WorldStep.{world_after, world_step};
ghost use Rattle.proto_safety.specs.Frames.{Grows};

/// A mark is fed at most once.
pub fn marks_differ()
    ensures { (app : Application) (setup : Setup) (events : List Event) →
        Pairwise (λ (a b : Fed). a.packet.mark ≢ b.packet.mark) (world_after app (opened app.cell_count setup) events).history.fed }
{}

/// A node's clock is the sum of its advances in the `time` events that weren't refused, whether it runs or not.
pub fn clocks_are_sums()
    ensures { (run : Run) (n node c : ℕ) → slice_get (clocks (before run n)) node ≡ Some c → c ≡ clock run node n }
{}

/// Where clocks read a and b, the second no earlier than the first, the second node's clock goes on at most within the ratio.
pub fn clocks_keep_the_ratio()
    ensures { (app : Application) (i j a b : ℕ) (events : List Event) (w : World) →
        Aged w.terms.ratio (clocks w) i a j b →
        Aged (world_after app w events).terms.ratio (clocks (world_after app w events)) i a j b }
{}

/// For any two nodes and any two moments, what passed on the one is bounded, by the ratio, by what passed on the other:
/// where node i's clock read a and node j's b, and later they read x and y, 1000 (y - b) is at most (1000 + ratio) (x - a).
pub fn ratio_bounds_what_passed()
    ensures { (app : Application) (setup : Setup) (events more : List Event) (i j a b : ℕ) →
        slice_get (clocks (world_after app (opened app.cell_count setup) events)) i ≡ Some a →
        slice_get (clocks (world_after app (opened app.cell_count setup) events)) j ≡ Some b →
        Aged setup.terms.ratio (clocks (world_after app (world_after app (opened app.cell_count setup) events) more)) i a j b }
{}

/// The numbers of frames that were sent stay theirs, and one event sends at most 64 more.
pub fn frames_only_grow()
    ensures { (app : Application) (setup : Setup) (events : List Event) (event : Event) → setup.switches ≤ 8 → setup.replicas ≤ 5 →
        Grows (world_after app (opened app.cell_count setup) events).frames (world_step app (world_after app (opened app.cell_count setup) events) event).0.frames }
{}
