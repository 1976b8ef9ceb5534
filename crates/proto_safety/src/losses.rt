//! Snapshot runs: what their cells are, and what they may lose.

ghost use Rattle.std.specs.Prelude.{◌≡◌, ◌≤◌, List, ℕ};
ghost use Rattle.rp_base.specs.Clocks.{TermsHold};
ghost use Rattle.rp_base.specs.declared.event.Event.{Event};
ghost use Rattle.rp_app.specs.Application.{Application, IsApplication};
ghost use Rattle.proto_data.specs.declared.terms.Mode.{Mode};
ghost use Rattle.proto_model.specs.World.{Setup, opened};
ghost use Rattle.proto_model.specs.WorldStep.{world_after};
ghost use Rattle.proto_safety.specs.LossLaws.{HistoryStands, SnapCells};

/// In snapshot mode, with terms by which a lease has ended at its switch before the store gives the flow to another: a slot that is
/// leased in an epoch has the cells after the kept items of earlier epochs and all items of its own; a running round, each chunk
/// of a round as a frame, and each Snap of the committed book have the cells after the items before the round's begin.
pub fn snapshot_cells_stand()
    ensures { (app : Application) (setup : Setup) (bound : ℕ) → setup.terms.mode ≡ Mode.Snapshot bound →
        TermsHold setup.terms.t_switch setup.terms.t_store setup.terms.ratio → (events : List Event) →
        SnapCells app (world_after app (opened app.cell_count setup) events) }
{}

/// In snapshot mode, with such terms: the committed cells are those after the last committed epoch's kept items, from the base that
/// the kept items of earlier epochs give; each released output of an item is that of one switch, from its epoch's base along the
/// items before it; each mark of a flow was fed with its key and stands once over all epochs; what was released before another
/// packet of the flow was fed stands before it; a mark without a key is released once, with the output of one switch.
pub fn snapshot_histories_stand()
    ensures { (app : Application) → IsApplication app → (setup : Setup) (bound : ℕ) → setup.terms.mode ≡ Mode.Snapshot bound →
        TermsHold setup.terms.t_switch setup.terms.t_store setup.terms.ratio → (events : List Event) →
        HistoryStands app (world_after app (opened app.cell_count setup) events) }
{}
