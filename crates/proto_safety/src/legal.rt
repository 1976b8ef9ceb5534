//! Legal histories: what a run shows of each flow is what one switch that never fails gives along the flow's serial list.

ghost use Rattle.std.specs.Prelude.{◌≡◌, ◌≤◌, List};
ghost use Rattle.rp_base.specs.Clocks.{TermsHold};
ghost use Rattle.rp_base.specs.declared.event.Event.{Event};
ghost use Rattle.rp_app.specs.Application.{Application, IsApplication, counting};
ghost use Rattle.proto_data.specs.declared.terms.Mode.{Mode};
ghost use Rattle.proto_model.specs.Legal.{IsLegal};
ghost use Rattle.proto_model.specs.World.{Setup, opened};
ghost use Rattle.proto_model.specs.WorldStep.{world_after};
ghost use Rattle.proto_safety.specs.NeededPremises.{early_run, snapshot_run, unmarked, unmarked_run};

/// In strict mode, with terms by which a lease has ended at its switch before the store gives the flow to another, the history
/// is legal after every list of events: each mark of a serial list was fed, has the list's key and stands once over all lists;
/// a released mark stands in its flow's list, is released once, and its output is that of one switch after the packets before
/// it; none stands before one that was released before it was fed, and none was released before it was fed itself; the committed cells are those after the whole list.
pub fn runs_are_legal()
    ensures { (app : Application) → IsApplication app → (setup : Setup) → setup.terms.mode ≡ Mode.Strict →
        TermsHold setup.terms.t_switch setup.terms.t_store setup.terms.ratio → (events : List Event) →
        IsLegal app (world_after app (opened app.cell_count setup) events) }
{}

/// Each of these premises is needed. Of a run in snapshot mode the history isn't legal, since an update isn't committed; of one
/// whose store gives a flow away while its lease runs, since a count is released that another one has passed; of one of an
/// application whose outputs have another mark, since that mark wasn't fed.
pub fn premises_are_needed()
    ensures mode { IsLegal counting snapshot_run → ⊥ }
    ensures terms { IsLegal counting early_run → ⊥ }
    ensures application { IsLegal unmarked unmarked_run → ⊥ }
{}
