//! What the lines of a snapshot run's report tell of its losses.

ghost use Rattle.std.specs.Prelude.{◌≡◌, ◌≤◌, Bool, false, List, ℕ, [], ◌∷◌, map, replicate};
ghost use Rattle.rp_base.specs.Clocks.{TermsHold};
ghost use Rattle.rp_base.specs.declared.event.Event.{Event};
ghost use Rattle.rp_app.specs.Application.{Application, IsApplication};
ghost use Rattle.proto_data.specs.declared.message.Body.{Body};
ghost use Rattle.proto_data.specs.declared.message.Msg.{Msg};
ghost use Rattle.proto_data.specs.declared.terms.Mode.{Mode};
ghost use Rattle.proto_model.specs.Committed.{committed_records};
ghost use Rattle.proto_model.specs.EndLines.{report};
ghost use Rattle.proto_model.specs.Lines.{printed};
ghost use Rattle.proto_model.specs.World.{Setup, opened};
ghost use Rattle.proto_model.specs.WorldStep.{world_after};
ghost use Rattle.proto_safety.specs.SnapshotRow.{events, letters, opening};
ghost use Rattle.loss_laws.specs.BoundedLines.{BoundedLines, committed_epochs, epoch_flows};
ghost use Rattle.loss_laws.specs.WorkedLines.{worked_lines};

/// In snapshot mode the lines at the end tell the committed flows, each with its epochs, how many items of each are kept, their
/// marks, and the flow's cells; no other line of a report tells an epoch or cells. So what `losses_are_bounded` says of kept
/// items holds of what the epoch lines name.
pub fn epochs_are_told()
    ensures { (kind : Body → ℕ) (spelled : Msg → List ℕ) (app : Application) (setup : Setup) (bound : ℕ) → setup.terms.mode ≡ Mode.Snapshot bound → (events : List Event) (frames : Bool) →
        epoch_flows (printed kind spelled (report frames app setup events)) ≡
        map (committed_epochs (world_after app (opened app.cell_count setup) events)) (committed_records app.cell_count (world_after app (opened app.cell_count setup) events)) }
{}

/// In snapshot mode, with terms by which a lease has ended at its switch before the store gives the flow to another, the lines of
/// the report of every list of events lose boundedly, with frames or without them, however frames are spelled: over the packets of the
/// events that no line refuses, the outputs of the release lines, and the epochs, kept numbers, marks and cells of the lines at the
/// end. How recent the lost updates are stands in no line: that is `losses_are_bounded`, of the run.
pub fn reports_lose_boundedly()
    ensures { (kind : Body → ℕ) (spelled : Msg → List ℕ) (app : Application) → IsApplication app → (setup : Setup) (bound : ℕ) → setup.terms.mode ≡ Mode.Snapshot bound →
        TermsHold setup.terms.t_switch setup.terms.t_store setup.terms.ratio → (events : List Event) (frames : Bool) →
        BoundedLines app events (printed kind spelled (report frames app setup events)) }
{}

/// What the lines at the end of the worked run tell, and that the same lines with a fault don't lose boundedly: with one more item
/// kept or with other cells, since cells are those along the kept items; with a mark twice; with a mark that wasn't fed; with a
/// mark before one that was released before it was fed.
pub fn worked_lines_tell()
    ensures told { (kind : Body → ℕ) (spelled : Msg → List ℕ) → epoch_flows (printed kind spelled (report false letters opening events)) ≡
        record {
          key = 98 ∷ [];
          epochs = record { key = 98 ∷ []; epoch = 1; kept = 1; marks = 1 ∷ 5 ∷ 6 ∷ 12 ∷ [] } ∷ record { key = 98 ∷ []; epoch = 2; kept = 0; marks = 18 ∷ [] } ∷ [];
          cells = 1 ∷ replicate 63 0;
        } ∷ [] }
    ensures kept { BoundedLines letters events (worked_lines 2 (1 ∷ 5 ∷ 6 ∷ 12 ∷ []) (18 ∷ []) 1) → ⊥ }
    ensures cells { BoundedLines letters events (worked_lines 1 (1 ∷ 5 ∷ 6 ∷ 12 ∷ []) (18 ∷ []) 2) → ⊥ }
    ensures twice { BoundedLines letters events (worked_lines 1 (1 ∷ 5 ∷ 6 ∷ 12 ∷ []) (12 ∷ 18 ∷ []) 1) → ⊥ }
    ensures unfed { BoundedLines letters events (worked_lines 1 (1 ∷ 5 ∷ 6 ∷ 12 ∷ []) (18 ∷ 19 ∷ []) 1) → ⊥ }
    ensures order { BoundedLines letters events (worked_lines 1 (1 ∷ 5 ∷ 6 ∷ 18 ∷ []) (12 ∷ []) 1) → ⊥ }
{}
