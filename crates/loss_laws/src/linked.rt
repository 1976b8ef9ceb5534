//! The same laws of snapshot runs whose frames go over a link, whatever the link answers.

ghost use Rattle.std.specs.Prelude.{◌≡◌, ◌≤◌, Bool, List, ℕ, map};
ghost use Rattle.rp_base.specs.Clocks.{TermsHold};
ghost use Rattle.rp_base.specs.declared.event.Event.{Event};
ghost use Rattle.rp_app.specs.Application.{Application, IsApplication};
ghost use Rattle.proto_data.specs.declared.message.Body.{Body};
ghost use Rattle.proto_data.specs.declared.message.Msg.{Msg};
ghost use Rattle.proto_data.specs.declared.terms.Mode.{Mode};
ghost use Rattle.proto_model.specs.Committed.{committed_records};
ghost use Rattle.proto_model.specs.Lines.{printed};
ghost use Rattle.proto_model.specs.Loss.{IsBounded};
ghost use Rattle.proto_model.specs.Pumping.{Received, linked_run};
ghost use Rattle.proto_model.specs.World.{Setup};
ghost use Rattle.proto_safety.specs.LegalLines.{linked_report};
ghost use Rattle.loss_laws.specs.BoundedLines.{BoundedLines, committed_epochs, epoch_flows};

/// In snapshot mode, with terms by which a lease has ended at its switch before the store gives the flow to another and a bound of at
/// least 1, the loss of every run over a link is bounded, as `losses_are_bounded` says of other runs.
pub fn linked_losses_are_bounded()
    ensures { (app : Application) → IsApplication app → (spelled : Msg → List ℕ) (setup : Setup) (bound : ℕ) → setup.terms.mode ≡ Mode.Snapshot bound → 1 ≤ bound →
        TermsHold setup.terms.t_switch setup.terms.t_store setup.terms.ratio →
        (events : List Event) (received : List Received) → IsBounded app bound (linked_run spelled app setup events received).world }
{}

/// In snapshot mode, with such terms, the lines of the report of every run over a link lose boundedly, with frames or without them.
pub fn linked_reports_lose_boundedly()
    ensures { (kind : Body → ℕ) (spelled : Msg → List ℕ) (app : Application) → IsApplication app → (setup : Setup) (bound : ℕ) → setup.terms.mode ≡ Mode.Snapshot bound →
        TermsHold setup.terms.t_switch setup.terms.t_store setup.terms.ratio →
        (events : List Event) (received : List Received) (frames : Bool) → BoundedLines app events (printed kind spelled (linked_report spelled frames app setup events received)) }
{}

/// In snapshot mode the lines at the end of a run over a link tell the committed flows with their epochs and cells, and no other line
/// of its report tells an epoch or cells.
pub fn linked_epochs_are_told()
    ensures { (kind : Body → ℕ) (spelled : Msg → List ℕ) (app : Application) (setup : Setup) (bound : ℕ) → setup.terms.mode ≡ Mode.Snapshot bound → (events : List Event) (received : List Received) (frames : Bool) →
        epoch_flows (printed kind spelled (linked_report spelled frames app setup events received)) ≡
        map (committed_epochs (linked_run spelled app setup events received).world) (committed_records app.cell_count (linked_run spelled app setup events received).world) }
{}
