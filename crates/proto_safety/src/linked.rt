//! The same laws of runs whose frames go over a link, whatever the link answers: a pump hands over frames that were sent, to nodes that run.

ghost use Rattle.std.specs.Prelude.{◌≡◌, ◌≤◌, ◌+◌, ◌⊎◌, Bool, List, Some, ℕ};
ghost use Rattle.rp_base.specs.Clocks.{TermsHold};
ghost use Rattle.rp_base.specs.declared.event.Event.{Event};
ghost use Rattle.rp_base.specs.declared.event.Refusal.{Refusal};
ghost use Rattle.rp_app.specs.Application.{Application, IsApplication};
ghost use Rattle.proto_data.specs.declared.message.Body.{Body};
ghost use Rattle.proto_data.specs.declared.message.Msg.{Msg};
ghost use Rattle.proto_data.specs.declared.terms.Mode.{Mode};
ghost use Rattle.proto_model.specs.Committed.{committed_flows, committed_book};
ghost use Rattle.proto_model.specs.Feeds.{Each};
ghost use Rattle.proto_model.specs.Legal.{IsLegal};
ghost use Rattle.proto_model.specs.Pumping.{Received, linked_run};
ghost use Rattle.proto_model.specs.Lines.{Refused, printed};
ghost use Rattle.key_table.specs.Table.{Key};
ghost use Rattle.proto_model.specs.World.{Setup, ReplicaNode, opened};
ghost use Rattle.proto_model.specs.WorldStep.{Refuses, Pumps};
ghost use Rattle.proto_safety.specs.Books.{In};
ghost use Rattle.proto_safety.specs.Changes.{Keeps};
ghost use Rattle.proto_safety.specs.EpochOrder.{EpochsRise, SerialByEpoch};
ghost use Rattle.proto_safety.specs.LegalLines.{LegalLines, feeds_in, releases_in, flows_in, linked_act, linked_report};

use crate::changes::Fact;

/// A fact that each way in which the world changes keeps, holds after every run over a link where it holds at the start.
pub fn kept_facts_hold_over_links<I: Fact>()
    ensures { (app : Application) → Keeps app I.holds → (spelled : Msg → List ℕ) (setup : Setup) (events : List Event) (received : List Received) →
        I.holds (opened app.cell_count setup) → I.holds (linked_run spelled app setup events received).world }
{}

/// In strict mode, with terms that hold, the report of every run over a link is legal, with frames or without them.
pub fn linked_reports_are_legal()
    ensures { (kind : Body → ℕ) (spelled : Msg → List ℕ) (app : Application) → IsApplication app → (setup : Setup) → setup.terms.mode ≡ Mode.Strict →
        TermsHold setup.terms.t_switch setup.terms.t_store setup.terms.ratio →
        (events : List Event) (received : List Received) (frames : Bool) → LegalLines app events (printed kind spelled (linked_report spelled frames app setup events received)) }
{}

/// So is its history.
pub fn linked_runs_are_legal()
    ensures { (app : Application) → IsApplication app → (spelled : Msg → List ℕ) (setup : Setup) → setup.terms.mode ≡ Mode.Strict →
        TermsHold setup.terms.t_switch setup.terms.t_store setup.terms.ratio →
        (events : List Event) (received : List Received) → IsLegal app (linked_run spelled app setup events received).world }
{}

/// What was fed, released and committed is what the report's lines say.
pub fn linked_lines_are_told()
    ensures feeds { (kind : Body → ℕ) (spelled : Msg → List ℕ) (app : Application) (setup : Setup) (events : List Event) (received : List Received) (frames : Bool) →
        feeds_in events (printed kind spelled (linked_report spelled frames app setup events received)) ≡ (linked_run spelled app setup events received).world.history.fed }
    ensures releases { (kind : Body → ℕ) (spelled : Msg → List ℕ) (app : Application) (setup : Setup) (events : List Event) (received : List Received) (frames : Bool) →
        releases_in (printed kind spelled (linked_report spelled frames app setup events received)) ≡ (linked_run spelled app setup events received).world.history.released }
    ensures flows { (kind : Body → ℕ) (spelled : Msg → List ℕ) (app : Application) (setup : Setup) → setup.terms.mode ≡ Mode.Strict → (events : List Event) (received : List Received) (frames : Bool) →
        flows_in (printed kind spelled (linked_report spelled frames app setup events received)) ≡ committed_flows app.cell_count (linked_run spelled app setup events received).world }
{}

/// An event has a line of its refusal where it is refused, with that cause. Every such line is that of a refused event, or of a pump that
/// found no room for another frame. Places count from 0, so the event's number is one more.
pub fn linked_refusals_are_told()
    ensures told { (spelled : Msg → List ℕ) (app : Application) (setup : Setup) (events : List Event) (received : List Received) (i : ℕ) (cause : Refusal) →
        linked_act spelled app setup events received i ≡ Some (Refuses cause) → In (linked_run spelled app setup events received).lines (Refused (i + 1) cause) }
    ensures only { (spelled : Msg → List ℕ) (app : Application) (setup : Setup) (events : List Event) (received : List Received) (n : ℕ) (cause : Refusal) →
        In (linked_run spelled app setup events received).lines (Refused n cause) →
        (i : ℕ) × (n ≡ i + 1) × ((linked_act spelled app setup events received i ≡ Some (Refuses cause)) ⊎ ((linked_act spelled app setup events received i ≡ Some Pumps) × (cause ≡ Refusal.FramesFull))) }
{}

/// Epochs of a flow rise by one from 1, along every replica's book and along the committed one, and serial lists go by them.
pub fn linked_epochs_rise_by_one()
    ensures each { (spelled : Msg → List ℕ) (app : Application) (setup : Setup) (events : List Event) (received : List Received) (key : Key) →
        Each (λ (r : ReplicaNode). EpochsRise key r.book) (linked_run spelled app setup events received).world.replicas }
    ensures committed { (spelled : Msg → List ℕ) (app : Application) (setup : Setup) (events : List Event) (received : List Received) (key : Key) →
        EpochsRise key (committed_book (linked_run spelled app setup events received).world) }
    ensures serial { (spelled : Msg → List ℕ) (app : Application) (setup : Setup) (events : List Event) (received : List Received) (key : Key) →
        SerialByEpoch (linked_run spelled app setup events received).world key }
{}
