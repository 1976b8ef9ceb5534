//! What a report's lines say of its run, and that they are legal by themselves: the rules hold of the lines and the events alone.

ghost use Rattle.std.specs.Prelude.{◌≡◌, ◌≤◌, ◌+◌, Bool, List, ℕ, Some, None, Option, filter, map};
ghost use Rattle.rp_base.specs.Clocks.{TermsHold};
ghost use Rattle.rp_base.specs.declared.event.Event.{Event};
ghost use Rattle.rp_base.specs.declared.event.Refusal.{Refusal};
ghost use Rattle.rp_app.specs.Application.{Application, IsApplication, counting};
ghost use Rattle.proto_data.specs.declared.message.Body.{Body};
ghost use Rattle.proto_data.specs.declared.message.Msg.{Msg};
ghost use Rattle.proto_data.specs.declared.terms.Mode.{Mode};
ghost use Rattle.proto_model.specs.Committed.{committed_flows};
ghost use Rattle.rp_base.specs.declared.legality.Flow.{Flow};
ghost use Rattle.proto_model.specs.EndLines.{end_lines, report};
ghost use Rattle.proto_model.specs.Legal.{Legal, ReleasedBefore};
ghost use Rattle.proto_model.specs.Lines.{Refused, printed};
ghost use Rattle.proto_model.specs.Runs.{Run, act_at};
ghost use Rattle.proto_model.specs.World.{World, Setup, opened};
ghost use Rattle.rp_base.specs.declared.legality.Fed.{Fed};
ghost use Rattle.rp_base.specs.declared.legality.Released.{Released};
ghost use Rattle.proto_model.specs.WorldStep.{Refuses, run, world_after};
ghost use Rattle.proto_safety.specs.Books.{In};
ghost use Rattle.proto_safety.specs.RuleRows.{fed_first, fed_second, fed_keyless, right_lines, refused_lines, wrong_output, early_lines, wrong_cells, keyless_lines};
ghost use Rattle.proto_safety.specs.LegalLines.{IsAuditOf, LegalLines, AllRules, LeastFailing, feeds_in, releases_in, flows_in, is_release, release_line};

/// In strict mode, with terms by which a lease has ended at its switch before the store gives the flow to another, the lines of the
/// report of every list of events are legal, with frames or without them, however frames are spelled: over the packets of the events
/// that no line refuses, the outputs of the release lines, and the marks and cells of the lines at the end.
pub fn reports_are_legal()
    ensures { (kind : Body → ℕ) (spelled : Msg → List ℕ) (app : Application) → IsApplication app → (setup : Setup) → setup.terms.mode ≡ Mode.Strict →
        TermsHold setup.terms.t_switch setup.terms.t_store setup.terms.ratio → (events : List Event) (frames : Bool) →
        LegalLines app events (printed kind spelled (report frames app setup events)) }
{}

/// The release lines of a run, and of its report, are those of what was released, in order and each with the number of its event.
pub fn releases_are_told()
    ensures lines { (kind : Body → ℕ) (spelled : Msg → List ℕ) (app : Application) (setup : Setup) (events : List Event) →
        filter is_release (printed kind spelled (run app setup events).1) ≡ map release_line (world_after app (opened app.cell_count setup) events).history.released }
    ensures run { (kind : Body → ℕ) (spelled : Msg → List ℕ) (app : Application) (setup : Setup) (events : List Event) →
        releases_in (printed kind spelled (run app setup events).1) ≡ (world_after app (opened app.cell_count setup) events).history.released }
    ensures report { (kind : Body → ℕ) (spelled : Msg → List ℕ) (app : Application) (setup : Setup) (events : List Event) (frames : Bool) →
        releases_in (printed kind spelled (report frames app setup events)) ≡ (world_after app (opened app.cell_count setup) events).history.released }
{}

/// An event has a line of its refusal exactly where it is refused, with that cause. Places count from 0, so the event's number is one more.
pub fn refusals_are_told()
    ensures told { (app : Application) (setup : Setup) (events : List Event) (i : ℕ) (cause : Refusal) →
        act_at (record { app = app; setup = setup; events = events }) i ≡ Some (Refuses cause) → In (run app setup events).1 (Refused (i + 1) cause) }
    ensures only { (app : Application) (setup : Setup) (events : List Event) (n : ℕ) (cause : Refusal) → In (run app setup events).1 (Refused n cause) →
        (i : ℕ) × (n ≡ i + 1) × (act_at (record { app = app; setup = setup; events = events }) i ≡ Some (Refuses cause)) }
{}

/// What was fed is what the events feed that no line refuses, each with the number of its event.
pub fn feeds_are_told()
    ensures run { (kind : Body → ℕ) (spelled : Msg → List ℕ) (app : Application) (setup : Setup) (events : List Event) →
        feeds_in events (printed kind spelled (run app setup events).1) ≡ (world_after app (opened app.cell_count setup) events).history.fed }
    ensures report { (kind : Body → ℕ) (spelled : Msg → List ℕ) (app : Application) (setup : Setup) (events : List Event) (frames : Bool) →
        feeds_in events (printed kind spelled (report frames app setup events)) ≡ (world_after app (opened app.cell_count setup) events).history.fed }
{}

/// In strict mode the lines at the end say the flows with their marks and cells, and no other line of a report says a flow.
pub fn flows_are_told()
    ensures ends { (kind : Body → ℕ) (spelled : Msg → List ℕ) (cells : ℕ) (w : World) → w.terms.mode ≡ Mode.Strict → flows_in (printed kind spelled (end_lines cells w)) ≡ committed_flows cells w }
    ensures report { (kind : Body → ℕ) (spelled : Msg → List ℕ) (app : Application) (setup : Setup) → setup.terms.mode ≡ Mode.Strict → (events : List Event) (frames : Bool) →
        flows_in (printed kind spelled (report frames app setup events)) ≡ committed_flows app.cell_count (world_after app (opened app.cell_count setup) events) }
{}

/// No packet is released at an earlier event than it was fed, in either mode.
pub fn none_is_released_before_it_is_fed()
    ensures { (app : Application) → IsApplication app → (setup : Setup) (events : List Event) (m : ℕ) →
        ReleasedBefore (world_after app (opened app.cell_count setup) events).history.fed (world_after app (opened app.cell_count setup) events).history.released m m → ⊥ }
{}

/// Lists are legal exactly where each of the five rules holds. Where they aren't, at most one number is that of the least that fails.
pub fn rules_are_five()
    ensures apart { (app : Application) (feeds : List Fed) (releases : List Released) (flows : List Flow) → Legal app feeds releases flows → AllRules app feeds releases flows }
    ensures together { (app : Application) (feeds : List Fed) (releases : List Released) (flows : List Flow) → AllRules app feeds releases flows → Legal app feeds releases flows }
    ensures fails { (app : Application) (feeds : List Fed) (releases : List Released) (flows : List Flow) (n : ℕ) → LeastFailing app feeds releases flows n → Legal app feeds releases flows → ⊥ }
    ensures least { (app : Application) (feeds : List Fed) (releases : List Released) (flows : List Flow) (n k : ℕ) →
        LeastFailing app feeds releases flows n → LeastFailing app feeds releases flows k → n ≡ k }
{}

/// An audit by these rules refuses a report for each of them, and not the right one.
pub fn each_rule_refuses()
    ensures right { IsAuditOf counting fed_first right_lines None }
    ensures lists { IsAuditOf counting fed_first refused_lines (Some 1) }
    ensures outputs { IsAuditOf counting fed_first wrong_output (Some 2) }
    ensures early { IsAuditOf counting fed_second early_lines (Some 3) }
    ensures cells { IsAuditOf counting fed_first wrong_cells (Some 4) }
    ensures keyless { IsAuditOf counting fed_keyless keyless_lines (Some 5) }
{}
