//! A report has one judgement, and that of a run is legal.

ghost use Rattle.std.specs.Prelude.{◌≡◌, ◌≢◌, ◌≤◌, false, length, ℕ, List, All, Result, Ok, Err};
ghost use Rattle.rp_base.specs.declared.event.Event.{Event};
ghost use Rattle.rp_base.specs.declared.legality.Flow.{Flow};
ghost use Rattle.rp_base.specs.declared.line.Line.{Line as LineValue};
ghost use Rattle.rp_base.specs.Clocks.{TermsHold};
ghost use Rattle.rp_app.specs.Application.{Application, IsApplication};
ghost use Rattle.proto_data.specs.declared.message.Body.{Body};
ghost use Rattle.proto_data.specs.declared.message.Msg.{Msg};
ghost use Rattle.proto_data.specs.declared.terms.Mode.{Mode};
ghost use Rattle.proto_model.specs.EndLines.{report};
ghost use Rattle.proto_model.specs.Lines.{printed};
ghost use Rattle.proto_model.specs.World.{Setup};
ghost use Rattle.proto_safety.specs.LegalLines.{LegalLines};
ghost use Rattle.run_report.specs.Report.{lines_text};
ghost use Rattle.report_read.specs.declared.report.Report.{Report};
ghost use Rattle.report_read.specs.Printed.{IsReportLine};
ghost use Rattle.report_read.specs.Reading.{Fault, report_of};
ghost use Rattle.report_read.specs.Whole.{AreEventLines, HaveKeys, whole_lines};
ghost use Rattle.report_judge.specs.declared.judgement.JudgeEnd.TheVariants.{NoMemory};
ghost use Rattle.report_judge.specs.Judging.{IsJudgement, Judgement, Judges};
ghost use Rattle.report_judge.specs.Typed.{IsTyped};

/// What a text reads as has at most one judgement, and where that is legal, a judge that has memory answers nothing else.
pub fn judgements_are_one()
    ensures one { (app : Application) (events : List Event) (read : Result Report Fault) (a b : Judgement) →
        IsJudgement app events read a → IsJudgement app events read b → a ≡ b }
    ensures legal { (app : Application) (events : List Event) (text : List ℕ) → IsJudgement app events (report_of (length events) text) (Ok tt) →
        (answer : Judgement) → Judges app events text answer → answer ≢ Err NoMemory → answer ≡ Ok tt }
{}

/// A report whose lines are legal is judged legal.
pub fn legal_lines_are_judged_legal()
    ensures { (app : Application) (events : List Event) (ls : List LineValue) (fs : List Flow) → AreEventLines (length events) 0 ls → All IsReportLine (whole_lines ls fs) → HaveKeys fs →
        length (lines_text (whole_lines ls fs)) ≤ 67108864 → LegalLines app events (whole_lines ls fs) →
        IsJudgement app events (report_of (length events) (lines_text (whole_lines ls fs))) (Ok tt) }
{}

/// In strict mode, with terms by which a lease has ended at its switch before the store gives the flow to another, the report of every
/// list of events, without frames, is judged legal, where its text is within the limit and the values of its lines are of the types
/// that a line's are.
pub fn reports_of_runs_are_judged_legal()
    ensures { (kind : Body → ℕ) (spelled : Msg → List ℕ) (app : Application) → IsApplication app → (setup : Setup) → setup.terms.mode ≡ Mode.Strict →
        TermsHold setup.terms.t_switch setup.terms.t_store setup.terms.ratio → (events : List Event) → All IsTyped (printed kind spelled (report false app setup events)) →
        length (lines_text (printed kind spelled (report false app setup events))) ≤ 67108864 →
        IsJudgement app events (report_of (length events) (lines_text (printed kind spelled (report false app setup events)))) (Ok tt) }
{}
