//! What a caller of the audit may rely on beside its contract.

ghost use Rattle.std.specs.Prelude.{◌≡◌, List, ℕ};
ghost use Rattle.rp_base.specs.declared.event.Event.{Event};
ghost use Rattle.rp_base.specs.declared.legality.Fed.{Fed};
ghost use Rattle.rp_base.specs.declared.legality.Flow.{Flow};
ghost use Rattle.rp_base.specs.declared.legality.Released.{Released};
ghost use Rattle.rp_base.specs.declared.line.Line.{Line};
ghost use Rattle.rp_app.specs.Application.{Application};
ghost use Rattle.proto_model.specs.Legal.{Legal};
ghost use Rattle.proto_safety.specs.LegalLines.{IsAuditOf, IsVerdict, LegalLines, feeds_in};
ghost use Rattle.report_audit.specs.Rising.{EventsRise, MarksAreEvents};
ghost use Rattle.report_audit.specs.Verdict.{failing};
ghost use Rattle.report_audit.specs.declared.verdict.Audit.{Audit};

/// Legal lists are found legal, and lists that are found legal are so. So are the lines of a report.
pub fn legal_exactly()
    ensures lists { (app : Application) (feeds : List Fed) (releases : List Released) (flows : List Flow) (found : Audit) →
        IsVerdict app feeds releases flows (failing found) → Legal app feeds releases flows → found ≡ Audit.Legal }
    ensures found { (app : Application) (feeds : List Fed) (releases : List Released) (flows : List Flow) (found : Audit) →
        IsVerdict app feeds releases flows (failing found) → found ≡ Audit.Legal → Legal app feeds releases flows }
    ensures lines { (app : Application) (events : List Event) (lines : List Line) (found : Audit) →
        IsAuditOf app events lines (failing found) → LegalLines app events lines → found ≡ Audit.Legal }
{}

/// What a report's events feed is as an audit takes it: in the order of events, each packet's mark being its event.
pub fn feeds_are_in_order()
    ensures rise { (events : List Event) (lines : List Line) → EventsRise (feeds_in events lines) }
    ensures marks { (events : List Event) (lines : List Line) → MarksAreEvents (feeds_in events lines) }
{}
