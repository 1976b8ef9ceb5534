//! What is proved of rewriting.
ghost use Rattle.std.specs.Prelude.{◌≡◌};
ghost use Rattle.p4_ast.specs.declared.program.P4Program.{P4Program as ProgramValue};
ghost use Rattle.rp_app.specs.Application.{IsApplication};
ghost use Rattle.app_meaning.specs.Premises.{IsSound};
ghost use Rattle.app_meaning.specs.Programs.{application};
ghost use Rattle.rewrite_laws.specs.Leases.{KeepsMeaning, rewritten_application};

/// A packet's key is the same whatever the cells are. Under the lease the rewritten program does what its source does, and is
/// dirty exactly where a cell is written. Without it a packet with a key asks for the lease, and does nothing else. A packet
/// without a key passes as in the source, with the lease or without it.
pub fn rewritten_programs_keep_their_meaning()
    ensures { (p : ProgramValue) → IsSound p → KeepsMeaning p }
{}

/// A sound program and what it is rewritten to are one application, which keeps what is promised of every application.
pub fn rewritten_programs_are_applications()
    ensures same { (p : ProgramValue) → IsSound p → rewritten_application p ≡ application p }
    ensures promised { (p : ProgramValue) → IsSound p → IsApplication (rewritten_application p) }
{}
