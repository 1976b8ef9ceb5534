//! Canonical text parsed again.
ghost use Rattle.std.specs.Prelude.{◌≡◌, ◌≤◌, ℕ, List, Ok, length};
ghost use Rattle.p4_lex.specs.Lexing.{longest};
ghost use Rattle.p4_ast.specs.declared.program.P4Program.{P4Program as ProgramValue};
ghost use Rattle.p4_print.specs.Programs.{canon};
ghost use Rattle.p4_parse.specs.Parsing.{parsed};
ghost use Rattle.p4_reread.specs.Parsed.{IsShallow, ParsedAgain};

/// The canonical text of a tree that a text was parsed as, where it isn't too long and keeps to the four counts, is parsed as
/// that tree again, places aside.
pub fn canonical_text_is_parsed_again()
    ensures { (text : List ℕ) (t : ProgramValue) → parsed text ≡ Ok t → length (canon t) ≤ longest → IsShallow (canon t) → ParsedAgain t }
{}
