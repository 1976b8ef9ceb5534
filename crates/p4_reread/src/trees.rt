//! Canonical text and its tree.
ghost use Rattle.std.specs.Prelude.{◌≡◌, ◌≤◌, ℕ, List, Ok, length};
ghost use Rattle.std.specs.List.{AllByRecursion};
ghost use Rattle.p4_lex.specs.declared.token.Token.{Token as TokenValue};
ghost use Rattle.p4_lex.specs.Lexing.{longest, tokens};
ghost use Rattle.p4_ast.specs.declared.program.P4Program.{P4Program as ProgramValue};
ghost use Rattle.p4_print.specs.Programs.{canon, program_tokens};
ghost use Rattle.p4_grammar.specs.Grammar.{program};
ghost use Rattle.p4_grammar.specs.Reading.{programs_of};
ghost use Rattle.p4_reread.specs.Again.{lexemes, SpellAgain, ComesOf, ReadAgain};

/// The canonical tokens of a tree that some tokens spell: they spell it again, at whatever places they stand, and their names and
/// numbers are among those that spelled it before.
pub fn canonical_tokens_spell_their_tree()
    ensures spell { (t : ProgramValue) (w v : List TokenValue) → program t w → lexemes v ≡ program_tokens t → SpellAgain t v }
    ensures names { (t : ProgramValue) (w : List TokenValue) → program t w → AllByRecursion (ComesOf (lexemes w)) (program_tokens t) }
{}

/// The canonical text of the tree of a text, where it isn't too long, is read as that tree again, places aside.
pub fn canonical_text_is_read_as_its_tree()
    ensures { (text : List ℕ) (w : List TokenValue) (t : ProgramValue) → tokens text ≡ Ok w → programs_of w ≡ Ok t →
        length (canon t) ≤ longest → ReadAgain t }
{}
