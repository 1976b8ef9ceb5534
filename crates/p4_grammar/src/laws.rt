//! What is proved of reading programs.
ghost use Rattle.std.specs.Prelude.{◌≡◌, List, Ok, Err};
ghost use Rattle.p4_lex.specs.declared.token.Token.{Token as TokenValue};
ghost use Rattle.p4_ast.specs.declared.program.P4Program.{P4Program as ProgramValue};
ghost use Rattle.p4_grammar.specs.Forms.{IsFault};
ghost use Rattle.p4_grammar.specs.Grammar.{program};
ghost use Rattle.p4_grammar.specs.Reading.{programs_of};

/// The tree that is read of tokens is the one that the grammar derives with them, and there is at most one. Where none is,
/// the tokens before the place of the fault begin some program, and with the token at that place they begin none; and there
/// is one such place.
pub fn programs_are_read()
    ensures sound { (w : List TokenValue) (x : ProgramValue) → programs_of w ≡ Ok x → program x w }
    ensures complete { (w : List TokenValue) (x : ProgramValue) → program x w → programs_of w ≡ Ok x }
    ensures one_tree { (w : List TokenValue) (x y : ProgramValue) → program x w → program y w → x ≡ y }
    ensures fault { (w r : List TokenValue) → programs_of w ≡ Err r → IsFault program w r }
    ensures one_fault { (w r : List TokenValue) → IsFault program w r → programs_of w ≡ Err r }
{}
