//! What texts are parsed as.
ghost use Rattle.std.specs.Prelude.{◌≡◌, ℕ, List, Ok, Err};
ghost use Rattle.rp_base.specs.declared.refused.Refused.{Refused as RefusedValue};
ghost use Rattle.p4_ast.specs.declared.program.P4Program.{P4Program as ProgramValue};
ghost use Rattle.p4_parse.specs.ByGrammar.{IsBadText, Spelled};
ghost use Rattle.p4_parse.specs.Parsing.{parsed};

/// A text is parsed as a tree exactly where it has tokens that keep to the four counts and from which the grammar derives it;
/// otherwise it is refused with its first fault: of its bytes, of the counts, or the first token or the end with which no
/// program's tokens begin so.
pub fn texts_are_parsed_by_the_grammar()
    ensures sound { (text : List ℕ) (t : ProgramValue) → parsed text ≡ Ok t → Spelled text t }
    ensures complete { (text : List ℕ) (t : ProgramValue) → Spelled text t → parsed text ≡ Ok t }
    ensures refused { (text : List ℕ) (fault : RefusedValue) → parsed text ≡ Err fault → IsBadText text fault }
    ensures every_fault { (text : List ℕ) (fault : RefusedValue) → IsBadText text fault → parsed text ≡ Err fault }
{}
