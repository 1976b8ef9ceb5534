//! Canonical text and its tokens.
ghost use Rattle.std.specs.Prelude.{◌≡◌, ◌≤◌, ◌++◌, ℕ, List, Ok, length, IfOk};
ghost use Rattle.p4_lex.specs.declared.token.Lexeme.{Lexeme as LexemeValue};
ghost use Rattle.p4_lex.specs.Lexing.{longest, tokens};
ghost use Rattle.p4_print.specs.Text.{text};
ghost use Rattle.p4_print.specs.Programs.{includes};
ghost use Rattle.p4_reread.specs.Lexemes.{AreLexemes, lexemes_of};
ghost use Rattle.p4_reread.specs.Again.{lexemes};

/// The tokens of any text are names, numbers and signs as these must be.
pub fn tokens_are_lexemes()
    ensures { (bytes : List ℕ) → IfOk (tokens bytes) (λ read. AreLexemes (lexemes read)) }
{}

/// The canonical text of names, numbers and signs has exactly these as its tokens.
pub fn canonical_tokens_are_read_again()
    ensures { (written : List LexemeValue) → AreLexemes written → length (includes ++ text written) ≤ longest →
        lexemes_of (tokens (includes ++ text written)) ≡ Ok written }
{}
