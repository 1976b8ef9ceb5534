//! Why a reader stops.
ghost use Rattle.std.specs.Prelude.{◌≡◌};

use p4_lex::Token;

/// Why a reader stops that takes memory. One that takes none stops at tokens alone.
#[derive(Clone, Copy)]
pub enum ReadEnd<'a> {
    /// At the first of these tokens, or at the end where there are none.
    At(&'a [Token]),
    NoMemory,
}

impl<'a> From<&'a [Token]> for ReadEnd<'a> {
    ghost use Rattle.p4_part.specs.declared.end.ReadEnd.TheVariants as ends;

    ghost from_gives = { λ tokens end. end ≡ ends.At tokens };

    fn from(tokens: &'a [Token]) -> ReadEnd<'a> {
        ReadEnd::At(tokens)
    }
}
