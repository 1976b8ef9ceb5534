//! Why a text has no tokens.
ghost use Rattle.std.specs.Prelude.{◌≡◌};

use rp_base::{NoMemory, Refused};
use std::alloc::AllocFailed;
use thiserror::Error;

/// Why a text has no tokens.
#[derive(Clone, Copy, Debug, PartialEq, Eq, Error)]
pub enum LexEnd {
    /// No token begins at this place, or the text is too long.
    #[error("refused: {0:?}")]
    Refused(Refused),
    #[error("out of memory")]
    NoMemory,
}

impl From<NoMemory> for LexEnd {
    ghost use Rattle.p4_lex.specs.declared.end.LexEnd.TheVariants as ends;

    ghost from_gives = { λ _ e. e ≡ ends.NoMemory };

    fn from(_e: NoMemory) -> LexEnd {
        LexEnd::NoMemory
    }
}

impl<T: Drop> From<AllocFailed<T>> for LexEnd {
    ghost use Rattle.p4_lex.specs.declared.end.LexEnd.TheVariants as ends;

    ghost from_gives = { λ _ e. e ≡ ends.NoMemory };

    fn from(_e: AllocFailed<T>) -> LexEnd {
        LexEnd::NoMemory
    }
}
