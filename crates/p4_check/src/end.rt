//! Why a program isn't accepted.
ghost use Rattle.std.specs.Prelude.{◌≡◌};

use rp_base::{NoMemory, Refused};

/// Why a program isn't accepted.
#[derive(Clone, Copy, Debug, PartialEq, Eq)]
pub enum CheckEnd {
    /// The least place at which it is wrong, and the first cause there.
    Refused(Refused),
    NoMemory,
}

impl From<NoMemory> for CheckEnd {
    ghost use Rattle.p4_check.specs.declared.end.CheckEnd.TheVariants as ends;

    ghost from_gives = { λ _ e. e ≡ ends.NoMemory };

    fn from(_e: NoMemory) -> CheckEnd {
        CheckEnd::NoMemory
    }
}
