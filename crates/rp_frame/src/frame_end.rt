//! Why bytes are no message.

use rp_base::NoMemory;

/// Why bytes were not read.
#[derive(Clone, Copy, Debug, PartialEq, Eq)]
pub enum FrameEnd {
    /// The bytes spell no message. `at` is the offset of the first field, in order, that isn't whole or whose value isn't allowed after the fields before it;
    /// where bytes are left over, the length of what is spelled.
    BadFrame { at: u64 },
    NoMemory,
}

impl From<NoMemory> for FrameEnd {
    ghost use Rattle.rp_frame.specs.declared.frame_end.FrameEnd.TheVariants as ends;
    ghost use Rattle.std.specs.Prelude.{◌≡◌};

    ghost from_gives = { λ _ e. e ≡ ends.NoMemory };

    fn from(_e: NoMemory) -> FrameEnd {
        FrameEnd::NoMemory
    }
}
