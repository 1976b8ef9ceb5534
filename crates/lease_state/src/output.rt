//! The right to release one output that waits for the store.
ghost use Rattle.std.specs.Prelude.{◌≡◌};

use rp_base::Output;
use std::marker::Model;

/// The right to release the output of one mark. It can't be dropped: it is spent by `release` or by `give_up`.
#[derive(Debug)]
pub struct HeldOutput {
    mark: u64,
}

impl Model for HeldOutput {
    ghost use Rattle.std.specs.Prelude.{ℕ};

    ghost Value = { ℕ };

    ghost view = { λ h. h.mark };
}

impl HeldOutput {
    /// Of this mark.
    pub fn of(mark: u64) -> HeldOutput
        ensures { result ≡ mark }
    {
        HeldOutput { mark }
    }

    /// The output leaves. It is that of this mark.
    pub fn release(self, o: Output) -> Output
        requires { o.mark ≡ self }
        ensures { result ≡ o }
    {
        let HeldOutput { mark: _ } = self;
        o
    }

    /// The output never leaves.
    pub fn give_up(self) {
        let HeldOutput { mark: _ } = self;
    }
}
