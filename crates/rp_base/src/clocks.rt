//! Clocks within a ratio.
ghost use Rattle.std.specs.Prelude.{◌≡◌, ◌≤◌, ◌↔◌, IsTrue, All};
ghost use Rattle.rp_base.specs.Clocks.{RatesHold, TermsHold};

/// Whether each two of these advances are within the ratio, which is in thousandths: `1000 x <= (1000 + ratio) y`.
///
/// Advances are 0 to 1,000,000,000, the ratio 0 to 1,000.
pub fn rates_hold(advances: &[u64], ratio: u64) -> bool
    requires members { All (λ x. x ≤ 1000000000) advances.now }
    requires ratio { ratio ≤ 1000 }
    ensures { IsTrue result ↔ RatesHold advances.now ratio }
{
    advances.iter().all(|x| advances.iter().all(|y| 1000 * *x <= (1000 + ratio) * *y))
}

/// Whether a store that waits for `t_store` on its clock has waited for more than `t_switch` on any switch's clock within the ratio:
/// `1000 t_store >= (1000 + ratio) t_switch`.
///
/// Terms are 0 to 1,000,000,000, the ratio 0 to 1,000.
pub fn terms_hold(t_switch: u64, t_store: u64, ratio: u64) -> bool
    requires switch { t_switch ≤ 1000000000 }
    requires store { t_store ≤ 1000000000 }
    requires ratio { ratio ≤ 1000 }
    ensures { IsTrue result ↔ TermsHold t_switch t_store ratio }
{
    1000 * t_store >= (1000 + ratio) * t_switch
}
