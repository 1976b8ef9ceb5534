//! A clock in memory.
ghost use Rattle.std.specs.Prelude.{◌≡◌, ◌≤◌, ◌^◌, ◌↔◌, IsTrue, IfSome, IsSome, All};
ghost use Rattle.std.specs.List.Sorted.{IsNonDecreasing};
ghost use Rattle.rp_base.specs.Memory.{CanAnswer, answer_at, last_answer, told_answers};

use crate::outside::Clock;

/// A clock that gives a list of answers and then its last one again and again; 0 where the list is empty.
///
/// No answer is below the one before it, and none is past 2^61.
#[derive(Debug, Drop)]
pub struct ListClock {
    pub coming: Vec<u64>,
    /// How many answers were given. The count stays at its end.
    pub answered: u64,
    ghost right: { CanAnswer coming.items },
}

fn rises(coming: &[u64]) -> bool
    ensures { IsTrue result ↔ IsNonDecreasing coming.now }
{
    coming.is_sorted()
}

fn is_bounded(coming: &[u64]) -> bool
    ensures { IsTrue result ↔ All (λ x. x ≤ 2 ^ 61) coming.now }
{
    coming.iter().all(|x| *x <= 1 << 61)
}

impl ListClock {
    /// A clock that gives this list; `None` exactly where a member is below the one before it, or past 2^61. Takes no memory.
    pub fn of(coming: Vec<u64>) -> Option<ListClock>
        ensures some { IsSome result ↔ CanAnswer coming.items }
        ensures coming { IfSome result (λ clock. clock.coming.items ≡ coming.items) }
        ensures answered { IfSome result (λ clock. clock.answered ≡ 0) }
    {
        if rises(&coming) && is_bounded(&coming) {
            Some(ListClock {
                coming,
                answered: 0,
            })
        } else {
            None
        }
    }
}

// The answer of this number.
fn answer(coming: &[u64], n: u64) -> u64
    ensures { result ≡ answer_at coming.now n }
{
    match coming.get(n as usize) {
        Some(x) => *x,
        None => coming.last().copied().unwrap_or(0),
    }
}

impl Clock for ListClock {
    ghost last = { λ s. last_answer s.coming.items s.answered };

    ghost answers = { λ s. told_answers s.coming.items s.answered };

    fn now(&mut self) -> u64 {
        let now = answer(&self.coming, self.answered);
        self.answered = self.answered.saturating_add(1);
        now
    }
}
