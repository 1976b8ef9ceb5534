//! The monotonic clock.
ghost use Rattle.std.specs.Prelude.{◌≡◌, ◌≤◌, ◌^◌, None};

use rp_base::Clock;
use std::time::Instant;

// The last moment that a clock tells: 2^61.
const LAST_MOMENT: u64 = 1 << 61;

/// The monotonic clock, in milliseconds since its start. It stays where the system fails.
#[derive(Drop)]
pub struct SystemClock<'a, R> {
    rt: &'a R,
    start: Option<Instant>,
    last: u64,
    ghost bounded: { last ≤ 2 ^ 61 },
}

impl<'a, R: std::rt::Clock> SystemClock<'a, R> {
    /// A clock that starts now, at 0.
    pub fn started(rt: &'a R) -> SystemClock<'a, R>
        ensures { result.last ≡ 0 }
    {
        SystemClock {
            rt,
            start: Instant::now(rt).ok(),
            last: 0,
        }
    }
}

// The whole milliseconds that have passed, where the system tells them.
fn millis_since<R: std::rt::Clock>(rt: &R, start: &Instant) -> Option<u64> {
    let passed = start.elapsed(rt).ok()?;
    u64::try_from(passed.as_millis()).ok()
}

impl<R: std::rt::Clock> Clock for SystemClock<'_, R> {
    ghost last = { λ s. s.last };

    ghost answers = { λ _. None };

    fn now(&mut self) -> u64 {
        if let Some(start) = &self.start {
            if let Some(now) = millis_since(self.rt, start) {
                self.last = self.last.max(now.min(LAST_MOMENT));
            }
        }
        self.last
    }
}
