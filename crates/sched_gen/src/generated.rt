//! The whole schedule.
ghost use Rattle.std.specs.Prelude.{◌≡◌, ◌<◌, IfOk};
ghost use Rattle.sched_gen.specs.Generated.{events_from, generated};

use crate::draws::next_event;
use rp_base::NoMemory;
use sched_lang::{Events, Schedule};
use std::alloc::Global;

// So many events from a state on.
fn events(alloc: Global, count: u64, x: u64) -> Result<Events, NoMemory>
    requires { x < 4294967296 }
    ensures { IfOk result (λ events. events ≡ events_from count x) }
{
    let mut events = Events::new(alloc);
    let mut left = count;
    let mut x = x;
    while left > 0 {
        let (event, next) = next_event(alloc, x)?;
        events.push(event)?;
        x = next;
        left -= 1;
    }
    Ok(events)
}

/// The schedule of a number: three switches, three replicas, strict mode, and 5,000 events drawn from that number on.
///
/// # Errors
/// `NoMemory`.
pub fn generate(alloc: Global, n: u32) -> Result<Schedule, NoMemory>
    ensures { IfOk result (λ s. s ≡ generated n) }
{
    let events = events(alloc, 5000, u64::from(n))?;
    Ok(Schedule {
        switches: 3,
        chain: 3,
        t_switch: 1000,
        t_store: 1100,
        ratio: 50,
        snapshot: None,
        events,
    })
}
