//! What the events feed that a report doesn't refuse.
ghost use Rattle.std.specs.Prelude.{◌≡◌, ◌≤◌, ◌++◌, ◌∷◌, [], false, ℕ, length, IfOk, OnOk};
ghost use Rattle.proto_safety.specs.LegalLines.{feed_of, feeds_from};
ghost use Rattle.report_judge.specs.Judging.{is_among, feeds_but};

use indexmap::IndexSet;
use rp_base::{Bytes, Event, Fed, Feeds, NoMemory, Packet};
use std::alloc::Global;

// The refused events, each once.
fn set_of(alloc: Global, refused: &[u64]) -> Result<IndexSet<u64>, NoMemory>
    ensures { IfOk result (λ set. (n : ℕ) → is_among set.keys n ≡ is_among refused.now n) }
{
    let mut set = IndexSet::new(alloc);
    for event in refused {
        set.insert(*event)?;
    }
    Ok(set)
}

// The packet of this event comes last.
fn push_packet(feeds: &mut Feeds, number: u64, port: u16, bytes: &Bytes) -> Result<(), NoMemory>
    ensures { OnOk result (feeds.new ≡ feeds.old ++ record { event = number; packet = record { mark = number; port = port; bytes = bytes.now } } ∷ []) }
{
    feeds.push(Fed {
        event: number,
        packet: Packet {
            mark: number,
            port,
            bytes: bytes.copy()?,
        },
    })?;
    Ok(())
}

// What an event that isn't refused feeds comes last.
fn push_feed(feeds: &mut Feeds, number: u64, event: &Event) -> Result<(), NoMemory>
    ensures { OnOk result (feeds.new ≡ feeds.old ++ feed_of false number event.now) }
{
    match event {
        Event::Feed { port, bytes } => push_packet(feeds, number, *port, bytes),
        Event::FeedAt { port, bytes, .. } => push_packet(feeds, number, *port, bytes),
        _ => Ok(()),
    }
}

// What an event feeds, unless it is refused, comes last.
fn push_unless(feeds: &mut Feeds, refused: bool, number: u64, event: &Event) -> Result<(), NoMemory>
    ensures { OnOk result (feeds.new ≡ feeds.old ++ feed_of refused number event.now) }
{
    if refused {
        return Ok(());
    }
    push_feed(feeds, number, event)
}

fn feeds_outside(
    alloc: Global,
    events: &[Event],
    refused: &IndexSet<u64>,
) -> Result<Feeds, NoMemory>
    requires { length events.now ≤ 20000 }
    ensures { IfOk result (λ feeds. feeds ≡ feeds_from (is_among refused.now.keys) 1 events.now) }
{
    let mut feeds = Feeds::new(alloc);
    let mut number = 1;
    for event in events {
        push_unless(&mut feeds, refused.contains(&number), number, event)?;
        number += 1;
    }
    Ok(feeds)
}

// The packets of the events but the refused ones, each with the number of its event.
pub(crate) fn feeds_but(alloc: Global, events: &[Event], refused: &[u64]) -> Result<Feeds, NoMemory>
    requires { length events.now ≤ 20000 }
    ensures { IfOk result (λ feeds. feeds ≡ feeds_but events.now refused.now) }
{
    let set = set_of(alloc, refused)?;
    feeds_outside(alloc, events, &set)
}
