//! The events of a generated schedule, drawn one after the other.
ghost use Rattle.std.specs.Prelude.{◌≡◌, ◌<◌, [], ◌∷◌, IfOk};
ghost use Rattle.sched_gen.specs.Generated.{draw, node_by, node_event, frame_event, last_byte, feed_event, boot_event, rare_event, late_event, middle_event, event_by, next_event};

use rp_base::{Advances, Bytes, Event, NoMemory, Node};
use std::alloc::Global;

// A draw below `n`, and the state after it.
fn draw(n: u64, x: u64) -> (u64, u64)
    requires some { 0 < n }
    requires fits { x < 4294967296 }
    ensures value { result ≡ draw n x }
    ensures below { result.0 < n }
    ensures state { result.1 < 4294967296 }
{
    let next = (1_103_515_245 * x + 12_345) % 2_147_483_648;
    ((next / 65_536) % n, next)
}

fn node_by(n: u64) -> Node
    requires { n < 6 }
    ensures { result ≡ node_by n }
{
    if n < 3 {
        Node::Switch(n as u8)
    } else {
        Node::Replica((n - 3) as u8)
    }
}

fn alarm(x: u64) -> (Event, u64)
    requires { x < 4294967296 }
    ensures value { result ≡ node_event Event.Alarm x }
    ensures state { result.1 < 4294967296 }
{
    let (n, x) = draw(6, x);
    (Event::Alarm(node_by(n)), x)
}

fn fail(x: u64) -> (Event, u64)
    requires { x < 4294967296 }
    ensures value { result ≡ node_event Event.Fail x }
    ensures state { result.1 < 4294967296 }
{
    let (n, x) = draw(6, x);
    (Event::Fail(node_by(n)), x)
}

fn detect(x: u64) -> (Event, u64)
    requires { x < 4294967296 }
    ensures value { result ≡ node_event Event.Detect x }
    ensures state { result.1 < 4294967296 }
{
    let (n, x) = draw(6, x);
    (Event::Detect(node_by(n)), x)
}

fn pass_over(x: u64) -> (Event, u64)
    requires { x < 4294967296 }
    ensures value { result ≡ frame_event Event.Drop x }
    ensures state { result.1 < 4294967296 }
{
    let (i, x) = draw(4096, x);
    (Event::Drop(i), x)
}

fn deliver(x: u64) -> (Event, u64)
    requires { x < 4294967296 }
    ensures value { result ≡ frame_event Event.Deliver x }
    ensures state { result.1 < 4294967296 }
{
    let (i, x) = draw(4096, x);
    (Event::Deliver(i), x)
}

fn boot(x: u64) -> (Event, u64)
    requires { x < 4294967296 }
    ensures value { result ≡ boot_event x }
    ensures state { result.1 < 4294967296 }
{
    let (n, x) = draw(3, x);
    (Event::Boot(n as u8), x)
}

fn last_byte(n: u64) -> u8
    ensures { result ≡ last_byte n }
{
    if n == 0 { b'?' } else { b'!' }
}

// A packet of one of eight flows.
fn feed(alloc: Global, x: u64) -> Result<(Event, u64), NoMemory>
    requires { x < 4294967296 }
    ensures value { IfOk result (λ made. made ≡ feed_event x) }
    ensures state { IfOk result (λ made. made.1 < 4294967296) }
{
    let (flow, x) = draw(8, x);
    let (last, x) = draw(4, x);
    let mut bytes = Bytes::new(alloc);
    bytes.push(b'a' + flow as u8)?;
    bytes.push(last_byte(last))?;
    Ok((Event::Feed { port: 1, bytes }, x))
}

// All clocks go on by 100.
fn time(alloc: Global) -> Result<Event, NoMemory>
    ensures { IfOk result (λ made. made ≡ Event.Time (100 ∷ 100 ∷ 100 ∷ 100 ∷ 100 ∷ 100 ∷ [])) }
{
    let mut by = Advances::new(alloc);
    by.push(100)?;
    by.push(100)?;
    by.push(100)?;
    by.push(100)?;
    by.push(100)?;
    by.push(100)?;
    Ok(Event::Time(by))
}

fn rare(n: u64, x: u64) -> (Event, u64)
    requires { x < 4294967296 }
    ensures value { result ≡ rare_event n x }
    ensures state { result.1 < 4294967296 }
{
    match n {
        0 => boot(x),
        1 => detect(x),
        _ => (Event::Announce, x),
    }
}

// The event of a draw from 94 on.
fn late(d: u64, x: u64) -> (Event, u64)
    requires { x < 4294967296 }
    ensures value { result ≡ late_event d x }
    ensures state { result.1 < 4294967296 }
{
    if d < 98 {
        alarm(x)
    } else if d < 99 {
        fail(x)
    } else {
        let (n, x) = draw(3, x);
        rare(n, x)
    }
}

// The event of a draw from 80 on.
fn middle(alloc: Global, d: u64, x: u64) -> Result<(Event, u64), NoMemory>
    requires { x < 4294967296 }
    ensures value { IfOk result (λ made. made ≡ middle_event d x) }
    ensures state { IfOk result (λ made. made.1 < 4294967296) }
{
    if d < 85 {
        Ok(pass_over(x))
    } else if d < 90 {
        Ok(deliver(x))
    } else if d < 94 {
        Ok((time(alloc)?, x))
    } else {
        Ok(late(d, x))
    }
}

// The event of a draw below 100.
fn event_by(alloc: Global, d: u64, x: u64) -> Result<(Event, u64), NoMemory>
    requires { x < 4294967296 }
    ensures value { IfOk result (λ made. made ≡ event_by d x) }
    ensures state { IfOk result (λ made. made.1 < 4294967296) }
{
    if d < 30 {
        feed(alloc, x)
    } else if d < 80 {
        Ok((Event::Next, x))
    } else {
        middle(alloc, d, x)
    }
}

/// The next event, and the state after its draws.
///
/// # Errors
/// `NoMemory`.
#[tactic(auto, unfolding(crate::specs::Generated::next_event))]
pub(crate) fn next_event(alloc: Global, x: u64) -> Result<(Event, u64), NoMemory>
    requires { x < 4294967296 }
    ensures value { IfOk result (λ made. made ≡ next_event x) }
    ensures state { IfOk result (λ made. made.1 < 4294967296) }
{
    let (d, x) = draw(100, x);
    event_by(alloc, d, x)
}
