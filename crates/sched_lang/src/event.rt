//! The lines of events.
ghost use Rattle.std.specs.Prelude.{◌≡◌, ◌+◌, ◌≤◌, [], Some, Ok, ◌==◌, length, count_by, fold, IfOk, OnOk, OnErr, option_map};
ghost use Rattle.sched_lang.specs.Words.{words, words_behind};
ghost use Rattle.sched_lang.specs.EventForms.{feed, feedat, frame, one_more, time, boot, node_word, frame_event, node_event, alone, pump, kind_of, event_form, event_line};

use crate::schedule::SchedWhy;
use crate::words::{
    both, first_word, no_words, node, number, one_word, packet, switch, three_words, two_words,
};
use rp_base::{Advances, Event, NoMemory, Node};
use std::alloc::Global;

/// What a line asks for, by its first word.
#[derive(Clone, Copy, Debug, PartialEq, Eq)]
pub enum Kind {
    Feed,
    FeedAt,
    Deliver,
    Next,
    Drop,
    Time,
    Alarm,
    Fail,
    Boot,
    Detect,
    Announce,
    Pump,
}

fn feed(alloc: Global, args: Option<&[u8]>) -> Result<Result<Event, SchedWhy>, NoMemory>
    ensures { IfOk result (λ read. read ≡ feed (words_behind (option_map (λ rest. rest.now) args.entry))) }
{
    let (port, bytes) = match two_words(args) {
        Ok(words) => words,
        Err(why) => return Ok(Err(why)),
    };
    match both(number(port, 0, 65_535), packet(alloc, bytes)?) {
        Ok((port, bytes)) => Ok(Ok(Event::Feed {
            port: port as u16,
            bytes,
        })),
        Err(why) => Ok(Err(why)),
    }
}

fn feedat(
    alloc: Global,
    switches: u8,
    args: Option<&[u8]>,
) -> Result<Result<Event, SchedWhy>, NoMemory>
    ensures { IfOk result (λ read. read ≡ feedat switches (words_behind (option_map (λ rest. rest.now) args.entry))) }
{
    let (at, port, bytes) = match three_words(args) {
        Ok(words) => words,
        Err(why) => return Ok(Err(why)),
    };
    let fed = both(number(port, 0, 65_535), packet(alloc, bytes)?);
    match both(switch(switches, at), fed) {
        Ok((at, (port, bytes))) => Ok(Ok(Event::FeedAt {
            at,
            port: port as u16,
            bytes,
        })),
        Err(why) => Ok(Err(why)),
    }
}

fn frame(args: Option<&[u8]>) -> Result<u64, SchedWhy>
    ensures { result ≡ frame (words_behind (option_map (λ rest. rest.now) args.entry)) }
{
    number(one_word(args)?, 0, 65_535)
}

fn spaces_in(text: &[u8]) -> usize
    ensures value { result ≡ count_by (λ b. b == 32) text.now }
    ensures fits { result ≤ length text.now }
{
    text.iter().filter(|b| **b == b' ').count()
}

// How many words there are.
fn count_of(args: Option<&[u8]>) -> usize
    ensures { result ≡ length (words_behind (option_map (λ rest. rest.now) args.entry)) }
{
    match args {
        None => 0,
        Some(rest) => spaces_in(rest) + 1,
    }
}

// The numbers so far with one more, or the first cause.
fn one_more(
    read: Result<Advances, SchedWhy>,
    word: &[u8],
) -> Result<Result<Advances, SchedWhy>, NoMemory>
    ensures { IfOk result (λ read_now. read_now ≡ one_more read word.now) }
{
    match both(read, number(word, 0, 1_000_000_000)) {
        Ok((mut numbers, n)) => {
            numbers.push(n)?;
            Ok(Ok(numbers))
        }
        Err(why) => Ok(Err(why)),
    }
}

fn advances(alloc: Global, args: Option<&[u8]>) -> Result<Result<Advances, SchedWhy>, NoMemory>
    ensures { IfOk result (λ read. read ≡ fold one_more (Ok []) (words_behind (option_map (λ rest. rest.now) args.entry))) }
{
    let mut read = Ok(Advances::new(alloc));
    let mut left = args;
    while let Some(rest) = left {
        let (word, more) = first_word(rest);
        read = one_more(read, word)?;
        left = more;
    }
    Ok(read)
}

fn time(
    alloc: Global,
    nodes: usize,
    args: Option<&[u8]>,
) -> Result<Result<Event, SchedWhy>, NoMemory>
    ensures { IfOk result (λ read. read ≡ time nodes (words_behind (option_map (λ rest. rest.now) args.entry))) }
{
    if count_of(args) != nodes {
        return Ok(Err(SchedWhy::Form));
    }
    match advances(alloc, args)? {
        Ok(numbers) => Ok(Ok(Event::Time(numbers))),
        Err(why) => Ok(Err(why)),
    }
}

fn boot(switches: u8, args: Option<&[u8]>) -> Result<Event, SchedWhy>
    ensures { result ≡ boot switches (words_behind (option_map (λ rest. rest.now) args.entry)) }
{
    Ok(Event::Boot(switch(switches, one_word(args)?)?))
}

fn node_word(switches: u8, chain: u8, args: Option<&[u8]>) -> Result<Node, SchedWhy>
    ensures { result ≡ node_word switches chain (words_behind (option_map (λ rest. rest.now) args.entry)) }
{
    node(switches, chain, one_word(args)?)
}

fn kind_of(word: &[u8]) -> Option<Kind>
    ensures { result ≡ kind_of word.now }
{
    if word == b"feed".as_slice() {
        Some(Kind::Feed)
    } else if word == b"feedat".as_slice() {
        Some(Kind::FeedAt)
    } else if word == b"deliver".as_slice() {
        Some(Kind::Deliver)
    } else if word == b"next".as_slice() {
        Some(Kind::Next)
    } else if word == b"drop".as_slice() {
        Some(Kind::Drop)
    } else if word == b"time".as_slice() {
        Some(Kind::Time)
    } else if word == b"alarm".as_slice() {
        Some(Kind::Alarm)
    } else if word == b"fail".as_slice() {
        Some(Kind::Fail)
    } else if word == b"boot".as_slice() {
        Some(Kind::Boot)
    } else if word == b"detect".as_slice() {
        Some(Kind::Detect)
    } else if word == b"announce".as_slice() {
        Some(Kind::Announce)
    } else if word == b"pump".as_slice() {
        Some(Kind::Pump)
    } else {
        None
    }
}

fn deliver(args: Option<&[u8]>) -> Result<Event, SchedWhy>
    ensures { result ≡ frame_event Event.Deliver (words_behind (option_map (λ rest. rest.now) args.entry)) }
{
    Ok(Event::Deliver(frame(args)?))
}

fn pass_over(args: Option<&[u8]>) -> Result<Event, SchedWhy>
    ensures { result ≡ frame_event Event.Drop (words_behind (option_map (λ rest. rest.now) args.entry)) }
{
    Ok(Event::Drop(frame(args)?))
}

fn alarm(switches: u8, chain: u8, args: Option<&[u8]>) -> Result<Event, SchedWhy>
    ensures { result ≡ node_event Event.Alarm switches chain (words_behind (option_map (λ rest. rest.now) args.entry)) }
{
    Ok(Event::Alarm(node_word(switches, chain, args)?))
}

fn fail(switches: u8, chain: u8, args: Option<&[u8]>) -> Result<Event, SchedWhy>
    ensures { result ≡ node_event Event.Fail switches chain (words_behind (option_map (λ rest. rest.now) args.entry)) }
{
    Ok(Event::Fail(node_word(switches, chain, args)?))
}

fn detect(switches: u8, chain: u8, args: Option<&[u8]>) -> Result<Event, SchedWhy>
    ensures { result ≡ node_event Event.Detect switches chain (words_behind (option_map (λ rest. rest.now) args.entry)) }
{
    Ok(Event::Detect(node_word(switches, chain, args)?))
}

// An event that is its word alone.
fn alone(event: Event, args: Option<&[u8]>) -> Result<Event, SchedWhy>
    ensures { result ≡ alone event (words_behind (option_map (λ rest. rest.now) args.entry)) }
{
    no_words(args)?;
    Ok(event)
}

// `pump` alone on its line is an event, which isn't built.
fn pump(args: Option<&[u8]>) -> Result<Event, SchedWhy>
    ensures { result ≡ pump (words_behind (option_map (λ rest. rest.now) args.entry)) }
{
    no_words(args)?;
    Err(SchedWhy::NotYet)
}

/// The event of a kind, by the words behind its name.
fn event_form(
    alloc: Global,
    switches: u8,
    chain: u8,
    kind: Kind,
    args: Option<&[u8]>,
) -> Result<Result<Event, SchedWhy>, NoMemory>
    ensures { IfOk result (λ read. read ≡ event_form switches chain (Some kind) (words_behind (option_map (λ rest. rest.now) args.entry))) }
{
    match kind {
        Kind::Feed => feed(alloc, args),
        Kind::FeedAt => feedat(alloc, switches, args),
        Kind::Time => time(alloc, switches as usize + chain as usize, args),
        Kind::Deliver => Ok(deliver(args)),
        Kind::Next => Ok(alone(Event::Next, args)),
        Kind::Drop => Ok(pass_over(args)),
        Kind::Alarm => Ok(alarm(switches, chain, args)),
        Kind::Fail => Ok(fail(switches, chain, args)),
        Kind::Boot => Ok(boot(switches, args)),
        Kind::Detect => Ok(detect(switches, chain, args)),
        Kind::Announce => Ok(alone(Event::Announce, args)),
        Kind::Pump => Ok(pump(args)),
    }
}

/// The event of a line, or why there is none.
///
/// # Errors
/// `NoMemory`.
pub(crate) fn event(
    alloc: Global,
    switches: u8,
    chain: u8,
    line: &[u8],
) -> Result<Result<Event, SchedWhy>, NoMemory>
    ensures { IfOk result (λ read. read ≡ event_line switches chain line.now) }
{
    let (word, args) = first_word(line);
    let Some(kind) = kind_of(word) else {
        return Ok(Err(SchedWhy::Form));
    };
    event_form(alloc, switches, chain, kind, args)
}
