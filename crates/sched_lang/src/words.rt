//! The lines of a text, and the words of a line.
ghost use Rattle.std.specs.Prelude.{◌≡◌, ◌∷◌, ◌+◌, ◌<◌, ◌≤◌, length, option_map, position, ◌==◌, min, IfOk, Ok};
ghost use Rattle.std.specs.List.{list_all};
ghost use Rattle.sched_lang.specs.Words.{lines, passed_over, words, words_behind, none, one, two, three, is_digit, is_decimal, value_of, number, packet, numbered, switch, node};
ghost use Rattle.sched_lang.specs.Causes.{both, first_cause, seen};

use crate::schedule::SchedWhy;
use hex::FromHexError;
use rp_base::{Bytes, NoMemory, Node};
use std::alloc::Global;

// The first place of a byte.
fn place_of(text: &[u8], mark: u8) -> Option<usize>
    ensures { result ≡ position (λ b. b == mark) text.now }
{
    text.iter().position(|b| *b == mark)
}

/// The first line of a text that isn't empty, and what stands behind its line feed.
pub(crate) fn first_line(text: &[u8]) -> (&[u8], &[u8])
    requires { 0 < length text.now }
    ensures lines { lines text.now ≡ result.0.now ∷ lines result.1.now }
    ensures shorter { length result.1.now < length text.now }
{
    match place_of(text, b'\n') {
        Some(i) => {
            let (line, rest) = text.split_at(i);
            let (_, rest) = rest.split_at(1);
            (line, rest)
        }
        None => text.split_at(text.len()),
    }
}

/// Whether a line is empty or a comment.
pub(crate) fn is_passed_over(line: &[u8]) -> bool
    ensures { result ≡ passed_over line.now }
{
    match line {
        [] => true,
        [b, ..] => *b == b'#',
    }
}

/// The first word of a line, and what stands behind the space after it, where there is one.
pub(crate) fn first_word(line: &[u8]) -> (&[u8], Option<&[u8]>)
    ensures { words line.now ≡ result.0.now ∷ words_behind (option_map (λ rest. rest.now) result.1) }
{
    match place_of(line, b' ') {
        Some(i) => {
            let (word, rest) = line.split_at(i);
            let (_, rest) = rest.split_at(1);
            (word, Some(rest))
        }
        None => (line, None),
    }
}

/// No word behind the first one; `Form` where there is one.
pub(crate) fn no_words(args: Option<&[u8]>) -> Result<(), SchedWhy>
    ensures { result ≡ none (words_behind (option_map (λ rest. rest.now) args.entry)) }
{
    match args {
        None => Ok(()),
        Some(_words) => Err(SchedWhy::Form),
    }
}

/// The only word behind the first one; `Form` where there is none or more than one.
pub(crate) fn one_word(args: Option<&[u8]>) -> Result<&[u8], SchedWhy>
    ensures { seen (λ word. word.now) result ≡ one (words_behind (option_map (λ rest. rest.now) args.entry)) }
{
    let Some(rest) = args else {
        return Err(SchedWhy::Form);
    };
    match first_word(rest) {
        (word, None) => Ok(word),
        (_, Some(_)) => Err(SchedWhy::Form),
    }
}

/// The only two words behind the first one.
pub(crate) fn two_words(args: Option<&[u8]>) -> Result<(&[u8], &[u8]), SchedWhy>
    ensures { seen (λ ws. (ws.0.now, ws.1.now)) result ≡ two (words_behind (option_map (λ rest. rest.now) args.entry)) }
{
    let Some(rest) = args else {
        return Err(SchedWhy::Form);
    };
    let (word, more) = first_word(rest);
    Ok((word, one_word(more)?))
}

/// The only three words behind the first one.
pub(crate) fn three_words(args: Option<&[u8]>) -> Result<(&[u8], &[u8], &[u8]), SchedWhy>
    ensures { seen (λ ws. (ws.0.now, ws.1.now, ws.2.now)) result ≡ three (words_behind (option_map (λ rest. rest.now) args.entry)) }
{
    let Some(rest) = args else {
        return Err(SchedWhy::Form);
    };
    let (word, more) = first_word(rest);
    let (second, third) = two_words(more)?;
    Ok((word, second, third))
}

fn is_digit(b: u8) -> bool
    ensures { result ≡ is_digit b }
{
    b'0' <= b && b <= b'9'
}

fn are_digits(word: &[u8]) -> bool
    ensures { result ≡ list_all is_digit word.now }
{
    word.iter().all(|b| is_digit(*b))
}

/// Whether a word is a decimal number without a leading zero.
fn is_decimal(word: &[u8]) -> bool
    ensures { result ≡ is_decimal word.now }
{
    match word {
        [] => false,
        [b] => is_digit(*b),
        [b'0', ..] => false,
        digits => are_digits(digits),
    }
}

// Numbers are told apart up to here; no range goes so far.
const MOST: u64 = 10_000_000_000;

/// The number that digits spell, or `MOST` where it is greater.
fn value_of(digits: &[u8]) -> u64
    ensures { result ≡ min (value_of digits.now) 10000000000 }
{
    let mut value = 0;
    for b in digits {
        value = (value * 10 + (b.saturating_sub(b'0') as u64)).min(MOST);
    }
    value
}

/// A number in a range, which ends below `MOST`.
///
/// # Errors
/// `Form` where the word is no decimal number, `Number` where it is out of the range.
pub(crate) fn number(word: &[u8], least: u64, most: u64) -> Result<u64, SchedWhy>
    requires { most < 10000000000 }
    ensures value { result ≡ number least most word.now }
    ensures least { IfOk result (λ n. least ≤ n) }
    ensures most { IfOk result (λ n. n ≤ most) }
{
    if !is_decimal(word) {
        return Err(SchedWhy::Form);
    }
    let value = value_of(word);
    if least <= value && value <= most {
        Ok(value)
    } else {
        Err(SchedWhy::Number)
    }
}

/// A packet of at most 1,500 bytes, or why the word is none.
///
/// # Errors
/// `NoMemory`.
pub(crate) fn packet(alloc: Global, word: &[u8]) -> Result<Result<Bytes, SchedWhy>, NoMemory>
    ensures { IfOk result (λ read. read ≡ packet word.now) }
{
    let mut bytes = Bytes::new(alloc);
    if word.is_empty() {
        return Ok(Err(SchedWhy::Form));
    }
    if word == b"-".as_slice() {
        return Ok(Ok(bytes));
    }
    match hex::decode(alloc, word) {
        Ok(decoded) if decoded.len() > 1500 => Ok(Err(SchedWhy::Number)),
        Ok(decoded) => {
            bytes.append(&decoded)?;
            Ok(Ok(bytes))
        }
        Err(FromHexError::OutOfMemory) => Err(NoMemory),
        Err(_) => Ok(Err(SchedWhy::Form)),
    }
}

/// The number behind a node's letter: below `named`, and below `there` in this run.
fn numbered(named: u8, there: u8, digit: u8) -> Result<u8, SchedWhy>
    requires { named ≤ 10 }
    ensures { result ≡ numbered named there digit }
{
    if digit < b'0' || digit >= b'0' + named {
        return Err(SchedWhy::Form);
    }
    let n = digit - b'0';
    if n < there {
        Ok(n)
    } else {
        Err(SchedWhy::Node)
    }
}

/// A switch of a run with so many.
pub(crate) fn switch(switches: u8, word: &[u8]) -> Result<u8, SchedWhy>
    ensures { result ≡ switch switches word.now }
{
    match word {
        [b's', digit] => numbered(8, switches, *digit),
        _ => Err(SchedWhy::Form),
    }
}

/// A node of a run with so many switches and replicas.
pub(crate) fn node(switches: u8, chain: u8, word: &[u8]) -> Result<Node, SchedWhy>
    ensures { result ≡ node switches chain word.now }
{
    match word {
        [b's', digit] => Ok(Node::Switch(numbered(8, switches, *digit)?)),
        [b'r', digit] => Ok(Node::Replica(numbered(5, chain, *digit)?)),
        _ => Err(SchedWhy::Form),
    }
}

/// The cause that is named where two words of a line fail.
fn first_cause(one: SchedWhy, other: SchedWhy) -> SchedWhy
    ensures { result ≡ first_cause one other }
{
    match (one, other) {
        (SchedWhy::Form, _) => SchedWhy::Form,
        (SchedWhy::Number, SchedWhy::Form) => SchedWhy::Form,
        (SchedWhy::Number, _) => SchedWhy::Number,
        (_, other) => other,
    }
}

/// Two words of a line.
pub(crate) fn both<A: Drop, B: Drop>(
    a: Result<A, SchedWhy>,
    b: Result<B, SchedWhy>,
) -> Result<(A, B), SchedWhy>
    ensures value { result ≡ both a b }
    ensures one { IfOk result (λ x. a ≡ Ok x.0) }
    ensures other { IfOk result (λ x. b ≡ Ok x.1) }
{
    match (a, b) {
        (Ok(x), Ok(y)) => Ok((x, y)),
        (Ok(_), Err(e)) => Err(e),
        (Err(d), Ok(_)) => Err(d),
        (Err(d), Err(e)) => Err(first_cause(d, e)),
    }
}
