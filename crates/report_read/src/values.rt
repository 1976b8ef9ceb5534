//! What a word says: a number, bytes, a node or a cause.
ghost use Rattle.std.specs.Prelude.{◌≡◌, ◌≤◌, ◌<◌, length, min, IfOk};
ghost use Rattle.std.specs.List.{list_all};
ghost use Rattle.hex.specs.Hex.{decode_of};
ghost use Rattle.report_read.specs.Words.{Reads};
ghost use Rattle.report_read.specs.Values.{is_digit, is_decimal, value_of, number_below, number, port, is_lower_digit, sized, some_bytes, key, output, node, drop_cause, lost_cause, refusal};

use crate::report::{FORM, LineEnd};
use hex::FromHexError;
use rp_base::{Bytes, DropCause, Key, Lost, Node, Refusal};
use std::alloc::Global;

fn is_digit(b: u8) -> bool
    ensures { result ≡ is_digit b }
{
    b'0' <= b && b <= b'9'
}

fn are_digits(word: &[u8]) -> bool
    ensures { result ≡ list_all is_digit word.now }
{
    word.iter().all(|b| is_digit(*b))
}

// Whether a word is a decimal number without a leading zero.
fn is_decimal(word: &[u8]) -> bool
    ensures { result ≡ is_decimal word.now }
{
    match word {
        [] => false,
        [b] => is_digit(*b),
        [b'0', ..] => false,
        digits => are_digits(digits),
    }
}

// One past the greatest number of 64 bits.
const END: u128 = 18_446_744_073_709_551_616;

// The number that digits spell, or `END` where it is greater.
fn value_of(digits: &[u8]) -> u128
    ensures { result ≡ min (value_of digits.now) 18446744073709551616 }
{
    let mut value = 0;
    for b in digits {
        value = (value * 10 + (b.saturating_sub(b'0') as u128)).min(END);
    }
    value
}

fn number_below(word: &[u8], end: u128) -> Result<u64, LineEnd>
    requires { end ≤ 18446744073709551616 }
    ensures value { Reads (λ x. x) result (number_below end word.now) }
    ensures below { IfOk result (λ n. n < end) }
{
    if !is_decimal(word) {
        return Err(FORM);
    }
    let value = value_of(word);
    if value < end {
        Ok(value as u64)
    } else {
        Err(FORM)
    }
}

/// A number of 64 bits.
///
/// # Errors
/// `Form`, as of each reader of a word, where the word isn't such a one.
pub(crate) fn number(word: &[u8]) -> Result<u64, LineEnd>
    ensures { Reads (λ x. x) result (number word.now) }
{
    number_below(word, END)
}

/// A port: 0 to 65,535.
pub(crate) fn port(word: &[u8]) -> Result<u16, LineEnd>
    ensures { Reads (λ x. x) result (port word.now) }
{
    Ok(number_below(word, 65_536)? as u16)
}

fn is_lower_digit(b: u8) -> bool
    ensures { result ≡ is_lower_digit b }
{
    is_digit(b) || (b'a' <= b && b <= b'f')
}

fn are_lower_digits(word: &[u8]) -> bool
    ensures { result ≡ list_all is_lower_digit word.now }
{
    word.iter().all(|b| is_lower_digit(*b))
}

// One to `most` bytes in hex of either case.
fn sized(alloc: Global, word: &[u8], most: usize) -> Result<Bytes, LineEnd>
    ensures value { Reads (λ x. x) result (sized most (decode_of word.now)) }
    ensures some { IfOk result (λ bytes. 1 ≤ length bytes) }
    ensures fits { IfOk result (λ bytes. length bytes ≤ most) }
{
    match hex::decode(alloc, word) {
        Ok(decoded) => {
            if decoded.is_empty() || decoded.len() > most {
                return Err(FORM);
            }
            let mut bytes = Bytes::new(alloc);
            bytes.append(&decoded)?;
            Ok(bytes)
        }
        Err(FromHexError::OutOfMemory) => Err(LineEnd::NoMemory),
        Err(_) => Err(FORM),
    }
}

// One to `most` bytes in lower-case hex.
fn some_bytes(alloc: Global, word: &[u8], most: usize) -> Result<Bytes, LineEnd>
    ensures value { Reads (λ x. x) result (some_bytes most word.now) }
    ensures some { IfOk result (λ bytes. 1 ≤ length bytes) }
    ensures fits { IfOk result (λ bytes. length bytes ≤ most) }
{
    if are_lower_digits(word) {
        sized(alloc, word, most)
    } else {
        Err(FORM)
    }
}

/// The key of a flow: 1 to 16 bytes in lower-case hex.
pub(crate) fn key(alloc: Global, word: &[u8]) -> Result<Key, LineEnd>
    ensures { Reads (λ x. x) result (key word.now) }
{
    let bytes = some_bytes(alloc, word, 16)?;
    match Key::of(bytes.as_slice()) {
        Some(key) => Ok(key),
        None => Err(FORM),
    }
}

/// The bytes of an output, at most 1,500 in lower-case hex, or `-` where it has none.
pub(crate) fn output(alloc: Global, word: &[u8]) -> Result<Bytes, LineEnd>
    ensures { Reads (λ x. x) result (output word.now) }
{
    if word == b"-".as_slice() {
        return Ok(Bytes::new(alloc));
    }
    some_bytes(alloc, word, 1500)
}

/// A node that takes datagrams: `s0` to `s7` and `r0` to `r4`.
pub(crate) fn node(word: &[u8]) -> Result<Node, LineEnd>
    ensures { Reads (λ x. x) result (node word.now) }
{
    match word {
        [b's', digit] if b'0' <= *digit && *digit <= b'7' => Ok(Node::Switch(*digit - b'0')),
        [b'r', digit] if b'0' <= *digit && *digit <= b'4' => Ok(Node::Replica(*digit - b'0')),
        _ => Err(FORM),
    }
}

/// Why a packet was dropped in strict mode.
pub(crate) fn drop_cause(word: &[u8]) -> Result<DropCause, LineEnd>
    ensures { Reads (λ x. x) result (drop_cause word.now) }
{
    if word == b"full".as_slice() {
        Ok(DropCause::Full)
    } else if word == b"mirror".as_slice() {
        Ok(DropCause::Mirror)
    } else if word == b"late".as_slice() {
        Ok(DropCause::Late)
    } else if word == b"busy".as_slice() {
        Ok(DropCause::Busy)
    } else {
        Err(FORM)
    }
}

/// Why a message was lost.
pub(crate) fn lost_cause(word: &[u8]) -> Result<Lost, LineEnd>
    ensures { Reads (λ x. x) result (lost_cause word.now) }
{
    if word == b"stale".as_slice() {
        Ok(Lost::Stale)
    } else if word == b"role".as_slice() {
        Ok(Lost::Role)
    } else if word == b"gap".as_slice() {
        Ok(Lost::Gap)
    } else if word == b"pending".as_slice() {
        Ok(Lost::Pending)
    } else if word == b"config".as_slice() {
        Ok(Lost::Config)
    } else if word == b"order".as_slice() {
        Ok(Lost::Order)
    } else {
        Err(FORM)
    }
}

/// Why an event was refused.
pub(crate) fn refusal(word: &[u8]) -> Result<Refusal, LineEnd>
    ensures { Reads (λ x. x) result (refusal word.now) }
{
    if word == b"FramesFull".as_slice() {
        Ok(Refusal::FramesFull)
    } else if word == b"Nowhere".as_slice() {
        Ok(Refusal::Nowhere)
    } else if word == b"Dead".as_slice() {
        Ok(Refusal::Dead)
    } else if word == b"NoFrame".as_slice() {
        Ok(Refusal::NoFrame)
    } else if word == b"NoneLeft".as_slice() {
        Ok(Refusal::NoneLeft)
    } else if word == b"Rates".as_slice() {
        Ok(Refusal::Rates)
    } else if word == b"LastReplica".as_slice() {
        Ok(Refusal::LastReplica)
    } else if word == b"Alive".as_slice() {
        Ok(Refusal::Alive)
    } else if word == b"Known".as_slice() {
        Ok(Refusal::Known)
    } else if word == b"Linked".as_slice() {
        Ok(Refusal::Linked)
    } else if word == b"NoLink".as_slice() {
        Ok(Refusal::NoLink)
    } else {
        Err(FORM)
    }
}
