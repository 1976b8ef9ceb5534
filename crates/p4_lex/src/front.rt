//! What a text begins with.
ghost use Rattle.std.specs.Prelude.{◌≡◌, ◌+◌, ◌<◌, ◌≤◌, length, drop, take, IfSome, false};
ghost use Rattle.std.specs.List.{prefix_len};
ghost use Rattle.p4_lex.specs.Letters.{in_line, begins_name as begins_name_of, goes_on as goes_on_of};
ghost use Rattle.p4_lex.specs.Numbers.{number as number_of};
ghost use Rattle.p4_lex.specs.Signs.{sign_at as sign_of};
ghost use Rattle.p4_lex.specs.Lexing.{Answers, front as front_of, directive as directive_of, comment_len as comment_len_of, comment as comment_of, number_piece, word_piece, sign_piece};

use crate::end::LexEnd;
use crate::number::number;
use crate::sign::sign_at;
use crate::token::{Lexeme, Sign};
use crate::word::reserved;
use rp_base::{Bytes, Refused, Why};
use std::alloc::Global;

/// What a text begins with: `size` bytes, which are a token where there is a `lexeme`, and separate tokens where there is none. `fresh` is
/// whether the line that goes on behind them has had only blanks.
#[derive(Debug, Drop)]
pub struct Front {
    pub size: usize,
    pub fresh: bool,
    pub lexeme: Option<Lexeme>,
}

fn gap(size: usize, fresh: bool) -> Front
    ensures { result ≡ record { size = size; fresh = fresh; lexeme = None } }
{
    Front {
        size,
        fresh,
        lexeme: None,
    }
}

fn piece(size: usize, lexeme: Lexeme) -> Front
    ensures { result ≡ record { size = size; fresh = false; lexeme = Some lexeme } }
{
    Front {
        size,
        fresh: false,
        lexeme: Some(lexeme),
    }
}

fn refused(at: u64, why: Why) -> LexEnd
    ensures { result ≡ LexEnd.Refused (record { at = at; why = why }) }
{
    LexEnd::Refused(Refused { at, why })
}

fn begins_name(c: u8) -> bool
    ensures { result ≡ begins_name_of c }
{
    c.is_ascii_alphabetic() || c == b'_'
}

fn goes_on(c: u8) -> bool
    ensures { result ≡ goes_on_of c }
{
    begins_name(c) || c.is_ascii_digit()
}

// How many bytes stand before the line's end.
fn line_len(bytes: &[u8]) -> usize
    ensures len { result ≡ prefix_len in_line bytes.now }
    ensures within { result ≤ length bytes.now }
{
    let mut n = 0;
    while n < bytes.len() && bytes[n] != b'\n' {
        n += 1;
    }
    n
}

// How many bytes a name or number that begins here has.
fn word_len(bytes: &[u8]) -> usize
    ensures len { result ≡ prefix_len goes_on_of bytes.now }
    ensures within { result ≤ length bytes.now }
{
    let mut n = 0;
    while n < bytes.len() && goes_on(bytes[n]) {
        n += 1;
    }
    n
}

// How many bytes a comment has up to and with the first `*/`.
fn comment_len(bytes: &[u8]) -> Option<usize>
    ensures len { result ≡ comment_len_of bytes.now }
    ensures within { IfSome result (λ n. n ≤ length bytes.now) }
{
    let mut at = 0;
    while at < bytes.len() {
        let (_, rest) = bytes.split_at(at);
        if rest.starts_with(b"*/".as_slice()) {
            return Some(at + 2);
        }
        at += 1;
    }
    None
}

// A preprocessor line.
#[tactic(auto, unfolding(crate::specs::Lexing::directive))]
fn directive(at: u64, line: &[u8]) -> Result<Front, LexEnd>
    ensures { Answers result (directive_of at line.now) }
{
    if line == b"#include <core.p4>".as_slice() || line == b"#include <rp.p4>".as_slice() {
        Ok(gap(line.len(), false))
    } else {
        Err(refused(at, Why::Directive))
    }
}

fn comment(at: u64, bytes: &[u8]) -> Result<Front, LexEnd>
    requires { 2 ≤ length bytes.now }
    ensures { Answers result (comment_of at (comment_len_of (drop 2 bytes.now))) }
{
    let (_, rest) = bytes.split_at(2);
    match comment_len(rest) {
        Some(n) => Ok(gap(n + 2, false)),
        None => Err(refused(at, Why::OpenComment)),
    }
}

fn number_front(at: u64, word: &[u8]) -> Result<Front, LexEnd>
    ensures { Answers result (number_piece at (length word.now) (number_of word.now)) }
{
    match number(word) {
        Some((value, width)) => Ok(piece(word.len(), Lexeme::Number { value, width })),
        None => Err(refused(at, Why::BadNumber)),
    }
}

#[tactic(auto, unfolding(crate::specs::Lexing::word_piece))]
fn word_front(alloc: Global, word: &[u8]) -> Result<Front, LexEnd>
    ensures { Answers result (word_piece word.now) }
{
    if word == b"_".as_slice() {
        return Ok(piece(word.len(), Lexeme::Sign(Sign::Any)));
    }
    if let Some(sign) = reserved(word) {
        return Ok(piece(word.len(), Lexeme::Sign(sign)));
    }
    let mut name = Bytes::new(alloc);
    name.append(word)?;
    Ok(piece(word.len(), Lexeme::Name(name)))
}

fn sign_front(at: u64, bytes: &[u8]) -> Result<Front, LexEnd>
    ensures { Answers result (sign_piece at (sign_of bytes.now)) }
{
    match sign_at(bytes) {
        Some((sign, size)) => Ok(piece(size, Lexeme::Sign(sign))),
        None => Err(refused(at, Why::BadByte)),
    }
}

/// What these bytes, which stand at the place `at`, begin with. `fresh` is whether only blanks stand before them in their line, and the line
/// doesn't begin inside a comment.
///
/// # Errors
/// `Refused` at that place, or `NoMemory`.
#[tactic(auto, unfolding(crate::specs::Lexing::front))]
pub fn front_at(alloc: Global, at: u64, fresh: bool, c: u8, bytes: &[u8]) -> Result<Front, LexEnd>
    ensures { Answers result (front_of at fresh c bytes.now) }
{
    if c == b' ' || c == b'\t' {
        return Ok(gap(1, fresh));
    }
    if c == b'\n' {
        return Ok(gap(1, true));
    }
    if fresh && c == b'#' {
        let (line, _) = bytes.split_at(line_len(bytes));
        return directive(at, line);
    }
    if bytes.starts_with(b"//".as_slice()) {
        return Ok(gap(line_len(bytes), false));
    }
    if bytes.starts_with(b"/*".as_slice()) {
        return comment(at, bytes);
    }
    if c.is_ascii_digit() {
        let (word, _) = bytes.split_at(word_len(bytes));
        return number_front(at, word);
    }
    if begins_name(c) {
        let (word, _) = bytes.split_at(word_len(bytes));
        return word_front(alloc, word);
    }
    sign_front(at, bytes)
}
