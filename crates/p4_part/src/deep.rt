//! The four counts that keep trees shallow.
ghost use Rattle.std.specs.Prelude.{◌≡◌, ◌+◌, ◌<◌, ◌^◌, if◌then◌else◌};
ghost use Rattle.p4_grammar.specs.Tokens.{one_of};
ghost use Rattle.p4_lex.specs.declared.token.Sign.TheVariants as sign;
ghost use Rattle.p4_part.specs.Counting.{opens as opens_of, closes as closes_of, ends_run as ends_run_of, one_more as one_more_of, counted as counted_of, over as over_of, deep as deep_of};

use crate::token::is_sign;
use p4_lex::{Sign, Token};

/// What was counted so far.
#[derive(Clone, Copy, Debug, PartialEq, Eq)]
pub struct Counts {
    /// opening brackets
    pub opened: u64,
    /// closing brackets
    pub closed: u64,
    /// tokens of the present run
    pub run: u64,
    /// words `if` of the present run
    pub ifs: u64,
    /// words `if` behind `else`
    pub elses: u64,
    /// whether the last token is `else`
    pub behind_else: bool,
}

fn opens(token: &Token) -> bool
    ensures { result ≡ opens_of token.now }
{
    is_sign(Sign::Open, token) || is_sign(Sign::OpenSlice, token) || is_sign(Sign::OpenBrace, token)
}

fn closes(token: &Token) -> bool
    ensures { result ≡ closes_of token.now }
{
    is_sign(Sign::Close, token)
        || is_sign(Sign::CloseSlice, token)
        || is_sign(Sign::CloseBrace, token)
}

fn ends_run(token: &Token) -> bool
    ensures { result ≡ ends_run_of token.now }
{
    is_sign(Sign::Semicolon, token)
        || is_sign(Sign::OpenBrace, token)
        || is_sign(Sign::CloseBrace, token)
}

// One more where so.
fn one_more(so: bool, n: u64) -> u64
    requires { n + 1 < 2 ^ 64 }
    ensures { result ≡ one_more_of so n }
{
    if so { n + 1 } else { n }
}

// The tokens of the present run, or its words `if`.
fn of_run(ends: bool, n: u64) -> u64
    ensures { result ≡ (if ends then 0 else n) }
{
    if ends { 0 } else { n }
}

fn counted(c: Counts, token: &Token) -> Counts
    requires opened { c.opened + 1 < 2 ^ 64 }
    requires closed { c.closed + 1 < 2 ^ 64 }
    requires run { c.run + 1 < 2 ^ 64 }
    requires ifs { c.ifs + 1 < 2 ^ 64 }
    requires elses { c.elses + 1 < 2 ^ 64 }
    ensures { result ≡ counted_of c token.now }
{
    let is_if = is_sign(Sign::If, token);
    let ends = ends_run(token);
    Counts {
        opened: one_more(opens(token), c.opened),
        closed: one_more(closes(token), c.closed),
        run: of_run(ends, c.run + 1),
        ifs: of_run(ends, one_more(is_if, c.ifs)),
        elses: one_more(is_if && c.behind_else, c.elses),
        behind_else: is_sign(Sign::Else, token),
    }
}

fn over(c: &Counts) -> bool
    ensures { result ≡ over_of c.now }
{
    c.opened.saturating_sub(c.closed) > 256 || c.run > 512 || c.ifs > 4 || c.elses > 128
}

/// The place of the first token at which a count passes its limit.
pub fn deep(tokens: &[Token]) -> Option<u64>
    ensures { result ≡ deep_of tokens.now }
{
    let mut counts = Counts {
        opened: 0,
        closed: 0,
        run: 0,
        ifs: 0,
        elses: 0,
        behind_else: false,
    };
    for token in tokens {
        counts = counted(counts, token);
        if over(&counts) {
            return Some(token.at);
        }
    }
    None
}
