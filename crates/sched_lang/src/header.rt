//! The six lines of a header.
ghost use Rattle.std.specs.Prelude.{◌≡◌, ◌<◌, ◌≤◌, ◌+◌, IfOk, None, option_map};
ghost use Rattle.sched_lang.specs.Words.{words, words_behind, behind};
ghost use Rattle.rp_base.specs.Clocks.{TermsHold};
ghost use Rattle.sched_lang.specs.Causes.{seen};
ghost use Rattle.sched_lang.specs.Header.{first_line, named, switches_line, chain_line, lease_line, ratio_line, mode_line, mode};

use crate::schedule::SchedWhy;
use crate::words::{both, first_word, no_words, number, one_word, two_words};
use rp_base::terms_hold;

/// What a header says: the nodes of a run, the terms of its leases, and its mode.
#[derive(Clone, Copy, Debug, PartialEq, Eq)]
pub struct Header {
    pub switches: u8,
    pub chain: u8,
    pub t_switch: u64,
    pub t_store: u64,
    pub ratio: u64,
    pub snapshot: Option<u64>,
}

/// The line that names the format.
pub(crate) fn first(line: &[u8]) -> Result<(), SchedWhy>
    ensures { result ≡ first_line line.now }
{
    if line == b"rp-schedule 1".as_slice() {
        Ok(())
    } else {
        Err(SchedWhy::Form)
    }
}

/// The words behind a line's name.
fn behind<'a>(line: &'a [u8], name: &[u8]) -> Result<Option<&'a [u8]>, SchedWhy>
    ensures { seen (λ args. words_behind (option_map (λ rest. rest.now) args)) result ≡ behind name.now (words line.now) }
{
    let (word, args) = first_word(line);
    if word == name {
        Ok(args)
    } else {
        Err(SchedWhy::Form)
    }
}

/// The number of a line of this name, which has one number.
fn named(line: &[u8], name: &[u8], least: u64, most: u64) -> Result<u64, SchedWhy>
    requires { most < 10000000000 }
    ensures value { result ≡ named name.now least most line.now }
    ensures least { IfOk result (λ n. least ≤ n) }
    ensures most { IfOk result (λ n. n ≤ most) }
{
    number(one_word(behind(line, name)?)?, least, most)
}

pub(crate) fn switches(line: &[u8]) -> Result<u8, SchedWhy>
    ensures { result ≡ switches_line line.now }
{
    Ok(named(line, b"switches", 1, 8)? as u8)
}

pub(crate) fn chain(line: &[u8]) -> Result<u8, SchedWhy>
    ensures { result ≡ chain_line line.now }
{
    Ok(named(line, b"chain", 1, 5)? as u8)
}

/// How long a lease lasts at a switch, and how long the store waits.
pub(crate) fn lease(line: &[u8]) -> Result<(u64, u64), SchedWhy>
    ensures value { result ≡ lease_line line.now }
    ensures switch { IfOk result (λ x. (1 ≤ x.0) × (x.0 ≤ 1000000)) }
    ensures store { IfOk result (λ x. (1 ≤ x.1) × (x.1 ≤ 1000000)) }
{
    let (t_switch, t_store) = two_words(behind(line, b"lease")?)?;
    both(
        number(t_switch, 1, 1_000_000),
        number(t_store, 1, 1_000_000),
    )
}

/// How far clocks may differ, in thousandths, where the terms hold.
pub(crate) fn ratio(t_switch: u64, t_store: u64, line: &[u8]) -> Result<u64, SchedWhy>
    requires switch { t_switch ≤ 1000000 }
    requires store { t_store ≤ 1000000 }
    ensures value { result ≡ ratio_line t_switch t_store line.now }
    ensures fits { IfOk result (λ ratio. ratio ≤ 1000) }
    ensures hold { IfOk result (λ ratio. TermsHold t_switch t_store ratio) }
{
    let ratio = named(line, b"ratio", 0, 1000)?;
    if terms_hold(t_switch, t_store, ratio) {
        Ok(ratio)
    } else {
        Err(SchedWhy::Terms)
    }
}

fn mode_of(args: Option<&[u8]>) -> Result<Option<u64>, SchedWhy>
    ensures { result ≡ mode (words_behind (option_map (λ rest. rest.now) args.entry)) }
{
    let Some(rest) = args else {
        return Err(SchedWhy::Form);
    };
    let (kind, args) = first_word(rest);
    if kind == b"strict".as_slice() {
        no_words(args)?;
        Ok(None)
    } else if kind == b"snapshot".as_slice() {
        Ok(Some(number(one_word(args)?, 1, 1_000_000)?))
    } else {
        Err(SchedWhy::Form)
    }
}

/// The bound of snapshot mode, or `None` in strict mode.
pub(crate) fn mode(line: &[u8]) -> Result<Option<u64>, SchedWhy>
    ensures { result ≡ mode_line line.now }
{
    mode_of(behind(line, b"mode")?)
}
