//! Texts of programs: parsed, and then checked.
ghost use Rattle.std.specs.Prelude.{IfOk};
ghost use Rattle.p4_checked.specs.Reading.{GivesChecked, IsChecked, checked_of};

use p4_check::{CheckEnd, Checked, check};
use p4_parse::{ParseEnd, parse};
use std::alloc::Global;

/// The checked form of the program that a text spells, or why it has none.
///
/// # Errors
/// `Refused` with the place and the cause of the text's first fault, or of the program's where the text has a tree; `NoMemory`.
pub fn checked_text(alloc: Global, text: &[u8]) -> Result<Checked, CheckEnd>
    ensures exact { GivesChecked result (checked_of text.now) }
    ensures source { IfOk result IsChecked }
{
    match parse(alloc, text) {
        Ok(tree) => check(alloc, tree),
        Err(ParseEnd::Refused(f)) => Err(CheckEnd::Refused(f)),
        Err(ParseEnd::NoMemory) => Err(CheckEnd::NoMemory),
    }
}
