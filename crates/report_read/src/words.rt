//! The lines of a text, and the words of a line one after the other.
ghost use Rattle.std.specs.Prelude.{◌≡◌, [], ◌∷◌, ◌<◌, length, option_map, position, ◌==◌};
ghost use Rattle.report_read.specs.Words.{Reads, lines, words, words_behind, next_word, no_more};
ghost use Rattle.report_read.specs.Values.{numbers_after};

use crate::report::{FORM, LineEnd};
use crate::values::number;
use rp_base::Numbers;
use std::alloc::Global;
use std::marker::Model;

// The first place of a byte.
fn place_of(text: &[u8], mark: u8) -> Option<usize>
    ensures { result ≡ position (λ b. b == mark) text.now }
{
    text.iter().position(|b| *b == mark)
}

/// The first line of a text that isn't empty, whether it has a line feed, and what stands behind that.
pub(crate) fn first_line(text: &[u8]) -> (&[u8], bool, &[u8])
    requires { 0 < length text.now }
    ensures lines { lines text.now ≡ (result.0.now, result.1) ∷ lines result.2.now }
    ensures shorter { length result.2.now < length text.now }
{
    let Some(i) = place_of(text, b'\n') else {
        let (line, rest) = text.split_at(text.len());
        return (line, false, rest);
    };
    let (line, rest) = text.split_at(i);
    let (_, rest) = rest.split_at(1);
    (line, true, rest)
}

// The first word of a line, and what stands behind the space after it, where there is one.
fn first_word(line: &[u8]) -> (&[u8], Option<&[u8]>)
    ensures { words line.now ≡ result.0.now ∷ words_behind (option_map (λ rest. rest.now) result.1) }
{
    let Some(i) = place_of(line, b' ') else {
        return (line, None);
    };
    let (word, rest) = line.split_at(i);
    let (_, rest) = rest.split_at(1);
    (word, Some(rest))
}

/// The words of a line that aren't read yet: what stands behind the space, where there is one.
#[derive(Debug, Drop)]
pub struct Words<'a> {
    left: Option<&'a [u8]>,
}

impl<'a> Model for Words<'a> {
    ghost use Rattle.std.specs.Prelude.{List, ℕ, option_map};
    ghost use Rattle.report_read.specs.Words.{words_behind};

    ghost Value = { List (List ℕ) };

    ghost view = { λ w. words_behind (option_map (λ rest. rest.now) w.left) };
}

impl<'a> Words<'a> {
    /// The words of a line.
    pub fn of(line: &'a [u8]) -> Words<'a>
        ensures { result ≡ words line.now }
    {
        Words { left: Some(line) }
    }

    /// The next word, and the words behind it.
    ///
    /// # Errors
    /// `Form` where there is none.
    pub fn next(self) -> Result<(&'a [u8], Words<'a>), LineEnd>
        ensures { Reads (λ x. (x.0.now, x.1)) result (next_word self.entry) }
    {
        let Some(rest) = self.left else {
            return Err(FORM);
        };
        let (word, left) = first_word(rest);
        Ok((word, Words { left }))
    }

    /// No more words.
    ///
    /// # Errors
    /// `Form` where there is one.
    pub fn end(self) -> Result<(), LineEnd>
        ensures { Reads (λ x. x) result (no_more self.entry) }
    {
        match self.left {
            None => Ok(()),
            Some(_words) => Err(FORM),
        }
    }

    /// The numbers that all these words are.
    ///
    /// # Errors
    /// `Form` where a word is no number of 64 bits, or `NoMemory`.
    pub fn numbers(self, alloc: Global) -> Result<Numbers, LineEnd>
        ensures { Reads (λ x. x) result (numbers_after [] self.entry) }
    {
        let mut numbers = Numbers::new(alloc);
        let mut left = self.left;
        while let Some(rest) = left {
            let (word, more) = first_word(rest);
            numbers.push(number(word)?)?;
            left = more;
        }
        Ok(numbers)
    }
}
