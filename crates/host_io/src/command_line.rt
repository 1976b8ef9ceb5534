//! The words that the program was started with.
ghost use Rattle.std.specs.Prelude.{◌≡◌, None, Some, IfOk, IfSome, drop, slice_get};

use rp_base::{Bytes, NoMemory, Words};
use std::alloc::Global;
use std::env::FillError;
use std::rt::Env;

/// The words of a command line, the program's own name first.
pub trait CommandLine {
    ghost use Rattle.std.specs.Prelude.{Option, List, ℕ};

    /// The words, where they are told.
    ghost words: { Self → Option (List (List ℕ)) };

    /// The word at place `i`, counted from 0, unchanged; `None` behind the last one.
    ///
    /// # Errors
    /// `NoMemory`.
    fn word(&self, alloc: Global, i: u64) -> Result<Option<Bytes>, NoMemory>
        ensures { IfOk result (λ word. IfSome (words self.now) (λ all. word ≡ slice_get all i)) };
}

/// All words behind the program's name, in order, unchanged.
///
/// # Errors
/// `NoMemory`.
pub fn words_of<C: CommandLine>(alloc: Global, line: &C) -> Result<Words, NoMemory>
    ensures { IfOk result (λ words. IfSome (C.words line.now) (λ all. words ≡ drop 1 all)) }
{
    let mut words = Words::new(alloc);
    for i in 1..u64::MAX {
        match line.word(alloc, i)? {
            Some(word) => words.push(word)?,
            None => return Ok(words),
        }
    }
    // no memory holds so many
    Err(NoMemory)
}

/// A command line in memory, which tells its words.
impl CommandLine for Words {
    ghost words = { λ all. Some all };

    fn word(&self, _alloc: Global, i: u64) -> Result<Option<Bytes>, NoMemory> {
        match self.at(i) {
            Some(word) => Ok(Some(word.copy()?)),
            None => Ok(None),
        }
    }
}

/// The command line of this process, whose words are any bytes. It tells none.
#[derive(Drop)]
pub struct ProcessCommandLine<'a, R> {
    rt: &'a R,
}

impl<'a, R: Env> ProcessCommandLine<'a, R> {
    /// The command line that this runtime has.
    pub fn new(rt: &'a R) -> ProcessCommandLine<'a, R>
        ensures { result.rt.now ≡ rt.now }
    {
        ProcessCommandLine { rt }
    }
}

// The room for a word at first, in bytes. It is doubled while a word is longer.
const FIRST_ROOM: usize = 256;

impl<R: Env> CommandLine for ProcessCommandLine<'_, R> {
    ghost words = { λ _. None };

    fn word(&self, alloc: Global, i: u64) -> Result<Option<Bytes>, NoMemory> {
        let mut room = FIRST_ROOM;
        for _ in 0..usize::BITS {
            let mut buf = vec![in alloc; 0u8; room]?;
            match self.rt.arg(i as usize, &mut buf) {
                Ok(count) => {
                    let mut word = Bytes::new(alloc);
                    word.append(&buf[..count])?;
                    return Ok(Some(word));
                }
                Err(FillError::NotPresent) => return Ok(None),
                Err(FillError::TooLong) => room = room.saturating_add(room),
            }
        }
        Err(NoMemory)
    }
}
