//! What a command line asks for.
ghost use Rattle.std.specs.Prelude.{◌≡◌, drop, option_map};
ghost use Rattle.run_core.specs.Commands.{command_by, form_of, frames_by, plain_by, subject_of};
ghost use Rattle.run_core.specs.Seen.{seen, seen_subject};

use rp_base::Words;

/// What runs.
#[derive(Clone, Copy, Debug)]
pub(crate) enum Subject<'a> {
    /// The application that counts packets.
    Count,
    /// The program of this name.
    Program(&'a [u8]),
}

/// What is asked for.
#[derive(Clone, Copy, Debug)]
pub(crate) enum Command<'a> {
    /// The report of one switch that never fails, over the schedule of this name.
    Plain(Subject<'a>, &'a [u8]),
    /// The report of the run of the schedule of this name, with the frames that are sent or without them.
    Run(Subject<'a>, &'a [u8], bool),
}

// What a word names as what runs.
fn subject_of(word: &[u8]) -> Subject<'_>
    ensures { seen_subject result ≡ subject_of word.now }
{
    if word == b"@count".as_slice() {
        Subject::Count
    } else {
        Subject::Program(word)
    }
}

// Whether frames are asked for, by the words behind the third; `None` exactly where they have no form.
fn frames_of(words: &Words) -> Option<bool>
    ensures { result ≡ frames_by (drop 3 words.now) }
{
    match words.at(3) {
        None => Some(false),
        Some(word) if word.as_slice() == b"--frames".as_slice() && words.len() == 4 => Some(true),
        Some(_) => None,
    }
}

// The plain run of a schedule, where no word stands behind the third.
fn plain_of<'a>(words: &Words, subject: &'a [u8], schedule: &'a [u8]) -> Option<Command<'a>>
    ensures { option_map seen result ≡ plain_by subject.now schedule.now (drop 3 words.now) }
{
    match words.at(3) {
        None => Some(Command::Plain(subject_of(subject), schedule)),
        Some(_) => None,
    }
}

// The command of a first word, of what runs, of the name of a schedule and of the words behind the third.
fn command_by<'a>(
    first: &[u8],
    subject: &'a [u8],
    schedule: &'a [u8],
    words: &Words,
) -> Option<Command<'a>>
    ensures { option_map seen result ≡ command_by first.now subject.now schedule.now (drop 3 words.now) }
{
    if first == b"run".as_slice() {
        let frames = frames_of(words)?;
        Some(Command::Run(subject_of(subject), schedule, frames))
    } else if first == b"plain".as_slice() {
        plain_of(words, subject, schedule)
    } else {
        None
    }
}

/// What the words ask for; `None` exactly where they have no form.
pub(crate) fn command_of(words: &Words) -> Option<Command<'_>>
    ensures { option_map seen result ≡ form_of words.now }
{
    let first = words.at(0)?.as_slice();
    let subject = words.at(1)?.as_slice();
    let schedule = words.at(2)?.as_slice();
    command_by(first, subject, schedule, words)
}
