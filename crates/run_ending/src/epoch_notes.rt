//! What is noted of one epoch of a flow: its greatest number in the book, its packets and its rounds.
ghost use Rattle.std.specs.Prelude.{◌≡◌, ◌++◌, Some, map, filter, nat_lt, count_by, IfOk, OnOk};
ghost use Rattle.std.specs.Option.{option_copied};
ghost use Rattle.proto_model.specs.Committed.{greater};
ghost use Rattle.run_ending.specs.declared.epoch_notes.Processed.{Processed as ProcessedValue};
ghost use Rattle.run_ending.specs.EpochNotes.{no_notes, with_note, is_within, all_marks, closed_marks, begin_of, kept_in};

use rp_base::{Marks, NoMemory};
use std::alloc::Global;
use std::marker::Model;

/// A processed packet: its number in the epoch, its mark, and its place among all that were processed.
#[derive(Clone, Copy, Debug)]
pub struct Processed {
    pub number: u64,
    pub mark: u64,
    pub place: u64,
}

/// A begun round, with the number of packets that were processed before it.
#[derive(Clone, Copy, Debug)]
pub struct Begin {
    pub round: u64,
    pub items_before: u64,
}

/// What the book or the history has of an epoch.
#[derive(Clone, Copy, Debug)]
pub enum Note {
    /// An entry of this number.
    Number(u64),
    /// A processed packet.
    Item(Processed),
    /// A begun round.
    Round(Begin),
}

/// The notes of one epoch, in order.
#[derive(Drop)]
pub struct EpochNotes {
    closing: Option<u64>,
    items: Vec<Processed>,
    begins: Vec<Begin>,
}

impl Model for EpochNotes {
    ghost use Rattle.run_ending.specs.EpochNotes.{EpochNotes as NotesValue};

    ghost Value = { NotesValue };

    ghost view = { λ n. record { closing = n.closing; items = n.items.items; begins = n.begins.items } };
}

// The greater of what was the greatest number and this one.
fn raised(closing: Option<u64>, number: u64) -> u64
    ensures { Some result ≡ greater closing (Some number) }
{
    match closing {
        None => number,
        Some(greatest) => greatest.max(number),
    }
}

fn is_within(closing: Option<u64>, item: &Processed) -> bool
    ensures { result ≡ is_within closing item.now }
{
    match closing {
        None => false,
        Some(greatest) => item.number <= greatest,
    }
}

// The marks of these packets.
fn marks_of(alloc: Global, items: &[Processed]) -> Result<Marks, NoMemory>
    ensures { IfOk result (λ marks. marks ≡ map (λ (i : ProcessedValue). i.mark) items.now) }
{
    let mut marks = Marks::new(alloc);
    for item in items {
        marks.push(item.mark)?;
    }
    Ok(marks)
}

// The marks of the packets up to the closing number come behind these.
fn push_closed(marks: &mut Marks, closing: Option<u64>, items: &[Processed]) -> Result<(), NoMemory>
    ensures { OnOk result (marks.new ≡ marks.old ++ map (λ (i : ProcessedValue). i.mark) (filter (is_within closing) items.now)) }
{
    for item in items {
        if is_within(closing, item) {
            marks.push(item.mark)?;
        }
    }
    Ok(())
}

// The first begin of a round.
fn first_begin(begins: &[Begin], round: u64) -> Option<&Begin>
    ensures { option_copied result ≡ begin_of round begins.now }
{
    begins.iter().find(|begin| begin.round == round)
}

// How many packets were processed before so many in all.
fn count_before(items: &[Processed], place: u64) -> u64
    ensures { result ≡ count_by (λ (i : ProcessedValue). nat_lt i.place place) items.now }
{
    items.iter().filter(|item| item.place < place).count() as u64
}

impl EpochNotes {
    /// Nothing is noted. Takes no memory.
    pub fn new(alloc: Global) -> EpochNotes
        ensures { result ≡ no_notes }
    {
        EpochNotes {
            closing: None,
            items: Vec::new(alloc),
            begins: Vec::new(alloc),
        }
    }

    /// One more note.
    ///
    /// # Errors
    /// `NoMemory`.
    pub fn add(&mut self, note: Note) -> Result<(), NoMemory>
        ensures { OnOk result (self.new ≡ with_note self.old note) }
    {
        match note {
            Note::Number(number) => self.closing = Some(raised(self.closing, number)),
            Note::Item(item) => self.items.push(item)?,
            Note::Round(begin) => self.begins.push(begin)?,
        }
        Ok(())
    }

    /// How many packets the last committed snapshot has.
    pub fn kept(&self) -> u64
        ensures { result ≡ kept_in self.now }
    {
        let Some(round) = self.closing else {
            return 0;
        };
        match first_begin(&self.begins, round) {
            Some(begin) => count_before(&self.items, begin.items_before),
            None => 0,
        }
    }

    /// The marks of all packets, in order of processing.
    ///
    /// # Errors
    /// `NoMemory`.
    pub fn marks(&self, alloc: Global) -> Result<Marks, NoMemory>
        ensures { IfOk result (λ marks. marks ≡ all_marks self.now) }
    {
        marks_of(alloc, &self.items)
    }

    /// The marks of the committed packets come behind these, in order of processing.
    ///
    /// # Errors
    /// `NoMemory`.
    pub fn push_closed(&self, marks: &mut Marks) -> Result<(), NoMemory>
        ensures { OnOk result (marks.new ≡ marks.old ++ closed_marks self.now) }
    {
        push_closed(marks, self.closing, &self.items)
    }
}
