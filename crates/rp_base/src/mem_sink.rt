//! Sinks in memory. Their room is made beforehand, so that a write takes no memory.
ghost use Rattle.std.specs.Prelude.{◌≡◌, ◌≤◌, ◌+◌, ◌++◌, ◌↔◌, [], true, false, length, take, min, Ok, IfOk, IsErr, OnErr, Contains};
ghost use Rattle.std.specs.Vec.{vec_capacity};
ghost use Rattle.rp_base.specs.Memory.{told, one_more, CountsFaults, StaysWhole};
ghost use Rattle.rp_base.specs.Outside.{Grows, HasCause};

use crate::error::NoMemory;
use crate::outside::{Failed, Sink};
use std::alloc::Global;

/// What was written to a sink, as far as its room goes.
#[derive(Debug, Drop)]
pub struct Kept {
    pub bytes: Vec<u8>,
    /// Whether each byte that was written is kept.
    pub whole: bool,
    /// How many bytes there is room for.
    pub room: usize,
    ghost made: { room ≤ vec_capacity bytes },
}

impl Kept {
    /// No bytes, with room for so many.
    ///
    /// # Errors
    /// `NoMemory`.
    pub fn with_room(alloc: Global, room: usize) -> Result<Kept, NoMemory>
        ensures bytes { IfOk result (λ kept. kept.bytes.items ≡ []) }
        ensures whole { IfOk result (λ kept. kept.whole ≡ true) }
        ensures room { IfOk result (λ kept. kept.room ≡ room) }
    {
        let mut bytes = Vec::new(alloc);
        bytes.reserve(room)?;
        Ok(Kept {
            bytes,
            whole: true,
            room,
        })
    }

    // Keeps a piece where there is room for it; else not every byte is kept from now on.
    fn keep(&mut self, piece: &[u8])
        ensures grows { Grows (told self.old.whole self.old.bytes.items) (told self.new.whole self.new.bytes.items) piece.now }
        ensures whole { StaysWhole self.old.whole (length self.old.bytes.items + length piece.now) self.old.room self.new.whole }
        ensures room { self.new.room ≡ self.old.room }
    {
        let has_room = self.bytes.len() <= self.room && piece.len() <= self.room - self.bytes.len();
        if !has_room || self.bytes.extend_from_slice(piece).is_err() {
            self.whole = false;
        }
    }
}

/// A sink without faults. Past its room it takes the bytes and tells them no more.
#[derive(Debug, Drop)]
pub struct SureSink {
    pub kept: Kept,
}

impl Sink for SureSink {
    ghost written = { λ s. told s.kept.whole s.kept.bytes.items };

    ghost faults = { λ _. 0 };

    fn write(&mut self, piece: &[u8]) -> Result<usize, Failed>
        ensures all { result ≡ Ok (length piece.now) }
        ensures grows { Grows (told self.old.kept.whole self.old.kept.bytes.items) (told self.new.kept.whole self.new.kept.bytes.items) piece.now }
        ensures whole { StaysWhole self.old.kept.whole (length self.old.kept.bytes.items + length piece.now) self.old.kept.room self.new.kept.whole }
        ensures room { self.new.kept.room ≡ self.old.kept.room }
    {
        self.kept.keep(piece);
        Ok(piece.len())
    }
}

/// A sink that takes at most `most` bytes in a call, and fails at the calls whose numbers, from 0, are listed.
#[derive(Debug, Drop)]
pub struct MemSink {
    pub kept: Kept,
    pub most: usize,
    pub failing: Vec<u64>,
    pub calls: u64,
    pub faults: u64,
    ghost some: { 1 ≤ most },
}

impl Sink for MemSink {
    ghost written = { λ s. told s.kept.whole s.kept.bytes.items };

    ghost faults = { λ s. s.faults };

    fn write(&mut self, piece: &[u8]) -> Result<usize, Failed>
        ensures listed { IsErr result ↔ Contains self.old.failing.items self.old.calls }
        ensures front { IfOk result (λ n. n ≡ min (length piece.now) self.old.most) }
        ensures ok { IfOk result (λ n. Grows (told self.old.kept.whole self.old.kept.bytes.items) (told self.new.kept.whole self.new.kept.bytes.items) (take n piece.now)) }
        ensures whole { IfOk result (λ n. StaysWhole self.old.kept.whole (length self.old.kept.bytes.items + n) self.old.kept.room self.new.kept.whole) }
        ensures room { self.new.kept.room ≡ self.old.kept.room }
        ensures err { OnErr result (self.new.kept ≡ self.old.kept) }
        ensures cause { HasCause self.old.faults self.new.faults result (record {}) }
        ensures counted { CountsFaults self.old.faults self.new.faults result (record {}) }
        ensures calls { self.new.calls ≡ one_more self.old.calls }
        ensures most { self.new.most ≡ self.old.most }
        ensures failing { self.new.failing ≡ self.old.failing }
    {
        let call = self.calls;
        self.calls = self.calls.saturating_add(1);
        if self.failing.contains(&call) {
            self.faults = self.faults.saturating_add(1);
            return Err(Failed);
        }
        let n = piece.len().min(self.most);
        self.kept.keep(&piece[..n]);
        Ok(n)
    }
}
