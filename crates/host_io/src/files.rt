//! Files by name: opening one, and reading what stands at its front.
ghost use Rattle.std.specs.Prelude.{◌≡◌, ◌≤◌, ◌+◌, ◌++◌, [], None, length, take, IfSome, OnOk, OnErr, IsUtf8};

use rp_base::{Bytes, InputEnd, Inputs};
use std::alloc::Global;
use std::fs;
use std::io::{ErrorKind, Read};
use std::rt::Files;

/// Files by name, opened through a runtime. A name that isn't UTF-8, and a file that can't be opened or read, is a fault.
#[derive(Drop)]
pub struct FileInputs<'a, R> {
    rt: &'a R,
    alloc: Global,
    faults: u64,
}

impl<'a, R: Files> FileInputs<'a, R> {
    /// The files of this runtime, before any fault.
    pub fn new(rt: &'a R, alloc: Global) -> FileInputs<'a, R>
        ensures { result.faults ≡ 0 }
    {
        FileInputs {
            rt,
            alloc,
            faults: 0,
        }
    }
}

// Appends the first `limit` + 1 bytes that a reader has left, or all of fewer. A read that a signal interrupts is tried again,
// and the system's want of memory is no fault.
pub(crate) fn read_front<F: Read + Drop>(
    alloc: Global,
    reader: F,
    limit: u64,
    into: &mut Bytes,
) -> Result<(), InputEnd>
    ensures front { OnOk result (IfSome (F.remaining reader) (λ left. into.new ≡ into.old ++ take (limit + 1) left)) }
    ensures size { OnOk result (length into.new ≤ length into.old + (limit + 1)) }
    ensures err { OnErr result (into.new ≡ into.old) }
{
    let most = limit.saturating_add(1);
    let mut front = Vec::new(alloc);
    let read = reader.take(most).read_to_end(&mut front);
    // No clause says of a reader that tells nothing that it keeps to its limit.
    front.truncate(most as usize);
    match read {
        Ok(_) => match into.append(&front) {
            Ok(()) => Ok(()),
            Err(_) => Err(InputEnd::NoMemory),
        },
        Err(e) if e.kind() == ErrorKind::OutOfMemory => Err(InputEnd::NoMemory),
        Err(_) => Err(InputEnd::Failed),
    }
}

// Reads the front of the file of this name.
fn read_file<R: Files>(
    rt: &R,
    alloc: Global,
    name: &[u8],
    limit: u64,
    into: &mut Bytes,
) -> Result<(), InputEnd>
    ensures name { OnOk result (IsUtf8 name.now) }
    ensures size { OnOk result (length into.new ≤ length into.old + (limit + 1)) }
    ensures err { OnErr result (into.new ≡ into.old) }
{
    let Ok(path) = std::str::from_utf8(name) else {
        return Err(InputEnd::Failed);
    };
    let Ok(file) = fs::open(rt, path) else {
        return Err(InputEnd::Failed);
    };
    read_front(alloc, file, limit, into)
}

impl<R: Files> Inputs for FileInputs<'_, R> {
    ghost contents = { λ _. None };

    ghost faults = { λ s. s.faults };

    fn load(&mut self, name: &[u8], limit: u64, into: &mut Bytes) -> Result<(), InputEnd> {
        into.clear();
        let loaded = read_file(self.rt, self.alloc, name, limit, into);
        if loaded == Err(InputEnd::Failed) {
            self.faults = self.faults.saturating_add(1);
        }
        loaded
    }
}
