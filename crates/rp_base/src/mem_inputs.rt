//! Inputs in memory.
ghost use Rattle.std.specs.Prelude.{◌≡◌, ◌+◌, ◌⊎◌, ◌↔◌, [], Some, None, take, length, IfSome, OnOk, OnErr, IsErrOf, Contains};
ghost use Rattle.std.specs.Option.{option_copied};
ghost use Rattle.rp_base.specs.Memory.{content_of, sure_content_of, one_more, CountsFaults};
ghost use Rattle.rp_base.specs.Outside.{HasCause};

use crate::bytes::Bytes;
use crate::error::NoMemory;
use crate::outside::{InputEnd, Inputs};

/// A named content.
#[derive(Debug, Drop)]
pub struct Content {
    pub name: Bytes,
    pub bytes: Bytes,
}

// The first `limit` + 1 bytes, or all.
fn fill(into: &mut Bytes, content: &[u8], limit: u64) -> Result<(), NoMemory>
    ensures ok { OnOk result (into.new ≡ take (limit + 1) content.now) }
    ensures err { OnErr result (into.new ≡ []) }
{
    into.clear();
    if limit < content.len() as u64 {
        into.append(&content[..limit as usize + 1])
    } else {
        into.append(content)
    }
}

/// Contents without faults. A name that isn't listed has the empty content.
#[derive(Debug, Drop)]
pub struct SureInputs {
    pub contents: Vec<Content>,
}

fn sure_content<'a>(contents: &'a [Content], name: &[u8]) -> &'a [u8]
    ensures { result.now ≡ sure_content_of contents.now name.now }
{
    match contents {
        [] => &[],
        [first, others @ ..] => {
            if first.name.as_slice() == name {
                first.bytes.as_slice()
            } else {
                sure_content(others, name)
            }
        }
    }
}

impl Inputs for SureInputs {
    ghost contents = { λ s. Some (λ name. Some (sure_content_of s.contents.items name)) };

    ghost faults = { λ _. 0 };

    fn load(&mut self, name: &[u8], limit: u64, into: &mut Bytes) -> Result<(), InputEnd> {
        match fill(into, sure_content(&self.contents, name), limit) {
            Ok(()) => Ok(()),
            Err(_) => Err(InputEnd::NoMemory),
        }
    }
}

/// Contents with faults: the calls whose numbers are listed fail, and so does a name that isn't listed.
#[derive(Debug, Drop)]
pub struct MemInputs {
    pub contents: Vec<Content>,
    pub failing: Vec<u64>,
    pub calls: u64,
    pub faults: u64,
}

fn listed<'a>(contents: &'a [Content], name: &[u8]) -> Option<&'a [u8]>
    ensures { option_copied result ≡ content_of contents.now name.now }
{
    match contents {
        [] => None,
        [first, others @ ..] => {
            if first.name.as_slice() == name {
                Some(first.bytes.as_slice())
            } else {
                listed(others, name)
            }
        }
    }
}

impl Inputs for MemInputs {
    ghost contents = { λ s. Some (content_of s.contents.items) };

    ghost faults = { λ s. s.faults };

    fn load(&mut self, name: &[u8], limit: u64, into: &mut Bytes) -> Result<(), InputEnd>
        ensures ok { OnOk result (IfSome (content_of self.old.contents.items name.now) (λ content. into.new ≡ take (limit + 1) content)) }
        ensures err { OnErr result (into.new ≡ []) }
        ensures same { self.new.contents.items ≡ self.old.contents.items }
        ensures cause { HasCause self.old.faults self.new.faults result InputEnd.Failed }
        ensures listed { IsErrOf result InputEnd.Failed ↔ (Contains self.old.failing.items self.old.calls ⊎ (content_of self.old.contents.items name.now ≡ None)) }
        ensures counted { CountsFaults self.old.faults self.new.faults result InputEnd.Failed }
        ensures calls { self.new.calls ≡ one_more self.old.calls }
        ensures failing { self.new.failing ≡ self.old.failing }
    {
        into.clear();
        let call = self.calls;
        self.calls = self.calls.saturating_add(1);
        if self.failing.contains(&call) {
            self.faults = self.faults.saturating_add(1);
            return Err(InputEnd::Failed);
        }
        match listed(&self.contents, name) {
            Some(content) => fill(into, content, limit).map_err(|_| InputEnd::NoMemory),
            None => {
                self.faults = self.faults.saturating_add(1);
                Err(InputEnd::Failed)
            }
        }
    }
}
