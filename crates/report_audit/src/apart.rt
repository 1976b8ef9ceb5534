//! Whether marks differ from each other, by a set of those seen so far.
ghost use Rattle.std.specs.Prelude.{◌≡◌, ◌≢◌, ◌↔◌, IfOk, IsTrue};
ghost use Rattle.proto_model.specs.Feeds.{Pairwise};

use indexmap::IndexSet;
use rp_base::NoMemory;
use std::alloc::Global;

// Whether no mark comes twice.
pub(crate) fn are_apart(alloc: Global, marks: &[u64]) -> Result<bool, NoMemory>
    ensures { IfOk result (λ apart. IsTrue apart ↔ Pairwise (λ a b. a ≢ b) marks.now) }
{
    let mut seen = IndexSet::new(alloc);
    for mark in marks {
        if !seen.insert(*mark)? {
            return Ok(false);
        }
    }
    Ok(true)
}
