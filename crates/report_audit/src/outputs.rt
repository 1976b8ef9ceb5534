//! What one switch makes of the packet of a mark.
ghost use Rattle.std.specs.Prelude.{◌≡◌, ◌↔◌, Some, length, IfOk, IsTrue};
ghost use Rattle.proto_model.specs.Feeds.{packet_at};
ghost use Rattle.proto_model.specs.Legal.{IsOutputIn};
ghost use Rattle.report_audit.specs.Rising.{MarksRise, processed};

use crate::feeds::fed_in;
use rp_app::{App, Delta};
use rp_base::{Cells, Fed, NoMemory, Output};
use std::alloc::Global;

// The cells become those after the packet of this mark. Gives the packet's output, if there is one; a mark that wasn't fed changes nothing.
pub(crate) fn process<A: App>(
    alloc: Global,
    app: &A,
    feeds: &[Fed],
    mark: u64,
    cells: &mut Cells,
) -> Result<Option<Output>, NoMemory>
    requires rise { MarksRise feeds.now }
    requires many { length cells.old ≡ (A.meaning app.now).cell_count }
    ensures step { IfOk result (λ out. (cells.new, out) ≡ processed (A.meaning app.now) cells.old (packet_at feeds.now mark)) }
    ensures many { length cells.new ≡ length cells.old }
{
    let Some(fed) = fed_in(feeds, mark) else {
        return Ok(None);
    };
    let mut delta = Delta::new(alloc);
    let out = app.step(cells, &fed.packet, &mut delta)?;
    delta.write(cells);
    Ok(out)
}

// Whether two outputs are equal.
pub(crate) fn same_output(a: &Output, b: &Output) -> bool
    ensures { IsTrue result ↔ (a.now ≡ b.now) }
{
    a.mark == b.mark && a.port == b.port && a.bytes.as_slice() == b.bytes.as_slice()
}

// Whether there is an output, and it is this one.
pub(crate) fn is_output(found: &Option<Output>, output: &Output) -> bool
    ensures { IsTrue result ↔ (found.now ≡ Some output.now) }
{
    match found {
        Some(out) => same_output(out, output),
        None => false,
    }
}

// Whether the packet of this output's mark was fed, and has this output where the cells are these.
pub(crate) fn is_output_in<A: App>(
    alloc: Global,
    app: &A,
    feeds: &[Fed],
    cells: &Cells,
    output: &Output,
) -> Result<bool, NoMemory>
    requires rise { MarksRise feeds.now }
    requires many { length cells.now ≡ (A.meaning app.now).cell_count }
    ensures { IfOk result (λ is. IsTrue is ↔ IsOutputIn (A.meaning app.now) feeds.now cells.now output.now) }
{
    let Some(fed) = fed_in(feeds, output.mark) else {
        return Ok(false);
    };
    let mut delta = Delta::new(alloc);
    let found = app.step(cells, &fed.packet, &mut delta)?;
    Ok(is_output(&found, output))
}
