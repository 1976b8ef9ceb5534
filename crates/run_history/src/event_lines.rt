//! The lines that a node's step writes.
ghost use Rattle.std.specs.Prelude.{◌≡◌, ◌++◌, ◌∷◌, [], ℕ, IfOk, OnOk};
ghost use Rattle.rp_base.specs.declared.event.DropCause.{DropCause as CauseValue};
ghost use Rattle.proto_model.specs.Effects.{added, release_line};
ghost use Rattle.proto_model.specs.Lines.{Dropped, LostLine, Refused};
ghost use Rattle.run_history.specs.Shown.{shown};

use rp_base::{DropCause, Line, Lines, Lost, NoMemory, Output, Refusal};
use std::alloc::Global;

/// The line of an output that leaves.
fn push_release(lines: &mut Lines, event: u64, released: &Option<Output>) -> Result<(), NoMemory>
    ensures { OnOk result (lines.new ≡ lines.old ++ shown (added (release_line event) released.now)) }
{
    match released {
        Some(output) => lines.push(Line::Release {
            event,
            mark: output.mark,
            port: output.port,
            bytes: output.bytes.copy()?,
        }),
        None => Ok(()),
    }
}

/// The line of a packet that is dropped.
fn push_drop(
    lines: &mut Lines,
    event: u64,
    dropped: Option<(u64, DropCause)>,
) -> Result<(), NoMemory>
    ensures { OnOk result (lines.new ≡ lines.old ++ shown (added (λ (d : ℕ × CauseValue). Dropped event d.0 d.1) dropped)) }
{
    match dropped {
        Some((mark, cause)) => lines.push(Line::Drop { event, mark, cause }),
        None => Ok(()),
    }
}

/// The line of a message that is lost.
fn push_lost(lines: &mut Lines, event: u64, lost: Option<Lost>) -> Result<(), NoMemory>
    ensures { OnOk result (lines.new ≡ lines.old ++ shown (added (LostLine event) lost)) }
{
    match lost {
        Some(cause) => lines.push(Line::Lost { event, cause }),
        None => Ok(()),
    }
}

/// The lines of a switch's step, without those of what it sent.
///
/// # Errors
/// `NoMemory`.
pub fn switch_lines(
    alloc: Global,
    event: u64,
    released: &Option<Output>,
    dropped: Option<(u64, DropCause)>,
    lost: Option<Lost>,
) -> Result<Lines, NoMemory>
    ensures { IfOk result (λ lines. lines ≡ shown (added (release_line event) released.now) ++ (shown (added (λ (d : ℕ × CauseValue). Dropped event d.0 d.1) dropped) ++ shown (added (LostLine event) lost))) }
{
    let mut lines = Lines::new(alloc);
    push_release(&mut lines, event, released)?;
    push_drop(&mut lines, event, dropped)?;
    push_lost(&mut lines, event, lost)?;
    Ok(lines)
}

/// The lines of a replica's step, without those of what it sent.
///
/// # Errors
/// `NoMemory`.
pub fn store_lines(alloc: Global, event: u64, lost: Option<Lost>) -> Result<Lines, NoMemory>
    ensures { IfOk result (λ lines. lines ≡ shown (added (LostLine event) lost)) }
{
    let mut lines = Lines::new(alloc);
    push_lost(&mut lines, event, lost)?;
    Ok(lines)
}

/// The line of a refused event.
///
/// # Errors
/// `NoMemory`.
pub fn refused(alloc: Global, event: u64, cause: Refusal) -> Result<Lines, NoMemory>
    ensures { IfOk result (λ lines. lines ≡ shown (Refused event cause ∷ [])) }
{
    let mut lines = Lines::new(alloc);
    lines.push(Line::Refused { event, cause })?;
    Ok(lines)
}
