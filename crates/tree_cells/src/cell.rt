//! Cells by their numbers.
ghost use Rattle.std.specs.Prelude.{◌≡◌, ◌<◌, ◌≤◌, ◌+◌, IfSome, OnOk};
ghost use Rattle.app_meaning.specs.Statements.{member, cell_of, cell_number, store};
ghost use Rattle.tree_cells.specs.Fit.{IsWithin};

use app_data::Run;
use rp_base::{Cells, NoMemory};

/// The number of the cell that a member of an array is, if there is one.
pub fn member(first: u64, size: u128, i: u128) -> Option<u16>
    requires { first + size ≤ 256 }
    ensures value { result ≡ member first size i }
    ensures below { IfSome result (λ cell. cell < 256) }
{
    if i < size {
        Some(first as u16 + i as u16)
    } else {
        None
    }
}

/// The number of a cell, if there is one: of an array the member at the index.
pub fn cell_of(first: u64, size: Option<u128>, index: Option<u128>) -> Option<u16>
    requires { IsWithin first size }
    ensures { result ≡ cell_of first size index }
{
    match size {
        None => Some(first as u16),
        Some(size) => match index {
            None => None,
            Some(i) => member(first, size, i),
        },
    }
}

/// The number that a cell holds; 0 where there is none.
pub fn cell_number(cells: &Cells, cell: Option<u16>) -> u64
    ensures { result ≡ cell_number cells.now cell }
{
    match cell {
        None => 0,
        Some(i) => match cells.at(i as u64) {
            Some(n) => *n,
            None => 0,
        },
    }
}

/// A cell gets a number; nothing where there is no cell.
///
/// # Errors
/// `NoMemory`.
#[tactic(auto, using(crate::proofs::Cells::set_beyond))]
pub fn store(run: &mut Run, cell: Option<u16>, n: u64) -> Result<(), NoMemory>
    requires { IfSome cell (λ i. i < 256) }
    ensures { OnOk result (run.new ≡ store cell n run.old) }
{
    if let Some(i) = cell {
        run.delta.set(i, n)?;
        if (i as u64) < run.cells.len() {
            run.cells.set(i as u64, n);
        }
    }
    Ok(())
}
