//! Copies of tables.
ghost use Rattle.std.specs.Prelude.{◌≡◌, IfOk};

use crate::expression::{expr_copy, exprs_copy};
use crate::parser::keyset_copy;
use p4_ast::{P4Acts, P4Call, P4Default, P4Entries, P4Entry, P4Key, P4Keys, P4Table};
use p4_scope::copy::{name_copy, names_copy};
use rp_base::NoMemory;
use sqlite_items::{Boxed, Items};
use std::alloc::Global;

fn key_list_copy(alloc: Global, xs: &[P4Key]) -> Result<Items<P4Key>, NoMemory>
    ensures { IfOk result (λ c. c ≡ xs.now) }
{
    let mut copies = Items::new(alloc);
    for x in xs {
        let expr = expr_copy(alloc, x.expr.get())?;
        copies.push(P4Key {
            at: x.at,
            expr,
            matching: x.matching,
        })?;
    }
    Ok(copies)
}

fn keys_copy(alloc: Global, k: &P4Keys) -> Result<P4Keys, NoMemory>
    ensures { IfOk result (λ c. c ≡ k.now) }
{
    Ok(P4Keys {
        at: k.at,
        keys: key_list_copy(alloc, k.keys.as_slice())?,
    })
}

fn acts_copy(alloc: Global, a: &P4Acts) -> Result<P4Acts, NoMemory>
    ensures { IfOk result (λ c. c ≡ a.now) }
{
    Ok(P4Acts {
        at: a.at,
        names: names_copy(alloc, a.names.as_slice())?,
    })
}

fn call_copy(alloc: Global, x: &P4Call) -> Result<P4Call, NoMemory>
    ensures { IfOk result (λ c. c ≡ x.now) }
{
    let name = name_copy(&x.name)?;
    Ok(P4Call {
        at: x.at,
        name,
        args: exprs_copy(alloc, x.args.as_slice())?,
    })
}

fn default_copy(alloc: Global, d: &Option<P4Default>) -> Result<Option<P4Default>, NoMemory>
    ensures { IfOk result (λ c. c ≡ d.now) }
{
    match d {
        None => Ok(None),
        Some(d) => Ok(Some(P4Default {
            at: d.at,
            const_: d.const_,
            call: call_copy(alloc, &d.call)?,
        })),
    }
}

fn entry_copy(alloc: Global, e: &P4Entry) -> Result<P4Entry, NoMemory>
    ensures { IfOk result (λ c. c ≡ e.now) }
{
    let keyset = keyset_copy(alloc, e.keyset.get())?;
    Ok(P4Entry {
        at: e.at,
        keyset,
        call: call_copy(alloc, &e.call)?,
    })
}

fn entry_list_copy(alloc: Global, xs: &[P4Entry]) -> Result<Items<P4Entry>, NoMemory>
    ensures { IfOk result (λ c. c ≡ xs.now) }
{
    let mut copies = Items::new(alloc);
    for x in xs {
        copies.push(entry_copy(alloc, x)?)?;
    }
    Ok(copies)
}

fn entries_copy(alloc: Global, e: &Option<P4Entries>) -> Result<Option<P4Entries>, NoMemory>
    ensures { IfOk result (λ c. c ≡ e.now) }
{
    match e {
        None => Ok(None),
        Some(e) => Ok(Some(P4Entries {
            at: e.at,
            const_: e.const_,
            entries: entry_list_copy(alloc, e.entries.as_slice())?,
        })),
    }
}

/// An equal table.
///
/// # Errors
/// `NoMemory`.
pub fn table_copy(alloc: Global, t: &P4Table) -> Result<P4Table, NoMemory>
    ensures { IfOk result (λ c. c ≡ t.now) }
{
    let name = name_copy(&t.name)?;
    let keys = keys_copy(alloc, &t.keys)?;
    let acts = acts_copy(alloc, &t.acts)?;
    let default = Boxed::new(alloc, default_copy(alloc, &t.default)?)?;
    Ok(P4Table {
        at: t.at,
        name,
        keys,
        acts,
        entries: entries_copy(alloc, &t.entries)?,
        default: default.into_inner(),
        size: t.size,
    })
}
