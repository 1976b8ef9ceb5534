//! Entries of tables.
ghost use Rattle.std.specs.Prelude.{◌≡◌, [], OnOk, IfOk, None};
ghost use Rattle.p4_scope.specs.Faults.{first_in};
ghost use Rattle.p4_scope.specs.Scopes.{Scope};
ghost use Rattle.p4_typing.specs.Expressions.{typed};
ghost use Rattle.p4_tables.specs.Entries.{is_repeated, with_row};
ghost use Rattle.p4_tables.specs.Tables.{arg_fault, entry_, entries, maybe_entries};

use crate::keyset::keyset_matched;
use crate::listed::listed_call;
use crate::part::{Key, Matched};
use p4_ast::{P4Call, P4Entries, P4Entry, P4Expr};
use p4_scope::copy::name_copy;
use p4_scope::refusal::{earlier, fault_if};
use p4_scope::{Named, Scope};
use p4_typing::constant::strange;
use rp_base::{NoMemory, Refused, Why};
use sqlite_items::Items;
use std::alloc::Global;

fn expr_place(e: &P4Expr) -> u64
    ensures { (s : Scope) → result ≡ (typed e.now s).at }
{
    match e {
        P4Expr::Choice { at, .. } => *at,
        P4Expr::Binary { at, .. } => *at,
        P4Expr::Unary { at, .. } => *at,
        P4Expr::Cast { at, .. } => *at,
        P4Expr::Slice { at, .. } => *at,
        P4Expr::Number { at, .. } => *at,
        P4Expr::True { at } => *at,
        P4Expr::False { at } => *at,
        P4Expr::Path { at, .. } => *at,
        P4Expr::IsValid { at, .. } => *at,
    }
}

// An argument of an entry's call is built of literals and constants.
fn arg_fault(s: &Scope, e: &P4Expr) -> Option<Refused>
    ensures { result ≡ arg_fault s.now e.now }
{
    fault_if(strange(e, s).is_some(), Why::Entry, expr_place(e))
}

fn args_fault(es: &[P4Expr], s: &Scope, f: Option<Refused>) -> Option<Refused>
    ensures { result ≡ first_in (arg_fault s.now) es.now f }
{
    let mut f = f;
    for e in es {
        f = earlier(f, arg_fault(s, e));
    }
    f
}

fn is_repeated(m: &Matched, rows: &Named<u64>) -> bool
    ensures { result ≡ is_repeated m.now rows.now }
{
    m.known && rows.is_there(m.row.as_slice())
}

fn with_row(alloc: Global, m: &Matched, at: u64, rows: &mut Named<u64>) -> Result<(), NoMemory>
    ensures { OnOk result (rows.new ≡ with_row m.now at rows.old) }
{
    if m.known {
        rows.keep(alloc, m.row.as_slice(), at)?;
    }
    Ok(())
}

// An entry, which repeats an earlier one or not.
fn entry(
    alloc: Global,
    names: &Named<u64>,
    e: &P4Entry,
    m: Matched,
    repeated: bool,
    s: &Scope,
) -> Result<(Option<Refused>, P4Entry), NoMemory>
    ensures { IfOk result (λ r. r ≡ entry_ names.now e.now m repeated s.now) }
{
    let Matched {
        fault: f,
        keyset,
        ..
    } = m;
    let g = args_fault(
        e.call.args.as_slice(),
        s,
        fault_if(repeated, Why::Entry, e.at),
    );
    let (h, args) = listed_call(alloc, names, &e.call, s)?;
    let name = name_copy(&e.call.name)?;
    let call = P4Call {
        at: e.call.at,
        name,
        args,
    };
    Ok((
        earlier(f, earlier(g, h)),
        P4Entry {
            at: e.at,
            keyset,
            call,
        },
    ))
}

fn entries(
    alloc: Global,
    names: &Named<u64>,
    ks: &[Key],
    es: &[P4Entry],
    s: &Scope,
) -> Result<(Option<Refused>, Items<P4Entry>), NoMemory>
    ensures { IfOk result (λ r. r ≡ entries names.now ks.now es.now s.now [] (None, [])) }
{
    let mut f = None;
    let mut done = Items::new(alloc);
    let mut rows = Named::new(alloc);
    for e in es {
        let m = keyset_matched(alloc, ks, e.keyset.get(), s)?;
        let repeated = is_repeated(&m, &rows);
        with_row(alloc, &m, e.at, &mut rows)?;
        let (g, e) = entry(alloc, names, e, m, repeated, s)?;
        done.push(e)?;
        f = earlier(f, g);
    }
    Ok((f, done))
}

/// The entries of a table, which may be left out.
///
/// # Errors
/// `NoMemory`.
pub fn maybe_entries(
    alloc: Global,
    names: &Named<u64>,
    ks: &[Key],
    e: &Option<P4Entries>,
    s: &Scope,
) -> Result<(Option<Refused>, Option<P4Entries>), NoMemory>
    ensures { IfOk result (λ r. r ≡ maybe_entries names.now ks.now e.now s.now) }
{
    match e {
        None => Ok((None, None)),
        Some(e) => {
            let (f, entries) = entries(alloc, names, ks, e.entries.as_slice(), s)?;
            Ok((
                f,
                Some(P4Entries {
                    at: e.at,
                    const_: e.const_,
                    entries,
                }),
            ))
        }
    }
}
