//! Whole tables.
ghost use Rattle.std.specs.Prelude.{◌≡◌, IfOk};
ghost use Rattle.std.specs.List.{list_any};
ghost use Rattle.p4_scope.specs.FlowKeys.{action_uses};
ghost use Rattle.p4_tables.specs.Tables.{default_, parts, table_in, table};

use crate::entry::maybe_entries;
use crate::listed::{acts, is_mixed, keyed, listed_call};
use crate::part::{Keyed, Listed, Parts};
use p4_ast::{P4Acts, P4Call, P4Default, P4Keys, P4Table};
use p4_scope::copy::{name_copy, names_copy};
use p4_scope::refusal::{earlier, fault_if};
use p4_scope::{Named, Scope, Table, Thing};
use rp_base::{NoMemory, Refused, Why};
use sqlite_items::Boxed;
use std::alloc::Global;

fn with_default(
    alloc: Global,
    names: &Named<u64>,
    d: &Option<P4Default>,
    s: &Scope,
) -> Result<(Option<Refused>, Option<P4Default>), NoMemory>
    ensures { IfOk result (λ r. r ≡ default_ names.now d.now s.now) }
{
    let Some(d) = d else {
        return Ok((None, None));
    };
    let (f, args) = listed_call(alloc, names, &d.call, s)?;
    let name = name_copy(&d.call.name)?;
    let call = P4Call {
        at: d.call.at,
        name,
        args,
    };
    Ok((
        f,
        Some(P4Default {
            at: d.at,
            const_: d.const_,
            call,
        }),
    ))
}

// The parts of a table behind their checks.
fn parts(alloc: Global, t: &P4Table, s: &Scope) -> Result<Boxed<Parts>, NoMemory>
    ensures { IfOk result (λ r. r ≡ parts t.now s.now) }
{
    let k = keyed(alloc, t.keys.keys.as_slice(), s)?;
    let k = Boxed::new(alloc, k)?;
    let l = acts(alloc, t.acts.names.as_slice(), s)?;
    let l = Boxed::new(alloc, l)?;
    let (h, entries) = maybe_entries(
        alloc,
        &l.get().names,
        k.get().forms.as_slice(),
        &t.entries,
        s,
    )?;
    let entries = Boxed::new(alloc, entries)?;
    let (i, default) = with_default(alloc, &l.get().names, &t.default, s)?;
    let Keyed {
        fault: f,
        forms,
        keys,
    } = k.into_inner();
    let Listed {
        fault: g,
        numbers,
        ..
    } = l.into_inner();
    let mixed = fault_if(is_mixed(forms.as_slice()), Why::Kind, t.at);
    let parts = Parts {
        fault: earlier(earlier(f, mixed), earlier(g, earlier(i, h))),
        actions: numbers,
        keys,
        default,
        entries: entries.into_inner(),
    };
    Ok(Boxed::new(alloc, parts)?)
}

fn any_uses(s: &Scope, ns: &[u64]) -> bool
    ensures { result ≡ list_any (action_uses s.now.actions) ns.now }
{
    for n in ns {
        if s.action_uses(*n) {
            return true;
        }
    }
    false
}

// A table whose parts were checked.
fn table_in(alloc: Global, t: &P4Table, p: Boxed<Parts>, s: &mut Scope) -> Result<P4Table, NoMemory>
    ensures { IfOk result (λ r. (s.new, r) ≡ table_in t.now p s.old) }
{
    let names = names_copy(alloc, t.acts.names.as_slice())?;
    let name = name_copy(&t.name)?;
    let Parts {
        fault,
        actions,
        keys,
        default,
        entries,
    } = p.into_inner();
    s.note(fault);
    let uses = any_uses(s, actions.as_slice());
    let keys = P4Keys {
        at: t.keys.at,
        keys,
    };
    let acts = P4Acts {
        at: t.acts.at,
        names,
    };
    let copy = P4Table {
        at: t.at,
        name,
        keys,
        acts,
        default,
        entries,
        size: t.size,
    };
    let copy = Boxed::new(alloc, copy)?;
    s.add_table(Table {
        actions,
        uses,
        applied: false,
    })?;
    Ok(copy.into_inner())
}

/// A table, in which its name is visible.
///
/// # Errors
/// `NoMemory`.
pub fn table(alloc: Global, t: &P4Table, s: &mut Scope) -> Result<P4Table, NoMemory>
    ensures { IfOk result (λ r. (s.new, r) ≡ table t.now s.old) }
{
    let n = s.next_table();
    s.declare(alloc, &t.name, Thing::Table(n))?;
    let p = parts(alloc, t, s)?;
    table_in(alloc, t, p, s)
}
