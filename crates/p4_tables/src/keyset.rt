//! Keysets, and what they match.
ghost use Rattle.std.specs.Prelude.{◌≡◌, [], OnOk, IfOk, is_some};
ghost use Rattle.std.specs.Prelude.{Some, None};
ghost use Rattle.p4_scope.specs.Faults.{first_of, fault_if};
ghost use Rattle.p4_ast.specs.declared.parser.P4One.TheVariants as one;
ghost use Rattle.p4_ast.specs.declared.parser.P4Keyset.TheVariants as keyset;
ghost use Rattle.rp_base.specs.declared.refused.Why.TheVariants as why;
ghost use Rattle.p4_typing.specs.Values.{strange};
ghost use Rattle.p4_tables.specs.Entries.{no_key, entry_fault, number_at, member, key_first, key_rest, no_members, with_member, members, keys_for, members_at, one_at, any_row, single, anything, keyset_matched};

use crate::masked::{append_row, exactly, mask_fault, number_for, under};
use crate::part::{Key, Masked, Matched, Member, Members};
use p4_ast::{P4Expr, P4Keyset, P4Match, P4One};
use p4_scope::Scope;
use p4_scope::refusal::{earlier, fault_if};
use p4_typing::constant::{strange, value_of};
use p4_typing::typing::at_place;
use p4_typing::{Form, Typed};
use rp_base::{Bytes, NoMemory, Refused, Why};
use sqlite_items::{Boxed, Items};
use std::alloc::Global;

// An entry's value is built of literals and constants.
fn entry_fault(e: &P4Expr, at: u64, f: Option<Refused>, s: &Scope) -> Option<Refused>
    ensures { result ≡ first_of f (fault_if (is_some (strange e.now s.now)) why.Entry at) }
{
    earlier(f, fault_if(strange(e, s).is_some(), Why::Entry, at))
}

// A value for a key, its fault and its number.
fn number_at(
    alloc: Global,
    k: Form,
    e: &P4Expr,
    s: &Scope,
) -> Result<(Typed, Option<Refused>, Option<u128>), NoMemory>
    ensures { IfOk result (λ r. r ≡ number_at k e.now s.now) }
{
    let t = at_place(alloc, k, e, s)?;
    let f = entry_fault(e, t.at, t.fault, s);
    let n = number_for(k, value_of(t.expr.get(), s));
    Ok((t, f, n))
}

// A value alone, which must be all bits of its key.
fn plain(alloc: Global, k: Key, at: u64, e: &P4Expr, s: &Scope) -> Result<Member, NoMemory>
    ensures { IfOk result (λ r. r ≡ member k (one.Expr at e.now None) s.now) }
{
    let (t, f, n) = number_at(alloc, k.form, e, s)?;
    let one = P4One::Expr {
        at,
        expr: t.expr,
        mask: None,
    };
    Ok(Member {
        fault: f,
        masked: exactly(k.form, n),
        one: Boxed::new(alloc, one)?,
    })
}

fn under_mask(
    alloc: Global,
    k: Key,
    at: u64,
    e: &P4Expr,
    m: &P4Expr,
    s: &Scope,
) -> Result<Member, NoMemory>
    ensures { IfOk result (λ r. r ≡ member k (one.Expr at e.now (Some m.now)) s.now) }
{
    let (x, f, n) = number_at(alloc, k.form, e, s)?;
    let (y, g, m) = number_at(alloc, k.form, m, s)?;
    let h = mask_fault(y.at, k.matching, k.form, m);
    let one = P4One::Expr {
        at,
        expr: x.expr,
        mask: Some(y.expr),
    };
    Ok(Member {
        fault: earlier(f, earlier(g, h)),
        masked: under(n, m),
        one: Boxed::new(alloc, one)?,
    })
}

// A member of a keyset, for this key.
fn member(alloc: Global, k: Key, o: &P4One, s: &Scope) -> Result<Member, NoMemory>
    ensures { IfOk result (λ r. r ≡ member k o.now s.now) }
{
    match o {
        P4One::Any { at } => {
            let one = Boxed::new(alloc, P4One::Any { at: *at })?;
            Ok(Member {
                fault: None,
                masked: Some(Masked { value: 0, mask: 0 }),
                one,
            })
        }
        P4One::Expr {
            at,
            expr,
            mask: None,
        } => plain(alloc, k, *at, expr.get(), s),
        P4One::Expr {
            at,
            expr,
            mask: Some(m),
        } => under_mask(alloc, k, *at, expr.get(), m.get(), s),
    }
}

fn key_first(ks: &[Key]) -> Key
    ensures { result ≡ key_first ks.now }
{
    match ks {
        [] => Key {
            matching: P4Match::Ternary,
            form: Form::Failed,
        },
        [k, ..] => *k,
    }
}

fn key_rest(ks: &[Key]) -> &[Key]
    ensures { result.now ≡ key_rest ks.now }
{
    match ks {
        [] => ks,
        [_, rest @ ..] => rest,
    }
}

impl Members {
    fn new(alloc: Global) -> Members
        ensures { result ≡ no_members }
    {
        Members {
            fault: None,
            known: true,
            row: Bytes::new(alloc),
            ones: Items::new(alloc),
        }
    }

    fn add(&mut self, m: Member) -> Result<(), NoMemory>
        ensures { OnOk result (self.new ≡ with_member self.old m) }
    {
        let Member { fault, masked, one } = m;
        self.fault = earlier(self.fault, fault);
        self.ones.push(one.into_inner())?;
        match masked {
            None => {
                self.known = false;
            }
            Some(m) => {
                append_row(&mut self.row, m)?;
            }
        }
        Ok(())
    }
}

fn members(alloc: Global, ks: &[Key], os: &[P4One], s: &Scope) -> Result<Members, NoMemory>
    ensures { IfOk result (λ r. r ≡ members ks.now os.now s.now no_members) }
{
    let mut done = Members::new(alloc);
    let mut left = ks;
    for o in os {
        done.add(member(alloc, key_first(left), o, s)?)?;
        left = key_rest(left);
    }
    Ok(done)
}

// The keys for so many members: another number has none.
fn keys_for(ks: &[Key], n: usize) -> &[Key]
    ensures { result.now ≡ keys_for ks.now n }
{
    if ks.len() == n { ks } else { &[] }
}

fn members_at(
    alloc: Global,
    at: u64,
    ks: &[Key],
    os: &[P4One],
    s: &Scope,
) -> Result<Members, NoMemory>
    ensures { IfOk result (λ r. r ≡ members_at at ks.now os.now s.now) }
{
    let Members {
        fault: f,
        known,
        row,
        ones,
    } = members(alloc, keys_for(ks, os.len()), os, s)?;
    let same = ks.len() == os.len();
    Ok(Members {
        fault: earlier(fault_if(!same, Why::Entry, at), f),
        known: same && known,
        row,
        ones,
    })
}

fn one_at(o: &P4One) -> u64
    ensures { result ≡ one_at o.now }
{
    match o {
        P4One::Any { at } => *at,
        P4One::Expr { at, .. } => *at,
    }
}

fn any_row(alloc: Global, ks: &[Key]) -> Result<Bytes, NoMemory>
    ensures { IfOk result (λ r. r ≡ any_row ks.now []) }
{
    let mut row = Bytes::new(alloc);
    for key in ks {
        let _matched = key;
        append_row(&mut row, Masked { value: 0, mask: 0 })?;
    }
    Ok(row)
}

fn single(alloc: Global, f: Option<Refused>, known: bool, m: Member) -> Result<Matched, NoMemory>
    ensures { IfOk result (λ r. r ≡ single f known m) }
{
    let Member {
        fault: g,
        masked,
        one,
    } = m;
    let mut row = Bytes::new(alloc);
    if let Some(m) = masked {
        append_row(&mut row, m)?;
    }
    Ok(Matched {
        fault: earlier(f, g),
        known: known && masked.is_some(),
        row,
        keyset: Boxed::new(alloc, P4Keyset::One(one.into_inner()))?,
    })
}

fn tuple(alloc: Global, ks: &[Key], at: u64, os: &[P4One], s: &Scope) -> Result<Matched, NoMemory>
    ensures { IfOk result (λ r. r ≡ keyset_matched ks.now (keyset.Tuple at os.now) s.now) }
{
    let Members {
        fault,
        known,
        row,
        ones,
    } = members_at(alloc, at, ks, os, s)?;
    Ok(Matched {
        fault,
        known,
        row,
        keyset: Boxed::new(alloc, P4Keyset::Tuple { at, ones })?,
    })
}

/// A keyset for these keys.
///
/// # Errors
/// `NoMemory`.
pub fn keyset_matched(
    alloc: Global,
    ks: &[Key],
    k: &P4Keyset,
    s: &Scope,
) -> Result<Matched, NoMemory>
    ensures { IfOk result (λ r. r ≡ keyset_matched ks.now k.now s.now) }
{
    match k {
        P4Keyset::Default { at } => Ok(Matched {
            fault: None,
            known: true,
            row: any_row(alloc, ks)?,
            keyset: Boxed::new(alloc, P4Keyset::Default { at: *at })?,
        }),
        P4Keyset::One(o) => {
            let same = ks.len() == 1;
            let m = member(alloc, key_first(keys_for(ks, 1)), o, s)?;
            single(alloc, fault_if(!same, Why::Entry, one_at(o)), same, m)
        }
        P4Keyset::Tuple { at, ones } => tuple(alloc, ks, *at, ones.as_slice(), s),
    }
}
