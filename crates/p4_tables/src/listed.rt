//! The keys and the listed actions of tables.
ghost use Rattle.std.specs.Prelude.{◌≡◌, OnOk, IfOk};
ghost use Rattle.std.specs.List.{list_any};
ghost use Rattle.p4_tables.specs.Tables.{no_keys, with_key, keyed, is_lpm, is_ternary, lpm_keys, is_mixed, none_listed, with_act, acts, listed_call};

use crate::part::{Key, Keyed, Listed};
use p4_ast::{P4Call, P4Expr, P4Key, P4Match, P4Name};
use p4_scope::flow::is_action;
use p4_scope::refusal::{earlier, fault_if};
use p4_scope::{Named, Scope, Thing, must_be};
use p4_typing::Typed;
use p4_typing::call::args;
use p4_typing::taking::bits_alone;
use p4_typing::typing::typed;
use rp_base::{NoMemory, Refused, Why};
use sqlite_items::Items;
use std::alloc::Global;

impl Keyed {
    fn new(alloc: Global) -> Keyed
        ensures { result ≡ no_keys }
    {
        Keyed {
            fault: None,
            forms: Items::new(alloc),
            keys: Items::new(alloc),
        }
    }

    fn add(&mut self, k: &P4Key, t: Typed) -> Result<(), NoMemory>
        ensures { OnOk result (self.new ≡ with_key k.now self.old t) }
    {
        let Typed {
            fault,
            form,
            expr,
            ..
        } = t;
        self.fault = earlier(self.fault, fault);
        self.keys.push(P4Key {
            at: k.at,
            expr,
            matching: k.matching,
        })?;
        self.forms.push(Key {
            matching: k.matching,
            form,
        })?;
        Ok(())
    }
}

/// The keys of a table.
///
/// # Errors
/// `NoMemory`.
pub fn keyed(alloc: Global, ks: &[P4Key], s: &Scope) -> Result<Keyed, NoMemory>
    ensures { IfOk result (λ r. r ≡ keyed ks.now s.now no_keys) }
{
    let mut done = Keyed::new(alloc);
    for k in ks {
        let t = typed(alloc, k.expr.get(), s)?;
        let t = bits_alone(alloc, t)?;
        done.add(k, t)?;
    }
    Ok(done)
}

fn is_lpm(m: P4Match) -> bool
    ensures { result ≡ is_lpm m }
{
    match m {
        P4Match::Lpm => true,
        _ => false,
    }
}

fn is_ternary(m: P4Match) -> bool
    ensures { result ≡ is_ternary m }
{
    match m {
        P4Match::Ternary => true,
        _ => false,
    }
}

fn lpm_keys(ks: &[Key]) -> usize
    ensures { result ≡ lpm_keys ks.now 0 }
{
    let mut n = 0;
    for k in ks {
        n += if is_lpm(k.matching) { 1 } else { 0 };
    }
    n
}

fn any_ternary(ks: &[Key]) -> bool
    ensures { result ≡ list_any (λ k. is_ternary k.matching) ks.now }
{
    for k in ks {
        if is_ternary(k.matching) {
            return true;
        }
    }
    false
}

/// Two lpm keys, or one beside a ternary key.
pub fn is_mixed(ks: &[Key]) -> bool
    ensures { result ≡ is_mixed ks.now }
{
    let lpm = lpm_keys(ks);
    1 < lpm || (0 < lpm && any_ternary(ks))
}

impl Listed {
    fn new(alloc: Global) -> Listed
        ensures { result ≡ none_listed }
    {
        Listed {
            fault: None,
            names: Named::new(alloc),
            numbers: Items::new(alloc),
        }
    }

    fn add(&mut self, alloc: Global, x: &P4Name, t: Option<Thing>) -> Result<(), NoMemory>
        ensures { OnOk result (self.new ≡ with_act x.now t self.old) }
    {
        let twice = self.names.is_there(x.text.as_slice());
        let f = earlier(
            fault_if(twice, Why::Twice, x.at),
            must_be(is_action(t), x, t),
        );
        self.fault = earlier(self.fault, f);
        self.names.keep(alloc, x.text.as_slice(), x.at)?;
        if let Some(Thing::Action(n)) = t {
            self.numbers.push(n)?;
        }
        Ok(())
    }
}

/// The listed actions of a table.
///
/// # Errors
/// `NoMemory`.
pub fn acts(alloc: Global, xs: &[P4Name], s: &Scope) -> Result<Listed, NoMemory>
    ensures { IfOk result (λ r. r ≡ acts xs.now s.now none_listed) }
{
    let mut done = Listed::new(alloc);
    for x in xs {
        let t = s.find(x);
        done.add(alloc, x, t)?;
    }
    Ok(done)
}

/// A call of one of the listed actions: its fault, and its arguments.
///
/// # Errors
/// `NoMemory`.
pub fn listed_call(
    alloc: Global,
    names: &Named<u64>,
    c: &P4Call,
    s: &Scope,
) -> Result<(Option<Refused>, Items<P4Expr>), NoMemory>
    ensures { IfOk result (λ r. r ≡ listed_call names.now c.now s.now) }
{
    let t = s.find(&c.name);
    let good = is_action(t) && names.is_there(c.name.text.as_slice());
    let (f, args) = args(alloc, &c.name, t, c.args.as_slice(), s)?;
    Ok((earlier(must_be(good, &c.name, t), f), args))
}
