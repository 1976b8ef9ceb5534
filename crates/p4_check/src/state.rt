//! The parser: what stands in its states.
ghost use Rattle.std.specs.Prelude.{◌≡◌, [], OnOk, IfOk, None};
ghost use Rattle.p4_scope.specs.Faults.{every};
ghost use Rattle.p4_check.specs.Parsers.{is_packet, state_step, none_selected, with_selected, selected, target_fault, case_, target_, state, params, start_fault, states_fault, parser_in, parser};

use crate::graph::{cycles, named_states};
use crate::part::{Selected, States};
use p4_ast::{P4Case, P4Expr, P4Extract, P4Match, P4Name, P4Parser, P4State, P4Step, P4Target};
use p4_scope::copy::{name_copy, path_copy};
use p4_scope::param::parser_param;
use p4_scope::refusal::{earlier, fault_if};
use p4_scope::{Kind, Named, Scope, Thing, must_be};
use p4_tables::keyset::keyset_matched;
use p4_tables::{Key, Matched};
use p4_typing::Typed;
use p4_typing::call::assign;
use p4_typing::taking::bits_alone;
use p4_typing::typing::typed;
use rp_base::{NoMemory, Refused, Why};
use sqlite_items::{Boxed, Items};
use std::alloc::Global;

/// Whether it is the packet.
pub fn is_packet(t: Option<Thing>) -> bool
    ensures { result ≡ is_packet t }
{
    match t {
        Some(Thing::Packet) => true,
        _ => false,
    }
}

// A statement of a state.
fn state_step(alloc: Global, s: &Scope, x: &P4Step) -> Result<(Option<Refused>, P4Step), NoMemory>
    ensures { IfOk result (λ r. r ≡ state_step s.now x.now) }
{
    match x {
        P4Step::Extract(e) => {
            let t = s.find(&e.name);
            let f = earlier(must_be(is_packet(t), &e.name, t), s.header_path(&e.path));
            let name = name_copy(&e.name)?;
            let path = path_copy(alloc, &e.path)?;
            Ok((
                f,
                P4Step::Extract(P4Extract {
                    at: e.at,
                    name,
                    path,
                }),
            ))
        }
        P4Step::Assign(a) => {
            let (f, a) = assign(alloc, a, s)?;
            Ok((f, P4Step::Assign(a)))
        }
    }
}

fn steps(
    alloc: Global,
    xs: &[P4Step],
    s: &Scope,
) -> Result<(Option<Refused>, Items<P4Step>), NoMemory>
    ensures { IfOk result (λ r. r ≡ every (state_step s.now) xs.now (None, [])) }
{
    let mut f = None;
    let mut done = Items::new(alloc);
    for x in xs {
        let (g, x) = state_step(alloc, s, x)?;
        done.push(x)?;
        f = earlier(f, g);
    }
    Ok((f, done))
}

impl Selected {
    fn new(alloc: Global) -> Selected
        ensures { result ≡ none_selected }
    {
        Selected {
            fault: None,
            forms: Items::new(alloc),
            exprs: Items::new(alloc),
        }
    }

    fn add(&mut self, t: Typed) -> Result<(), NoMemory>
        ensures { OnOk result (self.new ≡ with_selected self.old t) }
    {
        let Typed {
            fault,
            form,
            expr,
            ..
        } = t;
        self.fault = earlier(self.fault, fault);
        self.exprs.push(expr.into_inner())?;
        self.forms.push(Key {
            matching: P4Match::Ternary,
            form,
        })?;
        Ok(())
    }
}

// The values that a state chooses by.
fn selected(alloc: Global, es: &[P4Expr], s: &Scope) -> Result<Selected, NoMemory>
    ensures { IfOk result (λ r. r ≡ selected es.now s.now none_selected) }
{
    let mut done = Selected::new(alloc);
    for e in es {
        let t = typed(alloc, e, s)?;
        let t = bits_alone(alloc, t)?;
        done.add(t)?;
    }
    Ok(done)
}

fn target_fault(names: &Named<u64>, x: &P4Name) -> Option<Refused>
    ensures { result ≡ target_fault names.now x.now }
{
    fault_if(!names.is_there(x.text.as_slice()), Why::Unknown, x.at)
}

fn case_(
    alloc: Global,
    names: &Named<u64>,
    ks: &[Key],
    s: &Scope,
    c: &P4Case,
) -> Result<(Option<Refused>, P4Case), NoMemory>
    ensures { IfOk result (λ r. r ≡ case_ names.now ks.now s.now c.now) }
{
    let Matched {
        fault: f,
        keyset,
        ..
    } = keyset_matched(alloc, ks, c.keyset.get(), s)?;
    let name = name_copy(&c.name)?;
    Ok((
        earlier(f, target_fault(names, &c.name)),
        P4Case {
            at: c.at,
            keyset,
            name,
        },
    ))
}

fn cases(
    alloc: Global,
    names: &Named<u64>,
    ks: &[Key],
    cs: &[P4Case],
    s: &Scope,
    f: Option<Refused>,
) -> Result<(Option<Refused>, Items<P4Case>), NoMemory>
    ensures { IfOk result (λ r. r ≡ every (case_ names.now ks.now s.now) cs.now (f, [])) }
{
    let mut f = f;
    let mut done = Items::new(alloc);
    for c in cs {
        let (g, c) = case_(alloc, names, ks, s, c)?;
        done.push(c)?;
        f = earlier(f, g);
    }
    Ok((f, done))
}

// What follows a state.
fn target(
    alloc: Global,
    names: &Named<u64>,
    t: &P4Target,
    s: &Scope,
) -> Result<(Option<Refused>, Boxed<P4Target>), NoMemory>
    ensures { IfOk result (λ r. r ≡ target_ names.now t.now s.now) }
{
    match t {
        P4Target::Name { at, name } => {
            let f = target_fault(names, name);
            let name = name_copy(name)?;
            Ok((f, Boxed::new(alloc, P4Target::Name { at: *at, name })?))
        }
        P4Target::Select {
            at,
            exprs,
            cases: cs,
        } => {
            let Selected {
                fault: f,
                forms,
                exprs,
            } = selected(alloc, exprs.as_slice(), s)?;
            let (f, cases) = cases(alloc, names, forms.as_slice(), cs.as_slice(), s, f)?;
            let t = P4Target::Select {
                at: *at,
                exprs,
                cases,
            };
            Ok((f, Boxed::new(alloc, t)?))
        }
    }
}

// A state among these.
fn state(
    alloc: Global,
    names: &Named<u64>,
    s: &Scope,
    t: &P4State,
) -> Result<(Option<Refused>, P4State), NoMemory>
    ensures { IfOk result (λ r. r ≡ state names.now s.now t.now) }
{
    let (f, steps) = steps(alloc, t.steps.as_slice(), s)?;
    let (g, target) = target(alloc, names, &t.target, s)?;
    let name = name_copy(&t.name)?;
    Ok((
        earlier(f, g),
        P4State {
            at: t.at,
            name,
            steps,
            target: target.into_inner(),
        },
    ))
}

fn states(
    alloc: Global,
    names: &Named<u64>,
    s: &Scope,
    ts: &[P4State],
) -> Result<(Option<Refused>, Items<P4State>), NoMemory>
    ensures { IfOk result (λ r. r ≡ every (state names.now s.now) ts.now (None, [])) }
{
    let mut f = None;
    let mut done = Items::new(alloc);
    for t in ts {
        let (g, t) = state(alloc, names, s, t)?;
        done.push(t)?;
        f = earlier(f, g);
    }
    Ok((f, done))
}

fn params(alloc: Global, p: &P4Parser, s: &mut Scope) -> Result<(), NoMemory>
    ensures { OnOk result (s.new ≡ params p.now s.old) }
{
    s.declare(alloc, &p.packet, Thing::Packet)?;
    parser_param(alloc, true, &p.headers, s)?;
    parser_param(alloc, false, &p.meta, s)?;
    s.declare(alloc, &p.std, Thing::Var(Kind::Std))
}

fn start_fault(names: &Named<u64>, p: &P4Parser) -> Option<Refused>
    ensures { result ≡ start_fault names.now p.now }
{
    fault_if(
        !names.is_there(b"start".as_slice()),
        Why::Unknown,
        p.name.at,
    )
}

// The faults of the names of states and of how they lead to one another, behind another fault.
fn states_fault(
    alloc: Global,
    p: &P4Parser,
    ts: &States,
    found: Option<Refused>,
) -> Result<Option<Refused>, NoMemory>
    ensures { IfOk result (λ r. r ≡ states_fault p.now ts.now found) }
{
    let c = cycles(alloc, &ts.names, p.states.as_slice())?;
    let s = start_fault(&ts.names, p);
    Ok(earlier(s, earlier(ts.fault, earlier(found, c))))
}

fn parser_in(alloc: Global, p: &P4Parser, s: &mut Scope) -> Result<Items<P4State>, NoMemory>
    ensures { IfOk result (λ r. (s.new, r) ≡ parser_in p.now s.old) }
{
    let ts = named_states(alloc, p.states.as_slice())?;
    let len = s.len();
    params(alloc, p, s)?;
    let (f, done) = states(alloc, &ts.names, s, p.states.as_slice())?;
    let f = states_fault(alloc, p, &ts, f)?;
    s.leave(len);
    s.note(f);
    Ok(done)
}

/// The parser, in which its name is visible: its states.
///
/// # Errors
/// `NoMemory`.
#[tactic(auto, unfolding(crate::specs::Parsers::parser))]
pub fn parser(alloc: Global, p: &P4Parser, s: &mut Scope) -> Result<Items<P4State>, NoMemory>
    ensures { IfOk result (λ r. (s.new, r) ≡ parser p.now s.old) }
{
    s.declare(alloc, &p.name, Thing::Parser)?;
    parser_in(alloc, p, s)
}
