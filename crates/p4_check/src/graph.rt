//! The names of states, and how states lead to one another.
ghost use Rattle.std.specs.Prelude.{◌≡◌, ◌<◌, ◌+◌, ◌^◌, [], ◌∷◌, true, Bool, OnOk, IfOk, None};
ghost use Rattle.rp_base.specs.declared.refused.Why.TheVariants as why;
ghost use Rattle.p4_scope.specs.Faults.{first_of, fault_if};
ghost use Rattle.p4_cycles.specs.Graphs.{falls, leads_back};
ghost use Rattle.p4_check.specs.Parsers.{no_states, with_state, named_states, number, case_numbers, target_numbers, graph_of, graph, cycle_at, case_cycles, target_cycles, cycles};

use crate::part::States;
use p4_ast::{P4Case, P4Name, P4State, P4Target};
use p4_cycles::{falls, is_clear, leads_back, ranks};
use p4_scope::Named;
use p4_scope::refusal::{earlier, fault_if};
use rp_base::{NoMemory, Refused, Why};
use sqlite_items::Items;
use std::alloc::Global;

impl States {
    fn new(alloc: Global) -> Result<States, NoMemory>
        ensures { IfOk result (λ ts. ts ≡ no_states) }
    {
        let mut names = Named::new(alloc);
        names.add(alloc, b"accept".as_slice(), 0)?;
        names.add(alloc, b"reject".as_slice(), 0)?;
        Ok(States {
            fault: None,
            names,
            next: 1,
        })
    }

    fn add(&mut self, alloc: Global, x: &P4Name) -> Result<(), NoMemory>
        requires { self.old.next + 1 < 2 ^ 64 }
        ensures { OnOk result (self.new ≡ with_state x.now self.old) }
    {
        let twice = self.names.is_there(x.text.as_slice());
        self.fault = earlier(self.fault, fault_if(twice, Why::Twice, x.at));
        self.names.keep(alloc, x.text.as_slice(), self.next)?;
        self.next += 1;
        Ok(())
    }
}

/// The names of states with their numbers.
pub fn named_states(alloc: Global, ts: &[P4State]) -> Result<States, NoMemory>
    ensures { IfOk result (λ r. r ≡ named_states ts.now no_states) }
{
    let mut states = States::new(alloc)?;
    for t in ts {
        states.add(alloc, &t.name)?;
    }
    Ok(states)
}

fn number(names: &Named<u64>, x: &P4Name) -> u64
    ensures { result ≡ number names.now x.now }
{
    match names.find(x.text.as_slice()) {
        None => 0,
        Some(n) => n,
    }
}

fn case_numbers(alloc: Global, names: &Named<u64>, cs: &[P4Case]) -> Result<Items<u64>, NoMemory>
    ensures { IfOk result (λ r. r ≡ case_numbers names.now cs.now []) }
{
    let mut ns = Items::new(alloc);
    for c in cs {
        ns.push(number(names, &c.name))?;
    }
    Ok(ns)
}

fn target_numbers(alloc: Global, names: &Named<u64>, t: &P4Target) -> Result<Items<u64>, NoMemory>
    ensures { IfOk result (λ r. r ≡ target_numbers names.now t.now) }
{
    match t {
        P4Target::Name { name, .. } => {
            let mut ns = Items::new(alloc);
            ns.push(number(names, name))?;
            Ok(ns)
        }
        P4Target::Select { cases, .. } => case_numbers(alloc, names, cases.as_slice()),
    }
}

// The graph of all states: an end leads nowhere.
fn graph(alloc: Global, names: &Named<u64>, ts: &[P4State]) -> Result<Items<Items<u64>>, NoMemory>
    ensures { IfOk result (λ r. r ≡ graph names.now ts.now) }
{
    let mut g = Items::new(alloc);
    g.push(Items::new(alloc))?;
    for t in ts {
        g.push(target_numbers(alloc, names, &t.target)?)?;
    }
    Ok(g)
}

/// States, and what tells without a search that some of them can't lead back: their ranks, and whether these never rise.
#[derive(Drop)]
struct Search {
    graph: Items<Items<u64>>,
    ranks: Items<u64>,
    falling: bool,
}

// Whether no cycle at this place can come first.
fn is_settled(found: Option<Refused>, at: u64) -> bool
    ensures { result ≡ true → (b : Bool) → first_of found (fault_if b why.Cycle at) ≡ found }
{
    match found {
        None => false,
        Some(f) => f.at < at || (f.at == at && f.why == Why::Cycle),
    }
}

fn may_return(alloc: Global, s: &Search, n: u64) -> Result<bool, NoMemory>
    requires { s.now.falling ≡ falls s.now.ranks 0 s.now.graph }
    ensures { IfOk result (λ r. r ≡ leads_back s.now.graph n) }
{
    let g = s.graph.as_slice();
    if s.falling && is_clear(s.ranks.as_slice(), g, n) {
        return Ok(false);
    }
    leads_back(alloc, g, n)
}

// A name whose state can lead back, behind another fault.
fn cycle_at(
    alloc: Global,
    s: &Search,
    names: &Named<u64>,
    x: &P4Name,
    found: Option<Refused>,
) -> Result<Option<Refused>, NoMemory>
    requires { s.now.falling ≡ falls s.now.ranks 0 s.now.graph }
    ensures { IfOk result (λ r. r ≡ cycle_at s.now.graph names.now x.now found) }
{
    if is_settled(found, x.at) {
        return Ok(found);
    }
    let back = may_return(alloc, s, number(names, x))?;
    Ok(earlier(found, fault_if(back, Why::Cycle, x.at)))
}

fn case_cycles(
    alloc: Global,
    s: &Search,
    names: &Named<u64>,
    cs: &[P4Case],
    found: Option<Refused>,
) -> Result<Option<Refused>, NoMemory>
    requires { s.now.falling ≡ falls s.now.ranks 0 s.now.graph }
    ensures { IfOk result (λ r. r ≡ case_cycles s.now.graph names.now cs.now found) }
{
    let mut first = found;
    for c in cs {
        first = cycle_at(alloc, s, names, &c.name, first)?;
    }
    Ok(first)
}

fn target_cycles(
    alloc: Global,
    s: &Search,
    names: &Named<u64>,
    t: &P4Target,
    found: Option<Refused>,
) -> Result<Option<Refused>, NoMemory>
    requires { s.now.falling ≡ falls s.now.ranks 0 s.now.graph }
    ensures { IfOk result (λ r. r ≡ target_cycles s.now.graph names.now t.now found) }
{
    match t {
        P4Target::Name { name, .. } => cycle_at(alloc, s, names, name, found),
        P4Target::Select { cases, .. } => case_cycles(alloc, s, names, cases.as_slice(), found),
    }
}

fn search_of(alloc: Global, names: &Named<u64>, ts: &[P4State]) -> Result<Search, NoMemory>
    ensures graph { IfOk result (λ s. s.graph ≡ graph names.now ts.now) }
    ensures falling { IfOk result (λ s. s.falling ≡ falls s.ranks 0 s.graph) }
{
    let graph = graph(alloc, names, ts)?;
    let ranks = ranks(alloc, graph.as_slice())?;
    let falling = falls(ranks.as_slice(), graph.as_slice());
    Ok(Search {
        graph,
        ranks,
        falling,
    })
}

/// The first name whose state can lead back. Names come by place, so that at most one search finds a way.
///
/// # Errors
/// `NoMemory`.
pub fn cycles(
    alloc: Global,
    names: &Named<u64>,
    ts: &[P4State],
) -> Result<Option<Refused>, NoMemory>
    ensures { IfOk result (λ r. r ≡ cycles (graph names.now ts.now) names.now ts.now None) }
{
    let s = search_of(alloc, names, ts)?;
    let mut first = None;
    for t in ts {
        first = target_cycles(alloc, &s, names, &t.target, first)?;
    }
    Ok(first)
}
