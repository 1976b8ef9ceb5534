//! Flow keys: where they may stand, and which reads and writes of cells their bodies reach.
ghost use Rattle.std.specs.Prelude.{◌≡◌, Some, None, option_map};
ghost use Rattle.p4_scope.specs.Faults.{first_in};
ghost use Rattle.p4_scope.specs.FlowKeys.{key_fault, behind_key, in_block, in_branch, first_at, used_in, cell_used, reach, applying, action_uses, is_action, is_table, params_of, table_uses, called, applied, reach_all, reach_listed, unreached, closed};

use crate::kind::Kind;
use crate::refusal::{earlier, fault, fault_if};
use crate::scope::Scope;
use crate::thing::{Action, Site, Table, Thing};
use rp_base::{Refused, Why};

/// A flow key may stand only directly in a tail block, in no body.
pub fn key_fault(at: u64, site: Site) -> Option<Refused>
    ensures { result ≡ key_fault at site }
{
    match site {
        Site::Tail => None,
        _ => fault(Why::Key, at),
    }
}

/// Where the rest of a block stands: a misplaced flow key has no body.
pub fn behind_key(site: Site) -> Site
    ensures { result ≡ behind_key site }
{
    match site {
        Site::Tail => Site::Body,
        p => p,
    }
}

/// In a block that is a statement.
pub fn in_block(site: Site) -> Site
    ensures { result ≡ in_block site }
{
    match site {
        Site::Tail => Site::Other,
        p => p,
    }
}

/// In a branch, of the last statement of a block or of another.
pub fn in_branch(last: bool, site: Site) -> Site
    ensures { result ≡ in_branch last site }
{
    if last { site } else { in_block(site) }
}

/// The lesser place.
pub fn first_at(p: Option<u64>, q: Option<u64>) -> Option<u64>
    ensures { result ≡ first_at p q }
{
    match (p, q) {
        (None, q) => q,
        (Some(p), None) => Some(p),
        (Some(p), Some(q)) => Some(p.min(q)),
    }
}

fn reach(n: u64, actions: &mut [Action])
    ensures { actions.new ≡ reach n actions.old }
{
    let n = n as usize;
    if n < actions.len() {
        actions[n].reached = true;
    }
}

fn applying(n: u64, tables: &mut [Table])
    ensures { tables.new ≡ applying n tables.old }
{
    let n = n as usize;
    if n < tables.len() {
        tables[n].applied = true;
    }
}

fn reach_all(ns: &[u64], actions: &mut [Action])
    ensures { actions.new ≡ reach_all ns.now actions.old }
{
    for n in ns {
        reach(*n, actions);
    }
}

fn reach_listed(tables: &[Table], actions: &mut [Action])
    ensures { actions.new ≡ reach_listed tables.now actions.old }
{
    for t in tables {
        let listed = if t.applied { t.actions.as_slice() } else { &[] };
        reach_all(listed, actions);
    }
}

fn unreached(a: &Action) -> Option<Refused>
    ensures { result ≡ unreached a.now }
{
    if a.reached {
        return None;
    }
    match a.uses {
        None => None,
        Some(at) => fault(Why::Key, at),
    }
}

fn first_unreached(actions: &[Action]) -> Option<Refused>
    ensures { result ≡ first_in unreached actions.now None }
{
    let mut found = None;
    for a in actions {
        found = earlier(found, unreached(a));
    }
    found
}

/// Whether it is an action.
pub fn is_action(t: Option<Thing>) -> bool
    ensures { result ≡ is_action t }
{
    match t {
        Some(Thing::Action(_)) => true,
        Some(Thing::NoAction) => true,
        _ => false,
    }
}

/// Whether it is a table.
pub fn is_table(t: Option<Thing>) -> bool
    ensures { result ≡ is_table t }
{
    match t {
        Some(Thing::Table(_)) => true,
        _ => false,
    }
}

impl Scope {
    /// The parameters of an action, where they are known.
    pub fn params(&self, t: Option<Thing>) -> Option<&[Kind]>
        ensures { option_map (λ ks. ks.now) result ≡ params_of t self.now }
    {
        match t {
            Some(Thing::Action(n)) => match self.actions.get(n as usize) {
                None => None,
                Some(a) => Some(a.params.as_slice()),
            },
            Some(Thing::NoAction) => Some(&[]),
            _ => None,
        }
    }

    fn used(&mut self, at: u64)
        ensures { self.new ≡ used_in self.old.site at self.old }
    {
        match self.site {
            Site::Action => {
                self.uses = first_at(self.uses, Some(at));
            }
            Site::Body => {}
            _ => {
                self.note(fault(Why::Key, at));
            }
        }
    }

    /// The statement at this place reads or writes what a name stands for.
    pub fn cell_used(&mut self, at: u64, t: Option<Thing>)
        ensures { self.new ≡ cell_used at t self.old }
    {
        match t {
            Some(Thing::Cell(_)) => {
                self.used(at);
            }
            Some(Thing::Array(_)) => {
                self.used(at);
            }
            _ => {}
        }
    }

    /// Whether an action reads or writes a cell.
    pub fn action_uses(&self, n: u64) -> bool
        ensures { result ≡ action_uses self.now.actions n }
    {
        match self.actions.get(n as usize) {
            None => false,
            Some(a) => a.uses.is_some(),
        }
    }

    fn table_uses(&self, n: u64) -> bool
        ensures { result ≡ table_uses self.now.tables n }
    {
        match self.tables.get(n as usize) {
            None => false,
            Some(t) => t.uses,
        }
    }

    /// The statement at this place calls what a name stands for.
    pub fn called(&mut self, at: u64, t: Option<Thing>)
        ensures { self.new ≡ called at t self.old }
    {
        let Some(Thing::Action(n)) = t else {
            return;
        };
        match self.site {
            Site::Body => {
                reach(n, self.actions.as_mut_slice());
            }
            _ => {
                let f = fault_if(self.action_uses(n), Why::Key, at);
                self.note(f);
            }
        }
    }

    /// The statement at this place applies what a name stands for.
    pub fn applied(&mut self, at: u64, t: Option<Thing>)
        ensures { self.new ≡ applied at t self.old }
    {
        let Some(Thing::Table(n)) = t else {
            return;
        };
        match self.site {
            Site::Body => {
                applying(n, self.tables.as_mut_slice());
            }
            _ => {
                let f = fault_if(self.table_uses(n), Why::Key, at);
                self.note(f);
            }
        }
    }

    /// Behind the control: the reads and writes of cells in actions that no body reaches.
    pub fn close(&mut self)
        ensures { self.new ≡ closed self.old }
    {
        reach_listed(self.tables.as_slice(), self.actions.as_mut_slice());
        let f = first_unreached(self.actions.as_slice());
        self.note(f);
    }
}
