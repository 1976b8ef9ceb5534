//! Scopes: what a program has declared so far, and the first fault so far.
ghost use Rattle.std.specs.Prelude.{◌≡◌, ◌∷◌, ◌++◌, [], length, take, OnOk, IfOk, None};
ghost use Rattle.p4_scope.specs.declared.thing.Site.TheVariants as site;
ghost use Rattle.p4_scope.specs.Scopes.{outermost, note, find, declare, is_in, reserved, must_be};

use crate::kind::Kind;
use crate::named::Named;
use crate::refusal::{earlier, fault, fault_if};
use crate::thing::{Action, Site, Table, Thing};
use p4_ast::P4Name;
use rp_base::{NoMemory, Refused, Why};
use std::alloc::Global;
use std::marker::Model;

/// A header or a structure: its place, its fields by name, and what it holds.
#[derive(Drop)]
pub struct Record {
    pub(crate) at: u64,
    pub(crate) fields: Named<Kind>,
    pub(crate) only_headers: bool,
    pub(crate) has_header: bool,
}

impl Model for Record {
    ghost use Rattle.p4_scope.specs.Scopes.{Record as RecordValue};

    ghost Value = { RecordValue };

    ghost view = { λ r. record { at = r.at; fields = r.fields; only_headers = r.only_headers; has_header = r.has_header } };
}

/// What is known before a part of a program.
#[derive(Drop)]
pub struct Scope {
    pub(crate) fault: Option<Refused>,
    names: Named<Thing>,
    pub(crate) records: Vec<Record>,
    cells: u64,
    pub(crate) actions: Vec<Action>,
    pub(crate) tables: Vec<Table>,
    pub(crate) site: Site,
    pub(crate) uses: Option<u64>,
}

impl Model for Scope {
    ghost use Rattle.p4_scope.specs.Scopes.{Scope as ScopeValue};

    ghost Value = { ScopeValue };

    ghost view = { λ s. record {
      fault = s.fault;
      names = s.names;
      records = s.records.items;
      cells = s.cells;
      actions = s.actions.items;
      tables = s.tables.items;
      site = s.site;
      uses = s.uses;
    } };
}

fn is_reserved(x: &[u8]) -> bool
    ensures { result ≡ is_in x.now reserved }
{
    x == b"rp".as_slice() || x == b"rp_t".as_slice() || x == b"rp_cells".as_slice()
}

/// The fault of a name that stands for this, which must be there and be good.
pub fn must_be(good: bool, x: &P4Name, t: Option<Thing>) -> Option<Refused>
    ensures { result ≡ must_be good x.now t }
{
    match t {
        None => fault(Why::Unknown, x.at),
        Some(_) => fault_if(!good, Why::Kind, x.at),
    }
}

impl Scope {
    /// Before the program.
    ///
    /// # Errors
    /// `NoMemory`.
    pub fn outermost(alloc: Global) -> Result<Scope, NoMemory>
        ensures { IfOk result (λ s. s ≡ outermost) }
    {
        let mut names = Named::new(alloc);
        names.add(alloc, b"NoAction".as_slice(), Thing::NoAction)?;
        Ok(Scope {
            fault: None,
            names,
            records: Vec::new(alloc),
            cells: 0,
            actions: Vec::new(alloc),
            tables: Vec::new(alloc),
            site: Site::Other,
            uses: None,
        })
    }

    /// The first fault so far.
    pub fn fault(&self) -> Option<Refused>
        ensures { result ≡ self.now.fault }
    {
        self.fault
    }

    /// Where the part stands.
    pub fn site(&self) -> Site
        ensures { result ≡ self.now.site }
    {
        self.site
    }

    /// From now on parts stand there.
    pub fn stand(&mut self, site: Site)
        ensures { self.new ≡ record self.old { site = site } }
    {
        self.site = site;
    }

    /// How many names are visible.
    pub fn len(&self) -> usize
        ensures { result ≡ length self.now.names }
    {
        self.names.len()
    }

    /// Forgets all names but the first.
    pub fn leave(&mut self, len: usize)
        ensures { self.new ≡ record self.old { names = take len self.old.names } }
    {
        self.names.cut(len);
    }

    /// A fault is found.
    pub fn note(&mut self, f: Option<Refused>)
        ensures { self.new ≡ note f self.old }
    {
        self.fault = earlier(self.fault, f);
    }

    /// What a name stands for.
    pub fn find(&self, x: &P4Name) -> Option<Thing>
        ensures { result ≡ find x.now.text self.now }
    {
        self.names.find(x.text.as_slice())
    }

    /// A declaration: a name that is visible keeps its meaning.
    ///
    /// # Errors
    /// `NoMemory`.
    pub fn declare(&mut self, alloc: Global, x: &P4Name, t: Thing) -> Result<(), NoMemory>
        ensures { OnOk result (self.new ≡ declare x.now t self.old) }
    {
        if self.find(x).is_some() {
            self.note(fault(Why::Twice, x.at));
        } else {
            self.names.add(alloc, x.text.as_slice(), t)?;
            self.note(fault_if(is_reserved(x.text.as_slice()), Why::Twice, x.at));
        }
        Ok(())
    }

    /// The number of the next header or structure.
    pub fn next_record(&self) -> u64
        ensures { result ≡ length self.now.records }
    {
        self.records.len() as u64
    }

    /// A header or structure.
    ///
    /// # Errors
    /// `NoMemory`.
    pub fn add_record(&mut self, r: Record) -> Result<(), NoMemory>
        ensures { OnOk result (self.new ≡ record self.old { records = self.old.records ++ r ∷ [] }) }
    {
        self.records.push(r)?;
        Ok(())
    }

    /// How many cells there are, 257 for more than 256.
    pub fn cells(&self) -> u64
        ensures { result ≡ self.now.cells }
    {
        self.cells
    }

    /// From now on there are so many cells.
    pub fn set_cells(&mut self, cells: u64)
        ensures { self.new ≡ record self.old { cells = cells } }
    {
        self.cells = cells;
    }

    /// The number of the next action.
    pub fn next_action(&self) -> u64
        ensures { result ≡ length self.now.actions }
    {
        self.actions.len() as u64
    }

    /// An action.
    ///
    /// # Errors
    /// `NoMemory`.
    pub fn add_action(&mut self, a: Action) -> Result<(), NoMemory>
        ensures { OnOk result (self.new ≡ record self.old { actions = self.old.actions ++ a ∷ [] }) }
    {
        self.actions.push(a)?;
        Ok(())
    }

    /// The number of the next table.
    pub fn next_table(&self) -> u64
        ensures { result ≡ length self.now.tables }
    {
        self.tables.len() as u64
    }

    /// A table.
    ///
    /// # Errors
    /// `NoMemory`.
    pub fn add_table(&mut self, t: Table) -> Result<(), NoMemory>
        ensures { OnOk result (self.new ≡ record self.old { tables = self.old.tables ++ t ∷ [] }) }
    {
        self.tables.push(t)?;
        Ok(())
    }

    /// The place of the first read or write of a cell in the present action.
    pub fn uses(&self) -> Option<u64>
        ensures { result ≡ self.now.uses }
    {
        self.uses
    }

    /// An action begins.
    pub fn begin_action(&mut self)
        ensures { self.new ≡ record self.old { site = site.Action; uses = None } }
    {
        self.site = Site::Action;
        self.uses = None;
    }
}
