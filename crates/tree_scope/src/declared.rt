//! What is declared before the parser, and the control's constants.
ghost use Rattle.std.specs.Prelude.{◌≡◌, [], None, IfOk, OnOk};
ghost use Rattle.app_meaning.specs.Programs.{with_type, with_constant, with_declaration, with_local, nothing, globals, locals};
ghost use Rattle.app_meaning.specs.Expressions.{eval};
ghost use Rattle.tree_eval.specs.Seen.{seen};

use crate::types::{header_slots, struct_slots, type_slots};
use app_data::{Constant, Register, Scope, Slot, TypeSlots, Value};
use p4_ast::{P4Const, P4Declaration, P4Local, P4Name, P4Program};
use rp_base::NoMemory;
use sqlite_items::Items;
use std::alloc::Global;
use std::marker::Model;
use tree_eval::eval;

/// Types and constants, of both the last declaration first.
#[derive(Debug, Drop)]
pub struct Declared {
    alloc: Global,
    types: Vec<TypeSlots>,
    constants: Vec<Constant>,
}

impl Model for Declared {
    ghost use Rattle.app_meaning.specs.Slots.{Scope};
    ghost use Rattle.tree_scope.specs.Declaring.{declaring};

    ghost Value = { Scope };

    ghost view = { λ d. declaring d.types.items d.constants.items };
}

impl Declared {
    // Nothing is declared.
    fn new(alloc: Global) -> Declared
        ensures { result ≡ nothing }
    {
        Declared {
            alloc,
            types: Vec::new(alloc),
            constants: Vec::new(alloc),
        }
    }

    /// The types.
    pub fn types(&self) -> &[TypeSlots]
        ensures { result.now ≡ self.now.types }
    {
        self.types.as_slice()
    }

    /// What names stand for, with these cells and slots.
    pub fn scope<'a>(&'a self, registers: &'a [Register], slots: &'a [Slot]) -> Scope<'a>
        ensures { seen result ≡ record { types = self.now.types; constants = self.now.constants; registers = registers.now; slots = slots.now; own = None } }
    {
        Scope {
            types: self.types.as_slice(),
            constants: self.constants.as_slice(),
            registers,
            slots,
            own: None,
        }
    }

    // What is declared so far, without cells and slots.
    fn alone(&self) -> Scope<'_>
        ensures { seen result ≡ self.now }
    {
        Scope {
            types: self.types.as_slice(),
            constants: self.constants.as_slice(),
            registers: &[],
            slots: &[],
            own: None,
        }
    }

    // The value of a constant, among what is declared so far.
    fn value(&self, c: &P4Const) -> Value
        ensures { result ≡ eval c.now.expr self.now [] }
    {
        eval(c.expr.get(), self.alone(), &[])
    }

    // A type more.
    fn add_type(&mut self, name: &P4Name, slots: Items<Slot>) -> Result<(), NoMemory>
        ensures { OnOk result (self.new ≡ with_type self.old name.now slots) }
    {
        let name = name.text.copy()?;
        self.types.insert(0, TypeSlots { name, slots })?;
        Ok(())
    }

    // A constant more.
    fn add_constant(&mut self, c: &P4Const) -> Result<(), NoMemory>
        ensures { OnOk result (self.new ≡ with_constant self.old c.now.name (eval c.now.expr self.old [])) }
    {
        let value = self.value(c);
        let name = c.name.text.copy()?;
        self.constants.insert(0, Constant { name, value })?;
        Ok(())
    }

    // A declaration more.
    fn add(&mut self, d: &P4Declaration) -> Result<(), NoMemory>
        ensures { OnOk result (self.new ≡ with_declaration self.old d.now) }
    {
        match d {
            P4Declaration::Header(h) => {
                let slots = header_slots(self.alloc, self.types(), h.fields.as_slice())?;
                self.add_type(&h.name, slots)
            }
            P4Declaration::Struct(s) => {
                let slots = struct_slots(self.alloc, self.types(), s.fields.as_slice())?;
                self.add_type(&s.name, slots)
            }
            P4Declaration::Typedef(t) => {
                let slots = type_slots(self.alloc, self.types(), &t.type_)?;
                self.add_type(&t.name, slots)
            }
            P4Declaration::Const(c) => self.add_constant(c),
        }
    }

    // A local more: of these constants alone.
    fn add_local(&mut self, l: &P4Local) -> Result<(), NoMemory>
        ensures { OnOk result (self.new ≡ with_local self.old l.now) }
    {
        match l {
            P4Local::Const(c) => self.add_constant(c),
            P4Local::Var(_) | P4Local::Cell(_) | P4Local::Action(_) | P4Local::Table(_) => Ok(()),
        }
    }
}

/// What is declared before the parser.
///
/// # Errors
/// `NoMemory`.
pub fn globals(alloc: Global, p: &P4Program) -> Result<Declared, NoMemory>
    ensures { IfOk result (λ d. d ≡ globals p.now) }
{
    let mut declared = Declared::new(alloc);
    for d in p.declarations.as_slice() {
        declared.add(d)?;
    }
    Ok(declared)
}

/// What is declared before the parser, and the control's constants.
///
/// # Errors
/// `NoMemory`.
pub fn locals(alloc: Global, p: &P4Program) -> Result<Declared, NoMemory>
    ensures { IfOk result (λ d. d ≡ locals p.now) }
{
    let mut declared = globals(alloc, p)?;
    for l in p.ingress.locals.as_slice() {
        declared.add_local(l)?;
    }
    Ok(declared)
}
