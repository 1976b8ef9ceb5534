//! The scopes of a program, kept as long as it runs.
ghost use Rattle.std.specs.Prelude.{◌≡◌, ◌≤◌, None, IfOk};
ghost use Rattle.app_meaning.specs.Programs.{cell_count};
ghost use Rattle.tree_eval.specs.Seen.{seen};
ghost use Rattle.tree_scope.specs.Scopes.{scopes_of};

use crate::declared::{Declared, globals, locals};
use crate::registers::registers_of;
use crate::slots::{control_slots, parameter_slots};
use app_data::{Register, Scope, Slot};
use p4_ast::P4Program;
use rp_base::NoMemory;
use sqlite_items::Items;
use std::alloc::Global;
use std::marker::Model;

/// What names stand for in the parser, the ingress control and the deparser of a program.
#[derive(Debug, Drop)]
pub struct Scopes {
    globals: Declared,
    locals: Declared,
    registers: Items<Register>,
    parser: Items<Slot>,
    control: Items<Slot>,
    deparser: Items<Slot>,
}

impl Model for Scopes {
    ghost use Rattle.std.specs.Prelude.{[]};
    ghost use Rattle.tree_scope.specs.Scopes.{ProgramScopes, over};

    ghost Value = { ProgramScopes };

    ghost view = { λ s. record { parser = over s.globals [] s.parser; control = over s.locals s.registers s.control; deparser = over s.globals [] s.deparser } };
}

impl Scopes {
    /// The scopes of a program whose flows have `n` cells. A source has at most 256 of them.
    ///
    /// # Errors
    /// `NoMemory`.
    pub fn of(alloc: Global, p: &P4Program, n: u16) -> Result<Scopes, NoMemory>
        requires { (p.now.ingress.rp ≡ None) → cell_count p.now ≤ 256 }
        ensures { IfOk result (λ made. made ≡ scopes_of p.now n) }
    {
        let globals = globals(alloc, p)?;
        let locals = locals(alloc, p)?;
        let (i, r, d) = (&p.ingress, &p.parser, &p.deparser);
        let registers = registers_of(alloc, &i.rp, locals.types(), i.locals.as_slice(), n)?;
        let parser = parameter_slots(
            alloc,
            p,
            globals.types(),
            &r.headers.name,
            &r.meta.name,
            &r.std,
        )?;
        let control = control_slots(alloc, p, locals.types())?;
        let deparser = parameter_slots(
            alloc,
            p,
            globals.types(),
            &d.headers.name,
            &i.meta.name,
            &i.std,
        )?;
        Ok(Scopes {
            globals,
            locals,
            registers,
            parser,
            control,
            deparser,
        })
    }

    /// The parser's scope.
    pub fn parser(&self) -> Scope<'_>
        ensures { seen result ≡ self.now.parser }
    {
        self.globals.scope(&[], self.parser.as_slice())
    }

    /// The ingress control's scope.
    pub fn control(&self) -> Scope<'_>
        ensures { seen result ≡ self.now.control }
    {
        self.locals
            .scope(self.registers.as_slice(), self.control.as_slice())
    }

    /// The deparser's scope.
    pub fn deparser(&self) -> Scope<'_>
        ensures { seen result ≡ self.now.deparser }
    {
        self.globals.scope(&[], self.deparser.as_slice())
    }
}
