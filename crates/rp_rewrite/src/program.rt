//! Whole programs are rewritten.
ghost use Rattle.std.specs.Prelude.{◌≡◌, Some, false, true, codes, IfOk};
ghost use Rattle.app_meaning.specs.Programs.{cell_count};
ghost use Rattle.p4_check.specs.Rewriting.{name, rewrite_action, rewrite_locals, source_of, rewrite_ingress, rewritten};
ghost use Rattle.rp_rewrite.specs.Sources.{source_in};

use crate::parts::name;
use crate::walk::block;
use app_data::Scope;
use p4_ast::{P4Action, P4Ingress, P4Local, P4Param, P4Program};
use p4_check::Checked;
use p4_copy::declaration::{const_copy, declarations_copy};
use p4_copy::parser::parser_copy;
use p4_copy::program::{deparser_copy, package_copy, param_copy};
use p4_copy::statement::var_copy;
use p4_copy::table::table_copy;
use p4_scope::copy::{fields_copy, name_copy};
use rp_base::NoMemory;
use sqlite_items::{Boxed, Items};
use std::alloc::Global;
use tree_scope::Scopes;

// An action with a rewritten block.
fn action(alloc: Global, a: &P4Action, sc: Scope<'_>) -> Result<P4Action, NoMemory>
    ensures { IfOk result (λ r. r ≡ rewrite_action (source_in sc.entry) a.now) }
{
    let block = block(alloc, &a.block, sc)?;
    let name = name_copy(&a.name)?;
    let params = fields_copy(alloc, a.params.as_slice())?;
    Ok(P4Action {
        at: a.at,
        name,
        params,
        block: block.into_inner(),
    })
}

// What a control declares: the declarations of cells go.
fn locals(alloc: Global, ls: &[P4Local], sc: Scope<'_>) -> Result<Items<P4Local>, NoMemory>
    ensures { IfOk result (λ made. made ≡ rewrite_locals (source_in sc.entry) ls.now) }
{
    let mut made = Items::new(alloc);
    for l in ls {
        match l {
            P4Local::Const(c) => made.push(P4Local::Const(const_copy(alloc, c)?))?,
            P4Local::Var(v) => made.push(P4Local::Var(var_copy(alloc, v)?))?,
            P4Local::Cell(_) => {}
            P4Local::Action(a) => made.push(P4Local::Action(action(alloc, a, sc)?))?,
            P4Local::Table(t) => made.push(P4Local::Table(table_copy(alloc, t)?))?,
        }
    }
    Ok(made)
}

// The fourth parameter.
fn rp(alloc: Global) -> Result<Boxed<P4Param>, NoMemory>
    ensures { IfOk result (λ p. p ≡ record { at = 0; type_ = name (codes "rp_t"); name = name (codes "rp") }) }
{
    let type_ = name(alloc, b"rp_t".as_slice())?;
    let name = name(alloc, b"rp".as_slice())?;
    Ok(Boxed::new(alloc, P4Param { at: 0, type_, name })?)
}

// The ingress control with a parameter `rp`, without cells.
fn ingress(alloc: Global, c: &P4Ingress, sc: Scope<'_>) -> Result<Boxed<P4Ingress>, NoMemory>
    ensures { IfOk result (λ r. r ≡ rewrite_ingress (source_in sc.entry) c.now) }
{
    let block = block(alloc, &c.block, sc)?;
    let locals = locals(alloc, c.locals.as_slice(), sc)?;
    let headers = param_copy(alloc, &c.headers)?;
    let meta = param_copy(alloc, &c.meta)?;
    let rp = rp(alloc)?;
    let name = name_copy(&c.name)?;
    let std = name_copy(&c.std)?;
    let made = P4Ingress {
        at: c.at,
        name,
        headers: headers.into_inner(),
        meta: meta.into_inner(),
        std,
        rp: Some(rp.into_inner()),
        locals,
        block: block.into_inner(),
    };
    Ok(Boxed::new(alloc, made)?)
}

// The rewritten program, by the types and the cells of the source.
fn program(alloc: Global, p: &P4Program, sc: Scope<'_>) -> Result<P4Program, NoMemory>
    requires { source_in sc ≡ source_of p.now }
    ensures { IfOk result (λ r. r ≡ rewritten p.now) }
{
    let ingress = ingress(alloc, &p.ingress, sc)?;
    let declarations = declarations_copy(alloc, p.declarations.as_slice())?;
    let parser = parser_copy(alloc, &p.parser)?;
    let deparser = deparser_copy(alloc, &p.deparser)?;
    let package = package_copy(&p.package)?;
    Ok(P4Program {
        at: p.at,
        declarations,
        parser: parser.into_inner(),
        ingress: ingress.into_inner(),
        deparser: deparser.into_inner(),
        package,
    })
}

/// A checked program, rewritten so that its cells stand behind a lease. Its time goes by the size of the tree; an array's read under a
/// cast to a named type also looks through the declared types.
///
/// # Errors
/// `NoMemory`.
pub fn rewrite(alloc: Global, c: &Checked) -> Result<Checked, NoMemory>
    requires { c.now.rewritten ≡ false }
    ensures { IfOk result (λ r. r ≡ record { tree = rewritten c.now.tree; cells = c.now.cells; rewritten = true }) }
{
    let scopes = Scopes::of(alloc, c.tree(), c.cells())?;
    let tree = program(alloc, c.tree(), scopes.control())?;
    Ok(Checked::rewritten(tree, c.cells()))
}
