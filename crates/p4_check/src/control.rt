//! The ingress control: its cells, actions, tables and block; and the deparser.
ghost use Rattle.std.specs.Prelude.{◌≡◌, [], OnOk, IfOk, None};
ghost use Rattle.p4_scope.specs.Faults.{first_in};
ghost use Rattle.p4_scope.specs.Scopes.{each};
ghost use Rattle.p4_check.specs.Programs.{cell_width, with_cells, cells_fault, cell_counted, cell_kind, cell_, action_param, action_left, action_body, action_in, action, local_, inputs, ingress_body, ingress_in, ingress, emit, deparser_in, deparser};

use crate::state::is_packet;
use p4_ast::{
    P4Action, P4Block, P4Cell, P4Deparser, P4Emit, P4Field, P4Ingress, P4Local, P4Name, P4Type,
};
use p4_copy::declaration::cell_copy;
use p4_scope::copy::{fields_copy, name_copy};
use p4_scope::param::same_param;
use p4_scope::refusal::{earlier, fault, fault_if};
use p4_scope::types::bits;
use p4_scope::{Action, Kind, Scope, Site, Thing, must_be};
use p4_stmts::declared::{constant, variable};
use p4_stmts::walk::block;
use p4_tables::table::table;
use rp_base::{NoMemory, Refused, Why};
use sqlite_items::{Boxed, Items};
use std::alloc::Global;

// Bits of at most 64.
fn cell_width(at: u64, k: Kind) -> Option<Refused>
    ensures { result ≡ cell_width at k }
{
    match k {
        Kind::Bits(w) => fault_if(64 < w, Why::Width, at),
        _ => None,
    }
}

fn count_cells(n: u128, s: &mut Scope)
    ensures { s.new ≡ with_cells n s.old }
{
    let more = n.min(257) as u64;
    s.set_cells(s.cells().saturating_add(more).min(257));
}

fn cells_fault(at: u64, n: u128, s: &Scope) -> Option<Refused>
    ensures { result ≡ cells_fault at n s.now }
{
    fault_if(n == 0 || 256 < s.cells(), Why::Cells, at)
}

fn cell_kind(at: u64, t: &P4Type, s: &Scope) -> (Option<Refused>, Kind)
    ensures { result ≡ cell_kind at t.now s.now }
{
    let (f, k) = s.type_kind(t);
    bits(at, f, k)
}

fn cell_counted(
    alloc: Global,
    at: u64,
    n: u128,
    f: Option<Refused>,
    k: Kind,
    x: &P4Name,
    t: Thing,
    s: &mut Scope,
) -> Result<(), NoMemory>
    ensures { OnOk result (s.new ≡ cell_counted at n (f, k) x.now t s.old) }
{
    let g = cells_fault(at, n, s);
    s.note(earlier(f, earlier(cell_width(at, k), g)));
    s.declare(alloc, x, t)
}

// A cell or an array, behind which its name is visible.
fn cell(alloc: Global, c: &P4Cell, s: &mut Scope) -> Result<(), NoMemory>
    ensures { OnOk result (s.new ≡ cell_ c.now s.old) }
{
    match c {
        P4Cell::Cell { at, type_, name } => {
            let (f, k) = cell_kind(*at, type_, s);
            count_cells(1, s);
            cell_counted(alloc, *at, 1, f, k, name, Thing::Cell(k), s)
        }
        P4Cell::Array {
            at,
            type_,
            size,
            name,
        } => {
            let (f, k) = cell_kind(*at, type_, s);
            count_cells(size.value, s);
            cell_counted(alloc, *at, size.value, f, k, name, Thing::Array(k), s)
        }
    }
}

fn action_param(alloc: Global, p: &P4Field, s: &mut Scope) -> Result<Kind, NoMemory>
    ensures { IfOk result (λ k. (s.new, k) ≡ action_param p.now s.old) }
{
    let (f, k) = s.plain_kind(p.at, &p.type_);
    s.note(f);
    s.declare(alloc, &p.name, Thing::Param(k))?;
    Ok(k)
}

fn action_params(alloc: Global, ps: &[P4Field], s: &mut Scope) -> Result<Items<Kind>, NoMemory>
    ensures { IfOk result (λ r. (s.new, r) ≡ each action_param ps.now s.old []) }
{
    let mut kinds = Items::new(alloc);
    for p in ps {
        let k = action_param(alloc, p, s)?;
        kinds.push(k)?;
    }
    Ok(kinds)
}

// Behind an action's block: but for the first n its names are forgotten, and it joins the others.
fn end_action(n: usize, params: Items<Kind>, s: &mut Scope) -> Result<(), NoMemory>
    ensures { OnOk result (s.new ≡ action_left n params s.old) }
{
    let uses = s.uses();
    s.leave(n);
    s.stand(Site::Other);
    s.add_action(Action {
        params,
        uses,
        reached: false,
    })
}

fn action_copy(alloc: Global, a: &P4Action, block: Boxed<P4Block>) -> Result<P4Action, NoMemory>
    ensures { IfOk result (λ r. r ≡ record (a.now) { block = block }) }
{
    let name = name_copy(&a.name)?;
    let params = fields_copy(alloc, a.params.as_slice())?;
    Ok(P4Action {
        at: a.at,
        name,
        params,
        block: block.into_inner(),
    })
}

// An action behind its parameters, whose scope has n names.
fn action_body(
    alloc: Global,
    a: &P4Action,
    n: usize,
    params: Items<Kind>,
    s: &mut Scope,
) -> Result<P4Action, NoMemory>
    ensures { IfOk result (λ r. (s.new, r) ≡ action_body a.now n (s.old, params)) }
{
    s.begin_action();
    let block = block(alloc, &a.block, s)?;
    let block = Boxed::new(alloc, block)?;
    end_action(n, params, s)?;
    action_copy(alloc, a, block)
}

// An action whose name is declared.
fn action_in(alloc: Global, a: &P4Action, s: &mut Scope) -> Result<P4Action, NoMemory>
    ensures { IfOk result (λ r. (s.new, r) ≡ action_in a.now s.old) }
{
    let n = s.len();
    let params = action_params(alloc, a.params.as_slice(), s)?;
    action_body(alloc, a, n, params, s)
}

// An action, in which its name is visible.
fn action(alloc: Global, a: &P4Action, s: &mut Scope) -> Result<P4Action, NoMemory>
    ensures { IfOk result (λ r. (s.new, r) ≡ action a.now s.old) }
{
    let n = s.next_action();
    s.declare(alloc, &a.name, Thing::Action(n))?;
    action_in(alloc, a, s)
}

// What is declared in the ingress control.
fn local(alloc: Global, l: &P4Local, s: &mut Scope) -> Result<P4Local, NoMemory>
    ensures { IfOk result (λ r. (s.new, r) ≡ local_ l.now s.old) }
{
    match l {
        P4Local::Const(c) => Ok(P4Local::Const(constant(alloc, c, s)?)),
        P4Local::Var(v) => Ok(P4Local::Var(variable(alloc, v, s)?)),
        P4Local::Cell(c) => {
            cell(alloc, c, s)?;
            Ok(P4Local::Cell(cell_copy(c)?))
        }
        P4Local::Action(a) => Ok(P4Local::Action(action(alloc, a, s)?)),
        P4Local::Table(t) => Ok(P4Local::Table(table(alloc, t, s)?)),
    }
}

fn locals(alloc: Global, ls: &[P4Local], s: &mut Scope) -> Result<Items<P4Local>, NoMemory>
    ensures { IfOk result (λ r. (s.new, r) ≡ each local_ ls.now s.old []) }
{
    let mut done = Items::new(alloc);
    for l in ls {
        let l = local(alloc, l, s)?;
        done.push(l)?;
    }
    Ok(done)
}

// The parameters: a fourth one is refused.
fn inputs(alloc: Global, h: Kind, m: Kind, c: &P4Ingress, s: &mut Scope) -> Result<(), NoMemory>
    ensures { OnOk result (s.new ≡ inputs h m c.now s.old) }
{
    same_param(alloc, h, &c.headers, s)?;
    same_param(alloc, m, &c.meta, s)?;
    s.declare(alloc, &c.std, Thing::Var(Kind::Std))?;
    let f = match &c.rp {
        None => None,
        Some(p) => fault(Why::Kind, p.at),
    };
    s.note(f);
    Ok(())
}

// An ingress control behind its declarations, whose scope has n names.
#[tactic(auto, unfolding(crate::specs::Programs::ingress_body))]
fn ingress_body(
    alloc: Global,
    c: &P4Ingress,
    n: usize,
    locals: Items<P4Local>,
    s: &mut Scope,
) -> Result<(Items<P4Local>, P4Block), NoMemory>
    ensures { IfOk result (λ r. (s.new, r.0, r.1) ≡ ingress_body c.now n (s.old, locals)) }
{
    s.stand(Site::Tail);
    let block = block(alloc, &c.block, s)?;
    s.leave(n);
    s.stand(Site::Other);
    s.close();
    Ok((locals, block))
}

// An ingress control whose name is declared.
#[tactic(auto, unfolding(crate::specs::Programs::ingress_in))]
fn ingress_in(
    alloc: Global,
    h: Kind,
    m: Kind,
    c: &P4Ingress,
    s: &mut Scope,
) -> Result<(Items<P4Local>, P4Block), NoMemory>
    ensures { IfOk result (λ r. (s.new, r.0, r.1) ≡ ingress_in h m c.now s.old) }
{
    let n = s.len();
    inputs(alloc, h, m, c, s)?;
    let locals = locals(alloc, c.locals.as_slice(), s)?;
    ingress_body(alloc, c, n, locals, s)
}

/// The ingress control, where these are the parser's structures of headers and of metadata: its declarations and its block.
///
/// # Errors
/// `NoMemory`.
#[tactic(auto, unfolding(crate::specs::Programs::ingress))]
pub fn ingress(
    alloc: Global,
    h: Kind,
    m: Kind,
    c: &P4Ingress,
    s: &mut Scope,
) -> Result<(Items<P4Local>, P4Block), NoMemory>
    ensures { IfOk result (λ r. (s.new, r.0, r.1) ≡ ingress h m c.now s.old) }
{
    s.declare(alloc, &c.name, Thing::Ingress)?;
    ingress_in(alloc, h, m, c, s)
}

fn emit(s: &Scope, e: &P4Emit) -> Option<Refused>
    ensures { result ≡ emit s.now e.now }
{
    let t = s.find(&e.name);
    earlier(must_be(is_packet(t), &e.name, t), s.header_path(&e.path))
}

fn first_emit(s: &Scope, es: &[P4Emit]) -> Option<Refused>
    ensures { result ≡ first_in (emit s.now) es.now None }
{
    let mut f = None;
    for e in es {
        f = earlier(f, emit(s, e));
    }
    f
}

/// The deparser, where this is the parser's structure of headers.
///
/// # Errors
/// `NoMemory`.
#[tactic(auto, unfolding(crate::specs::Programs::deparser))]
pub fn deparser(alloc: Global, h: Kind, d: &P4Deparser, s: &mut Scope) -> Result<(), NoMemory>
    ensures { OnOk result (s.new ≡ deparser h d.now s.old) }
{
    s.declare(alloc, &d.name, Thing::Deparser)?;
    let len = s.len();
    s.declare(alloc, &d.packet, Thing::Packet)?;
    same_param(alloc, h, &d.headers, s)?;
    let f = first_emit(s, d.emits.as_slice());
    s.note(f);
    s.leave(len);
    Ok(())
}
