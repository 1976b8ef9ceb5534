//! Reads and writes of cells.
ghost use Rattle.std.specs.Prelude.{◌≡◌, IfOk};
ghost use Rattle.p4_stmts.specs.Statements.{is_cell, first_form, second_form, cell_form, read_kind, read_form, suits, read, write};

use p4_ast::{P4Read, P4Type, P4Write};
use p4_scope::copy::{left_copy, name_copy, type_copy};
use p4_scope::refusal::{earlier, fault, fault_if};
use p4_scope::types::type_place;
use p4_scope::{Kind, Scope, Thing, must_be};
use p4_typing::call::maybe_at;
use p4_typing::left::left_form;
use p4_typing::typing::{at_place, form_by, form_of};
use p4_typing::{Form, Typed};
use rp_base::{NoMemory, Refused, Why};
use sqlite_items::Boxed;
use std::alloc::Global;

// Whether it is a cell that is used so: an array with an index, another without.
fn is_cell(indexed: bool, t: Option<Thing>) -> bool
    ensures { result ≡ is_cell indexed t }
{
    match t {
        Some(Thing::Cell(_)) => !indexed,
        Some(Thing::Array(_)) => indexed,
        _ => false,
    }
}

// What the first argument of a read or write must be, where an index is written or not.
fn first_form(indexed: bool, t: Option<Thing>) -> Form
    ensures { result ≡ first_form indexed t }
{
    match (indexed, t) {
        (true, Some(Thing::Array(_))) => Form::Bits(16),
        (false, Some(Thing::Cell(k))) => form_of(k),
        _ => Form::Failed,
    }
}

fn second_form(t: Option<Thing>) -> Form
    ensures { result ≡ second_form t }
{
    match t {
        Some(Thing::Array(k)) => form_of(k),
        _ => Form::Failed,
    }
}

fn cell_form(t: Option<Thing>) -> Form
    ensures { result ≡ cell_form t }
{
    match t {
        Some(Thing::Cell(k)) => form_of(k),
        Some(Thing::Array(k)) => form_of(k),
        _ => Form::Failed,
    }
}

fn read_kind(at: u64, type_at: u64, f: Option<Refused>, k: Kind) -> (Option<Refused>, Form)
    ensures { result ≡ read_kind at type_at f k }
{
    match k {
        Kind::Bool => (earlier(f, fault(Why::Kind, at)), Form::Failed),
        k => form_by(type_at, f, k),
    }
}

// What a read gives: its cast, or else the cell.
fn read_form(
    at: u64,
    c: &Option<Boxed<P4Type>>,
    t: Option<Thing>,
    s: &Scope,
) -> (Option<Refused>, Form)
    ensures { result ≡ read_form at c.now t s.now }
{
    match c {
        None => (None, cell_form(t)),
        Some(c) => {
            let (f, k) = s.type_kind(c.get());
            read_kind(at, type_place(c.get()), f, k)
        }
    }
}

// A read at this place that doesn't suit its left side.
fn suits(at: u64, l: Form, r: Form) -> Option<Refused>
    ensures { result ≡ suits at l r }
{
    match (l, r) {
        (Form::Bits(w), Form::Bits(v)) => fault_if(w != v, Why::Width, at),
        (Form::Bool, Form::Bits(_)) => fault(Why::Kind, at),
        _ => None,
    }
}

fn maybe_type(alloc: Global, t: &Option<Boxed<P4Type>>) -> Result<Option<Boxed<P4Type>>, NoMemory>
    ensures { IfOk result (λ c. c ≡ t.now) }
{
    match t {
        None => Ok(None),
        Some(t) => {
            let t = type_copy(t.get())?;
            Ok(Some(Boxed::new(alloc, t)?))
        }
    }
}

/// A read of a cell.
///
/// # Errors
/// `NoMemory`.
pub fn read(alloc: Global, r: &P4Read, s: &mut Scope) -> Result<P4Read, NoMemory>
    ensures { IfOk result (λ c. (s.new, c) ≡ read r.now s.old) }
{
    let t = s.find(&r.name);
    let (f, l) = left_form(&r.left, s);
    let (g, k) = read_form(r.at, &r.type_, t, s);
    let named = must_be(is_cell(r.expr.is_some(), t), &r.name, t);
    let (e, expr) = maybe_at(alloc, first_form(true, t), &r.expr, s)?;
    s.note(earlier(f, earlier(g, earlier(named, earlier(e, suits(r.at, l, k))))));
    s.cell_used(r.at, t);
    let name = name_copy(&r.name)?;
    let left = left_copy(alloc, &r.left)?;
    let type_ = maybe_type(alloc, &r.type_)?;
    Ok(P4Read {
        at: r.at,
        left,
        type_,
        name,
        expr,
    })
}

/// A write of a cell.
///
/// # Errors
/// `NoMemory`.
pub fn write(alloc: Global, w: &P4Write, s: &mut Scope) -> Result<P4Write, NoMemory>
    ensures { IfOk result (λ c. (s.new, c) ≡ write w.now s.old) }
{
    let t = s.find(&w.name);
    let indexed = w.second.is_some();
    let named = must_be(is_cell(indexed, t), &w.name, t);
    let Typed { fault: f, expr, .. } = at_place(alloc, first_form(indexed, t), w.expr.get(), s)?;
    let (g, second) = maybe_at(alloc, second_form(t), &w.second, s)?;
    s.note(earlier(named, earlier(f, g)));
    s.cell_used(w.at, t);
    let name = name_copy(&w.name)?;
    Ok(P4Write {
        at: w.at,
        name,
        expr,
        second,
    })
}
