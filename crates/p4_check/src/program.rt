//! Whole programs, in one walk.
ghost use Rattle.std.specs.Prelude.{◌≡◌, [], OnOk, IfOk};
ghost use Rattle.p4_scope.specs.Scopes.{outermost, each};
ghost use Rattle.p4_check.specs.Programs.{declaration_, is_parser, is_ingress, is_deparser, package_fault, controls, behind_declarations, program, with_parts};

use crate::control::{deparser, ingress};
use crate::part::Parts;
use crate::state::parser;
use p4_ast::{P4Block, P4Declaration, P4Ingress, P4Local, P4Package, P4Parser, P4Program, P4State};
use p4_copy::declaration::{header_copy, struct_copy, typedef_copy};
use p4_scope::record::{header, structure, typedef};
use p4_scope::refusal::earlier;
use p4_scope::{Kind, Scope, Thing, must_be};
use p4_stmts::declared::constant;
use rp_base::{NoMemory, Refused};
use sqlite_items::{Boxed, Items};
use std::alloc::Global;

// What stands before the parser.
fn declaration(alloc: Global, d: &P4Declaration, s: &mut Scope) -> Result<P4Declaration, NoMemory>
    ensures { IfOk result (λ r. (s.new, r) ≡ declaration_ d.now s.old) }
{
    match d {
        P4Declaration::Header(h) => {
            header(alloc, h, s)?;
            Ok(P4Declaration::Header(header_copy(alloc, h)?))
        }
        P4Declaration::Struct(t) => {
            structure(alloc, t, s)?;
            Ok(P4Declaration::Struct(struct_copy(alloc, t)?))
        }
        P4Declaration::Typedef(t) => {
            typedef(alloc, t, s)?;
            Ok(P4Declaration::Typedef(typedef_copy(t)?))
        }
        P4Declaration::Const(c) => Ok(P4Declaration::Const(constant(alloc, c, s)?)),
    }
}

fn declarations(
    alloc: Global,
    ds: &[P4Declaration],
    s: &mut Scope,
) -> Result<Items<P4Declaration>, NoMemory>
    ensures { IfOk result (λ r. (s.new, r) ≡ each declaration_ ds.now s.old []) }
{
    let mut done = Items::new(alloc);
    for d in ds {
        let d = declaration(alloc, d, s)?;
        done.push(d)?;
    }
    Ok(done)
}

fn is_parser(t: Option<Thing>) -> bool
    ensures { result ≡ is_parser t }
{
    match t {
        Some(Thing::Parser) => true,
        _ => false,
    }
}

fn is_ingress(t: Option<Thing>) -> bool
    ensures { result ≡ is_ingress t }
{
    match t {
        Some(Thing::Ingress) => true,
        _ => false,
    }
}

fn is_deparser(t: Option<Thing>) -> bool
    ensures { result ≡ is_deparser t }
{
    match t {
        Some(Thing::Deparser) => true,
        _ => false,
    }
}

// The three names of the package.
fn package_fault(k: &P4Package, s: &Scope) -> Option<Refused>
    ensures { result ≡ package_fault k.now s.now }
{
    let p = s.find(&k.parser);
    let i = s.find(&k.ingress);
    let d = s.find(&k.deparser);
    earlier(
        must_be(is_parser(p), &k.parser, p),
        earlier(
            must_be(is_ingress(i), &k.ingress, i),
            must_be(is_deparser(d), &k.deparser, d),
        ),
    )
}

// The controls, where these are the parser's structures, and the package.
#[tactic(auto, unfolding(crate::specs::Programs::controls))]
fn controls(
    alloc: Global,
    p: &P4Program,
    h: Kind,
    m: Kind,
    s: &mut Scope,
) -> Result<(Items<P4Local>, P4Block), NoMemory>
    ensures { IfOk result (λ r. (s.new, r.0, r.1) ≡ controls p.now h m s.old) }
{
    let parts = ingress(alloc, h, m, &p.ingress, s)?;
    let parts = Boxed::new(alloc, parts)?;
    deparser(alloc, h, &p.deparser, s)?;
    let f = package_fault(&p.package, s);
    s.note(f);
    Ok(parts.into_inner())
}

// What is checked of a program behind these declarations.
#[tactic(auto, unfolding(crate::specs::Programs::behind_declarations))]
fn behind_declarations(
    alloc: Global,
    p: &P4Program,
    declarations: Items<P4Declaration>,
    s: &mut Scope,
) -> Result<Parts, NoMemory>
    ensures { IfOk result (λ r. (s.new, r) ≡ behind_declarations p.now (s.old, declarations)) }
{
    let (_f, h) = s.struct_kind(&p.parser.headers.type_);
    let (_f, m) = s.struct_kind(&p.parser.meta.type_);
    let states = parser(alloc, &p.parser, s)?;
    let (locals, block) = controls(alloc, p, h, m, s)?;
    Ok(Parts {
        declarations,
        states,
        locals,
        block,
    })
}

/// What is checked of a program, from the outermost scope on.
///
/// # Errors
/// `NoMemory`.
#[tactic(auto, unfolding(crate::specs::Programs::program))]
pub fn program(alloc: Global, p: &P4Program, s: &mut Scope) -> Result<Boxed<Parts>, NoMemory>
    requires { s.old ≡ outermost }
    ensures { IfOk result (λ r. (s.new, r) ≡ program p.now) }
{
    let declarations = declarations(alloc, p.declarations.as_slice(), s)?;
    let parts = behind_declarations(alloc, p, declarations, s)?;
    Ok(Boxed::new(alloc, parts)?)
}

/// The program with these parts.
pub fn with_parts(p: P4Program, r: Parts) -> P4Program
    ensures { result ≡ with_parts p r }
{
    let Parts {
        declarations,
        states,
        locals,
        block,
    } = r;
    let P4Program {
        at,
        declarations: _,
        parser,
        ingress,
        deparser,
        package,
    } = p;
    P4Program {
        at,
        declarations,
        parser: with_states(parser, states),
        ingress: P4Ingress {
            at: ingress.at,
            name: ingress.name,
            headers: ingress.headers,
            meta: ingress.meta,
            std: ingress.std,
            rp: ingress.rp,
            locals,
            block,
        },
        deparser,
        package,
    }
}

fn with_states(p: P4Parser, states: Items<P4State>) -> P4Parser
    ensures { result ≡ record p { states = states } }
{
    P4Parser {
        at: p.at,
        name: p.name,
        packet: p.packet,
        headers: p.headers,
        meta: p.meta,
        std: p.std,
        states,
    }
}
