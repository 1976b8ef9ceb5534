//! Copies of parsers, and of what keys must match.
ghost use Rattle.std.specs.Prelude.{◌≡◌, IfOk};

use crate::expression::{expr_copy, exprs_copy, some_expr_copy};
use crate::program::param_copy;
use crate::statement::assign_copy;
use p4_ast::{P4Case, P4Extract, P4Keyset, P4One, P4Parser, P4State, P4Step, P4Target};
use p4_scope::copy::{name_copy, path_copy};
use rp_base::NoMemory;
use sqlite_items::{Boxed, Items};
use std::alloc::Global;

fn one_copy(alloc: Global, x: &P4One) -> Result<P4One, NoMemory>
    ensures { IfOk result (λ c. c ≡ x.now) }
{
    match x {
        P4One::Any { at } => Ok(P4One::Any { at: *at }),
        P4One::Expr { at, expr, mask } => {
            let expr = expr_copy(alloc, expr.get())?;
            Ok(P4One::Expr {
                at: *at,
                expr,
                mask: some_expr_copy(alloc, mask)?,
            })
        }
    }
}

fn ones_copy(alloc: Global, xs: &[P4One]) -> Result<Items<P4One>, NoMemory>
    ensures { IfOk result (λ c. c ≡ xs.now) }
{
    let mut copies = Items::new(alloc);
    for x in xs {
        copies.push(one_copy(alloc, x)?)?;
    }
    Ok(copies)
}

fn plain_keyset_copy(alloc: Global, k: &P4Keyset) -> Result<P4Keyset, NoMemory>
    ensures { IfOk result (λ c. c ≡ k.now) }
{
    match k {
        P4Keyset::Default { at } => Ok(P4Keyset::Default { at: *at }),
        P4Keyset::One(x) => Ok(P4Keyset::One(one_copy(alloc, x)?)),
        P4Keyset::Tuple { at, ones } => Ok(P4Keyset::Tuple {
            at: *at,
            ones: ones_copy(alloc, ones.as_slice())?,
        }),
    }
}

/// An equal keyset.
///
/// # Errors
/// `NoMemory`.
pub fn keyset_copy(alloc: Global, k: &P4Keyset) -> Result<Boxed<P4Keyset>, NoMemory>
    ensures { IfOk result (λ c. c ≡ k.now) }
{
    let k = plain_keyset_copy(alloc, k)?;
    Ok(Boxed::new(alloc, k)?)
}

fn case_copy(alloc: Global, x: &P4Case) -> Result<P4Case, NoMemory>
    ensures { IfOk result (λ c. c ≡ x.now) }
{
    let keyset = keyset_copy(alloc, x.keyset.get())?;
    Ok(P4Case {
        at: x.at,
        keyset,
        name: name_copy(&x.name)?,
    })
}

fn cases_copy(alloc: Global, xs: &[P4Case]) -> Result<Items<P4Case>, NoMemory>
    ensures { IfOk result (λ c. c ≡ xs.now) }
{
    let mut copies = Items::new(alloc);
    for x in xs {
        copies.push(case_copy(alloc, x)?)?;
    }
    Ok(copies)
}

fn target_copy(alloc: Global, t: &P4Target) -> Result<P4Target, NoMemory>
    ensures { IfOk result (λ c. c ≡ t.now) }
{
    match t {
        P4Target::Name { at, name } => Ok(P4Target::Name {
            at: *at,
            name: name_copy(name)?,
        }),
        P4Target::Select { at, exprs, cases } => {
            let exprs = exprs_copy(alloc, exprs.as_slice())?;
            Ok(P4Target::Select {
                at: *at,
                exprs,
                cases: cases_copy(alloc, cases.as_slice())?,
            })
        }
    }
}

fn extract_copy(alloc: Global, e: &P4Extract) -> Result<P4Extract, NoMemory>
    ensures { IfOk result (λ c. c ≡ e.now) }
{
    let name = name_copy(&e.name)?;
    Ok(P4Extract {
        at: e.at,
        name,
        path: path_copy(alloc, &e.path)?,
    })
}

fn step_copy(alloc: Global, s: &P4Step) -> Result<P4Step, NoMemory>
    ensures { IfOk result (λ c. c ≡ s.now) }
{
    match s {
        P4Step::Extract(e) => Ok(P4Step::Extract(extract_copy(alloc, e)?)),
        P4Step::Assign(a) => Ok(P4Step::Assign(assign_copy(alloc, a)?)),
    }
}

fn steps_copy(alloc: Global, xs: &[P4Step]) -> Result<Items<P4Step>, NoMemory>
    ensures { IfOk result (λ c. c ≡ xs.now) }
{
    let mut copies = Items::new(alloc);
    for x in xs {
        copies.push(step_copy(alloc, x)?)?;
    }
    Ok(copies)
}

fn state_copy(alloc: Global, s: &P4State) -> Result<P4State, NoMemory>
    ensures { IfOk result (λ c. c ≡ s.now) }
{
    let name = name_copy(&s.name)?;
    let steps = steps_copy(alloc, s.steps.as_slice())?;
    Ok(P4State {
        at: s.at,
        name,
        steps,
        target: target_copy(alloc, &s.target)?,
    })
}

fn states_copy(alloc: Global, xs: &[P4State]) -> Result<Items<P4State>, NoMemory>
    ensures { IfOk result (λ c. c ≡ xs.now) }
{
    let mut copies = Items::new(alloc);
    for x in xs {
        copies.push(state_copy(alloc, x)?)?;
    }
    Ok(copies)
}

/// An equal parser.
///
/// # Errors
/// `NoMemory`.
pub fn parser_copy(alloc: Global, p: &P4Parser) -> Result<Boxed<P4Parser>, NoMemory>
    ensures { IfOk result (λ c. c ≡ p.now) }
{
    let name = name_copy(&p.name)?;
    let packet = name_copy(&p.packet)?;
    let headers = param_copy(alloc, &p.headers)?;
    let meta = param_copy(alloc, &p.meta)?;
    let std = name_copy(&p.std)?;
    let states = states_copy(alloc, p.states.as_slice())?;
    let copied = P4Parser {
        at: p.at,
        name,
        packet,
        headers: headers.into_inner(),
        meta: meta.into_inner(),
        std,
        states,
    };
    Ok(Boxed::new(alloc, copied)?)
}
