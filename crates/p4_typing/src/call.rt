//! Places that ask for something: assignments, arguments, and expressions that may be left out.
ghost use Rattle.std.specs.Prelude.{◌≡◌, [], IfOk};
ghost use Rattle.p4_scope.specs.FlowKeys.{params_of};
ghost use Rattle.p4_typing.specs.Calls.{maybe_at, assign, asked_first, asked_rest, args_for, asked, args};

use crate::form::Form;
use crate::left::left_form;
use crate::part::Typed;
use crate::typing::{at_place, form_of};
use p4_ast::{P4Assign, P4Expr, P4Name};
use p4_scope::copy::left_copy;
use p4_scope::refusal::{earlier, fault};
use p4_scope::{Kind, Scope, Thing};
use rp_base::{NoMemory, Refused, Why};
use sqlite_items::{Boxed, Items};
use std::alloc::Global;

/// An expression that may be left out.
///
/// # Errors
/// `NoMemory`.
pub fn maybe_at(
    alloc: Global,
    wanted: Form,
    e: &Option<Boxed<P4Expr>>,
    s: &Scope,
) -> Result<(Option<Refused>, Option<Boxed<P4Expr>>), NoMemory>
    ensures { IfOk result (λ r. r ≡ maybe_at wanted e.now s.now) }
{
    match e {
        None => Ok((None, None)),
        Some(e) => {
            let Typed { fault, expr, .. } = at_place(alloc, wanted, e.get(), s)?;
            Ok((fault, Some(expr)))
        }
    }
}

/// An assignment, which changes no scope.
///
/// # Errors
/// `NoMemory`.
pub fn assign(
    alloc: Global,
    a: &P4Assign,
    s: &Scope,
) -> Result<(Option<Refused>, P4Assign), NoMemory>
    ensures { IfOk result (λ r. r ≡ assign a.now s.now) }
{
    let (f, wanted) = left_form(&a.left, s);
    let left = left_copy(alloc, &a.left)?;
    let Typed { fault: g, expr, .. } = at_place(alloc, wanted, a.expr.get(), s)?;
    Ok((
        earlier(f, g),
        P4Assign {
            at: a.at,
            left,
            expr,
        },
    ))
}

fn asked_first(ks: &[Kind]) -> Form
    ensures { result ≡ asked_first ks.now }
{
    match ks {
        [] => Form::Failed,
        [k, ..] => form_of(*k),
    }
}

fn asked_rest(ks: &[Kind]) -> &[Kind]
    ensures { result.now ≡ asked_rest ks.now }
{
    match ks {
        [] => ks,
        [_, rest @ ..] => rest,
    }
}

fn args_for(
    alloc: Global,
    ks: &[Kind],
    es: &[P4Expr],
    s: &Scope,
    f: Option<Refused>,
) -> Result<(Option<Refused>, Items<P4Expr>), NoMemory>
    ensures { IfOk result (λ r. r ≡ args_for ks.now es.now s.now (f, [])) }
{
    let mut f = f;
    let mut done = Items::new(alloc);
    let mut left = ks;
    for e in es {
        let Typed { fault: g, expr, .. } = at_place(alloc, asked_first(left), e, s)?;
        done.push(expr.into_inner())?;
        f = earlier(f, g);
        left = asked_rest(left);
    }
    Ok((f, done))
}

// What so many arguments are asked for: another number than that of the parameters fails.
fn asked<'a>(x: &P4Name, t: Option<Thing>, n: usize, s: &'a Scope) -> (&'a [Kind], Option<Refused>)
    ensures { (result.0.now, result.1) ≡ asked x.now (params_of t s.now) n }
{
    match s.params(t) {
        None => (&[], None),
        Some(ks) => {
            if ks.len() == n {
                (ks, None)
            } else {
                (&[], fault(Why::Kind, x.at))
            }
        }
    }
}

/// The arguments of the action of this name, which stands for this.
///
/// # Errors
/// `NoMemory`.
pub fn args(
    alloc: Global,
    x: &P4Name,
    t: Option<Thing>,
    es: &[P4Expr],
    s: &Scope,
) -> Result<(Option<Refused>, Items<P4Expr>), NoMemory>
    ensures { IfOk result (λ r. r ≡ args x.now (params_of t s.now) es.now s.now) }
{
    let (ks, f) = asked(x, t, es.len(), s);
    args_for(alloc, ks, es, s, f)
}
