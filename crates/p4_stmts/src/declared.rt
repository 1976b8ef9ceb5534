//! Constants and variables.
ghost use Rattle.std.specs.Prelude.{◌≡◌, IfOk};
ghost use Rattle.std.specs.Prelude.{None};
ghost use Rattle.std.specs.Option.{option_map_or};
ghost use Rattle.rp_base.specs.declared.refused.Why.TheVariants as why;
ghost use Rattle.p4_scope.specs.Faults.{fault};
ghost use Rattle.p4_typing.specs.Values.{strange};
ghost use Rattle.p4_stmts.specs.Statements.{kept_value, const_, var};

use p4_ast::{P4Const, P4Expr, P4Var};
use p4_scope::copy::{name_copy, type_copy};
use p4_scope::refusal::{earlier, fault};
use p4_scope::{Kind, Scope, Thing, Value};
use p4_typing::Typed;
use p4_typing::call::maybe_at;
use p4_typing::constant::{strange, value_of};
use p4_typing::typing::{at_place, form_of};
use rp_base::{NoMemory, Refused, Why};
use std::alloc::Global;

// The value of a constant of this kind, where it has one.
fn kept_value(k: Kind, v: Option<Value>) -> Option<Value>
    ensures { result ≡ kept_value k v }
{
    match (k, v) {
        (Kind::Bits(w), Some(Value::Bits { number, width })) => {
            if w == width {
                Some(Value::Bits { number, width })
            } else {
                None
            }
        }
        (Kind::Bool, Some(Value::Bool(b))) => Some(Value::Bool(b)),
        _ => None,
    }
}

fn odd(e: &P4Expr, s: &Scope) -> Option<Refused>
    ensures { result ≡ option_map_or (fault why.Kind) (strange e.now s.now) None }
{
    match strange(e, s) {
        None => None,
        Some(at) => fault(Why::Kind, at),
    }
}

/// A constant, behind which its name is visible.
///
/// # Errors
/// `NoMemory`.
pub fn constant(alloc: Global, c: &P4Const, s: &mut Scope) -> Result<P4Const, NoMemory>
    ensures { IfOk result (λ r. (s.new, r) ≡ const_ c.now s.old) }
{
    let (f, k) = s.plain_kind(c.at, &c.type_);
    let Typed { fault: g, expr, .. } = at_place(alloc, form_of(k), c.expr.get(), s)?;
    let v = kept_value(k, value_of(expr.get(), s));
    s.note(earlier(f, earlier(g, odd(c.expr.get(), s))));
    s.declare(alloc, &c.name, Thing::Const(k, v))?;
    let name = name_copy(&c.name)?;
    let type_ = type_copy(&c.type_)?;
    Ok(P4Const {
        at: c.at,
        type_,
        name,
        expr,
    })
}

/// A variable, behind which its name is visible.
///
/// # Errors
/// `NoMemory`.
pub fn variable(alloc: Global, v: &P4Var, s: &mut Scope) -> Result<P4Var, NoMemory>
    ensures { IfOk result (λ r. (s.new, r) ≡ var v.now s.old) }
{
    let (f, k) = s.plain_kind(v.at, &v.type_);
    let (g, expr) = maybe_at(alloc, form_of(k), &v.expr, s)?;
    s.note(earlier(f, g));
    s.declare(alloc, &v.name, Thing::Var(k))?;
    let name = name_copy(&v.name)?;
    let type_ = type_copy(&v.type_)?;
    Ok(P4Var {
        at: v.at,
        type_,
        name,
        expr,
    })
}
