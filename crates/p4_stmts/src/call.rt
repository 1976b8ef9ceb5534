//! Calls of actions and applications of tables, also in conditions.
ghost use Rattle.std.specs.Prelude.{◌≡◌, IfOk};
ghost use Rattle.p4_stmts.specs.Statements.{in_control, callstmt, apply, cond_};

use p4_ast::{P4Callstmt, P4Cond, P4Name};
use p4_scope::copy::name_copy;
use p4_scope::flow::{is_action, is_table};
use p4_scope::refusal::earlier;
use p4_scope::{Scope, Site, must_be};
use p4_typing::call::args;
use p4_typing::typing::at_place;
use p4_typing::{Form, Typed};
use rp_base::NoMemory;
use sqlite_items::Boxed;
use std::alloc::Global;

// In an action nothing is called and nothing applied.
fn in_control(site: Site) -> bool
    ensures { result ≡ in_control site }
{
    match site {
        Site::Action => false,
        _ => true,
    }
}

/// A call of an action.
///
/// # Errors
/// `NoMemory`.
pub fn callstmt(alloc: Global, c: &P4Callstmt, s: &mut Scope) -> Result<P4Callstmt, NoMemory>
    ensures { IfOk result (λ r. (s.new, r) ≡ callstmt c.now s.old) }
{
    let t = s.find(&c.name);
    let named = must_be(is_action(t) && in_control(s.site()), &c.name, t);
    let (f, args) = args(alloc, &c.name, t, c.args.as_slice(), s)?;
    s.note(earlier(named, f));
    s.called(c.at, t);
    let name = name_copy(&c.name)?;
    Ok(P4Callstmt {
        at: c.at,
        name,
        args,
    })
}

/// The statement at this place applies this table.
pub fn apply(at: u64, x: &P4Name, s: &mut Scope)
    ensures { s.new ≡ apply at x.now s.old }
{
    let t = s.find(x);
    s.note(must_be(is_table(t) && in_control(s.site()), x, t));
    s.applied(at, t);
}

// The condition of the `if` at this place.
fn cond(alloc: Global, at: u64, c: &P4Cond, s: &mut Scope) -> Result<P4Cond, NoMemory>
    ensures { IfOk result (λ r. (s.new, r) ≡ cond_ at c.now s.old) }
{
    match c {
        P4Cond::Expr(e) => {
            let Typed { fault: f, expr, .. } = at_place(alloc, Form::Bool, e.get(), s)?;
            s.note(f);
            Ok(P4Cond::Expr(expr))
        }
        P4Cond::Apply {
            at: apply_at,
            negated,
            name,
            outcome,
        } => {
            apply(at, name, s);
            Ok(P4Cond::Apply {
                at: *apply_at,
                negated: *negated,
                name: name_copy(name)?,
                outcome: *outcome,
            })
        }
    }
}

/// The condition of the `if` at this place, boxed: it stands alone, so that the stack grows little while branches are walked.
///
/// # Errors
/// `NoMemory`.
#[inline(never)]
pub fn boxed_cond(
    alloc: Global,
    at: u64,
    c: &P4Cond,
    s: &mut Scope,
) -> Result<Boxed<P4Cond>, NoMemory>
    ensures { IfOk result (λ r. (s.new, r) ≡ cond_ at c.now s.old) }
{
    let c = cond(alloc, at, c, s)?;
    Ok(Boxed::new(alloc, c)?)
}
