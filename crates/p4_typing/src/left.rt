//! Left sides: what a statement gives a value to.
ghost use Rattle.std.specs.Prelude.{◌≡◌};
ghost use Rattle.p4_typing.specs.Expressions.{cut_left, left_form};

use crate::form::Form;
use crate::typing::{form_by, slice_form};
use p4_ast::{P4Left, P4Slice};
use p4_scope::Scope;
use p4_scope::path::is_fixed;
use p4_scope::refusal::{earlier, fault, fault_if};
use rp_base::{Refused, Why};

fn cut_left(slice: Option<P4Slice>, at: u64, f: Option<Refused>, k: Form) -> (Option<Refused>, Form)
    ensures { result ≡ cut_left slice at (f, k) }
{
    let Some(slice) = slice else {
        return (f, k);
    };
    match k {
        Form::Bool => (earlier(f, fault(Why::Kind, at)), Form::Failed),
        k => {
            let (g, k) = slice_form(slice, k);
            (earlier(f, g), k)
        }
    }
}

/// What a left side takes: a constant and an action's parameter aren't written.
pub fn left_form(l: &P4Left, s: &Scope) -> (Option<Refused>, Form)
    ensures { result ≡ left_form l.now s.now }
{
    let (f, k) = s.path_kind(&l.path);
    let fixed = f.is_none() && is_fixed(s.root(&l.path));
    let (f, form) = form_by(l.path.at, f, k);
    cut_left(
        l.slice,
        l.path.at,
        earlier(f, fault_if(fixed, Why::Kind, l.path.at)),
        form,
    )
}
