//! Flow keys.
ghost use Rattle.std.specs.Prelude.{◌≡◌, IfOk};
ghost use Rattle.p4_stmts.specs.Statements.{key_width, keystmt};

use p4_ast::P4Keystmt;
use p4_scope::Scope;
use p4_scope::flow::{behind_key, key_fault};
use p4_scope::refusal::{earlier, fault_if};
use p4_typing::taking::bits_alone;
use p4_typing::typing::typed;
use p4_typing::{Form, Typed};
use rp_base::{NoMemory, Refused, Why};
use std::alloc::Global;

// Whole bytes, or a fault at this place.
fn key_width(at: u64, form: Form) -> Option<Refused>
    ensures { result ≡ key_width at form }
{
    match form {
        Form::Bits(w) => fault_if(w % 8 != 0, Why::Width, at),
        _ => None,
    }
}

/// A flow key, behind which its body stands.
///
/// # Errors
/// `NoMemory`.
pub fn keystmt(alloc: Global, k: &P4Keystmt, s: &mut Scope) -> Result<P4Keystmt, NoMemory>
    ensures { IfOk result (λ r. (s.new, r) ≡ keystmt k.now s.old) }
{
    let t = typed(alloc, k.expr.get(), s)?;
    let Typed {
        fault: f,
        form,
        expr,
        ..
    } = bits_alone(alloc, t)?;
    let site = s.site();
    s.note(earlier(f, earlier(key_width(k.at, form), key_fault(k.at, site))));
    s.stand(behind_key(site));
    Ok(P4Keystmt { at: k.at, expr })
}
