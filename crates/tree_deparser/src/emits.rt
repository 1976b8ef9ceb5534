//! Headers that are emitted.
ghost use Rattle.std.specs.Prelude.{◌≡◌, ◌++◌, OnOk};
ghost use Rattle.app_meaning.specs.Packets.{header_bits, emitted};
ghost use Rattle.tree_eval.specs.Seen.{seen};

use crate::field::put_fields;
use app_data::{Scope, Value};
use p4_ast::P4Emit;
use rp_base::NoMemory;
use rp_bits::BitWriter;
use tree_assign::field_count;
use tree_eval::{slot_of, value_in};

// The bits of a header, none where it isn't valid.
#[tactic(auto, using(crate::proofs::Digits::none_behind))]
fn put_header(
    out: &mut BitWriter,
    sc: Scope<'_>,
    values: &[Value],
    header: Option<usize>,
) -> Result<(), NoMemory>
    ensures { OnOk result (out.new ≡ out.old ++ header_bits (seen sc.entry) values.now header) }
{
    match header {
        None => Ok(()),
        Some(h) => {
            if h < values.len() && value_in(values, h).number == 1 {
                put_fields(out, field_count(sc, h), h + 1, values)?;
            }
            Ok(())
        }
    }
}

/// The bits that the deparser emits: of each valid header in its order.
///
/// # Errors
/// `NoMemory`.
pub(crate) fn emit(
    out: &mut BitWriter,
    sc: Scope<'_>,
    emits: &[P4Emit],
    values: &[Value],
) -> Result<(), NoMemory>
    ensures { OnOk result (out.new ≡ out.old ++ emitted (seen sc.entry) emits.now values.now) }
{
    match emits {
        [] => Ok(()),
        [e, rest @ ..] => {
            put_header(out, sc, values, slot_of(sc, e.path.names.as_slice()))?;
            emit(out, sc, rest, values)
        }
    }
}
