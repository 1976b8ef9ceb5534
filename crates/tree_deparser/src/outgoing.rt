//! What a packet leaves as.
ghost use Rattle.std.specs.Prelude.{◌≡◌, ◌++◌, IfOk, OnOk};
ghost use Rattle.rp_bits.specs.Bits.{bytes_of};
ghost use Rattle.app_meaning.specs.Packets.{emitted};
ghost use Rattle.app_meaning.specs.Programs.{output_of};
ghost use Rattle.tree_eval.specs.Seen.{seen};

use crate::emits::emit;
use crate::standard::std_value;
use app_data::{Scope, Value};
use p4_ast::{P4Emit, P4Program};
use rp_base::{Bytes, NoMemory, Output, Packet};
use rp_bits::{BitReader, BitWriter};
use std::alloc::Global;

// All bits that are left: whole bytes at once, else one by one, since of a single bit the reader gives the bit itself.
fn put_rest(out: &mut BitWriter, left: &mut BitReader<'_>) -> Result<(), NoMemory>
    ensures { OnOk result (out.new ≡ out.old ++ left.old) }
{
    if let Some(bytes) = left.whole_bytes() {
        return out.put_bytes(bytes);
    }
    while let Ok(bit) = left.take(1) {
        out.put(1, bit)?;
    }
    Ok(())
}

// The bytes of what the deparser emits, and behind it of what the parser left.
fn deparsed(
    alloc: Global,
    sc: Scope<'_>,
    emits: &[P4Emit],
    left: &mut BitReader<'_>,
    values: &[Value],
) -> Result<Bytes, NoMemory>
    ensures { IfOk result (λ bytes. bytes ≡ bytes_of (emitted (seen sc.entry) emits.now values.now ++ left.old)) }
{
    let mut out = BitWriter::new(alloc);
    emit(&mut out, sc, emits, values)?;
    put_rest(&mut out, left)?;
    Ok(out.finish())
}

/// The output of a packet whose control ended with these values, of which `left` the parser left; none where `drop` is 1, or past
/// 1,500 bytes. Names stand in the control for what `sc` says, and in the deparser for what `deparser` says.
///
/// # Errors
/// `NoMemory`.
pub fn output(
    alloc: Global,
    p: &P4Program,
    sc: Scope<'_>,
    deparser: Scope<'_>,
    packet: &Packet,
    left: &mut BitReader<'_>,
    values: &[Value],
) -> Result<Option<Output>, NoMemory>
    ensures { IfOk result (λ output. output ≡ output_of p.now (seen sc.entry) packet.now (bytes_of (emitted (seen deparser.entry) p.now.deparser.emits values.now ++ left.old)) values.now) }
{
    let std = &p.ingress.std;
    if std_value(sc, std, b"drop".as_slice(), values).number == 1 {
        return Ok(None);
    }
    let bytes = deparsed(alloc, deparser, p.deparser.emits.as_slice(), left, values)?;
    if bytes.len() > 1500 {
        return Ok(None);
    }
    let port = std_value(sc, std, b"out_port".as_slice(), values);
    Ok(Some(Output {
        mark: packet.mark,
        port: (port.number % 65536) as u16,
        bytes,
    }))
}
