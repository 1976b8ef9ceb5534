//! The program, its deparser and its package.
ghost use Rattle.std.specs.Prelude.{◌≡◌, ◌++◌, OnOk, IfOk};
ghost use Rattle.p4_print.specs.Text.{text};
ghost use Rattle.p4_print.specs.Programs.{part_tokens, canon};

use crate::shared::write_param;
use crate::written::{Written, write_all};
use p4_ast::{P4Deparser, P4Emit, P4Name, P4Package, P4Program, Tree};
use rp_base::{Bytes, NoMemory};
use std::alloc::Global;

impl Written for P4Emit {
    ghost use Rattle.p4_print.specs.Programs.{emit_tokens};

    ghost tokens = { emit_tokens };

    #[tactic(auto, using(crate::proofs::Steps::texts), unfolding(crate::specs::Programs::emit_tokens))]
    fn write(&self, out: &mut Bytes) -> Result<(), NoMemory> {
        self.name.write(out)?;
        out.append(b". emit ( ")?;
        self.path.write(out)?;
        out.append(b") ;\n")
    }
}

impl Written for P4Deparser {
    ghost use Rattle.p4_print.specs.Programs.{deparser_tokens};

    ghost tokens = { deparser_tokens };

    #[tactic(auto, using(crate::proofs::Steps::texts), unfolding(crate::specs::Programs::deparser_tokens))]
    fn write(&self, out: &mut Bytes) -> Result<(), NoMemory> {
        out.append(b"control ")?;
        self.name.write(out)?;
        out.append(b"( packet_out ")?;
        self.packet.write(out)?;
        out.append(b", in ")?;
        write_param(&self.headers, out)?;
        out.append(b") {\napply {\n")?;
        write_all(self.emits.as_slice(), out)?;
        out.append(b"}\n}\n")
    }
}

// A part of the package.
#[tactic(auto, using(crate::proofs::Steps::texts))]
fn write_part(name: &P4Name, out: &mut Bytes) -> Result<(), NoMemory>
    ensures { OnOk result (out.new ≡ out.old ++ text (part_tokens name.now)) }
{
    name.write(out)?;
    out.append(b"( ) ")
}

impl Written for P4Package {
    ghost use Rattle.p4_print.specs.Programs.{package_tokens};

    ghost tokens = { package_tokens };

    #[tactic(auto, using(crate::proofs::Steps::texts), unfolding(crate::specs::Programs::package_tokens))]
    fn write(&self, out: &mut Bytes) -> Result<(), NoMemory> {
        out.append(b"RpSwitch ( ")?;
        write_part(&self.parser, out)?;
        out.append(b", ")?;
        write_part(&self.ingress, out)?;
        out.append(b", ")?;
        write_part(&self.deparser, out)?;
        out.append(b") main ;\n")
    }
}

impl Written for P4Program {
    ghost use Rattle.p4_print.specs.Programs.{program_tokens};

    ghost tokens = { program_tokens };

    #[tactic(auto, using(crate::proofs::Steps::texts), unfolding(crate::specs::Programs::program_tokens))]
    fn write(&self, out: &mut Bytes) -> Result<(), NoMemory> {
        write_all(self.declarations.as_slice(), out)?;
        self.parser.write(out)?;
        self.ingress.write(out)?;
        self.deparser.write(out)?;
        self.package.write(out)
    }
}

/// The canonical text of a tree, with the two include lines before it.
///
/// # Errors
/// `NoMemory`.
pub fn print(alloc: Global, t: &Tree) -> Result<Bytes, NoMemory>
    ensures { IfOk result (λ text. text ≡ canon t.now) }
{
    let mut out = Bytes::new(alloc);
    out.append(b"#include <core.p4>\n#include <rp.p4>\n")?;
    t.write(&mut out)?;
    Ok(out)
}
