//! What stands before the parser.

use crate::written::{Written, write_all};
use p4_ast::{P4Const, P4Declaration, P4Header, P4Struct, P4Typedef};
use rp_base::{Bytes, NoMemory};

impl Written for P4Header {
    ghost use Rattle.p4_print.specs.Programs.{header_tokens};

    ghost tokens = { header_tokens };

    #[tactic(auto, using(crate::proofs::Steps::texts), unfolding(crate::specs::Programs::header_tokens))]
    fn write(&self, out: &mut Bytes) -> Result<(), NoMemory> {
        out.append(b"header ")?;
        self.name.write(out)?;
        out.append(b"{\n")?;
        write_all(self.fields.as_slice(), out)?;
        out.append(b"}\n")
    }
}

impl Written for P4Struct {
    ghost use Rattle.p4_print.specs.Programs.{struct_tokens};

    ghost tokens = { struct_tokens };

    #[tactic(auto, using(crate::proofs::Steps::texts), unfolding(crate::specs::Programs::struct_tokens))]
    fn write(&self, out: &mut Bytes) -> Result<(), NoMemory> {
        out.append(b"struct ")?;
        self.name.write(out)?;
        out.append(b"{\n")?;
        write_all(self.fields.as_slice(), out)?;
        out.append(b"}\n")
    }
}

impl Written for P4Typedef {
    ghost use Rattle.p4_print.specs.Programs.{typedef_tokens};

    ghost tokens = { typedef_tokens };

    #[tactic(auto, using(crate::proofs::Steps::texts), unfolding(crate::specs::Programs::typedef_tokens))]
    fn write(&self, out: &mut Bytes) -> Result<(), NoMemory> {
        out.append(b"typedef ")?;
        self.type_.write(out)?;
        self.name.write(out)?;
        out.append(b";\n")
    }
}

impl Written for P4Const {
    ghost use Rattle.p4_print.specs.Programs.{const_tokens};

    ghost tokens = { const_tokens };

    #[tactic(auto, using(crate::proofs::Steps::texts), unfolding(crate::specs::Programs::const_tokens))]
    fn write(&self, out: &mut Bytes) -> Result<(), NoMemory> {
        out.append(b"const ")?;
        self.type_.write(out)?;
        self.name.write(out)?;
        out.append(b"= ")?;
        self.expr.write(out)?;
        out.append(b";\n")
    }
}

impl Written for P4Declaration {
    ghost use Rattle.p4_print.specs.Programs.{declaration_tokens};

    ghost tokens = { declaration_tokens };

    #[tactic(auto, using(crate::proofs::Steps::texts), unfolding(crate::specs::Programs::declaration_tokens))]
    fn write(&self, out: &mut Bytes) -> Result<(), NoMemory> {
        match self {
            P4Declaration::Header(h) => h.write(out),
            P4Declaration::Struct(s) => s.write(out),
            P4Declaration::Typedef(t) => t.write(out),
            P4Declaration::Const(c) => c.write(out),
        }
    }
}
