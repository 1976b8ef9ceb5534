//! The parser and its states.
ghost use Rattle.std.specs.Prelude.{◌≡◌, ◌++◌, OnOk};
ghost use Rattle.p4_print.specs.Text.{text};
ghost use Rattle.p4_print.specs.Programs.{select_tokens, parameters_tokens};

use crate::shared::write_param;
use crate::written::{Written, write_all, write_listed};
use p4_ast::{P4Case, P4Expr, P4Extract, P4Parser, P4State, P4Step, P4Target};
use rp_base::{Bytes, NoMemory};

impl Written for P4Case {
    ghost use Rattle.p4_print.specs.Programs.{case_tokens};

    ghost tokens = { case_tokens };

    #[tactic(auto, using(crate::proofs::Steps::texts), unfolding(crate::specs::Programs::case_tokens))]
    fn write(&self, out: &mut Bytes) -> Result<(), NoMemory> {
        self.keyset.write(out)?;
        out.append(b": ")?;
        self.name.write(out)?;
        out.append(b";\n")
    }
}

#[tactic(auto, using(crate::proofs::Steps::texts), unfolding(crate::specs::Programs::select_tokens))]
fn write_select(exprs: &[P4Expr], cases: &[P4Case], out: &mut Bytes) -> Result<(), NoMemory>
    ensures { OnOk result (out.new ≡ out.old ++ text (select_tokens exprs.now cases.now)) }
{
    out.append(b"select ( ")?;
    write_listed(exprs, out)?;
    out.append(b") {\n")?;
    write_all(cases, out)?;
    out.append(b"}\n")
}

impl Written for P4Target {
    ghost use Rattle.p4_print.specs.Programs.{target_tokens};

    ghost tokens = { target_tokens };

    #[tactic(auto, using(crate::proofs::Steps::texts), unfolding(crate::specs::Programs::target_tokens))]
    fn write(&self, out: &mut Bytes) -> Result<(), NoMemory> {
        match self {
            P4Target::Name { at: _, name } => {
                name.write(out)?;
                out.append(b";\n")
            }
            P4Target::Select {
                at: _,
                exprs,
                cases,
            } => write_select(exprs.as_slice(), cases.as_slice(), out),
        }
    }
}

impl Written for P4Extract {
    ghost use Rattle.p4_print.specs.Programs.{extract_tokens};

    ghost tokens = { extract_tokens };

    #[tactic(auto, using(crate::proofs::Steps::texts), unfolding(crate::specs::Programs::extract_tokens))]
    fn write(&self, out: &mut Bytes) -> Result<(), NoMemory> {
        self.name.write(out)?;
        out.append(b". extract ( ")?;
        self.path.write(out)?;
        out.append(b") ;\n")
    }
}

impl Written for P4Step {
    ghost use Rattle.p4_print.specs.Programs.{step_tokens};

    ghost tokens = { step_tokens };

    #[tactic(auto, using(crate::proofs::Steps::texts), unfolding(crate::specs::Programs::step_tokens))]
    fn write(&self, out: &mut Bytes) -> Result<(), NoMemory> {
        match self {
            P4Step::Extract(e) => e.write(out),
            P4Step::Assign(a) => a.write(out),
        }
    }
}

impl Written for P4State {
    ghost use Rattle.p4_print.specs.Programs.{state_tokens};

    ghost tokens = { state_tokens };

    #[tactic(auto, using(crate::proofs::Steps::texts), unfolding(crate::specs::Programs::state_tokens))]
    fn write(&self, out: &mut Bytes) -> Result<(), NoMemory> {
        out.append(b"state ")?;
        self.name.write(out)?;
        out.append(b"{\n")?;
        write_all(self.steps.as_slice(), out)?;
        out.append(b"transition ")?;
        self.target.write(out)?;
        out.append(b"}\n")
    }
}

// The parameters of the parser.
fn write_parameters(p: &P4Parser, out: &mut Bytes) -> Result<(), NoMemory>
    ensures { OnOk result (out.new ≡ out.old ++ text (parameters_tokens p.now)) }
{
    out.append(b"( packet_in ")?;
    p.packet.write(out)?;
    out.append(b", out ")?;
    write_param(&p.headers, out)?;
    out.append(b", inout ")?;
    write_param(&p.meta, out)?;
    out.append(b", inout std_t ")?;
    p.std.write(out)?;
    out.append(b") ")
}

impl Written for P4Parser {
    ghost use Rattle.p4_print.specs.Programs.{parser_tokens};

    ghost tokens = { parser_tokens };

    #[tactic(auto, using(crate::proofs::Steps::texts), unfolding(crate::specs::Programs::parser_tokens))]
    fn write(&self, out: &mut Bytes) -> Result<(), NoMemory> {
        out.append(b"parser ")?;
        self.name.write(out)?;
        write_parameters(self, out)?;
        out.append(b"{\n")?;
        write_all(self.states.as_slice(), out)?;
        out.append(b"}\n")
    }
}
