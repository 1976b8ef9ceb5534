//! The ingress control and what is declared in it.
ghost use Rattle.std.specs.Prelude.{◌≡◌, ◌++◌, ◌∷◌, OnOk};
ghost use Rattle.p4_print.specs.Text.{text};
ghost use Rattle.p4_print.specs.Shared.{the, all, separated, argument_tokens, maybe};
ghost use Rattle.p4_print.specs.Programs.{rp_tokens, inputs_tokens};
ghost use Rattle.p4_lex.specs.declared.token.Sign.TheVariants as sign;

use crate::shared::{write_number, write_param};
use crate::written::{Written, write_all};
use p4_ast::{P4Action, P4Cell, P4Field, P4Ingress, P4Local, P4Param};
use rp_base::{Bytes, NoMemory};

impl Written for P4Cell {
    ghost use Rattle.p4_print.specs.Programs.{cell_tokens};

    ghost tokens = { cell_tokens };

    #[tactic(auto, using(crate::proofs::Steps::texts), unfolding(crate::specs::Programs::cell_tokens))]
    fn write(&self, out: &mut Bytes) -> Result<(), NoMemory> {
        match self {
            P4Cell::Cell { at: _, type_, name } => {
                out.append(b"FlowCell < ")?;
                type_.write(out)?;
                out.append(b"> ( ) ")?;
                name.write(out)?;
                out.append(b";\n")
            }
            P4Cell::Array {
                at: _,
                type_,
                size,
                name,
            } => {
                out.append(b"FlowArray < ")?;
                type_.write(out)?;
                out.append(b"> ( ")?;
                write_number(size, out)?;
                out.append(b") ")?;
                name.write(out)?;
                out.append(b";\n")
            }
        }
    }
}

// A parameter of an action.
#[tactic(auto, using(crate::proofs::Steps::texts))]
fn write_argument(param: &P4Field, out: &mut Bytes) -> Result<(), NoMemory>
    ensures { OnOk result (out.new ≡ out.old ++ text (argument_tokens param.now)) }
{
    param.type_.write(out)?;
    param.name.write(out)
}

// Appends each parameter behind a comma.
#[tactic(auto, using(crate::proofs::Steps::texts))]
fn write_more(params: &[P4Field], out: &mut Bytes) -> Result<(), NoMemory>
    ensures { OnOk result (out.new ≡ out.old ++ text (all (λ p. the sign.Comma ∷ argument_tokens p) params.now)) }
{
    for param in params {
        out.append(b", ")?;
        write_argument(param, out)?;
    }
    Ok(())
}

// The parameters of an action.
#[tactic(auto, using(crate::proofs::Steps::texts))]
fn write_arguments(params: &[P4Field], out: &mut Bytes) -> Result<(), NoMemory>
    ensures { OnOk result (out.new ≡ out.old ++ text (separated sign.Comma argument_tokens params.now)) }
{
    match params {
        [] => Ok(()),
        [first, rest @ ..] => {
            write_argument(first, out)?;
            write_more(rest, out)
        }
    }
}

impl Written for P4Action {
    ghost use Rattle.p4_print.specs.Programs.{action_tokens};

    ghost tokens = { action_tokens };

    #[tactic(auto, using(crate::proofs::Steps::texts), unfolding(crate::specs::Programs::action_tokens))]
    fn write(&self, out: &mut Bytes) -> Result<(), NoMemory> {
        out.append(b"action ")?;
        self.name.write(out)?;
        out.append(b"( ")?;
        write_arguments(self.params.as_slice(), out)?;
        out.append(b") ")?;
        self.block.write(out)
    }
}

impl Written for P4Local {
    ghost use Rattle.p4_print.specs.Programs.{local_tokens};

    ghost tokens = { local_tokens };

    #[tactic(auto, using(crate::proofs::Steps::texts), unfolding(crate::specs::Programs::local_tokens))]
    fn write(&self, out: &mut Bytes) -> Result<(), NoMemory> {
        match self {
            P4Local::Const(c) => c.write(out),
            P4Local::Var(v) => v.write(out),
            P4Local::Cell(c) => c.write(out),
            P4Local::Action(a) => a.write(out),
            P4Local::Table(t) => t.write(out),
        }
    }
}

// The parameter that rewriting adds.
#[tactic(auto, using(crate::proofs::Steps::texts))]
fn write_rp(rp: &Option<P4Param>, out: &mut Bytes) -> Result<(), NoMemory>
    ensures { OnOk result (out.new ≡ out.old ++ text (maybe rp_tokens rp.now)) }
{
    match rp {
        None => Ok(()),
        Some(p) => {
            out.append(b", inout ")?;
            write_param(p, out)
        }
    }
}

// The parameters of the control.
#[tactic(auto, using(crate::proofs::Steps::texts), unfolding(crate::specs::Programs::inputs_tokens))]
fn write_inputs(c: &P4Ingress, out: &mut Bytes) -> Result<(), NoMemory>
    ensures { OnOk result (out.new ≡ out.old ++ text (inputs_tokens c.now)) }
{
    out.append(b"( inout ")?;
    write_param(&c.headers, out)?;
    out.append(b", inout ")?;
    write_param(&c.meta, out)?;
    out.append(b", inout std_t ")?;
    c.std.write(out)?;
    write_rp(&c.rp, out)?;
    out.append(b") ")
}

impl Written for P4Ingress {
    ghost use Rattle.p4_print.specs.Programs.{ingress_tokens};

    ghost tokens = { ingress_tokens };

    #[tactic(auto, using(crate::proofs::Steps::texts), unfolding(crate::specs::Programs::ingress_tokens))]
    fn write(&self, out: &mut Bytes) -> Result<(), NoMemory> {
        out.append(b"control ")?;
        self.name.write(out)?;
        write_inputs(self, out)?;
        out.append(b"{\n")?;
        write_all(self.locals.as_slice(), out)?;
        out.append(b"apply ")?;
        self.block.write(out)?;
        out.append(b"}\n")
    }
}
