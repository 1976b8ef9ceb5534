//! Names, types and paths.
ghost use Rattle.std.specs.Prelude.{◌≡◌, ◌∷◌, ◌++◌, [], OnOk};
ghost use Rattle.p4_print.specs.Text.{text, piece};
ghost use Rattle.p4_print.specs.Shared.{number, all, separated, the, name_tokens, param_tokens};
ghost use Rattle.p4_lex.specs.declared.token.Sign.TheVariants as sign;

use crate::written::{Written, write_maybe};
use itoa::Buffer;
use p4_ast::{P4Field, P4Left, P4Name, P4Number, P4Param, P4Path, P4Slice, P4Type};
use rp_base::{Bytes, NoMemory};

impl Written for P4Name {
    ghost use Rattle.p4_print.specs.Shared.{name_tokens};

    ghost tokens = { name_tokens };

    #[tactic(auto, using(crate::proofs::Steps::texts))]
    fn write(&self, out: &mut Bytes) -> Result<(), NoMemory> {
        out.append(self.text.as_slice())?;
        out.append(b" ")
    }
}

/// Appends a number, with its width where it has one.
///
/// # Errors
/// `NoMemory`.
#[tactic(auto, using(crate::proofs::Steps::texts))]
pub fn write_number(n: &P4Number, out: &mut Bytes) -> Result<(), NoMemory>
    ensures { OnOk result (out.new ≡ out.old ++ piece (number n.now)) }
{
    let mut buffer = Buffer::new();
    if let Some(width) = n.width {
        out.append(buffer.format(width).as_bytes())?;
        out.append(b"w")?;
    }
    out.append(buffer.format(n.value).as_bytes())?;
    out.append(b" ")
}

// Appends each of these behind a dot.
#[tactic(auto, using(crate::proofs::Steps::texts))]
fn write_fields(names: &[P4Name], out: &mut Bytes) -> Result<(), NoMemory>
    ensures { OnOk result (out.new ≡ out.old ++ text (all (λ n. the sign.Dot ∷ name_tokens n) names.now)) }
{
    for name in names {
        out.append(b". ")?;
        name.write(out)?;
    }
    Ok(())
}

// Appends names with dots between them.
#[tactic(auto, using(crate::proofs::Steps::texts))]
fn write_dotted(names: &[P4Name], out: &mut Bytes) -> Result<(), NoMemory>
    ensures { OnOk result (out.new ≡ out.old ++ text (separated sign.Dot name_tokens names.now)) }
{
    match names {
        [] => Ok(()),
        [first, rest @ ..] => {
            first.write(out)?;
            write_fields(rest, out)
        }
    }
}

impl Written for P4Path {
    ghost use Rattle.p4_print.specs.Shared.{path_tokens};

    ghost tokens = { path_tokens };

    #[tactic(auto, using(crate::proofs::Steps::texts), unfolding(crate::specs::Shared::path_tokens))]
    fn write(&self, out: &mut Bytes) -> Result<(), NoMemory> {
        write_dotted(self.names.as_slice(), out)
    }
}

impl Written for P4Slice {
    ghost use Rattle.p4_print.specs.Shared.{slice_tokens};

    ghost tokens = { slice_tokens };

    #[tactic(auto, using(crate::proofs::Steps::texts), unfolding(crate::specs::Shared::slice_tokens))]
    fn write(&self, out: &mut Bytes) -> Result<(), NoMemory> {
        out.append(b"[ ")?;
        write_number(&self.high, out)?;
        out.append(b": ")?;
        write_number(&self.low, out)?;
        out.append(b"] ")
    }
}

impl Written for P4Left {
    ghost use Rattle.p4_print.specs.Shared.{left_tokens};

    ghost tokens = { left_tokens };

    #[tactic(auto, using(crate::proofs::Steps::texts), unfolding(crate::specs::Shared::left_tokens))]
    fn write(&self, out: &mut Bytes) -> Result<(), NoMemory> {
        self.path.write(out)?;
        write_maybe(&self.slice, out)
    }
}

impl Written for P4Type {
    ghost use Rattle.p4_print.specs.Shared.{type_tokens};

    ghost tokens = { type_tokens };

    #[tactic(auto, using(crate::proofs::Steps::texts), unfolding(crate::specs::Shared::type_tokens))]
    fn write(&self, out: &mut Bytes) -> Result<(), NoMemory> {
        match self {
            P4Type::Bit { at: _, width } => {
                out.append(b"bit < ")?;
                write_number(width, out)?;
                out.append(b"> ")
            }
            P4Type::Bool { at: _ } => out.append(b"bool "),
            P4Type::Name { at: _, name } => name.write(out),
            P4Type::StdT { at: _ } => out.append(b"std_t "),
        }
    }
}

impl Written for P4Field {
    ghost use Rattle.p4_print.specs.Shared.{field_tokens};

    ghost tokens = { field_tokens };

    #[tactic(auto, using(crate::proofs::Steps::texts), unfolding(crate::specs::Shared::field_tokens))]
    fn write(&self, out: &mut Bytes) -> Result<(), NoMemory> {
        self.type_.write(out)?;
        self.name.write(out)?;
        out.append(b";\n")
    }
}

/// Appends a parameter, but for `in`, `out` or `inout` before it.
///
/// # Errors
/// `NoMemory`.
#[tactic(auto, using(crate::proofs::Steps::texts))]
pub fn write_param(p: &P4Param, out: &mut Bytes) -> Result<(), NoMemory>
    ensures { OnOk result (out.new ≡ out.old ++ text (param_tokens p.now)) }
{
    p.type_.write(out)?;
    p.name.write(out)
}
