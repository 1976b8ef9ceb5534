//! What has tokens, and how lists of it are written.
ghost use Rattle.std.specs.Prelude.{◌≡◌, ◌++◌, [], ◌∷◌, OnOk};
ghost use Rattle.p4_print.specs.Text.{text};
ghost use Rattle.p4_print.specs.Shared.{all, separated, maybe, the};
ghost use Rattle.p4_lex.specs.declared.token.Sign.TheVariants as sign;

use rp_base::{Bytes, NoMemory};
use sqlite_items::Boxed;

/// A part of a program that can be written.
pub trait Written {
    ghost use Rattle.std.specs.Prelude.{List, ◌≡◌, ◌++◌, OnOk};
    ghost use Rattle.p4_lex.specs.declared.token.Lexeme.{Lexeme};
    ghost use Rattle.p4_print.specs.Text.{text};

    /// Its tokens.
    ghost tokens: { Self → List Lexeme };

    /// Appends its tokens.
    ///
    /// # Errors
    /// `NoMemory`.
    fn write(&self, out: &mut Bytes) -> Result<(), NoMemory>
        ensures { OnOk result (out.new ≡ out.old ++ text (tokens self.now)) };
}

impl<T: Written> Written for Boxed<T> {
    ghost tokens = { T.tokens };

    fn write(&self, out: &mut Bytes) -> Result<(), NoMemory> {
        self.get().write(out)
    }
}

/// Appends each of these.
///
/// # Errors
/// `NoMemory`.
#[tactic(auto, using(crate::proofs::Steps::texts))]
pub fn write_all<T: Written>(parts: &[T], out: &mut Bytes) -> Result<(), NoMemory>
    ensures { OnOk result (out.new ≡ out.old ++ text (all T.tokens parts.now)) }
{
    for part in parts {
        part.write(out)?;
    }
    Ok(())
}

// Appends each of these behind a comma.
#[tactic(auto, using(crate::proofs::Steps::texts))]
fn write_more<T: Written>(parts: &[T], out: &mut Bytes) -> Result<(), NoMemory>
    ensures { OnOk result (out.new ≡ out.old ++ text (all (λ x. the sign.Comma ∷ T.tokens x) parts.now)) }
{
    for part in parts {
        out.append(b", ")?;
        part.write(out)?;
    }
    Ok(())
}

/// Appends each of these, with commas between them.
///
/// # Errors
/// `NoMemory`.
#[tactic(auto, using(crate::proofs::Steps::texts))]
pub fn write_listed<T: Written>(parts: &[T], out: &mut Bytes) -> Result<(), NoMemory>
    ensures { OnOk result (out.new ≡ out.old ++ text (separated sign.Comma T.tokens parts.now)) }
{
    match parts {
        [] => Ok(()),
        [first, rest @ ..] => {
            first.write(out)?;
            write_more(rest, out)
        }
    }
}

/// Appends this, where it is there.
///
/// # Errors
/// `NoMemory`.
#[tactic(auto, using(crate::proofs::Steps::texts))]
pub fn write_maybe<T: Written>(part: &Option<T>, out: &mut Bytes) -> Result<(), NoMemory>
    ensures { OnOk result (out.new ≡ out.old ++ text (maybe T.tokens part.now)) }
{
    match part {
        None => Ok(()),
        Some(part) => part.write(out),
    }
}
