//! Expressions.
ghost use Rattle.std.specs.Prelude.{◌≡◌, ◌∷◌, ◌++◌, [], OnOk};
ghost use Rattle.p4_print.specs.Text.{text};
ghost use Rattle.p4_print.specs.Shared.{the, separated};
ghost use Rattle.p4_print.specs.Expressions.{binary_sign, unary_sign, where_so, expr_as, operand_tokens, args_tokens};
ghost use Rattle.p4_lex.specs.declared.token.Sign.TheVariants as sign;

use crate::shared::write_number;
use crate::written::{Written, write_listed};
use p4_ast::{P4BinaryOp, P4Expr, P4UnaryOp};
use rp_base::{Bytes, NoMemory};

#[tactic(auto, using(crate::proofs::Steps::texts))]
fn write_binary(op: P4BinaryOp, out: &mut Bytes) -> Result<(), NoMemory>
    ensures { OnOk result (out.new ≡ out.old ++ text (the (binary_sign op) ∷ [])) }
{
    match op {
        P4BinaryOp::Or => out.append(b"|| "),
        P4BinaryOp::And => out.append(b"&& "),
        P4BinaryOp::Equal => out.append(b"== "),
        P4BinaryOp::NotEqual => out.append(b"!= "),
        P4BinaryOp::Less => out.append(b"< "),
        P4BinaryOp::LessEqual => out.append(b"<= "),
        P4BinaryOp::More => out.append(b"> "),
        P4BinaryOp::MoreEqual => out.append(b">= "),
        P4BinaryOp::Plus => out.append(b"+ "),
        P4BinaryOp::Minus => out.append(b"- "),
        P4BinaryOp::SatPlus => out.append(b"|+| "),
        P4BinaryOp::SatMinus => out.append(b"|-| "),
        P4BinaryOp::BitAnd => out.append(b"& "),
        P4BinaryOp::BitOr => out.append(b"| "),
        P4BinaryOp::BitXor => out.append(b"^ "),
        P4BinaryOp::ShiftLeft => out.append(b"<< "),
        P4BinaryOp::ShiftRight => out.append(b">> "),
        P4BinaryOp::Concat => out.append(b"++ "),
    }
}

#[tactic(auto, using(crate::proofs::Steps::texts))]
fn write_unary(op: P4UnaryOp, out: &mut Bytes) -> Result<(), NoMemory>
    ensures { OnOk result (out.new ≡ out.old ++ text (the (unary_sign op) ∷ [])) }
{
    match op {
        P4UnaryOp::Not => out.append(b"! "),
        P4UnaryOp::Complement => out.append(b"~ "),
        P4UnaryOp::Negate => out.append(b"- "),
    }
}

// The parenthesis before an operand that needs one.
#[tactic(auto, using(crate::proofs::Steps::texts))]
fn write_open(operand: bool, out: &mut Bytes) -> Result<(), NoMemory>
    ensures { OnOk result (out.new ≡ out.old ++ text (where_so operand sign.Open)) }
{
    if operand { out.append(b"( ") } else { Ok(()) }
}

// The parenthesis behind it.
#[tactic(auto, using(crate::proofs::Steps::texts))]
fn write_close(operand: bool, out: &mut Bytes) -> Result<(), NoMemory>
    ensures { OnOk result (out.new ≡ out.old ++ text (where_so operand sign.Close)) }
{
    if operand { out.append(b") ") } else { Ok(()) }
}

// Appends an expression. An operation, a cast or a slice that is an operand stands in parentheses.
#[tactic(auto, using(crate::proofs::Steps::texts))]
fn write_as(e: &P4Expr, operand: bool, out: &mut Bytes) -> Result<(), NoMemory>
    ensures { OnOk result (out.new ≡ out.old ++ text (expr_as e.now operand)) }
{
    match e {
        P4Expr::Choice {
            at: _,
            test,
            yes,
            no,
        } => {
            write_open(operand, out)?;
            write_as(test.get(), true, out)?;
            out.append(b"? ")?;
            write_as(yes.get(), true, out)?;
            out.append(b": ")?;
            write_as(no.get(), true, out)?;
            write_close(operand, out)
        }
        P4Expr::Binary {
            at: _,
            op,
            left,
            right,
        } => {
            write_open(operand, out)?;
            write_as(left.get(), true, out)?;
            write_binary(*op, out)?;
            write_as(right.get(), true, out)?;
            write_close(operand, out)
        }
        P4Expr::Unary {
            at: _,
            op,
            operand: inner,
        } => {
            write_open(operand, out)?;
            write_unary(*op, out)?;
            write_as(inner.get(), true, out)?;
            write_close(operand, out)
        }
        P4Expr::Cast {
            at: _,
            type_,
            operand: inner,
        } => {
            write_open(operand, out)?;
            out.append(b"( ")?;
            type_.write(out)?;
            out.append(b") ")?;
            write_as(inner.get(), true, out)?;
            write_close(operand, out)
        }
        P4Expr::Slice {
            at: _,
            operand: inner,
            slice,
        } => {
            write_open(operand, out)?;
            write_as(inner.get(), true, out)?;
            slice.write(out)?;
            write_close(operand, out)
        }
        P4Expr::Number { at: _, number } => write_number(number, out),
        P4Expr::True { at: _ } => out.append(b"true "),
        P4Expr::False { at: _ } => out.append(b"false "),
        P4Expr::Path { at: _, path } => path.write(out),
        P4Expr::IsValid { at: _, path } => {
            path.write(out)?;
            out.append(b". isValid ( ) ")
        }
    }
}

/// Appends an operand.
///
/// # Errors
/// `NoMemory`.
#[tactic(auto, using(crate::proofs::Steps::texts))]
pub fn write_operand(e: &P4Expr, out: &mut Bytes) -> Result<(), NoMemory>
    ensures { OnOk result (out.new ≡ out.old ++ text (operand_tokens e.now)) }
{
    write_as(e, true, out)
}

impl Written for P4Expr {
    ghost use Rattle.p4_print.specs.Expressions.{expr_tokens};

    ghost tokens = { expr_tokens };

    #[tactic(auto, using(crate::proofs::Steps::texts))]
    fn write(&self, out: &mut Bytes) -> Result<(), NoMemory> {
        write_as(self, false, out)
    }
}

/// Appends arguments in parentheses.
///
/// # Errors
/// `NoMemory`.
#[tactic(auto, using(crate::proofs::Steps::texts), unfolding(crate::specs::Expressions::args_tokens))]
pub fn write_args(args: &[P4Expr], out: &mut Bytes) -> Result<(), NoMemory>
    ensures { OnOk result (out.new ≡ out.old ++ text (args_tokens args.now)) }
{
    out.append(b"( ")?;
    write_listed(args, out)?;
    out.append(b") ")
}
