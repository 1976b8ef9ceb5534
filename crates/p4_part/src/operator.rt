//! Operators.
ghost use Rattle.std.specs.Prelude.{◌≡◌};
ghost use Rattle.p4_part.specs.Operators.{is_binary as is_binary_of};
ghost use Rattle.p4_part.specs.Made.{Finds, of_option};
ghost use Rattle.p4_grammar.specs.Forms.{taken_at, hand, is_given};
ghost use Rattle.p4_grammar.specs.Tokens.{in_hand};
ghost use Rattle.p4_grammar.specs.Values.{op_sign as op_sign_of, this, some_op, compare_op, chain_op, sum_op, unary_op, begins_operand};

use crate::token::{Finding, is_sign};
use crate::value::is_bare;
use p4_ast::{P4BinaryOp, P4UnaryOp};
use p4_grammar::Spelled;
use p4_lex::{Lexeme, Sign, Token};

fn op_sign(op: P4BinaryOp) -> Sign
    ensures { result ≡ op_sign_of op }
{
    match op {
        P4BinaryOp::Or => Sign::Or,
        P4BinaryOp::And => Sign::And,
        P4BinaryOp::Equal => Sign::Equal,
        P4BinaryOp::NotEqual => Sign::NotEqual,
        P4BinaryOp::Less => Sign::Less,
        P4BinaryOp::LessEqual => Sign::LessEqual,
        P4BinaryOp::More => Sign::More,
        P4BinaryOp::MoreEqual => Sign::MoreEqual,
        P4BinaryOp::Plus => Sign::Plus,
        P4BinaryOp::Minus => Sign::Minus,
        P4BinaryOp::SatPlus => Sign::SatPlus,
        P4BinaryOp::SatMinus => Sign::SatMinus,
        P4BinaryOp::BitAnd => Sign::BitAnd,
        P4BinaryOp::BitOr => Sign::BitOr,
        P4BinaryOp::BitXor => Sign::BitXor,
        P4BinaryOp::ShiftLeft => Sign::ShiftLeft,
        P4BinaryOp::ShiftRight => Sign::ShiftRight,
        P4BinaryOp::Concat => Sign::Concat,
    }
}

/// Whether this operator is in hand.
pub fn is_this_next(op: P4BinaryOp, tokens: &[Token]) -> bool
    ensures { result ≡ hand (λ a. is_given (this op a)) tokens.now }
{
    match tokens {
        [] => false,
        [token, ..] => is_sign(op_sign(op), token),
    }
}

/// Reads this operator.
pub fn this_of(op: P4BinaryOp, tokens: &[Token]) -> Finding<'_, P4BinaryOp>
    ensures { Finds (λ x. (x.0, x.1.now)) (λ e. e.now) result (taken_at (this op) tokens.now) }
{
    match tokens {
        [] => Err(tokens),
        [token, rest @ ..] => {
            if is_sign(op_sign(op), token) {
                Ok((op, rest))
            } else {
                Err(tokens)
            }
        }
    }
}

// Which of these operators a token is.
fn op_in(ops: &[P4BinaryOp], token: &Token) -> Option<P4BinaryOp>
    ensures { of_option result ≡ some_op ops.now token.now }
{
    match ops {
        [] => None,
        [op, more @ ..] => {
            if is_sign(op_sign(*op), token) {
                Some(*op)
            } else {
                op_in(more, token)
            }
        }
    }
}

fn is_op_next(ops: &[P4BinaryOp], tokens: &[Token]) -> bool
    ensures { result ≡ hand (λ a. is_given (some_op ops.now a)) tokens.now }
{
    match tokens {
        [] => false,
        [token, ..] => op_in(ops, token).is_some(),
    }
}

fn op_of<'a>(ops: &[P4BinaryOp], tokens: &'a [Token]) -> Finding<'a, P4BinaryOp>
    ensures { Finds (λ x. (x.0, x.1.now)) (λ e. e.now) result (taken_at (some_op ops.now) tokens.now) }
{
    match tokens {
        [] => Err(tokens),
        [token, rest @ ..] => match op_in(ops, token) {
            Some(op) => Ok((op, rest)),
            None => Err(tokens),
        },
    }
}

const COMPARES: [P4BinaryOp; 6] = [
    P4BinaryOp::Equal,
    P4BinaryOp::NotEqual,
    P4BinaryOp::Less,
    P4BinaryOp::LessEqual,
    P4BinaryOp::More,
    P4BinaryOp::MoreEqual,
];

const CHAINS: [P4BinaryOp; 8] = [
    P4BinaryOp::SatPlus,
    P4BinaryOp::SatMinus,
    P4BinaryOp::BitAnd,
    P4BinaryOp::BitOr,
    P4BinaryOp::BitXor,
    P4BinaryOp::ShiftLeft,
    P4BinaryOp::ShiftRight,
    P4BinaryOp::Concat,
];

/// Whether an operator of comparisons is in hand.
pub fn is_compare_next(tokens: &[Token]) -> bool
    ensures { result ≡ hand (λ a. is_given (compare_op a)) tokens.now }
{
    is_op_next(&COMPARES, tokens)
}

/// Reads an operator of comparisons.
pub fn compare_op_of(tokens: &[Token]) -> Finding<'_, P4BinaryOp>
    ensures { Finds (λ x. (x.0, x.1.now)) (λ e. e.now) result (taken_at compare_op tokens.now) }
{
    op_of(&COMPARES, tokens)
}

/// Whether an operator of chains is in hand.
pub fn is_chain_next(tokens: &[Token]) -> bool
    ensures { result ≡ hand (λ a. is_given (chain_op a)) tokens.now }
{
    is_op_next(&CHAINS, tokens)
}

/// Reads an operator of chains.
pub fn chain_op_of(tokens: &[Token]) -> Finding<'_, P4BinaryOp>
    ensures { Finds (λ x. (x.0, x.1.now)) (λ e. e.now) result (taken_at chain_op tokens.now) }
{
    op_of(&CHAINS, tokens)
}

/// Whether an operator is in hand that may go on with the sum x.
pub fn is_sum_next(x: &Spelled, tokens: &[Token]) -> bool
    ensures { result ≡ hand (λ a. is_given (sum_op x.now a)) tokens.now }
{
    if is_bare(&x.mark) {
        is_op_next(&[P4BinaryOp::Plus], tokens)
    } else {
        is_op_next(&[P4BinaryOp::Plus, P4BinaryOp::Minus], tokens)
    }
}

/// Reads an operator that goes on with the sum x.
pub fn sum_op_of<'a>(x: &Spelled, tokens: &'a [Token]) -> Finding<'a, P4BinaryOp>
    ensures { Finds (λ x. (x.0, x.1.now)) (λ e. e.now) result (taken_at (sum_op x.now) tokens.now) }
{
    if is_bare(&x.mark) {
        op_of(&[P4BinaryOp::Plus], tokens)
    } else {
        op_of(&[P4BinaryOp::Plus, P4BinaryOp::Minus], tokens)
    }
}

/// Whether an operator before an operand is in hand.
pub fn is_unary_next(tokens: &[Token]) -> bool
    ensures { result ≡ hand (λ a. is_given (unary_op a)) tokens.now }
{
    match tokens {
        [
            Token {
                at: _,
                end: _,
                lexeme: Lexeme::Sign(Sign::Not | Sign::Complement | Sign::Minus),
            },
            ..
        ] => true,
        _ => false,
    }
}

/// Reads an operator before an operand, with its place.
pub fn unary_op_of(tokens: &[Token]) -> Finding<'_, (P4UnaryOp, u64)>
    ensures { Finds (λ x. (x.0, x.1.now)) (λ e. e.now) result (taken_at unary_op tokens.now) }
{
    match tokens {
        [
            Token {
                at,
                end: _,
                lexeme: Lexeme::Sign(Sign::Not),
            },
            rest @ ..,
        ] => Ok(((P4UnaryOp::Not, *at), rest)),
        [
            Token {
                at,
                end: _,
                lexeme: Lexeme::Sign(Sign::Complement),
            },
            rest @ ..,
        ] => Ok(((P4UnaryOp::Complement, *at), rest)),
        [
            Token {
                at,
                end: _,
                lexeme: Lexeme::Sign(Sign::Minus),
            },
            rest @ ..,
        ] => Ok(((P4UnaryOp::Negate, *at), rest)),
        _ => Err(tokens),
    }
}

/// Whether a token is in hand that begins an operand.
pub fn is_operand_next(tokens: &[Token]) -> bool
    ensures { result ≡ hand begins_operand tokens.now }
{
    match tokens {
        [
            Token {
                at: _,
                end: _,
                lexeme,
            },
            ..
        ] => match lexeme {
            Lexeme::Name(_) => true,
            Lexeme::Number { value: _, width: _ } => true,
            Lexeme::Sign(
                Sign::True | Sign::False | Sign::Open | Sign::Not | Sign::Complement | Sign::Minus,
            ) => true,
            Lexeme::Sign(_) => false,
        },
        [] => false,
    }
}

/// Whether a token is an operator between two operands.
pub fn is_binary(token: &Token) -> bool
    ensures { result ≡ is_binary_of token.now }
{
    let ors = [
        P4BinaryOp::Or,
        P4BinaryOp::And,
        P4BinaryOp::Plus,
        P4BinaryOp::Minus,
    ];
    op_in(&ors, token).is_some()
        || op_in(&COMPARES, token).is_some()
        || op_in(&CHAINS, token).is_some()
}
