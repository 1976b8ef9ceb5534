//! Expressions over numbered slots.

use app_data::Value;
use p4_ast::{P4BinaryOp, P4Slice, P4UnaryOp};
use sqlite_items::Boxed;

/// An expression over numbered slots.
#[derive(Drop)]
pub enum Code {
    /// A value that is known.
    Literal(Value),
    /// The value in the slot of this number; 0 of no width past the last slot.
    Slot(usize),
    /// The second where the first is true, else the third.
    Choice(Boxed<Code>, Boxed<Code>, Boxed<Code>),
    /// What an operator makes of two values.
    Binary(P4BinaryOp, Boxed<Code>, Boxed<Code>),
    /// What an operator makes of one value.
    Unary(P4UnaryOp, Boxed<Code>),
    /// The lowest bits, as many as the width says.
    Cut(u8, Boxed<Code>),
    /// Some of the bits.
    Slice(Boxed<Code>, P4Slice),
}
