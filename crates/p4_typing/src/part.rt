//! Expressions behind their checks: the first fault, what is known, and the expression with the widths of its literals.

use crate::form::Form;
use p4_ast::P4Expr;
use rp_base::Refused;
use sqlite_items::Boxed;

/// An expression. `at` is its place.
#[derive(Debug, Drop)]
pub struct Typed {
    pub at: u64,
    pub fault: Option<Refused>,
    pub form: Form,
    pub expr: Boxed<P4Expr>,
}

/// Two operands, and what their operation gives.
#[derive(Debug, Drop)]
pub struct Operands {
    pub fault: Option<Refused>,
    pub form: Form,
    pub left: Boxed<P4Expr>,
    pub right: Boxed<P4Expr>,
}
