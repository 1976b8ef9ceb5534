//! Expressions as they were spelled.
ghost use Rattle.std.specs.Prelude.{◌≡◌};
ghost use Rattle.p4_grammar.specs.declared.mark.Mark.TheVariants as mark;
ghost use Rattle.p4_part.specs.Made.{Makes, called_in, choice_with, compound_with};
ghost use Rattle.p4_grammar.specs.ReadingStatements.{is_some};
ghost use Rattle.p4_grammar.specs.Values.{later as later_of, of_cast, of_path, is_bare as is_bare_of, cast_by, first_at, path_of as path_is, path_value as path_value_of, valid_value as valid_value_of, slice_value as slice_value_of, cast_value as cast_value_of, unary_value as unary_value_of, binary as binary_of};

use crate::end::ReadEnd;
use crate::typedefs::Typedefs;
use p4_ast::{P4BinaryOp, P4Expr, P4Name, P4Path, P4Slice, P4Type, P4UnaryOp};
use p4_grammar::{Mark, Spelled};
use sqlite_items::{Boxed, Items};
use std::alloc::Global;

/// What is made; an error has no tokens, since only memory may run out.
pub type Made<'a, T> = Result<T, ReadEnd<'a>>;

/// A value in a box.
pub fn boxed<'a, T: Drop>(alloc: Global, x: T) -> Made<'a, Boxed<T>>
    ensures { Makes result x }
{
    match Boxed::new(alloc, x) {
        Ok(inner) => Ok(inner),
        Err(_) => Err(ReadEnd::NoMemory),
    }
}

fn copy_name<'a>(name: &P4Name) -> Made<'a, P4Name>
    ensures { Makes result name.now }
{
    match name.text.copy() {
        Ok(text) => Ok(P4Name { at: name.at, text }),
        Err(_) => Err(ReadEnd::NoMemory),
    }
}

fn copy_type<'a>(type_: &P4Type) -> Made<'a, P4Type>
    ensures { Makes result type_.now }
{
    match type_ {
        P4Type::Bit { at, width } => Ok(P4Type::Bit {
            at: *at,
            width: *width,
        }),
        P4Type::Bool { at } => Ok(P4Type::Bool { at: *at }),
        P4Type::Name { at, name } => {
            let name = copy_name(name)?;
            Ok(P4Type::Name { at: *at, name })
        }
        P4Type::StdT { at } => Ok(P4Type::StdT { at: *at }),
    }
}

fn later(mark: Mark) -> Mark
    ensures { result ≡ later_of mark }
{
    match mark {
        Mark::Bare => Mark::Bare,
        Mark::One(_) => Mark::Plain,
        Mark::Read(_) => Mark::Plain,
        Mark::CastRead(_, _) => Mark::Plain,
        Mark::Plain => Mark::Plain,
    }
}

fn mark_of_cast<'a>(alloc: Global, type_: &P4Type, mark: Mark) -> Made<'a, Mark>
    ensures { Makes result (of_cast type_.now mark) }
{
    match mark {
        Mark::Bare => Ok(Mark::Bare),
        Mark::One(_) => Ok(Mark::Plain),
        Mark::Read(name) => {
            let type_ = copy_type(type_)?;
            let type_ = boxed(alloc, type_)?;
            Ok(Mark::CastRead(type_, name))
        }
        Mark::CastRead(_, _) => Ok(Mark::Plain),
        Mark::Plain => Ok(Mark::Plain),
    }
}

fn mark_of_path<'a>(names: &[P4Name]) -> Made<'a, Mark>
    ensures { Makes result (of_path names.now) }
{
    match names {
        [] => Ok(Mark::Plain),
        [x] => {
            let x = copy_name(x)?;
            Ok(Mark::One(x))
        }
        [x, y] => {
            if y.text.as_slice() == b"read".as_slice() {
                let x = copy_name(x)?;
                Ok(Mark::Read(x))
            } else {
                Ok(Mark::Plain)
            }
        }
        [_, _, _, ..] => Ok(Mark::Plain),
    }
}

/// Whether the end is a typedef's name in parentheses.
pub fn is_bare(mark: &Mark) -> bool
    ensures { result ≡ is_bare_of mark.now }
{
    match mark {
        Mark::Bare => true,
        Mark::One(_) => false,
        Mark::Read(_) => false,
        Mark::CastRead(_, _) => false,
        Mark::Plain => false,
    }
}

/// The typedef's name that stands alone in parentheses.
pub fn cast_name(env: &Typedefs, mark: Mark) -> Option<P4Name>
    ensures { result ≡ cast_by env.now mark }
{
    match mark {
        Mark::One(x) => {
            if env.has(x.text.as_slice()) {
                Some(x)
            } else {
                None
            }
        }
        Mark::Read(_) => None,
        Mark::CastRead(_, _) => None,
        Mark::Bare => None,
        Mark::Plain => None,
    }
}

/// The place of a path.
pub fn place_of(names: &[P4Name]) -> u64
    ensures { result ≡ first_at names.now }
{
    match names {
        [] => 0,
        [x, ..] => x.at,
    }
}

/// A path.
pub fn path_of(names: Items<P4Name>) -> P4Path
    ensures { result ≡ path_is names }
{
    P4Path {
        at: place_of(names.as_slice()),
        names,
    }
}

/// An expression without the mark of its spelling, which is let go at once.
pub fn without_mark(x: Spelled) -> Boxed<P4Expr>
    ensures { result ≡ x.expr }
{
    let Spelled {
        at: _,
        expr,
        mark: _,
    } = x;
    expr
}

/// An expression whose spelling doesn't matter for what may follow it.
pub fn plain<'a>(alloc: Global, at: u64, expr: P4Expr) -> Made<'a, Spelled>
    ensures { Makes result (record { at = at; expr = expr; mark = mark.Plain }) }
{
    let expr = boxed(alloc, expr)?;
    Ok(Spelled {
        at,
        expr,
        mark: Mark::Plain,
    })
}

/// A path as an expression.
pub fn path_value<'a>(alloc: Global, names: Items<P4Name>) -> Made<'a, Spelled>
    ensures { Makes result (path_value_of names) }
{
    let at = place_of(names.as_slice());
    let mark = mark_of_path(names.as_slice())?;
    let path = path_of(names);
    let expr = boxed(alloc, P4Expr::Path { at, path })?;
    Ok(Spelled { at, expr, mark })
}

/// Whether a path is valid, as an expression.
pub fn valid_value<'a>(alloc: Global, names: Items<P4Name>) -> Made<'a, Spelled>
    ensures { Makes result (valid_value_of names) }
{
    let at = place_of(names.as_slice());
    let path = path_of(names);
    plain(alloc, at, P4Expr::IsValid { at, path })
}

/// A value that is sliced.
pub fn slice_value<'a>(alloc: Global, x: Spelled, slice: P4Slice) -> Made<'a, Spelled>
    ensures { Makes result (slice_value_of x slice) }
{
    let Spelled {
        at,
        expr: operand,
        mark: _,
    } = x;
    plain(alloc, at, P4Expr::Slice { at, operand, slice })
}

/// A cast.
pub fn cast_value<'a>(alloc: Global, at: u64, type_: P4Type, x: Spelled) -> Made<'a, Spelled>
    ensures { Makes result (cast_value_of at type_ x) }
{
    let Spelled {
        at: _,
        expr: operand,
        mark,
    } = x;
    let mark = mark_of_cast(alloc, &type_, mark)?;
    let expr = boxed(alloc, P4Expr::Cast { at, type_, operand })?;
    Ok(Spelled { at, expr, mark })
}

/// An operation on one operand.
pub fn unary_value<'a>(alloc: Global, op: P4UnaryOp, at: u64, x: Spelled) -> Made<'a, Spelled>
    ensures { Makes result (unary_value_of op at x) }
{
    let Spelled {
        at: _,
        expr: operand,
        mark,
    } = x;
    let expr = boxed(alloc, P4Expr::Unary { at, op, operand })?;
    let mark = later(mark);
    Ok(Spelled { at, expr, mark })
}

/// An operation on two operands, of which the first stands at this place.
pub fn compound<'a>(
    alloc: Global,
    op: P4BinaryOp,
    at: u64,
    left: Boxed<P4Expr>,
    y: Spelled,
) -> Made<'a, Spelled>
    ensures { Makes result (compound_with op at left y) }
{
    let Spelled {
        at: _,
        expr: right,
        mark,
    } = y;
    let expr = P4Expr::Binary {
        at,
        op,
        left,
        right,
    };
    let expr = boxed(alloc, expr)?;
    let mark = later(mark);
    Ok(Spelled { at, expr, mark })
}

/// An operation on two operands.
pub fn binary<'a>(alloc: Global, op: P4BinaryOp, x: Spelled, y: Spelled) -> Made<'a, Spelled>
    ensures { Makes result (binary_of op x y) }
{
    let at = x.at;
    compound(alloc, op, at, without_mark(x), y)
}

/// A choice at this place.
pub fn choice<'a>(
    alloc: Global,
    at: u64,
    test: Boxed<P4Expr>,
    yes: Boxed<P4Expr>,
    z: Spelled,
) -> Made<'a, Spelled>
    ensures { Makes result (choice_with at test yes z) }
{
    let Spelled {
        at: _,
        expr: no,
        mark,
    } = z;
    let expr = boxed(alloc, P4Expr::Choice { at, test, yes, no })?;
    let mark = later(mark);
    Ok(Spelled { at, expr, mark })
}

/// Whether a path of two names or more has this text as its last.
pub fn ends_in(text: &[u8], names: &[P4Name]) -> bool
    ensures { result ≡ is_some (called_in text.now names.now) }
{
    match names {
        [] => false,
        [_] => false,
        [_, y] => y.text.as_slice() == text,
        [_, more @ ..] => ends_in(text, more),
    }
}
