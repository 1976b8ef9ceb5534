//! What stands before the parser.
ghost use Rattle.std.specs.Prelude.{◌≡◌, ◌∷◌};
ghost use Rattle.p4_grammar.specs.Forms.{hand};
ghost use Rattle.p4_grammar.specs.ReadingExpressions.{expression_at, expressions_at, args_at};
ghost use Rattle.p4_grammar.specs.Reading.{fields_at, header_at, struct_at, typedef_at, const_at, declaration_at, begins_declaration};
ghost use Rattle.p4_part.specs.Made.{Gives};

use crate::expression::expr_of;
use crate::part::{Part, parts_behind, parts_until};
use p4_ast::{P4Const, P4Declaration, P4Expr, P4Field, P4Header, P4Struct, P4Typedef};
use p4_lex::{Sign, Token};
use p4_part::list::joined;
use p4_part::name::{boxed_type_of, place_of_type, type_of};
use p4_part::token::{Reading, is_next, name_of, sign_of};
use p4_part::typedefs::Typedefs;
use p4_part::value::without_mark;
use sqlite_items::{Boxed, Items};
use std::alloc::Global;

/// Reads an expression, in a box.
#[tactic(auto, unfolding(p4_grammar::specs::ReadingExpressions::expression_at))]
pub fn expression_of<'a>(
    alloc: Global,
    fuel: usize,
    env: &Typedefs,
    tokens: &'a [Token],
) -> Reading<'a, Boxed<P4Expr>>
    ensures { Gives (λ x. (x.0, x.1.now)) result (expression_at fuel env.now tokens.now) }
{
    let (value, rest) = expr_of(alloc, fuel, env, tokens)?;
    Ok((without_mark(value), rest))
}

impl Part for P4Expr {
    ghost use Rattle.p4_grammar.specs.ReadingExpressions.{expression_at};

    ghost reader = { expression_at };

    fn read<'a>(
        alloc: Global,
        fuel: usize,
        env: &Typedefs,
        tokens: &'a [Token],
    ) -> Reading<'a, P4Expr> {
        let (expr, rest) = expression_of(alloc, fuel, env, tokens)?;
        Ok((expr.into_inner(), rest))
    }
}

/// Reads expressions with commas between them, one at least.
#[tactic(auto, unfolding(p4_grammar::specs::ReadingExpressions::expressions_at))]
pub fn expressions_of<'a>(
    alloc: Global,
    fuel: usize,
    env: &Typedefs,
    tokens: &'a [Token],
) -> Reading<'a, Items<P4Expr>>
    ensures { Gives (λ x. (x.0, x.1.now)) result (expressions_at fuel env.now tokens.now) }
{
    let (first, rest) = expression_of(alloc, fuel, env, tokens)?;
    let (more, rest) = parts_behind(alloc, fuel, env, rest)?;
    let exprs = joined(alloc, first.into_inner(), more)?;
    Ok((exprs, rest))
}

/// Reads arguments in parentheses.
#[tactic(auto, unfolding(p4_grammar::specs::ReadingExpressions::args_at))]
pub fn args_of<'a>(
    alloc: Global,
    fuel: usize,
    env: &Typedefs,
    tokens: &'a [Token],
) -> Reading<'a, Items<P4Expr>>
    ensures { Gives (λ x. (x.0, x.1.now)) result (args_at fuel env.now tokens.now) }
{
    let (_, rest) = sign_of(Sign::Open, tokens)?;
    if is_next(Sign::Close, rest) {
        let (_, rest) = sign_of(Sign::Close, rest)?;
        return Ok((Items::new(alloc), rest));
    }
    let (args, rest) = expressions_of(alloc, fuel, env, rest)?;
    let (_, rest) = sign_of(Sign::Close, rest)?;
    Ok((args, rest))
}

impl Part for P4Field {
    ghost use Rattle.p4_grammar.specs.Reading.{field_at};

    ghost reader = { λ n env. field_at };

    #[tactic(auto, unfolding(p4_grammar::specs::Reading::field_at))]
    fn read<'a>(
        _alloc: Global,
        _fuel: usize,
        _env: &Typedefs,
        tokens: &'a [Token],
    ) -> Reading<'a, P4Field> {
        let (type_, rest) = type_of(tokens)?;
        let (name, rest) = name_of(rest)?;
        let (_, rest) = sign_of(Sign::Semicolon, rest)?;
        let at = place_of_type(&type_);
        Ok((P4Field { at, type_, name }, rest))
    }
}

#[tactic(auto, unfolding(p4_grammar::specs::Reading::fields_at))]
fn fields_of<'a>(
    alloc: Global,
    fuel: usize,
    env: &Typedefs,
    tokens: &'a [Token],
) -> Reading<'a, Items<P4Field>>
    ensures { Gives (λ x. (x.0, x.1.now)) result (fields_at fuel tokens.now) }
{
    let (_, rest) = sign_of(Sign::OpenBrace, tokens)?;
    let (fields, rest) = parts_until(alloc, Sign::CloseBrace, fuel, env, rest)?;
    let (_, rest) = sign_of(Sign::CloseBrace, rest)?;
    Ok((fields, rest))
}

#[tactic(auto, unfolding(p4_grammar::specs::Reading::header_at))]
fn header_of<'a>(
    alloc: Global,
    fuel: usize,
    env: &Typedefs,
    tokens: &'a [Token],
) -> Reading<'a, P4Header>
    ensures { Gives (λ x. (x.0, x.1.now)) result (header_at fuel tokens.now) }
{
    let (at, rest) = sign_of(Sign::Header, tokens)?;
    let (name, rest) = name_of(rest)?;
    let (fields, rest) = fields_of(alloc, fuel, env, rest)?;
    Ok((P4Header { at, name, fields }, rest))
}

#[tactic(auto, unfolding(p4_grammar::specs::Reading::struct_at))]
fn struct_of<'a>(
    alloc: Global,
    fuel: usize,
    env: &Typedefs,
    tokens: &'a [Token],
) -> Reading<'a, P4Struct>
    ensures { Gives (λ x. (x.0, x.1.now)) result (struct_at fuel tokens.now) }
{
    let (at, rest) = sign_of(Sign::Struct, tokens)?;
    let (name, rest) = name_of(rest)?;
    let (fields, rest) = fields_of(alloc, fuel, env, rest)?;
    Ok((P4Struct { at, name, fields }, rest))
}

#[tactic(auto, unfolding(p4_grammar::specs::Reading::typedef_at))]
fn typedef_of(tokens: &[Token]) -> Reading<'_, P4Typedef>
    ensures { Gives (λ x. (x.0, x.1.now)) result (typedef_at tokens.now) }
{
    let (at, rest) = sign_of(Sign::Typedef, tokens)?;
    let (type_, rest) = type_of(rest)?;
    let (name, rest) = name_of(rest)?;
    let (_, rest) = sign_of(Sign::Semicolon, rest)?;
    Ok((P4Typedef { at, type_, name }, rest))
}

/// Reads a constant.
#[tactic(auto, unfolding(p4_grammar::specs::Reading::const_at))]
pub fn const_of<'a>(
    alloc: Global,
    fuel: usize,
    env: &Typedefs,
    tokens: &'a [Token],
) -> Reading<'a, P4Const>
    ensures { Gives (λ x. (x.0, x.1.now)) result (const_at fuel env.now tokens.now) }
{
    let (at, rest) = sign_of(Sign::Const, tokens)?;
    let (type_, rest) = boxed_type_of(alloc, rest)?;
    let (name, rest) = name_of(rest)?;
    let (_, rest) = sign_of(Sign::Assign, rest)?;
    let (expr, rest) = expression_of(alloc, fuel, env, rest)?;
    let (_, rest) = sign_of(Sign::Semicolon, rest)?;
    let type_ = type_.into_inner();
    Ok((
        P4Const {
            at,
            type_,
            name,
            expr,
        },
        rest,
    ))
}

/// Reads a declaration.
#[tactic(auto, unfolding(p4_grammar::specs::Reading::declaration_at))]
pub fn declaration_of<'a>(
    alloc: Global,
    fuel: usize,
    env: &Typedefs,
    tokens: &'a [Token],
) -> Reading<'a, P4Declaration>
    ensures { Gives (λ x. (x.0, x.1.now)) result (declaration_at fuel env.now tokens.now) }
{
    if is_next(Sign::Header, tokens) {
        let (header, rest) = header_of(alloc, fuel, env, tokens)?;
        return Ok((P4Declaration::Header(header), rest));
    }
    if is_next(Sign::Struct, tokens) {
        let (struct_, rest) = struct_of(alloc, fuel, env, tokens)?;
        return Ok((P4Declaration::Struct(struct_), rest));
    }
    if is_next(Sign::Typedef, tokens) {
        let (typedef, rest) = typedef_of(tokens)?;
        return Ok((P4Declaration::Typedef(typedef), rest));
    }
    let (const_, rest) = const_of(alloc, fuel, env, tokens)?;
    Ok((P4Declaration::Const(const_), rest))
}

/// Whether a word is in hand that begins a declaration.
pub fn is_declaration_next(tokens: &[Token]) -> bool
    ensures { result ≡ hand begins_declaration tokens.now }
{
    is_next(Sign::Header, tokens)
        || is_next(Sign::Struct, tokens)
        || is_next(Sign::Typedef, tokens)
        || is_next(Sign::Const, tokens)
}
