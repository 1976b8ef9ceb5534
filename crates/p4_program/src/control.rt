//! The ingress control and what is declared in it.
ghost use Rattle.std.specs.Prelude.{◌≡◌, ◌∷◌, []};
ghost use Rattle.p4_grammar.specs.Forms.{many_at};
ghost use Rattle.p4_grammar.specs.Reading.{flow_cell_at, flow_array_at, typed_at, typed_list_at, action_at, last_param_at, local_at, ingress_at};
ghost use Rattle.p4_grammar.specs.Tokens.{but, words_at};
ghost use Rattle.p4_lex.specs.declared.token.Sign.TheVariants as sign;
ghost use Rattle.p4_program.specs.Controls.{typed_rest_at, ingress_with, behind_params_at, params_at};
ghost use Rattle.p4_part.specs.Made.{Gives};

use crate::block::block_of;
use p4_ast::{P4Action, P4Block, P4Cell, P4Field, P4Ingress, P4Local, P4Name, P4Param};
use p4_lex::{Sign, Token};
use p4_part::closing::closed_type_of;
use p4_part::end::ReadEnd;
use p4_part::list::joined;
use p4_part::name::{place_of_type, type_of};
use p4_part::token::{Reading, is_next, is_other_next, name_of, number_of, sign_of};
use p4_part::typedefs::Typedefs;
use p4_part::value::boxed;
use p4_read::declaration::const_of;
use p4_read::parser::param_of;
use p4_read::statement::var_of;
use p4_read::table::table_of;
use sqlite_items::{Boxed, Items};
use std::alloc::Global;

#[tactic(auto, unfolding(p4_grammar::specs::Reading::flow_cell_at))]
fn flow_cell_of<'a>(alloc: Global, tokens: &'a [Token]) -> Reading<'a, P4Cell>
    ensures { Gives (λ x. (x.0, x.1.now)) result (flow_cell_at tokens.now) }
{
    let (at, rest) = sign_of(Sign::FlowCell, tokens)?;
    let (_, rest) = sign_of(Sign::Less, rest)?;
    let (type_, rest) = closed_type_of(rest)?;
    let type_ = boxed(alloc, type_)?;
    let (_, rest) = sign_of(Sign::Open, rest)?;
    let (_, rest) = sign_of(Sign::Close, rest)?;
    let (name, rest) = name_of(rest)?;
    let (_, rest) = sign_of(Sign::Semicolon, rest)?;
    let type_ = type_.into_inner();
    Ok((P4Cell::Cell { at, type_, name }, rest))
}

#[tactic(auto, unfolding(p4_grammar::specs::Reading::flow_array_at))]
fn flow_array_of<'a>(alloc: Global, tokens: &'a [Token]) -> Reading<'a, P4Cell>
    ensures { Gives (λ x. (x.0, x.1.now)) result (flow_array_at tokens.now) }
{
    let (at, rest) = sign_of(Sign::FlowArray, tokens)?;
    let (_, rest) = sign_of(Sign::Less, rest)?;
    let (type_, rest) = closed_type_of(rest)?;
    let type_ = boxed(alloc, type_)?;
    let (_, rest) = sign_of(Sign::Open, rest)?;
    let (size, rest) = number_of(rest)?;
    let (_, rest) = sign_of(Sign::Close, rest)?;
    let (name, rest) = name_of(rest)?;
    let (_, rest) = sign_of(Sign::Semicolon, rest)?;
    let type_ = type_.into_inner();
    let cell = P4Cell::Array {
        at,
        type_,
        size,
        name,
    };
    Ok((cell, rest))
}

#[tactic(auto, unfolding(p4_grammar::specs::Reading::typed_at))]
fn typed_of<'a>(tokens: &'a [Token]) -> Reading<'a, P4Field>
    ensures { Gives (λ x. (x.0, x.1.now)) result (typed_at tokens.now) }
{
    let (type_, rest) = type_of(tokens)?;
    let (name, rest) = name_of(rest)?;
    let at = place_of_type(&type_);
    Ok((P4Field { at, type_, name }, rest))
}

fn next_typed_of<'a>(tokens: &'a [Token]) -> Reading<'a, P4Field>
    ensures { Gives (λ x. (x.0, x.1.now)) result (words_at (sign.Comma ∷ []) typed_at tokens.now) }
{
    let (_, rest) = sign_of(Sign::Comma, tokens)?;
    typed_of(rest)
}

// Parameters of an action, each behind a comma.
fn typed_rest_of<'a>(alloc: Global, fuel: usize, tokens: &'a [Token]) -> Reading<'a, Items<P4Field>>
    ensures { Gives (λ x. (x.0, x.1.now)) result (typed_rest_at fuel tokens.now) }
{
    let mut params = Items::new(alloc);
    let mut left = fuel;
    let mut rest = tokens;
    while left > 0 {
        left -= 1;
        if !is_next(Sign::Comma, rest) {
            return Ok((params, rest));
        }
        let (param, after) = next_typed_of(rest)?;
        if params.push(param).is_err() {
            return Err(ReadEnd::NoMemory);
        }
        rest = after;
    }
    Err(ReadEnd::At(rest))
}

// The parameters of an action.
#[tactic(auto, unfolding(p4_grammar::specs::Reading::typed_list_at))]
fn typed_list_of<'a>(alloc: Global, fuel: usize, tokens: &'a [Token]) -> Reading<'a, Items<P4Field>>
    ensures { Gives (λ x. (x.0, x.1.now)) result (typed_list_at fuel tokens.now) }
{
    let (_, rest) = sign_of(Sign::Open, tokens)?;
    if is_next(Sign::Close, rest) {
        let (_, rest) = sign_of(Sign::Close, rest)?;
        return Ok((Items::new(alloc), rest));
    }
    let (first, rest) = typed_of(rest)?;
    let first = boxed(alloc, first)?;
    let (more, rest) = typed_rest_of(alloc, fuel, rest)?;
    let (_, rest) = sign_of(Sign::Close, rest)?;
    let params = joined(alloc, first.into_inner(), more)?;
    Ok((params, rest))
}

#[tactic(auto, unfolding(p4_grammar::specs::Reading::action_at))]
fn action_of<'a>(
    alloc: Global,
    fuel: usize,
    env: &Typedefs,
    tokens: &'a [Token],
) -> Reading<'a, P4Action>
    ensures { Gives (λ x. (x.0, x.1.now)) result (action_at fuel env.now tokens.now) }
{
    let (at, rest) = sign_of(Sign::Action, tokens)?;
    let (name, rest) = name_of(rest)?;
    let (params, rest) = typed_list_of(alloc, fuel, rest)?;
    let (block, rest) = block_of(alloc, fuel, env, rest)?;
    let action = P4Action {
        at,
        name,
        params,
        block,
    };
    Ok((action, rest))
}

// What is declared in a control.
#[tactic(auto, unfolding(p4_grammar::specs::Reading::local_at))]
fn local_of<'a>(
    alloc: Global,
    fuel: usize,
    env: &Typedefs,
    tokens: &'a [Token],
) -> Reading<'a, P4Local>
    ensures { Gives (λ x. (x.0, x.1.now)) result (local_at fuel env.now tokens.now) }
{
    if is_next(Sign::Const, tokens) {
        let (const_, rest) = const_of(alloc, fuel, env, tokens)?;
        return Ok((P4Local::Const(const_), rest));
    }
    if is_next(Sign::FlowCell, tokens) {
        let (cell, rest) = flow_cell_of(alloc, tokens)?;
        return Ok((P4Local::Cell(cell), rest));
    }
    if is_next(Sign::FlowArray, tokens) {
        let (cell, rest) = flow_array_of(alloc, tokens)?;
        return Ok((P4Local::Cell(cell), rest));
    }
    if is_next(Sign::Action, tokens) {
        let (action, rest) = action_of(alloc, fuel, env, tokens)?;
        return Ok((P4Local::Action(action), rest));
    }
    if is_next(Sign::Table, tokens) {
        let (table, rest) = table_of(alloc, fuel, env, tokens)?;
        return Ok((P4Local::Table(table), rest));
    }
    let (var, rest) = var_of(alloc, fuel, env, tokens)?;
    Ok((P4Local::Var(var), rest))
}

// What is declared before `apply`.
fn locals_of<'a>(
    alloc: Global,
    fuel: usize,
    env: &Typedefs,
    tokens: &'a [Token],
) -> Reading<'a, Items<P4Local>>
    ensures { Gives (λ x. (x.0, x.1.now)) result (many_at fuel (but sign.Apply) (local_at fuel env.now) tokens.now) }
{
    let mut locals = Items::new(alloc);
    let mut left = fuel;
    let mut rest = tokens;
    while left > 0 {
        left -= 1;
        if !is_other_next(Sign::Apply, rest) {
            return Ok((locals, rest));
        }
        let (local, after) = local_of(alloc, fuel, env, rest)?;
        if locals.push(local).is_err() {
            return Err(ReadEnd::NoMemory);
        }
        rest = after;
    }
    Err(ReadEnd::At(rest))
}

// A fourth parameter, or none.
#[tactic(auto, unfolding(p4_grammar::specs::Reading::last_param_at))]
fn last_param_of<'a>(alloc: Global, tokens: &'a [Token]) -> Reading<'a, Boxed<Option<P4Param>>>
    ensures { Gives (λ x. (x.0, x.1.now)) result (last_param_at tokens.now) }
{
    if is_next(Sign::Comma, tokens) {
        let (_, rest) = sign_of(Sign::Comma, tokens)?;
        let (param, rest) = param_of(alloc, Sign::Inout, rest)?;
        let param = boxed(alloc, Some(param.into_inner()))?;
        return Ok((param, rest));
    }
    let none = boxed(alloc, None)?;
    Ok((none, tokens))
}

/// The parameters of the ingress control, and what stands before them.
#[derive(Drop)]
pub struct IngressFront {
    pub at: u64,
    pub name: P4Name,
    pub headers: Boxed<P4Param>,
    pub meta: Boxed<P4Param>,
    pub std: P4Name,
    pub rp: Boxed<Option<P4Param>>,
}

// The ingress control of these parts.
fn whole(front: Boxed<IngressFront>, locals: Items<P4Local>, block: P4Block) -> P4Ingress
    ensures { result ≡ ingress_with front locals block }
{
    let IngressFront {
        at,
        name,
        headers,
        meta,
        std,
        rp,
    } = front.into_inner();
    P4Ingress {
        at,
        name,
        headers: headers.into_inner(),
        meta: meta.into_inner(),
        std,
        rp: rp.into_inner(),
        locals,
        block,
    }
}

// The ingress control behind its parameters.
fn behind_params_of<'a>(
    alloc: Global,
    fuel: usize,
    env: &Typedefs,
    front: Boxed<IngressFront>,
    tokens: &'a [Token],
) -> Reading<'a, Boxed<P4Ingress>>
    ensures { Gives (λ x. (x.0, x.1.now)) result (behind_params_at fuel env.now front tokens.now) }
{
    let (_, rest) = sign_of(Sign::Close, tokens)?;
    let (_, rest) = sign_of(Sign::OpenBrace, rest)?;
    let (locals, rest) = locals_of(alloc, fuel, env, rest)?;
    let (_, rest) = sign_of(Sign::Apply, rest)?;
    let (block, rest) = block_of(alloc, fuel, env, rest)?;
    let (_, rest) = sign_of(Sign::CloseBrace, rest)?;
    let ingress = boxed(alloc, whole(front, locals, block))?;
    Ok((ingress, rest))
}

// The ingress control behind its first parameter.
fn params_of<'a>(
    alloc: Global,
    fuel: usize,
    env: &Typedefs,
    at: u64,
    name: P4Name,
    headers: Boxed<P4Param>,
    tokens: &'a [Token],
) -> Reading<'a, Boxed<P4Ingress>>
    ensures { Gives (λ x. (x.0, x.1.now)) result (params_at fuel env.now at name headers tokens.now) }
{
    let (meta, rest) = param_of(alloc, Sign::Inout, tokens)?;
    let (_, rest) = sign_of(Sign::Comma, rest)?;
    let (_, rest) = sign_of(Sign::Inout, rest)?;
    let (_, rest) = sign_of(Sign::StdT, rest)?;
    let (std, rest) = name_of(rest)?;
    let (rp, rest) = last_param_of(alloc, rest)?;
    let front = IngressFront {
        at,
        name,
        headers,
        meta,
        std,
        rp,
    };
    let front = boxed(alloc, front)?;
    behind_params_of(alloc, fuel, env, front, rest)
}

/// Reads the ingress control, into a box.
#[tactic(auto, unfolding(p4_grammar::specs::Reading::ingress_at))]
pub fn ingress_of<'a>(
    alloc: Global,
    fuel: usize,
    env: &Typedefs,
    tokens: &'a [Token],
) -> Reading<'a, Boxed<P4Ingress>>
    ensures { Gives (λ x. (x.0, x.1.now)) result (ingress_at fuel env.now tokens.now) }
{
    let (at, rest) = sign_of(Sign::Control, tokens)?;
    let (name, rest) = name_of(rest)?;
    let (_, rest) = sign_of(Sign::Open, rest)?;
    let (headers, rest) = param_of(alloc, Sign::Inout, rest)?;
    let (_, rest) = sign_of(Sign::Comma, rest)?;
    params_of(alloc, fuel, env, at, name, headers, rest)
}
