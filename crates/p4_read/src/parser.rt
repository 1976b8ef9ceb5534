//! The parser and its states.
ghost use Rattle.std.specs.Prelude.{◌≡◌};
ghost use Rattle.p4_grammar.specs.Reading.{param_at, state_assign_at, extract_rest_at, select_at, target_at, states_at, parser_at};
ghost use Rattle.p4_read.specs.Statements.{step_behind_at};
ghost use Rattle.p4_read.specs.Parsers.{parser_with, behind_params_at, params_at};
ghost use Rattle.p4_part.specs.Made.{Gives};

use crate::declaration::{expression_of, expressions_of};
use crate::keyset::{boxed_keyset_of, keyset_place};
use crate::part::{Part, parts_until};
use p4_ast::{P4Assign, P4Case, P4Extract, P4Name, P4Param, P4Parser, P4State, P4Step, P4Target};
use p4_lex::{Sign, Token};
use p4_part::list::joined;
use p4_part::name::names_of;
use p4_part::path::{dotted_of, is_only, left_of, slice_or_none_of};
use p4_part::token::{Reading, is_next, name_of, sign_of};
use p4_part::typedefs::Typedefs;
use p4_part::value::{boxed, path_of, place_of};
use sqlite_items::{Boxed, Items};
use std::alloc::Global;

/// What stands before the last parameter of the parser.
#[derive(Drop)]
pub struct ParserFront {
    pub at: u64,
    pub name: P4Name,
    pub packet: P4Name,
    pub headers: Boxed<P4Param>,
    pub meta: Boxed<P4Param>,
}

// The parser of these parts.
fn whole(front: Boxed<ParserFront>, std: P4Name, states: Items<P4State>) -> P4Parser
    ensures { result ≡ parser_with front std states }
{
    let ParserFront {
        at,
        name,
        packet,
        headers,
        meta,
    } = front.into_inner();
    P4Parser {
        at,
        name,
        packet,
        headers: headers.into_inner(),
        meta: meta.into_inner(),
        std,
        states,
    }
}

/// Reads a parameter behind this sign whose type is a name, into a box.
#[tactic(auto, unfolding(p4_grammar::specs::Reading::param_at))]
pub fn param_of<'a>(alloc: Global, sign: Sign, tokens: &'a [Token]) -> Reading<'a, Boxed<P4Param>>
    ensures { Gives (λ x. (x.0, x.1.now)) result (param_at sign tokens.now) }
{
    let (at, rest) = sign_of(sign, tokens)?;
    let (type_, rest) = name_of(rest)?;
    let (name, rest) = name_of(rest)?;
    let param = boxed(alloc, P4Param { at, type_, name })?;
    Ok((param, rest))
}

// An assignment behind its path.
#[tactic(auto, unfolding(p4_grammar::specs::Reading::state_assign_at))]
fn state_assign_of<'a>(
    alloc: Global,
    fuel: usize,
    env: &Typedefs,
    names: Items<P4Name>,
    tokens: &'a [Token],
) -> Reading<'a, P4Step>
    ensures { Gives (λ x. (x.0, x.1.now)) result (state_assign_at fuel env.now names tokens.now) }
{
    let (slice, rest) = slice_or_none_of(tokens)?;
    let (_, rest) = sign_of(Sign::Assign, rest)?;
    let (expr, rest) = expression_of(alloc, fuel, env, rest)?;
    let (_, rest) = sign_of(Sign::Semicolon, rest)?;
    let at = place_of(names.as_slice());
    let left = left_of(names, slice);
    Ok((P4Step::Assign(P4Assign { at, left, expr }), rest))
}

// Behind a name, a dot and `extract`.
#[tactic(auto, unfolding(p4_grammar::specs::Reading::extract_rest_at))]
fn extract_rest_of<'a>(
    alloc: Global,
    fuel: usize,
    name: P4Name,
    tokens: &'a [Token],
) -> Reading<'a, P4Step>
    ensures { Gives (λ x. (x.0, x.1.now)) result (extract_rest_at fuel name tokens.now) }
{
    let (_, rest) = sign_of(Sign::Open, tokens)?;
    let (names, rest) = dotted_of(alloc, fuel, rest)?;
    let (_, rest) = sign_of(Sign::Close, rest)?;
    let (_, rest) = sign_of(Sign::Semicolon, rest)?;
    let at = name.at;
    let path = path_of(names);
    Ok((P4Step::Extract(P4Extract { at, name, path }), rest))
}

// Behind a path: `extract` by its name, and else an assignment.
#[tactic(auto, unfolding(p4_grammar::specs::Reading::or_extract_at))]
fn step_behind_of<'a>(
    alloc: Global,
    fuel: usize,
    env: &Typedefs,
    first: P4Name,
    more: Items<P4Name>,
    tokens: &'a [Token],
) -> Reading<'a, P4Step>
    ensures { Gives (λ x. (x.0, x.1.now)) result (step_behind_at fuel env.now first more tokens.now) }
{
    if is_only(b"extract", &first, more.as_slice()) && is_next(Sign::Open, tokens) {
        return extract_rest_of(alloc, fuel, first, tokens);
    }
    let names = joined(alloc, first, more)?;
    state_assign_of(alloc, fuel, env, names, tokens)
}

impl Part for P4Step {
    ghost use Rattle.p4_grammar.specs.Reading.{step_at};

    ghost reader = { step_at };

    #[tactic(auto, unfolding(p4_grammar::specs::Reading::step_at))]
    fn read<'a>(
        alloc: Global,
        fuel: usize,
        env: &Typedefs,
        tokens: &'a [Token],
    ) -> Reading<'a, P4Step> {
        let (first, rest) = name_of(tokens)?;
        let (more, rest) = names_of(alloc, fuel, rest)?;
        step_behind_of(alloc, fuel, env, first, more, rest)
    }
}

impl Part for P4Case {
    ghost use Rattle.p4_grammar.specs.Reading.{case_at};

    ghost reader = { case_at };

    #[tactic(auto, unfolding(p4_grammar::specs::Reading::case_at))]
    fn read<'a>(
        alloc: Global,
        fuel: usize,
        env: &Typedefs,
        tokens: &'a [Token],
    ) -> Reading<'a, P4Case> {
        let (keyset, rest) = boxed_keyset_of(alloc, fuel, env, tokens)?;
        let (_, rest) = sign_of(Sign::Colon, rest)?;
        let (name, rest) = name_of(rest)?;
        let (_, rest) = sign_of(Sign::Semicolon, rest)?;
        let at = keyset_place(keyset.get());
        Ok((P4Case { at, keyset, name }, rest))
    }
}

#[tactic(auto, unfolding(p4_grammar::specs::Reading::select_at))]
fn select_of<'a>(
    alloc: Global,
    fuel: usize,
    env: &Typedefs,
    tokens: &'a [Token],
) -> Reading<'a, P4Target>
    ensures { Gives (λ x. (x.0, x.1.now)) result (select_at fuel env.now tokens.now) }
{
    let (at, rest) = sign_of(Sign::Select, tokens)?;
    let (_, rest) = sign_of(Sign::Open, rest)?;
    let (exprs, rest) = expressions_of(alloc, fuel, env, rest)?;
    let (_, rest) = sign_of(Sign::Close, rest)?;
    let (_, rest) = sign_of(Sign::OpenBrace, rest)?;
    let (cases, rest) = parts_until(alloc, Sign::CloseBrace, fuel, env, rest)?;
    let (_, rest) = sign_of(Sign::CloseBrace, rest)?;
    Ok((P4Target::Select { at, exprs, cases }, rest))
}

#[tactic(auto, unfolding(p4_grammar::specs::Reading::target_at))]
fn target_of<'a>(
    alloc: Global,
    fuel: usize,
    env: &Typedefs,
    tokens: &'a [Token],
) -> Reading<'a, P4Target>
    ensures { Gives (λ x. (x.0, x.1.now)) result (target_at fuel env.now tokens.now) }
{
    if is_next(Sign::Select, tokens) {
        return select_of(alloc, fuel, env, tokens);
    }
    let (name, rest) = name_of(tokens)?;
    let (_, rest) = sign_of(Sign::Semicolon, rest)?;
    let at = name.at;
    Ok((P4Target::Name { at, name }, rest))
}

impl Part for P4State {
    ghost use Rattle.p4_grammar.specs.Reading.{state_at};

    ghost reader = { state_at };

    #[tactic(auto, unfolding(p4_grammar::specs::Reading::state_at))]
    fn read<'a>(
        alloc: Global,
        fuel: usize,
        env: &Typedefs,
        tokens: &'a [Token],
    ) -> Reading<'a, P4State> {
        let (at, rest) = sign_of(Sign::State, tokens)?;
        let (name, rest) = name_of(rest)?;
        let (_, rest) = sign_of(Sign::OpenBrace, rest)?;
        let (steps, rest) = parts_until(alloc, Sign::Transition, fuel, env, rest)?;
        let (_, rest) = sign_of(Sign::Transition, rest)?;
        let (target, rest) = target_of(alloc, fuel, env, rest)?;
        let target = boxed(alloc, target)?;
        let (_, rest) = sign_of(Sign::CloseBrace, rest)?;
        let state = P4State {
            at,
            name,
            steps,
            target: target.into_inner(),
        };
        Ok((state, rest))
    }
}

#[tactic(auto, unfolding(p4_grammar::specs::Reading::states_at))]
fn states_of<'a>(
    alloc: Global,
    fuel: usize,
    env: &Typedefs,
    tokens: &'a [Token],
) -> Reading<'a, Items<P4State>>
    ensures { Gives (λ x. (x.0, x.1.now)) result (states_at fuel env.now tokens.now) }
{
    let (_, rest) = sign_of(Sign::OpenBrace, tokens)?;
    let (states, rest) = parts_until(alloc, Sign::CloseBrace, fuel, env, rest)?;
    let (_, rest) = sign_of(Sign::CloseBrace, rest)?;
    Ok((states, rest))
}

// The parser behind its parameters of headers and metadata.
fn behind_params_of<'a>(
    alloc: Global,
    fuel: usize,
    env: &Typedefs,
    front: Boxed<ParserFront>,
    tokens: &'a [Token],
) -> Reading<'a, Boxed<P4Parser>>
    ensures { Gives (λ x. (x.0, x.1.now)) result (behind_params_at fuel env.now front tokens.now) }
{
    let (_, rest) = sign_of(Sign::Comma, tokens)?;
    let (_, rest) = sign_of(Sign::Inout, rest)?;
    let (_, rest) = sign_of(Sign::StdT, rest)?;
    let (std, rest) = name_of(rest)?;
    let (_, rest) = sign_of(Sign::Close, rest)?;
    let (states, rest) = states_of(alloc, fuel, env, rest)?;
    let parser = boxed(alloc, whole(front, std, states))?;
    Ok((parser, rest))
}

// The parser behind its first parameter.
fn params_of<'a>(
    alloc: Global,
    fuel: usize,
    env: &Typedefs,
    at: u64,
    name: P4Name,
    packet: P4Name,
    tokens: &'a [Token],
) -> Reading<'a, Boxed<P4Parser>>
    ensures { Gives (λ x. (x.0, x.1.now)) result (params_at fuel env.now at name packet tokens.now) }
{
    let (headers, rest) = param_of(alloc, Sign::Out, tokens)?;
    let (_, rest) = sign_of(Sign::Comma, rest)?;
    let (meta, rest) = param_of(alloc, Sign::Inout, rest)?;
    let front = ParserFront {
        at,
        name,
        packet,
        headers,
        meta,
    };
    let front = boxed(alloc, front)?;
    behind_params_of(alloc, fuel, env, front, rest)
}

/// Reads the parser, into a box.
#[tactic(auto, unfolding(p4_grammar::specs::Reading::parser_at))]
pub fn parser_of<'a>(
    alloc: Global,
    fuel: usize,
    env: &Typedefs,
    tokens: &'a [Token],
) -> Reading<'a, Boxed<P4Parser>>
    ensures { Gives (λ x. (x.0, x.1.now)) result (parser_at fuel env.now tokens.now) }
{
    let (at, rest) = sign_of(Sign::Parser, tokens)?;
    let (name, rest) = name_of(rest)?;
    let (_, rest) = sign_of(Sign::Open, rest)?;
    let (_, rest) = sign_of(Sign::PacketIn, rest)?;
    let (packet, rest) = name_of(rest)?;
    let (_, rest) = sign_of(Sign::Comma, rest)?;
    params_of(alloc, fuel, env, at, name, packet, rest)
}
