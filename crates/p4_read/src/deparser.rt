//! The deparser.
ghost use Rattle.std.specs.Prelude.{◌≡◌};
ghost use Rattle.p4_grammar.specs.Reading.{deparser_at};
ghost use Rattle.p4_read.specs.Parsers.{deparser_with, emits_at};
ghost use Rattle.p4_part.specs.Made.{Gives};

use crate::parser::param_of;
use crate::part::{Part, parts_until};
use p4_ast::{P4Deparser, P4Emit, P4Name, P4Param};
use p4_lex::{Sign, Token};
use p4_part::path::dotted_of;
use p4_part::token::{Reading, called_of, name_of, sign_of};
use p4_part::typedefs::Typedefs;
use p4_part::value::{boxed, path_of};
use sqlite_items::{Boxed, Items};
use std::alloc::Global;

impl Part for P4Emit {
    ghost use Rattle.p4_grammar.specs.Reading.{emit_at};

    ghost reader = { λ n env. emit_at n };

    #[tactic(auto, unfolding(p4_grammar::specs::Reading::emit_at))]
    fn read<'a>(
        alloc: Global,
        fuel: usize,
        _env: &Typedefs,
        tokens: &'a [Token],
    ) -> Reading<'a, P4Emit> {
        let (name, rest) = name_of(tokens)?;
        let (_, rest) = sign_of(Sign::Dot, rest)?;
        let (_, rest) = called_of(b"emit", rest)?;
        let (_, rest) = sign_of(Sign::Open, rest)?;
        let (names, rest) = dotted_of(alloc, fuel, rest)?;
        let (_, rest) = sign_of(Sign::Close, rest)?;
        let (_, rest) = sign_of(Sign::Semicolon, rest)?;
        let at = name.at;
        let path = path_of(names);
        Ok((P4Emit { at, name, path }, rest))
    }
}

/// What stands before the statements of the deparser.
#[derive(Drop)]
pub struct DeparserFront {
    pub at: u64,
    pub name: P4Name,
    pub packet: P4Name,
    pub headers: Boxed<P4Param>,
}

// The deparser of these parts.
fn whole(front: Boxed<DeparserFront>, emits: Items<P4Emit>) -> P4Deparser
    ensures { result ≡ deparser_with front emits }
{
    let DeparserFront {
        at,
        name,
        packet,
        headers,
    } = front.into_inner();
    P4Deparser {
        at,
        name,
        packet,
        headers: headers.into_inner(),
        emits,
    }
}

// The deparser behind its parameters.
fn emits_of<'a>(
    alloc: Global,
    fuel: usize,
    env: &Typedefs,
    front: Boxed<DeparserFront>,
    tokens: &'a [Token],
) -> Reading<'a, Boxed<P4Deparser>>
    ensures { Gives (λ x. (x.0, x.1.now)) result (emits_at fuel front tokens.now) }
{
    let (_, rest) = sign_of(Sign::Close, tokens)?;
    let (_, rest) = sign_of(Sign::OpenBrace, rest)?;
    let (_, rest) = sign_of(Sign::Apply, rest)?;
    let (_, rest) = sign_of(Sign::OpenBrace, rest)?;
    let (emits, rest) = parts_until(alloc, Sign::CloseBrace, fuel, env, rest)?;
    let (_, rest) = sign_of(Sign::CloseBrace, rest)?;
    let (_, rest) = sign_of(Sign::CloseBrace, rest)?;
    let deparser = boxed(alloc, whole(front, emits))?;
    Ok((deparser, rest))
}

/// Reads the deparser, into a box.
#[tactic(auto, unfolding(p4_grammar::specs::Reading::deparser_at))]
pub fn deparser_of<'a>(
    alloc: Global,
    fuel: usize,
    env: &Typedefs,
    tokens: &'a [Token],
) -> Reading<'a, Boxed<P4Deparser>>
    ensures { Gives (λ x. (x.0, x.1.now)) result (deparser_at fuel tokens.now) }
{
    let (at, rest) = sign_of(Sign::Control, tokens)?;
    let (name, rest) = name_of(rest)?;
    let (_, rest) = sign_of(Sign::Open, rest)?;
    let (_, rest) = sign_of(Sign::PacketOut, rest)?;
    let (packet, rest) = name_of(rest)?;
    let (_, rest) = sign_of(Sign::Comma, rest)?;
    let (headers, rest) = param_of(alloc, Sign::In, rest)?;
    let front = DeparserFront {
        at,
        name,
        packet,
        headers,
    };
    let front = boxed(alloc, front)?;
    emits_of(alloc, fuel, env, front, rest)
}
