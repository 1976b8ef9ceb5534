//! Lists of parts.
ghost use Rattle.std.specs.Prelude.{◌≡◌, ◌∷◌, []};
ghost use Rattle.p4_grammar.specs.Forms.{many_at};
ghost use Rattle.p4_grammar.specs.Tokens.{but, in_hand, words_at};
ghost use Rattle.p4_lex.specs.declared.token.Sign.TheVariants as sign;
ghost use Rattle.p4_part.specs.Made.{Gives};

use p4_lex::{Sign, Token};
use p4_part::end::ReadEnd;
use p4_part::token::{Reading, is_next, is_other_next, sign_of};
use p4_part::typedefs::Typedefs;
use sqlite_items::Items;
use std::alloc::Global;

/// A part of a program that stands in lists.
pub trait Part: Drop {
    ghost use Rattle.std.specs.Prelude.{ℕ, List, Result};
    ghost use Rattle.p4_lex.specs.declared.token.Token.{Token as TokenValue};
    ghost use Rattle.p4_part.specs.Made.{Gives};

    /// How one is read, with so much fuel and these typedefs.
    ghost reader: { ℕ → List (List ℕ) → List TokenValue → Result (Self × List TokenValue) (List TokenValue) };

    /// Reads one.
    fn read<'a>(
        alloc: Global,
        fuel: usize,
        env: &Typedefs,
        tokens: &'a [Token],
    ) -> Reading<'a, Self>
        ensures { Gives (λ x. (x.0, x.1.now)) result (reader fuel env.now tokens.now) };
}

/// Reads parts up to this sign.
pub fn parts_until<'a, T: Part>(
    alloc: Global,
    end: Sign,
    fuel: usize,
    env: &Typedefs,
    tokens: &'a [Token],
) -> Reading<'a, Items<T>>
    ensures { Gives (λ x. (x.0, x.1.now)) result (many_at fuel (but end) (T.reader fuel env.now) tokens.now) }
{
    let mut parts = Items::new(alloc);
    let mut left = fuel;
    let mut rest = tokens;
    while left > 0 {
        left -= 1;
        if !is_other_next(end, rest) {
            return Ok((parts, rest));
        }
        let (part, after) = T::read(alloc, fuel, env, rest)?;
        if parts.push(part).is_err() {
            return Err(ReadEnd::NoMemory);
        }
        rest = after;
    }
    Err(ReadEnd::At(rest))
}

// Reads a part behind a comma.
fn next_part<'a, T: Part>(
    alloc: Global,
    fuel: usize,
    env: &Typedefs,
    tokens: &'a [Token],
) -> Reading<'a, T>
    ensures { Gives (λ x. (x.0, x.1.now)) result (words_at (sign.Comma ∷ []) (T.reader fuel env.now) tokens.now) }
{
    let (_, rest) = sign_of(Sign::Comma, tokens)?;
    T::read(alloc, fuel, env, rest)
}

/// Reads parts, each behind a comma.
pub fn parts_behind<'a, T: Part>(
    alloc: Global,
    fuel: usize,
    env: &Typedefs,
    tokens: &'a [Token],
) -> Reading<'a, Items<T>>
    ensures { Gives (λ x. (x.0, x.1.now)) result (many_at fuel (in_hand sign.Comma) (words_at (sign.Comma ∷ []) (T.reader fuel env.now)) tokens.now) }
{
    let mut parts = Items::new(alloc);
    let mut left = fuel;
    let mut rest = tokens;
    while left > 0 {
        left -= 1;
        if !is_next(Sign::Comma, rest) {
            return Ok((parts, rest));
        }
        let (part, after) = next_part(alloc, fuel, env, rest)?;
        if parts.push(part).is_err() {
            return Err(ReadEnd::NoMemory);
        }
        rest = after;
    }
    Err(ReadEnd::At(rest))
}
