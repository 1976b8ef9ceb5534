//! Tables.
ghost use Rattle.std.specs.Prelude.{◌≡◌};
ghost use Rattle.p4_grammar.specs.Trees.{is_none, with_default as with_default_of, with_entries as with_entries_of, with_size as with_size_of};
ghost use Rattle.p4_grammar.specs.Reading.{match_at, keys_at, acts_at, call_at, start_of as start_is, default_at, entries_at, size_at, properties_at, table_at};
ghost use Rattle.p4_read.specs.Tables.{default_behind_at, entries_behind_at, after_const_at};
ghost use Rattle.p4_part.specs.Made.{Finds, Gives, Makes};

use crate::declaration::args_of;
use crate::expression::expr_of;
use crate::keyset::{boxed_keyset_of, keyset_place};
use crate::part::{Part, parts_until};
use p4_ast::{
    P4Acts, P4Call, P4Default, P4Entries, P4Entry, P4Key, P4Keys, P4Match, P4Name, P4Size, P4Table,
};
use p4_grammar::Properties;
use p4_lex::{Sign, Token};
use p4_part::end::ReadEnd;
use p4_part::token::{Finding, Reading, is_next, name_of, number_of, sign_of};
use p4_part::typedefs::Typedefs;
use p4_part::value::{Made, boxed, without_mark};
use sqlite_items::{Boxed, Items};
use std::alloc::Global;

#[tactic(auto, unfolding(p4_grammar::specs::Reading::match_at))]
fn match_of<'a>(tokens: &'a [Token]) -> Finding<'a, P4Match>
    ensures { Finds (λ x. (x.0, x.1.now)) (λ e. e.now) result (match_at tokens.now) }
{
    if is_next(Sign::Exact, tokens) {
        let (_, rest) = sign_of(Sign::Exact, tokens)?;
        return Ok((P4Match::Exact, rest));
    }
    if is_next(Sign::Lpm, tokens) {
        let (_, rest) = sign_of(Sign::Lpm, tokens)?;
        return Ok((P4Match::Lpm, rest));
    }
    let (_, rest) = sign_of(Sign::Ternary, tokens)?;
    Ok((P4Match::Ternary, rest))
}

impl Part for P4Key {
    ghost use Rattle.p4_grammar.specs.Reading.{key_of_at};

    ghost reader = { key_of_at };

    #[tactic(auto, unfolding(p4_grammar::specs::Reading::key_of_at))]
    fn read<'a>(
        alloc: Global,
        fuel: usize,
        env: &Typedefs,
        tokens: &'a [Token],
    ) -> Reading<'a, P4Key> {
        let (x, rest) = expr_of(alloc, fuel, env, tokens)?;
        let at = x.at;
        let expr = without_mark(x);
        let (_, rest) = sign_of(Sign::Colon, rest)?;
        let (matching, rest) = match_of(rest)?;
        let (_, rest) = sign_of(Sign::Semicolon, rest)?;
        Ok((P4Key { at, expr, matching }, rest))
    }
}

#[tactic(auto, unfolding(p4_grammar::specs::Reading::keys_at))]
fn keys_of<'a>(
    alloc: Global,
    fuel: usize,
    env: &Typedefs,
    tokens: &'a [Token],
) -> Reading<'a, P4Keys>
    ensures { Gives (λ x. (x.0, x.1.now)) result (keys_at fuel env.now tokens.now) }
{
    let (at, rest) = sign_of(Sign::Key, tokens)?;
    let (_, rest) = sign_of(Sign::Assign, rest)?;
    let (_, rest) = sign_of(Sign::OpenBrace, rest)?;
    let (keys, rest) = parts_until(alloc, Sign::CloseBrace, fuel, env, rest)?;
    let (_, rest) = sign_of(Sign::CloseBrace, rest)?;
    Ok((P4Keys { at, keys }, rest))
}

impl Part for P4Name {
    ghost use Rattle.p4_grammar.specs.Reading.{act_at};

    ghost reader = { λ n env. act_at };

    #[tactic(auto, unfolding(p4_grammar::specs::Reading::act_at))]
    fn read<'a>(
        _alloc: Global,
        _fuel: usize,
        _env: &Typedefs,
        tokens: &'a [Token],
    ) -> Reading<'a, P4Name> {
        let (name, rest) = name_of(tokens)?;
        let (_, rest) = sign_of(Sign::Semicolon, rest)?;
        Ok((name, rest))
    }
}

#[tactic(auto, unfolding(p4_grammar::specs::Reading::acts_at))]
fn acts_of<'a>(
    alloc: Global,
    fuel: usize,
    env: &Typedefs,
    tokens: &'a [Token],
) -> Reading<'a, P4Acts>
    ensures { Gives (λ x. (x.0, x.1.now)) result (acts_at fuel tokens.now) }
{
    let (at, rest) = sign_of(Sign::Actions, tokens)?;
    let (_, rest) = sign_of(Sign::Assign, rest)?;
    let (_, rest) = sign_of(Sign::OpenBrace, rest)?;
    let (names, rest) = parts_until(alloc, Sign::CloseBrace, fuel, env, rest)?;
    let (_, rest) = sign_of(Sign::CloseBrace, rest)?;
    Ok((P4Acts { at, names }, rest))
}

#[tactic(auto, unfolding(p4_grammar::specs::Reading::call_at))]
fn call_of<'a>(
    alloc: Global,
    fuel: usize,
    env: &Typedefs,
    tokens: &'a [Token],
) -> Reading<'a, P4Call>
    ensures { Gives (λ x. (x.0, x.1.now)) result (call_at fuel env.now tokens.now) }
{
    let (name, rest) = name_of(tokens)?;
    let at = name.at;
    if is_next(Sign::Open, rest) {
        let (args, rest) = args_of(alloc, fuel, env, rest)?;
        return Ok((P4Call { at, name, args }, rest));
    }
    let args = Items::new(alloc);
    Ok((P4Call { at, name, args }, rest))
}

fn start_of(const_: Option<u64>, at: u64) -> u64
    ensures { result ≡ start_is const_ at }
{
    match const_ {
        None => at,
        Some(first) => first,
    }
}

#[tactic(auto, unfolding(p4_grammar::specs::Reading::default_at))]
fn default_of<'a>(
    alloc: Global,
    fuel: usize,
    env: &Typedefs,
    const_: Option<u64>,
    tokens: &'a [Token],
) -> Reading<'a, P4Default>
    ensures { Gives (λ x. (x.0, x.1.now)) result (default_at fuel env.now const_ tokens.now) }
{
    let (at, rest) = sign_of(Sign::DefaultAction, tokens)?;
    let (_, rest) = sign_of(Sign::Assign, rest)?;
    let (call, rest) = call_of(alloc, fuel, env, rest)?;
    let (_, rest) = sign_of(Sign::Semicolon, rest)?;
    let default = P4Default {
        at: start_of(const_, at),
        const_: const_.is_some(),
        call,
    };
    Ok((default, rest))
}

impl Part for P4Entry {
    ghost use Rattle.p4_grammar.specs.Reading.{entry_at};

    ghost reader = { entry_at };

    #[tactic(auto, unfolding(p4_grammar::specs::Reading::entry_at))]
    fn read<'a>(
        alloc: Global,
        fuel: usize,
        env: &Typedefs,
        tokens: &'a [Token],
    ) -> Reading<'a, P4Entry> {
        let (keyset, rest) = boxed_keyset_of(alloc, fuel, env, tokens)?;
        let (_, rest) = sign_of(Sign::Colon, rest)?;
        let (call, rest) = call_of(alloc, fuel, env, rest)?;
        let (_, rest) = sign_of(Sign::Semicolon, rest)?;
        let at = keyset_place(keyset.get());
        Ok((P4Entry { at, keyset, call }, rest))
    }
}

#[tactic(auto, unfolding(p4_grammar::specs::Reading::entries_at))]
fn entries_of<'a>(
    alloc: Global,
    fuel: usize,
    env: &Typedefs,
    const_: Option<u64>,
    tokens: &'a [Token],
) -> Reading<'a, P4Entries>
    ensures { Gives (λ x. (x.0, x.1.now)) result (entries_at fuel env.now const_ tokens.now) }
{
    let (at, rest) = sign_of(Sign::Entries, tokens)?;
    let (_, rest) = sign_of(Sign::Assign, rest)?;
    let (_, rest) = sign_of(Sign::OpenBrace, rest)?;
    let (entries, rest) = parts_until(alloc, Sign::CloseBrace, fuel, env, rest)?;
    let (_, rest) = sign_of(Sign::CloseBrace, rest)?;
    let entries = P4Entries {
        at: start_of(const_, at),
        const_: const_.is_some(),
        entries,
    };
    Ok((entries, rest))
}

#[tactic(auto, unfolding(p4_grammar::specs::Reading::size_at))]
fn size_of<'a>(tokens: &'a [Token]) -> Finding<'a, P4Size>
    ensures { Finds (λ x. (x.0, x.1.now)) (λ e. e.now) result (size_at tokens.now) }
{
    let (at, rest) = sign_of(Sign::Size, tokens)?;
    let (_, rest) = sign_of(Sign::Assign, rest)?;
    let (number, rest) = number_of(rest)?;
    let (_, rest) = sign_of(Sign::Semicolon, rest)?;
    Ok((P4Size { at, number }, rest))
}

fn with_default<'a>(
    alloc: Global,
    a: Boxed<Properties>,
    default: P4Default,
) -> Made<'a, Boxed<Properties>>
    ensures { Makes result (with_default_of a default) }
{
    let mut a = a.into_inner();
    a.default = Some(default);
    boxed(alloc, a)
}

fn with_entries<'a>(
    alloc: Global,
    a: Boxed<Properties>,
    entries: P4Entries,
) -> Made<'a, Boxed<Properties>>
    ensures { Makes result (with_entries_of a entries) }
{
    let mut a = a.into_inner();
    a.entries = Some(entries);
    boxed(alloc, a)
}

fn with_size<'a>(alloc: Global, a: Boxed<Properties>, size: P4Size) -> Made<'a, Boxed<Properties>>
    ensures { Makes result (with_size_of a size) }
{
    let mut a = a.into_inner();
    a.size = Some(size);
    boxed(alloc, a)
}

// The default action, and the properties behind it.
#[cycle(properties)]
fn default_behind_of<'a>(
    alloc: Global,
    fuel: usize,
    env: &Typedefs,
    left: usize,
    a: Boxed<Properties>,
    const_: Option<u64>,
    tokens: &'a [Token],
) -> Reading<'a, Boxed<Properties>>
    ensures { Gives (λ x. (x.0, x.1.now)) result (default_behind_at fuel env.now left a const_ tokens.now) }
{
    let (default, rest) = default_of(alloc, fuel, env, const_, tokens)?;
    let a = with_default(alloc, a, default)?;
    properties_of(alloc, fuel, env, left, a, rest)
}

// The entries, and the properties behind them.
#[cycle(properties)]
fn entries_behind_of<'a>(
    alloc: Global,
    fuel: usize,
    env: &Typedefs,
    left: usize,
    a: Boxed<Properties>,
    const_: Option<u64>,
    tokens: &'a [Token],
) -> Reading<'a, Boxed<Properties>>
    ensures { Gives (λ x. (x.0, x.1.now)) result (entries_behind_at fuel env.now left a const_ tokens.now) }
{
    let (entries, rest) = entries_of(alloc, fuel, env, const_, tokens)?;
    let a = with_entries(alloc, a, entries)?;
    properties_of(alloc, fuel, env, left, a, rest)
}

// Behind `const`.
#[cycle(properties)]
fn after_const_of<'a>(
    alloc: Global,
    fuel: usize,
    env: &Typedefs,
    left: usize,
    a: Boxed<Properties>,
    at: u64,
    tokens: &'a [Token],
) -> Reading<'a, Boxed<Properties>>
    ensures { Gives (λ x. (x.0, x.1.now)) result (after_const_at (is_none a.default) (is_none a.entries) (default_behind_at fuel env.now left a) (entries_behind_at fuel env.now left a) at tokens.now) }
{
    if a.get().default.is_none()
        && (a.get().entries.is_some() || is_next(Sign::DefaultAction, tokens))
    {
        return default_behind_of(alloc, fuel, env, left, a, Some(at), tokens);
    }
    entries_behind_of(alloc, fuel, env, left, a, Some(at), tokens)
}

// The properties of a table that are left, each at most once.
#[cycle(properties)]
#[tactic(auto, unfolding(p4_grammar::specs::Reading::properties_at, p4_grammar::specs::Reading::const_or_at))]
fn properties_of<'a>(
    alloc: Global,
    fuel: usize,
    env: &Typedefs,
    left: usize,
    a: Boxed<Properties>,
    tokens: &'a [Token],
) -> Reading<'a, Boxed<Properties>>
    ensures { Gives (λ x. (x.0, x.1.now)) result (properties_at fuel env.now left a tokens.now) }
{
    if left == 0 {
        return Err(ReadEnd::At(tokens));
    }
    if is_next(Sign::Const, tokens) && (a.get().default.is_none() || a.get().entries.is_none()) {
        let (at, rest) = sign_of(Sign::Const, tokens)?;
        return after_const_of(alloc, fuel, env, left - 1, a, at, rest);
    }
    if a.get().default.is_none() && is_next(Sign::DefaultAction, tokens) {
        return default_behind_of(alloc, fuel, env, left - 1, a, None, tokens);
    }
    if a.get().entries.is_none() && is_next(Sign::Entries, tokens) {
        return entries_behind_of(alloc, fuel, env, left - 1, a, None, tokens);
    }
    if a.get().size.is_none() && is_next(Sign::Size, tokens) {
        let (size, rest) = size_of(tokens)?;
        let a = with_size(alloc, a, size)?;
        return properties_of(alloc, fuel, env, left - 1, a, rest);
    }
    Ok((a, tokens))
}

/// Reads a table.
#[tactic(auto, unfolding(p4_grammar::specs::Reading::table_at))]
pub fn table_of<'a>(
    alloc: Global,
    fuel: usize,
    env: &Typedefs,
    tokens: &'a [Token],
) -> Reading<'a, P4Table>
    ensures { Gives (λ x. (x.0, x.1.now)) result (table_at fuel env.now tokens.now) }
{
    let (at, rest) = sign_of(Sign::Table, tokens)?;
    let (name, rest) = name_of(rest)?;
    let (_, rest) = sign_of(Sign::OpenBrace, rest)?;
    let (keys, rest) = keys_of(alloc, fuel, env, rest)?;
    let (acts, rest) = acts_of(alloc, fuel, env, rest)?;
    let none = Properties {
        default: None,
        entries: None,
        size: None,
    };
    let none = boxed(alloc, none)?;
    let (a, rest) = properties_of(alloc, fuel, env, fuel, none, rest)?;
    let (_, rest) = sign_of(Sign::CloseBrace, rest)?;
    let a = a.into_inner();
    let table = P4Table {
        at,
        name,
        keys,
        acts,
        default: a.default,
        entries: a.entries,
        size: a.size,
    };
    Ok((table, rest))
}
