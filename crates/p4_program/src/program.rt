//! The package and the program.
ghost use Rattle.std.specs.Prelude.{◌≡◌, Ok};
ghost use Rattle.p4_grammar.specs.Values.{known};
ghost use Rattle.p4_grammar.specs.Trees.{program_place as program_place_of, declaration_place as declaration_place_of};
ghost use Rattle.p4_grammar.specs.Reading.{declarations_at, instance_at, package_at, program_at, programs_of};
ghost use Rattle.p4_part.specs.Made.{Gives};

use crate::control::ingress_of;
use p4_ast::{P4Declaration, P4Name, P4Package, P4Parser, P4Program};
use p4_lex::{Sign, Token};
use p4_part::end::ReadEnd;
use p4_part::token::{Reading, called_of, name_of, sign_of};
use p4_part::typedefs::Typedefs;
use p4_part::value::Made;
use p4_read::declaration::{declaration_of, is_declaration_next};
use p4_read::deparser::deparser_of;
use p4_read::parser::parser_of;
use sqlite_items::Items;
use std::alloc::Global;

// Adds the typedef that a declaration is.
fn declare<'a>(alloc: Global, env: &mut Typedefs, declaration: &P4Declaration) -> Made<'a, ()>
    ensures { Gives (λ _. env.new) result (Ok (known env.old declaration.now)) }
{
    match declaration {
        P4Declaration::Typedef(typedef) => {
            match env.add(alloc, typedef.name.text.as_slice()) {
                Ok(()) => Ok(()),
                Err(_) => Err(ReadEnd::NoMemory),
            }
        }
        P4Declaration::Header(_) => Ok(()),
        P4Declaration::Struct(_) => Ok(()),
        P4Declaration::Const(_) => Ok(()),
    }
}

// The declarations before the parser, and the names of the typedefs among them.
#[tactic(auto, unfolding(p4_grammar::specs::Reading::declarations_at))]
fn declarations_of<'a>(
    alloc: Global,
    fuel: usize,
    tokens: &'a [Token],
) -> Reading<'a, (Typedefs, Items<P4Declaration>)>
    ensures { Gives (λ x. ((x.0.0, x.0.1), x.1.now)) result (declarations_at fuel tokens.now) }
{
    let mut env = Typedefs::new(alloc);
    let mut declarations = Items::new(alloc);
    let mut left = fuel;
    let mut rest = tokens;
    while left > 0 {
        left -= 1;
        if !is_declaration_next(rest) {
            return Ok(((env, declarations), rest));
        }
        let (declaration, after) = declaration_of(alloc, fuel, &env, rest)?;
        declare(alloc, &mut env, &declaration)?;
        if declarations.push(declaration).is_err() {
            return Err(ReadEnd::NoMemory);
        }
        rest = after;
    }
    Err(ReadEnd::At(rest))
}

// A name with empty parentheses.
#[tactic(auto, unfolding(p4_grammar::specs::Reading::instance_at))]
fn instance_of<'a>(tokens: &'a [Token]) -> Reading<'a, P4Name>
    ensures { Gives (λ x. (x.0, x.1.now)) result (instance_at tokens.now) }
{
    let (name, rest) = name_of(tokens)?;
    let (_, rest) = sign_of(Sign::Open, rest)?;
    let (_, rest) = sign_of(Sign::Close, rest)?;
    Ok((name, rest))
}

#[tactic(auto, unfolding(p4_grammar::specs::Reading::package_at))]
fn package_of<'a>(tokens: &'a [Token]) -> Reading<'a, P4Package>
    ensures { Gives (λ x. (x.0, x.1.now)) result (package_at tokens.now) }
{
    let (at, rest) = sign_of(Sign::RpSwitch, tokens)?;
    let (_, rest) = sign_of(Sign::Open, rest)?;
    let (parser, rest) = instance_of(rest)?;
    let (_, rest) = sign_of(Sign::Comma, rest)?;
    let (ingress, rest) = instance_of(rest)?;
    let (_, rest) = sign_of(Sign::Comma, rest)?;
    let (deparser, rest) = instance_of(rest)?;
    let (_, rest) = sign_of(Sign::Close, rest)?;
    let (_, rest) = called_of(b"main", rest)?;
    let (_, rest) = sign_of(Sign::Semicolon, rest)?;
    let package = P4Package {
        at,
        parser,
        ingress,
        deparser,
    };
    Ok((package, rest))
}

fn declaration_place(declaration: &P4Declaration) -> u64
    ensures { result ≡ declaration_place_of declaration.now }
{
    match declaration {
        P4Declaration::Header(header) => header.at,
        P4Declaration::Struct(struct_) => struct_.at,
        P4Declaration::Typedef(typedef) => typedef.at,
        P4Declaration::Const(const_) => const_.at,
    }
}

fn program_place(declarations: &[P4Declaration], parser: &P4Parser) -> u64
    ensures { result ≡ program_place_of declarations.now parser.now }
{
    match declarations {
        [] => parser.at,
        [first, ..] => declaration_place(first),
    }
}

#[tactic(auto, unfolding(p4_grammar::specs::Reading::program_at))]
fn program_of<'a>(alloc: Global, fuel: usize, tokens: &'a [Token]) -> Reading<'a, P4Program>
    ensures { Gives (λ x. (x.0, x.1.now)) result (program_at fuel tokens.now) }
{
    let ((env, declarations), rest) = declarations_of(alloc, fuel, tokens)?;
    let (parser, rest) = parser_of(alloc, fuel, &env, rest)?;
    let (ingress, rest) = ingress_of(alloc, fuel, &env, rest)?;
    let (deparser, rest) = deparser_of(alloc, fuel, &env, rest)?;
    let (package, rest) = package_of(rest)?;
    let at = program_place(declarations.as_slice(), parser.get());
    let program = P4Program {
        at,
        declarations,
        parser: parser.into_inner(),
        ingress: ingress.into_inner(),
        deparser: deparser.into_inner(),
        package,
    };
    Ok((program, rest))
}

/// The program that the tokens spell, or the tokens from the first one on at which none begins so.
#[tactic(auto, unfolding(p4_grammar::specs::Reading::programs_of))]
pub fn program(alloc: Global, tokens: &[Token]) -> Result<P4Program, ReadEnd<'_>>
    ensures { Gives (λ x. x) result (programs_of tokens.now) }
{
    let (program, rest) = program_of(alloc, tokens.len() + 1, tokens)?;
    if !rest.is_empty() {
        return Err(ReadEnd::At(rest));
    }
    Ok(program)
}
