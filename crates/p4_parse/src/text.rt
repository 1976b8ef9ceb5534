//! From a text to its tree.
ghost use Rattle.std.specs.Prelude.{◌≡◌, length};
ghost use Rattle.p4_parse.specs.ByGrammar.{ByGrammar};
ghost use Rattle.p4_parse.specs.Parsing.{Answers, ends_value as ends_value_of, before as before_of, mixed as mixed_of, fault_of as fault_is, tree_of as tree_is, parsed};

use crate::end::ParseEnd;
use p4_ast::Tree;
use p4_lex::{LexEnd, Sign, Token, Tokens};
use p4_part::deep::deep;
use p4_part::end::ReadEnd;
use p4_part::operator::is_binary;
use p4_part::token::{is_sign, is_value};
use p4_program::program::program;
use rp_base::{Refused, Why};
use std::alloc::Global;

// Whether a token ends an operand.
fn ends_value(token: &Token) -> bool
    ensures { result ≡ ends_value_of token.now }
{
    is_value(token)
        || is_sign(Sign::True, token)
        || is_sign(Sign::False, token)
        || is_sign(Sign::Close, token)
        || is_sign(Sign::CloseSlice, token)
}

// Whether an operand ends right before the last of these tokens.
fn before(tokens: &[Token], rest: &[Token]) -> bool
    ensures { result ≡ before_of tokens.now rest.now }
{
    if rest.len() < tokens.len() {
        match tokens.get(tokens.len() - rest.len() - 1) {
            Some(token) => ends_value(token),
            None => false,
        }
    } else {
        false
    }
}

// The fault at the first of the last tokens, or at the text's end.
fn fault_of(size: u64, tokens: &[Token], rest: &[Token]) -> Refused
    ensures { result ≡ fault_is size tokens.now rest.now }
{
    match rest {
        [] => Refused {
            at: size,
            why: Why::Unexpected,
        },
        [token, ..] => {
            let why = if is_binary(token) && before(tokens, rest) {
                Why::Mixed
            } else {
                Why::Unexpected
            };
            Refused { at: token.at, why }
        }
    }
}

// The tree of a text of this size with these tokens.
fn tree_of(alloc: Global, size: u64, tokens: &[Token]) -> Result<Tree, ParseEnd>
    ensures { Answers result (tree_is size tokens.now) }
{
    if let Some(at) = deep(tokens) {
        return Err(ParseEnd::Refused(Refused { at, why: Why::Deep }));
    }
    match program(alloc, tokens) {
        Ok(tree) => Ok(tree),
        Err(ReadEnd::NoMemory) => Err(ParseEnd::NoMemory),
        Err(ReadEnd::At(rest)) => Err(ParseEnd::Refused(fault_of(size, tokens, rest))),
    }
}

// The tree of a text with these bytes.
fn read_text(alloc: Global, text: &[u8]) -> Result<Tree, ParseEnd>
    ensures { Answers result (parsed text.now) }
{
    match Tokens::read(alloc, text) {
        Ok(tokens) => tree_of(alloc, text.len() as u64, tokens.as_slice()),
        Err(LexEnd::Refused(refused)) => Err(ParseEnd::Refused(refused)),
        Err(LexEnd::NoMemory) => Err(ParseEnd::NoMemory),
    }
}

/// The tree of a program's text: the one that the grammar derives from its tokens.
///
/// # Errors
/// `Refused` with the place and the cause of the first fault: that of the bytes (`TooLong` and the lexical faults), then `Deep`, then
/// the first token with which no program's tokens begin, `Mixed` where it is an operator between two operands right behind an
/// operand, and `Unexpected` otherwise or at the text's end; or `NoMemory`.
pub fn parse(alloc: Global, text: &[u8]) -> Result<Tree, ParseEnd>
    ensures read { Answers result (parsed text.now) }
    ensures grammar { ByGrammar text.now result }
{
    read_text(alloc, text)
}
