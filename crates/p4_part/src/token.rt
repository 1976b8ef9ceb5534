//! The token in hand. A reader has what it read and the tokens behind it; an error has the tokens from the one at which it stops, or
//! says that memory ran out.
ghost use Rattle.std.specs.Prelude.{◌≡◌, ◌||◌};
ghost use Rattle.p4_grammar.specs.Forms.{taken_at, hand, is_given};
ghost use Rattle.p4_grammar.specs.Tokens.{code as code_of, is, but, name, number, the_name, in_hand, is_name};
ghost use Rattle.p4_part.specs.Made.{Finds, Gives};

use crate::end::ReadEnd;
use p4_ast::{P4Name, P4Number};
use p4_lex::{Lexeme, Sign, Token};

/// What is read, and the tokens behind it.
pub type Reading<'a, T> = Result<(T, &'a [Token]), ReadEnd<'a>>;

/// The same of a reader that takes no memory.
pub type Finding<'a, T> = Result<(T, &'a [Token]), &'a [Token]>;

fn code(sign: Sign) -> u8
    ensures { result ≡ code_of sign }
{
    sign as u8
}

/// Whether this sign is the token in hand.
pub fn is_next(sign: Sign, tokens: &[Token]) -> bool
    ensures { result ≡ hand (in_hand sign) tokens.now }
{
    match tokens {
        [
            Token {
                at: _,
                end: _,
                lexeme: Lexeme::Sign(other),
            },
            ..
        ] => code(sign) == code(*other),
        _ => false,
    }
}

/// Whether a name is the token in hand.
pub fn is_name_next(tokens: &[Token]) -> bool
    ensures { result ≡ hand is_name tokens.now }
{
    match tokens {
        [
            Token {
                at: _,
                end: _,
                lexeme: Lexeme::Name(_),
            },
            ..
        ] => true,
        _ => false,
    }
}

/// Reads this sign, and gives its place.
pub fn sign_of(sign: Sign, tokens: &[Token]) -> Finding<'_, u64>
    ensures { Finds (λ x. (x.0, x.1.now)) (λ e. e.now) result (taken_at (is sign) tokens.now) }
{
    match tokens {
        [
            Token {
                at,
                end: _,
                lexeme: Lexeme::Sign(other),
            },
            rest @ ..,
        ] => {
            if code(sign) == code(*other) {
                Ok((*at, rest))
            } else {
                Err(tokens)
            }
        }
        _ => Err(tokens),
    }
}

/// Reads a name.
pub fn name_of(tokens: &[Token]) -> Reading<'_, P4Name>
    ensures { Gives (λ x. (x.0, x.1.now)) result (taken_at name tokens.now) }
{
    match tokens {
        [
            Token {
                at,
                end: _,
                lexeme: Lexeme::Name(text),
            },
            rest @ ..,
        ] => match text.copy() {
            Ok(text) => Ok((P4Name { at: *at, text }, rest)),
            Err(_) => Err(ReadEnd::NoMemory),
        },
        _ => Err(ReadEnd::At(tokens)),
    }
}

/// Reads a number.
pub fn number_of(tokens: &[Token]) -> Finding<'_, P4Number>
    ensures { Finds (λ x. (x.0, x.1.now)) (λ e. e.now) result (taken_at number tokens.now) }
{
    match tokens {
        [
            Token {
                at,
                end: _,
                lexeme: Lexeme::Number { value, width },
            },
            rest @ ..,
        ] => {
            let number = P4Number {
                at: *at,
                value: *value,
                width: *width,
            };
            Ok((number, rest))
        }
        _ => Err(tokens),
    }
}

/// Whether this name is the token in hand.
pub fn is_called_next(text: &[u8], tokens: &[Token]) -> bool
    ensures { result ≡ hand (λ a. is_given (the_name text.now a)) tokens.now }
{
    match tokens {
        [
            Token {
                at: _,
                end: _,
                lexeme: Lexeme::Name(other),
            },
            ..
        ] => other.as_slice() == text,
        _ => false,
    }
}

/// Reads this name, and gives its place.
pub fn called_of<'a>(text: &[u8], tokens: &'a [Token]) -> Finding<'a, u64>
    ensures { Finds (λ x. (x.0, x.1.now)) (λ e. e.now) result (taken_at (the_name text.now) tokens.now) }
{
    match tokens {
        [
            Token {
                at,
                end: _,
                lexeme: Lexeme::Name(other),
            },
            rest @ ..,
        ] => {
            if other.as_slice() == text {
                Ok((*at, rest))
            } else {
                Err(tokens)
            }
        }
        _ => Err(tokens),
    }
}

/// Whether another token than this sign is in hand.
pub fn is_other_next(sign: Sign, tokens: &[Token]) -> bool
    ensures { result ≡ hand (but sign) tokens.now }
{
    match tokens {
        [] => false,
        [
            Token {
                at: _,
                end: _,
                lexeme: Lexeme::Sign(other),
            },
            ..
        ] => code(sign) != code(*other),
        _ => true,
    }
}

/// Whether a token is this sign.
pub fn is_sign(sign: Sign, token: &Token) -> bool
    ensures { result ≡ in_hand sign token.now }
{
    match &token.lexeme {
        Lexeme::Sign(other) => code(sign) == code(*other),
        _ => false,
    }
}

/// Whether a token is a name or a number.
pub fn is_value(token: &Token) -> bool
    ensures { result ≡ (is_given (name token.now) || is_given (number token.now)) }
{
    match &token.lexeme {
        Lexeme::Name(_) => true,
        Lexeme::Number { value: _, width: _ } => true,
        Lexeme::Sign(_) => false,
    }
}
