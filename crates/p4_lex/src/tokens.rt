//! The tokens of a text.
ghost use Rattle.std.specs.Prelude.{◌≡◌, ◌+◌, ◌^◌, ◌<◌, ◌≤◌, ◌++◌, [], length, true, IfOk, OnOk};
ghost use Rattle.p4_lex.specs.Lexing.{Answers, Rise, token_of, tokens_from, tokens as tokens_of_text};

use crate::end::LexEnd;
use crate::front::{Front, front_at};
use crate::token::Token;
use rp_base::{NoMemory, Refused, Why};
use std::alloc::Global;
use std::marker::Model;

/// The most bytes that a text may have.
const LONGEST: usize = 262_144;

/// The tokens of a text, in its order.
#[derive(Debug, Drop)]
pub struct Tokens {
    items: Vec<Token>,
}

impl Model for Tokens {
    ghost use Rattle.std.specs.Prelude.{List};
    ghost use Rattle.p4_lex.specs.declared.token.Token.{Token as TokenValue};

    ghost Value = { List TokenValue };

    ghost view = { λ b. b.items.items };
}

// The tokens of a text that isn't too long.
fn tokens_of(alloc: Global, text: &[u8]) -> Result<Tokens, LexEnd>
    ensures { Answers result (tokens_from 0 0 true text.now) }
{
    let mut tokens = Tokens::new(alloc);
    let mut at = 0;
    let mut fresh = true;
    while at < text.len() {
        let (_, rest) = text.split_at(at);
        let front = front_at(alloc, at as u64, fresh, text[at], rest)?;
        let end = at + front.size;
        fresh = front.fresh;
        tokens.push_front(at as u64, front)?;
        at = end;
    }
    Ok(tokens)
}

impl Tokens {
    fn new(alloc: Global) -> Tokens
        ensures { result ≡ [] }
    {
        Tokens {
            items: Vec::new(alloc),
        }
    }

    // Appends the token of these bytes, which begin at `at`, where they are one.
    fn push_front(&mut self, at: u64, front: Front) -> Result<(), NoMemory>
        requires { at + front.size < 2 ^ 64 }
        ensures { OnOk result (self.new ≡ self.old ++ token_of at front.size front.lexeme) }
    {
        let end = at + front.size as u64;
        if let Some(lexeme) = front.lexeme {
            self.items.push(Token { at, end, lexeme })?;
        }
        Ok(())
    }

    /// Reads the tokens of a text. Their spans rise, and stand within the text.
    ///
    /// # Errors
    /// `Refused` with `TooLong` at 0 for more than 262,144 bytes; otherwise with the first place at which no token begins, and why; or
    /// `NoMemory`.
    pub fn read(alloc: Global, text: &[u8]) -> Result<Tokens, LexEnd>
        ensures read { Answers result (tokens_of_text text.now) }
        ensures spans { IfOk result (λ read. Rise 0 read (length text.now)) }
    {
        if text.len() > LONGEST {
            return Err(LexEnd::Refused(Refused {
                at: 0,
                why: Why::TooLong,
            }));
        }
        tokens_of(alloc, text)
    }

    /// The tokens.
    pub fn as_slice(&self) -> &[Token]
        ensures { result.now ≡ self.now }
    {
        &self.items
    }
}
