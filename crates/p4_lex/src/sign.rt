//! Signs.
ghost use Rattle.std.specs.Prelude.{◌≡◌, ◌≤◌, length, IfSome};
ghost use Rattle.p4_lex.specs.Signs.{first_of, of_three, of_two, brackets, operators, sign_at as sign_at_of};

use crate::token::Sign;

fn of_three(bytes: &[u8]) -> Option<(Sign, usize)>
    ensures { result ≡ first_of of_three bytes.now }
{
    match bytes {
        [b'|', b'+', b'|', ..] => Some((Sign::SatPlus, 3)),
        [b'|', b'-', b'|', ..] => Some((Sign::SatMinus, 3)),
        [b'&', b'&', b'&', ..] => Some((Sign::Mask, 3)),
        _ => None,
    }
}

fn of_two(bytes: &[u8]) -> Option<(Sign, usize)>
    ensures { result ≡ first_of of_two bytes.now }
{
    match bytes {
        [b'<', b'<', ..] => Some((Sign::ShiftLeft, 2)),
        [b'>', b'>', ..] => Some((Sign::ShiftRight, 2)),
        [b'+', b'+', ..] => Some((Sign::Concat, 2)),
        [b'=', b'=', ..] => Some((Sign::Equal, 2)),
        [b'!', b'=', ..] => Some((Sign::NotEqual, 2)),
        [b'<', b'=', ..] => Some((Sign::LessEqual, 2)),
        [b'>', b'=', ..] => Some((Sign::MoreEqual, 2)),
        [b'&', b'&', ..] => Some((Sign::And, 2)),
        [b'|', b'|', ..] => Some((Sign::Or, 2)),
        _ => None,
    }
}

fn bracket(bytes: &[u8]) -> Option<(Sign, usize)>
    ensures { result ≡ first_of brackets bytes.now }
{
    match bytes {
        [b'{', ..] => Some((Sign::OpenBrace, 1)),
        [b'}', ..] => Some((Sign::CloseBrace, 1)),
        [b'(', ..] => Some((Sign::Open, 1)),
        [b')', ..] => Some((Sign::Close, 1)),
        [b'[', ..] => Some((Sign::OpenSlice, 1)),
        [b']', ..] => Some((Sign::CloseSlice, 1)),
        [b'<', ..] => Some((Sign::Less, 1)),
        [b'>', ..] => Some((Sign::More, 1)),
        [b'.', ..] => Some((Sign::Dot, 1)),
        [b',', ..] => Some((Sign::Comma, 1)),
        [b';', ..] => Some((Sign::Semicolon, 1)),
        [b':', ..] => Some((Sign::Colon, 1)),
        _ => None,
    }
}

fn operator(bytes: &[u8]) -> Option<(Sign, usize)>
    ensures { result ≡ first_of operators bytes.now }
{
    match bytes {
        [b'=', ..] => Some((Sign::Assign, 1)),
        [b'?', ..] => Some((Sign::Ask, 1)),
        [b'!', ..] => Some((Sign::Not, 1)),
        [b'~', ..] => Some((Sign::Complement, 1)),
        [b'+', ..] => Some((Sign::Plus, 1)),
        [b'-', ..] => Some((Sign::Minus, 1)),
        [b'&', ..] => Some((Sign::BitAnd, 1)),
        [b'|', ..] => Some((Sign::BitOr, 1)),
        [b'^', ..] => Some((Sign::BitXor, 1)),
        _ => None,
    }
}

/// The longest sign that the bytes begin with, and how many bytes it has; `None` exactly where they begin with none.
pub fn sign_at(bytes: &[u8]) -> Option<(Sign, usize)>
    ensures { result ≡ sign_at_of bytes.now }
{
    of_three(bytes)
        .or_else(|| of_two(bytes))
        .or_else(|| bracket(bytes))
        .or_else(|| operator(bytes))
}
