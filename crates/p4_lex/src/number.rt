//! Numbers.
ghost use Rattle.std.specs.Prelude.{◌≡◌, ◌<◌, ◌≤◌, ◌+◌, ◌*◌, false, length, nat_eq, position, IfSome};
ghost use Rattle.p4_lex.specs.Letters.{hex_digit as hex_digit_of};
ghost use Rattle.p4_lex.specs.Numbers.{digit as digit_of, figures as figures_of, fitting, base_of as base_of_letter, plain as plain_of, width as width_of, number as number_of};

// The value of a digit in base 16.
fn hex_digit(c: u8) -> Option<u128>
    ensures { result ≡ hex_digit_of c }
{
    match c {
        b'0'..=b'9' => Some((c - b'0') as u128),
        b'a'..=b'f' => Some((c - b'a' + 10) as u128),
        b'A'..=b'F' => Some((c - b'A' + 10) as u128),
        _ => None,
    }
}

fn digit(base: u128, c: u8) -> Option<u128>
    ensures { result ≡ digit_of base c }
{
    let d = hex_digit(c)?;
    if d < base { Some(d) } else { None }
}

// A number with one more digit behind it, where that fits.
fn with_digit(value: u128, base: u128, d: u128) -> Option<u128>
    ensures { result ≡ fitting (Some (value * base + d)) }
{
    value.checked_mul(base)?.checked_add(d)
}

// The number that the digits write, where it is below 2^128 and `_` stands only between digits.
fn figures(base: u128, digits: &[u8]) -> Option<u128>
    requires { 1 ≤ base }
    ensures { result ≡ fitting (figures_of base false 0 digits.now) }
{
    let mut behind = false;
    let mut value: u128 = 0;
    for c in digits {
        if *c == b'_' {
            if !behind {
                return None;
            }
            behind = false;
        } else {
            let d = digit(base, *c)?;
            value = with_digit(value, base, d)?;
            behind = true;
        }
    }
    if behind { Some(value) } else { None }
}

// The base that the letter behind a leading 0 names.
fn base_of(letter: u8) -> Option<u128>
    ensures { result ≡ base_of_letter letter }
{
    match letter {
        b'x' | b'X' => Some(16),
        b'b' | b'B' => Some(2),
        b'o' | b'O' => Some(8),
        _ => None,
    }
}

// A number without width.
#[tactic(auto, unfolding(crate::specs::Numbers::plain))]
fn plain(word: &[u8]) -> Option<u128>
    ensures { result ≡ plain_of word.now }
{
    match word {
        [b'0', letter, digits @ ..] => match base_of(*letter) {
            Some(base) => figures(base, digits),
            None => figures(10, word),
        },
        [] => None,
        _ => figures(10, word),
    }
}

// The width that the digits write, where it is 1 to 128.
#[tactic(auto, unfolding(crate::specs::Numbers::width))]
fn width(digits: &[u8]) -> Option<u8>
    ensures { result ≡ width_of digits.now }
{
    let w = figures(10, digits)?;
    if 1 <= w && w <= 128 {
        Some(w as u8)
    } else {
        None
    }
}

// Where the first `w` stands.
fn width_mark(word: &[u8]) -> Option<usize>
    ensures place { result ≡ position (λ c. nat_eq c 119) word.now }
    ensures within { IfSome result (λ i. i < length word.now) }
{
    word.iter().position(|c| *c == b'w')
}

/// The number that a word spells: its value, and its width where one stands before a `w`.
pub fn number(word: &[u8]) -> Option<(u128, Option<u8>)>
    ensures { result ≡ number_of word.now }
{
    match width_mark(word) {
        None => {
            let value = plain(word)?;
            Some((value, None))
        }
        Some(i) => {
            let (front, _) = word.split_at(i);
            let (_, behind) = word.split_at(i + 1);
            let w = width(front)?;
            let value = plain(behind)?;
            Some((value, Some(w)))
        }
    }
}
