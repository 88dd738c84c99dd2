// What stands at a place of the text: blanks and comments are passed over, and a run of digits is read as a number.
#![tactic(auto)]

ghost use Rattle.std.specs.Prelude.{◌≡◌, ◌≤◌, length};
ghost use Rattle.std.specs.List.{prefix_len};
ghost use Rattle.text_rules.specs.Bytes.{is_blank};
ghost use Rattle.text_rules.specs.Tokens.{token_at};
ghost use Rattle.tokens.specs.Scan.{in_line, comment_end, byte_at, past_blanks, skipped, Run, read_as, number_token, number_at};

use text_rules::{Kind, Token};

// What a run of digits is read as, and the place after it.
#[derive(Clone, Copy, Debug, PartialEq, Eq)]
pub struct Number {
    pub value: u32,
    pub end: usize,
}

pub fn is_blank(b: u8) -> bool
    ensures { result ≡ is_blank b }
{
    matches!(b, b' ' | b'\t' | b'\r')
}

// How many blanks stand at the front.
fn blanks_in_front(bytes: &[u8]) -> usize
    ensures value { result ≡ prefix_len is_blank bytes.now }
    ensures within { result ≤ length bytes.now }
{
    bytes.iter().take_while(|b| is_blank(**b)).count()
}

// How many bytes stand before the line end, or before the text's.
fn bytes_in_line(bytes: &[u8]) -> usize
    ensures value { result ≡ prefix_len in_line bytes.now }
    ensures within { result ≤ length bytes.now }
{
    bytes.iter().take_while(|b| **b != b'\n').count()
}

// The place of the line end that closes a comment, or the text's end.
#[tactic(auto, using(crate::proofs::Says::ends_line), unfolding(crate::specs::Scan::comment_end))]
pub fn comment_end(text: &[u8], from: usize) -> usize
    ensures { result ≡ comment_end text.now from }
{
    match text.get(from..) {
        Some(rest) => from + bytes_in_line(rest),
        None => from,
    }
}

// The byte at a place, with the place.
fn byte_at(text: &[u8], at: usize) -> Option<(usize, u8)>
    ensures { result ≡ byte_at text.now at }
{
    text.get(at).map(|b| (at, *b))
}

// The first byte from a place on that is no blank. Most bytes are none, and one look tells it of them.
fn past_blanks(text: &[u8], place: usize) -> Option<(usize, u8)>
    ensures { result ≡ byte_at text.now (past_blanks text.now place) }
{
    let (at, b) = byte_at(text, place)?;
    if is_blank(b) {
        let after = place + 1;
        byte_at(text, after + blanks_in_front(&text[after..]))
    } else {
        Some((at, b))
    }
}

// The byte that begins the next token. Blanks are passed, and a comment where one begins.
fn skipped(text: &[u8], place: usize) -> Option<(usize, u8)>
    ensures { result ≡ byte_at text.now (skipped text.now place) }
{
    let (at, b) = past_blanks(text, place)?;
    if b == b'#' {
        byte_at(text, comment_end(text, at))
    } else {
        Some((at, b))
    }
}

// How many digits stand at the front, and their value: one that is too large stays so, however many digits come.
fn run(bytes: &[u8]) -> (usize, u64)
    ensures { Run bytes.now result }
{
    let mut value = 0;
    for (i, b) in bytes.iter().enumerate() {
        if !b.is_ascii_digit() {
            return (i, value);
        }
        if value <= u64::from(Token::LARGEST) {
            value = value * 10 + u64::from(b - b'0');
        }
    }
    (bytes.len(), value)
}

// What a run of so many digits and that value is read as.
fn read_as(count: usize, value: u64) -> u32
    ensures { result ≡ read_as count value }
{
    if count > Token::DIGITS || value > u64::from(Token::LARGEST) {
        Token::REFUSED
    } else {
        value as u32
    }
}

// The number at a place of the text, with all its digits: where there is none it is 0.
pub fn number_at(text: &[u8], from: usize) -> Number
    ensures { result ≡ number_at text.now from }
{
    let Some(rest) = text.get(from..) else {
        return Number {
            value: 0,
            end: from,
        };
    };
    let (count, value) = run(rest);
    Number {
        value: read_as(count, value),
        end: from + count,
    }
}

// The token that the number at a place of the text makes, with all its digits.
fn number_token(text: &[u8], from: usize) -> Token
    requires { from ≤ length text.now }
    ensures { result ≡ number_token text.now from }
{
    let (count, value) = run(&text[from..]);
    Token {
        kind: Kind::Number(read_as(count, value)),
        end: from + count,
    }
}

// The token at a place of the text. A pass asks for each token of a text, so that a call for each would be felt.
#[inline]
pub fn token_at(text: &[u8], place: usize) -> Token
    ensures { result ≡ token_at text.now place }
{
    let Some((at, b)) = skipped(text, place) else {
        return Token {
            kind: Kind::End,
            end: text.len(),
        };
    };
    let end = at + 1;
    if b == b'\n' {
        return Token {
            kind: Kind::LineEnd,
            end,
        };
    }
    if b.is_ascii_digit() {
        return number_token(text, at);
    }
    Token {
        kind: Kind::Wrong,
        end,
    }
}
