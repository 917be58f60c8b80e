// What stands at the front of a text: just these bytes, a word, a number, a sign. A function answers what it read and the bytes behind it; or,
// as the error, the bytes from the first on at which no text goes on so.
#![tactic(auto)]

ghost use Rattle.std.specs.Prelude.{◌≡◌, ◌+◌, ◌≤◌, length, take};
ghost use Rattle.std.specs.List.{prefix_len};
ghost use Rattle.grammar.specs.Parse.{expect, read_word, read_number, read_name, read_sign};
ghost use Rattle.grammar.specs.Syntax.{in_word, is_letter, is_digit};
ghost use Rattle.words.specs.Reads.{read, behind, first_is, map_got, sign_of, sign_by, small_number};
ghost use Rattle.words.specs.Words.{pack, word_by, word_of};

// What was read, and the bytes behind it.
pub type Read<'a, T> = Result<(T, &'a [u8]), &'a [u8]>;

// The most bytes of a word.
const LONGEST: usize = 8;

// The words of the language, packed. Patterns of bytes, as b"kind", in their place leave a proof of a branch for each byte at which none goes on.
const KIND: u64 = 1684957547;

const SAY: u64 = 7954803;

const SEND: u64 = 1684956531;

const TO: u64 = 28532;

const AFTER: u64 = 491328398945;

const IF: u64 = 26217;

const ELSE: u64 = 1702063205;

const END: u64 = 6581861;

const AGAIN: u64 = 474214393697;

const THING: u64 = 444234033268;

const MESSAGE: u64 = 28542640894207341;

const DRAW: u64 = 2002874980;

const IT: u64 = 29801;

const ME: u64 = 25965;

const NOW: u64 = 7827310;

// The words of the language, and names, packed.
#[derive(Clone, Copy, Debug, PartialEq, Eq)]
pub enum Word {
    Kind,
    Say,
    Send,
    To,
    After,
    If,
    Else,
    End,
    Again,
    Thing,
    Message,
    Draw,
    It,
    Me,
    Now,
    Name(u64),
}

// How lines close: by end, or by else.
#[derive(Clone, Copy, Debug, PartialEq, Eq)]
pub enum Closing {
    End,
    Else,
}

// The signs of operations.
#[derive(Clone, Copy, Debug, PartialEq, Eq)]
pub enum Sign {
    Plus,
    Minus,
    Times,
    Over,
    Remains,
    Less,
    Equal,
}

// Just the bytes that are wanted.
pub fn read_literal<'a>(text: &'a [u8], wanted: &[u8]) -> Result<&'a [u8], &'a [u8]>
    ensures { expect wanted.now text.now ≡ behind result }
{
    let mut rest = text;
    for c in wanted {
        match rest.split_first() {
            Some((b, behind)) if b == c => rest = behind,
            _ => return Err(rest),
        }
    }
    Ok(rest)
}

// Whether a letter stands in front.
pub fn begins_with_letter(text: &[u8]) -> bool
    ensures { result ≡ first_is is_letter text.now }
{
    text.first().is_some_and(|b| b.is_ascii_lowercase())
}

// How many bytes of a word stand in front; nine if there are more, so that no more are looked at.
fn word_len(text: &[u8]) -> usize
    ensures value { result ≡ prefix_len in_word (take (LONGEST + 1) text.now) }
    ensures within { result ≤ length text.now }
{
    text.iter()
        .take(LONGEST + 1)
        .take_while(|b| b.is_ascii_lowercase() || b.is_ascii_digit())
        .count()
}

// How many digits stand in front.
fn digits_len(text: &[u8]) -> usize
    ensures value { result ≡ prefix_len is_digit text.now }
    ensures within { result ≤ length text.now }
{
    text.iter().take_while(|b| b.is_ascii_digit()).count()
}

// A word as one number, its first byte with the least weight.
pub fn packed(word: &[u8]) -> u64
    requires { length word.now ≤ 8 }
    ensures { result ≡ pack word.now }
{
    let mut bytes = [0; 8];
    bytes[..word.len()].copy_from_slice(word);
    u64::from_le_bytes(bytes)
}

// Which word of the language a packed one is, or the name.
impl From<u64> for Word {
    ghost from_gives = { λ packed word. word ≡ word_by packed };

    fn from(packed: u64) -> Word {
        match packed {
            KIND => Word::Kind,
            SAY => Word::Say,
            SEND => Word::Send,
            TO => Word::To,
            AFTER => Word::After,
            IF => Word::If,
            ELSE => Word::Else,
            END => Word::End,
            AGAIN => Word::Again,
            THING => Word::Thing,
            MESSAGE => Word::Message,
            DRAW => Word::Draw,
            IT => Word::It,
            ME => Word::Me,
            NOW => Word::Now,
            name => Word::Name(name),
        }
    }
}

// A word of at most eight bytes, a letter first.
pub fn read_word<'a>(text: &'a [u8]) -> Read<'a, Word>
    ensures { map_got word_of (read_word text.now) ≡ read result }
{
    if !begins_with_letter(text) {
        return Err(text);
    }
    let len = word_len(text);
    if len > LONGEST {
        return Err(&text[LONGEST..]);
    }
    let (word, rest) = text.split_at(len);
    Ok((Word::from(packed(word)), rest))
}

// A name, packed.
pub fn read_name<'a>(text: &'a [u8]) -> Read<'a, u64>
    ensures { map_got pack (read_name text.now) ≡ read result }
{
    let (word, rest) = read_word(text)?;
    match word {
        Word::Name(name) => Ok((name, rest)),
        _ => Err(rest),
    }
}

// The digits of a number, with no 0 before others: where there is one, no more are looked at.
pub fn read_number<'a>(text: &'a [u8]) -> Read<'a, &'a [u8]>
    ensures { read_number text.now ≡ map_got (λ d. d.now) (read result) }
{
    if text.len() > 1 && text[0] == b'0' && text[1].is_ascii_digit() {
        return Err(&text[1..]);
    }
    let len = digits_len(text);
    if len == 0 {
        return Err(text);
    }
    Ok(text.split_at(len))
}

// The number that digits stand for, if it is below 2^32.
pub fn number_of(digits: &[u8]) -> Option<u32>
    ensures { result ≡ small_number digits.now }
{
    let mut n: u32 = 0;
    for d in digits {
        n = n
            .checked_mul(10)?
            .checked_add(u32::from(d.saturating_sub(b'0')))?;
    }
    Some(n)
}

// Which sign a byte is.
fn sign_by(b: u8) -> Option<Sign>
    ensures { result ≡ sign_by b }
{
    match b {
        b'+' => Some(Sign::Plus),
        b'-' => Some(Sign::Minus),
        b'*' => Some(Sign::Times),
        b'/' => Some(Sign::Over),
        b'%' => Some(Sign::Remains),
        b'<' => Some(Sign::Less),
        b'=' => Some(Sign::Equal),
        _ => None,
    }
}

// The sign of an operation.
pub fn read_sign<'a>(text: &'a [u8]) -> Read<'a, Sign>
    ensures { read_sign text.now ≡ map_got sign_of (read result) }
{
    let Some((b, rest)) = text.split_first() else {
        return Err(text);
    };
    let Some(sign) = sign_by(*b) else {
        return Err(text);
    };
    Ok((sign, rest))
}
