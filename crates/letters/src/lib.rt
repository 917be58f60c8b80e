// What workers write to each other, in bytes; docs/LETTERS.md has every byte.
#![tactic(auto)]

ghost use Rattle.std.specs.Prelude.{◌≡◌, ◌≢◌, ℕ, ◌+◌, ◌≤◌, true, ◌&&◌, List, ◌∷◌, ◌++◌, length, take, drop, is_some, if◌then◌else◌, Some, None, MatchResult, nat_le};
ghost use Rattle.letters.specs.Promise.{ReadBack, ReadSo, NoTwo, AtMost, MessagesBack, LinesBack};
ghost use Rattle.letters.specs.Letters.{little, put, size, carries, in_bounds, fits, head, head_bytes, letter_bytes, well_formed, kept, told, lines_of, printed_of, letter_of, last, part, IsLetter, no_letter, tag_byte};

mod wire;

use checker::{Refusal, Rule};
use meaning::{Line, Message};
pub use wire::Wire;

// A letter; the messages or lines that it carries stand as bytes behind it.
#[derive(Clone, Copy, Debug, PartialEq, Eq)]
pub enum Letter {
    // The sender's earliest time of an epoch; how long the reader's stream is as far as it was heard; a part of the sender's stream to the reader:
    // where it starts, whether the stream ends with it, and how many messages it has.
    Tell {
        from: u8,
        epoch: u64,
        earliest: u64,
        heard: u64,
        start: u64,
        finished: bool,
        count: u8,
    },
    // Lines for the worker that prints: the number of the first; none behind them comes before the time and process; how many they are.
    Lines {
        from: u8,
        first: u64,
        time: u64,
        process: u32,
        count: u8,
    },
    // How many lines of the reader have been printed.
    Printed {
        from: u8,
        upto: u64,
    },
}

// The first byte of each kind of letter.
#[derive(Clone, Copy)]
enum Tag {
    Tell = 1,
    Lines = 2,
    Printed = 3,
}

impl From<Tag> for u8 {
    ghost from_gives = { λ tag byte. byte ≡ tag_byte tag };

    fn from(tag: Tag) -> u8 {
        tag as u8
    }
}

impl TryFrom<u8> for Tag {
    ghost use Rattle.letters.specs.declared.Tag.{Tag};

    type Error = Refusal;

    ghost try_from_gives = { λ byte r. MatchResult r (λ tag. byte ≡ tag_byte tag) (λ f. (f ≡ no_letter) × ((tag : Tag) → byte ≢ tag_byte tag)) };

    fn try_from(byte: u8) -> Result<Tag, Refusal> {
        match byte {
            1 => Ok(Tag::Tell),
            2 => Ok(Tag::Lines),
            3 => Ok(Tag::Printed),
            _ => Err(NO_LETTER),
        }
    }
}

// How many bytes stand before what a letter carries, for each kind.
const TELL_HEAD: usize = 36;

const LINES_HEAD: usize = 23;

const PRINTED_HEAD: usize = 10;

// How many workers there are at most, and how many messages and lines a letter carries at most.
const WORKERS: u8 = 64;

const MESSAGES: u8 = 35;

const LINES: u8 = 62;

// The refusal of bytes that are no letter, written out: a constant cannot be a call, as `Rule::Letter.refusal(0)`.
const NO_LETTER: Refusal = Refusal {
    rule: Rule::Letter,
    place: 0,
};

impl Letter {
    // How many of its last bytes are what it carries.
    pub fn carried(self) -> usize
        ensures { result ≡ carries self }
    {
        match self {
            Letter::Tell { count, .. } => count as usize * Message::SIZE,
            Letter::Lines { count, .. } => count as usize * Line::SIZE,
            Letter::Printed { .. } => 0,
        }
    }

    // How many bytes stand before what it carries.
    fn head(self) -> usize
        ensures { result ≡ head self }
    {
        match self {
            Letter::Tell { .. } => TELL_HEAD,
            Letter::Lines { .. } => LINES_HEAD,
            Letter::Printed { .. } => PRINTED_HEAD,
        }
    }

    // How many bytes it takes with what it carries.
    pub fn size(self) -> usize
        ensures { result ≡ size self }
    {
        self.head() + self.carried()
    }

    // Whether the sender and the count are in bounds.
    fn is_in_bounds(self) -> bool
        ensures answers { result ≡ in_bounds self }
        ensures typed { fits self ≡ true }
    {
        match self {
            Letter::Tell { from, count, .. } => from < WORKERS && count <= MESSAGES,
            Letter::Lines { from, count, .. } => from < WORKERS && count <= LINES,
            Letter::Printed { from, .. } => from < WORKERS,
        }
    }

    // Writes it without what it carries.
    fn write_head(self, out: &mut [u8], at: usize)
        requires { at + head self ≤ length out.old }
        ensures { out.new ≡ put out.old at (head_bytes self) }
    {
        match self {
            Letter::Tell {
                from,
                epoch,
                earliest,
                heard,
                start,
                finished,
                count,
            } => {
                write_start(out, at, Tag::Tell, from, epoch);
                earliest.write(out, at + 10);
                heard.write(out, at + 18);
                start.write(out, at + 26);
                out[at + 34] = u8::from(finished);
                out[at + 35] = count;
            }
            Letter::Lines {
                from,
                first,
                time,
                process,
                count,
            } => {
                write_start(out, at, Tag::Lines, from, first);
                time.write(out, at + 10);
                process.write(out, at + 18);
                out[at + 22] = count;
            }
            Letter::Printed { from, upto } => write_start(out, at, Tag::Printed, from, upto),
        }
    }

    // It, if it is in bounds and takes so many bytes.
    fn keep(self, n: usize) -> Option<Letter>
        ensures { result ≡ kept n self }
    {
        (self.is_in_bounds() && n == self.size()).then_some(self)
    }
}

// Writes what all letters begin with: the tag, the sender and a number.
fn write_start(out: &mut [u8], at: usize, tag: Tag, from: u8, n: u64)
    requires { at + 10 ≤ length out.old }
    ensures { out.new ≡ put out.old at (tag_byte tag ∷ from ∷ little n 8) }
{
    out[at] = u8::from(tag);
    out[at + 1] = from;
    n.write(out, at + 2);
}

// Writes a letter with what it carries from a place on, and answers where it ends; refuses, with nothing changed, if it is not well formed or
// does not fit.
pub fn write_letter(out: &mut [u8], at: usize, letter: Letter, carried: &[u8]) -> Option<usize>
    ensures answers { result ≡ (if well_formed letter carried.now && nat_le (at + size letter) (length out.old) then Some (at + size letter) else None) }
    ensures writes { out.new ≡ (if is_some result then take at out.old ++ (letter_bytes letter carried.now ++ drop (at + size letter) out.old) else out.old) }
{
    if !letter.is_in_bounds() || carried.len() != letter.carried() {
        return None;
    }
    let size = letter.size();
    if at > out.len() || out.len() - at < size {
        return None;
    }
    let end = at + size;
    letter.write_head(out, at);
    out[end - carried.len()..end].copy_from_slice(carried);
    Some(end)
}

// The letter that tells, if the bytes are one.
fn read_tell(bytes: &[u8]) -> Option<Letter>
    ensures { result ≡ told bytes.now }
{
    if bytes.len() < TELL_HEAD || bytes[34] >= 2 {
        return None;
    }
    let letter = Letter::Tell {
        from: bytes[1],
        epoch: u64::read(bytes, 2),
        earliest: u64::read(bytes, 10),
        heard: u64::read(bytes, 18),
        start: u64::read(bytes, 26),
        finished: bytes[34] == 1,
        count: bytes[35],
    };
    letter.keep(bytes.len())
}

// The letter with lines, if the bytes are one.
fn read_lines(bytes: &[u8]) -> Option<Letter>
    ensures { result ≡ kept (length bytes.now) (lines_of bytes.now) }
{
    if bytes.len() < LINES_HEAD {
        return None;
    }
    let letter = Letter::Lines {
        from: bytes[1],
        first: u64::read(bytes, 2),
        time: u64::read(bytes, 10),
        process: u32::read(bytes, 18),
        count: bytes[22],
    };
    letter.keep(bytes.len())
}

// The letter that says what was printed, if the bytes are one.
fn read_printed(bytes: &[u8]) -> Option<Letter>
    ensures { result ≡ kept (length bytes.now) (printed_of bytes.now) }
{
    if bytes.len() < PRINTED_HEAD {
        return None;
    }
    let letter = Letter::Printed {
        from: bytes[1],
        upto: u64::read(bytes, 2),
    };
    letter.keep(bytes.len())
}

// The letter that all the bytes are.
#[tactic(auto, using(crate::proofs::Reading::no_tag, crate::proofs::Reading::no_byte), unfolding(crate::specs::Letters::letter_of))]
fn read_whole(bytes: &[u8]) -> Option<Letter>
    ensures { result ≡ letter_of bytes.now }
{
    let first = *bytes.first()?;
    match Tag::try_from(first) {
        Ok(Tag::Tell) => read_tell(bytes),
        Ok(Tag::Lines) => read_lines(bytes),
        Ok(Tag::Printed) => read_printed(bytes),
        Err(_) => None,
    }
}

// The letter that the bytes from one place to another are; refuses bytes that are none.
pub fn read_letter(bytes: &[u8], from: usize, to: usize) -> Result<Letter, Refusal>
    ensures { MatchResult result (λ l. (to ≤ length bytes.now) × IsLetter (part bytes.now from to) l (last (carries l) (part bytes.now from to))) (λ f. (f ≡ no_letter) × (to ≤ length bytes.now → (l : Letter) (c : List ℕ) → IsLetter (part bytes.now from to) l c → ⊥)) }
{
    bytes.get(from..to).and_then(read_whole).ok_or(NO_LETTER)
}

// A letter is read back from its bytes.
pub fn read_back()
    ensures { ReadBack }
{}

// What is read from bytes is the letter that they are.
pub fn read_so()
    ensures { ReadSo }
{}

// No two letters have the same bytes.
#[tactic(auto, using(crate::proofs::Reading::no_two))]
pub fn no_two()
    ensures { NoTwo }
{}

// A letter has at most 1,024 bytes.
#[tactic(auto, using(crate::proofs::Reading::at_most))]
pub fn at_most()
    ensures { AtMost }
{}

// A message is read back from its bytes.
pub fn messages_back()
    ensures { MessagesBack }
{}

// A line is read back from its bytes.
pub fn lines_back()
    ensures { LinesBack }
{}
