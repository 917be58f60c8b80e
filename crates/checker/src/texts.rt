// Texts checked with all their rules: names, kinds, things and messages.
ghost use Rattle.std.specs.Prelude.{◌≡◌, ◌==◌, ◌≤◌, [], length, IfOk, None as Absent};
ghost use Rattle.grammar.specs.Check.{check_new, check_names, check_first, check_kind, most_names, check_row, check_thing, check_note, check_notes, check_things, check_kinds, check as checked, most_notes, most_things, too_large, broken, sooner, large_at};
ghost use Rattle.grammar.specs.Parse.{read_name};
ghost use Rattle.grammar.specs.Syntax.{Text};
ghost use Rattle.words.specs.Reads.{first_is};
ghost use Rattle.words.specs.Words.{unpack};
ghost use Rattle.checker.specs.Refusals.{map_checked, left_out, refused_by, read, ended, outcome, names_in};
ghost use Rattle.checker.specs.Texts.{known_in, counted_by, names_from, first_from, seen, seen_read, row_length, length_of, rest_of, amounts, amounts_of, sizes, sizes_of, sized, Answered};

use crate::limits::{Refused, TOO_LARGE, check_below, cut_off, within_line};
use crate::lines::{Scope, check_lines};
use crate::{Refusal, Rule};
use words::{number_of, read_literal, read_name, read_number};

// A kind that was read: its packed name, and how many numbers it has.
#[derive(Clone, Copy)]
pub struct Kept {
    pub name: u64,
    pub count: usize,
}

// A row of numbers: how many there are, and where the first begins that is too large.
#[derive(Clone, Copy)]
pub struct Row<'a> {
    pub count: usize,
    pub large: Option<&'a [u8]>,
}

// How many things and messages.
#[derive(Clone, Copy)]
pub struct Counts {
    pub things: usize,
    pub notes: usize,
}

// How many bytes the kinds of a text take, and how many kinds, things and messages it has.
#[derive(Clone, Copy)]
pub struct Extent {
    pub lines: usize,
    pub kinds: usize,
    pub things: usize,
    pub notes: usize,
}

// The most numbers of a kind, lines of kinds, and branches and repeats in each other.
const NAMES: usize = 64;

const LINES: usize = 4096;

const DEEP: usize = 16;

// The most things, and the most messages.
const THINGS: usize = 65536;

const NOTES: usize = 65536;

// The most bytes of a text.
const BYTES: usize = 67108864;

// How many numbers the kind of that name has, if there is one. A `for`, since of what `find` gives no proof knows that the name fits 64 bits.
fn count_of(kinds: &[Kept], name: u64) -> Option<usize>
    ensures { result ≡ counted_by (unpack name) (known_in kinds.now) }
{
    for kind in kinds {
        if kind.name == name {
            return Some(kind.count);
        }
    }
    None
}

// A name that isn't there yet.
fn check_new<'a>(text: &'a [u8], seen: &[u64]) -> Result<(u64, &'a [u8]), Refused<'a>>
    ensures { check_new (names_in seen.now) text.now ≡ map_checked unpack (read result) }
{
    let (name, rest) = read_name(text)?;
    if seen.contains(&name) {
        return Err(Rule::Name.at(text));
    }
    Ok((name, rest))
}

// New names, each after a space, up to the end of the line, packed into a table of 64; and how many. The table is an array, since there is no heap.
fn check_names<'a>(text: &'a [u8], names: &mut [u64]) -> Result<(usize, &'a [u8]), Refused<'a>>
    requires { length names.old ≡ 64 }
    ensures answers { check_names [] most_names text.now ≡ map_checked (names_from names.new) (read result) }
    ensures fits { IfOk result (λ n. n.0 ≤ 64) }
{
    let mut rest = text;
    // By number, since the names before are searched while the next is put.
    for count in 0..NAMES {
        let Some((first, behind)) = rest.split_first() else {
            return Err(Rule::Form.at(rest));
        };
        if *first == b'\n' {
            return Ok((count, behind));
        }
        if *first != b' ' {
            return Err(Rule::Form.at(rest));
        }
        let (name, next) = check_new(behind, &names[..count])?;
        names[count] = name;
        rest = next;
    }
    let rest = read_literal(rest, b"\n")?;
    Ok((NAMES, rest))
}

// The first line of a kind, behind these kinds, with the names of its numbers packed into a table of 64.
fn check_first<'a>(
    text: &'a [u8],
    kinds: &[Kept],
    names: &mut [u64],
) -> Result<(Kept, &'a [u8]), Refused<'a>>
    requires { length names.old ≡ 64 }
    ensures answers { check_first (known_in kinds.now) text.now ≡ map_checked (first_from names.new) (read result) }
    ensures fits { IfOk result (λ k. k.0.count ≤ 64) }
{
    let start = read_literal(text, b"kind ")?;
    let (name, rest) = read_name(start)?;
    if count_of(kinds, name).is_some() {
        return Err(Rule::Name.at(start));
    }
    let (count, rest) = check_names(rest, names)?;
    Ok((Kept { name, count }, rest))
}

// A kind behind these kinds, where so many lines may still come; and how many may come behind it.
fn check_kind<'a>(
    text: &'a [u8],
    kinds: &[Kept],
    left: usize,
) -> Result<((Kept, usize), &'a [u8]), Refused<'a>>
    ensures { map_checked seen (check_kind (known_in kinds.now) left text.now) ≡ map_checked seen_read (read result) }
{
    if left == 0 {
        return Err(Rule::Limit.at(text));
    }
    let mut names = [0; NAMES];
    let first = check_first(text, kinds, &mut names);
    let (kind, rest) = within_line(text, first)?;
    let scope = Scope {
        names: &names[..kind.count],
        deep: DEEP,
        or_else: false,
    };
    let ((_, left), rest) = check_lines(rest, scope, LINES + 1, left - 1)?;
    Ok(((kind, left), rest))
}

// Where a row breaks off: a number before that was too large comes first.
fn broken<'a>(large: Option<&'a [u8]>, rest: &'a [u8]) -> Refused<'a>
    ensures { refused_by {A = Text} result ≡ broken (rest_of large.entry) rest.now }
{
    match large {
        None => Rule::Form.at(rest),
        Some(number) => Rule::Number.at(number),
    }
}

// Where the first number of a row begins that is too large: one before, or these digits in front of a text.
fn first_large<'a>(before: Option<&'a [u8]>, text: &'a [u8], digits: &[u8]) -> Option<&'a [u8]>
    ensures { rest_of result ≡ sooner (rest_of before.entry) (large_at digits.now text.now) }
{
    before.or(number_of(digits).is_none().then_some(text))
}

// Numbers, each after a space, up to the end of the line; at most so many.
fn check_row<'a>(text: &'a [u8], most: usize) -> Result<(Row<'a>, &'a [u8]), Refused<'a>>
    ensures { map_checked (row_length 0) (check_row most Absent text.now) ≡ map_checked length_of (read result) }
{
    let mut rest = text;
    let mut large = None;
    for count in 0..most {
        let Some((first, behind)) = rest.split_first() else {
            return Err(broken(large, rest));
        };
        if *first == b'\n' {
            return Ok((Row { count, large }, behind));
        }
        if *first != b' ' {
            return Err(broken(large, rest));
        }
        match read_number(behind) {
            Ok((digits, next)) => {
                large = first_large(large, behind, digits);
                rest = next;
            }
            Err(next) => return Err(broken(large, next)),
        }
    }
    Err(Rule::Limit.at(rest))
}

// A thing of one of these kinds.
fn check_thing<'a>(text: &'a [u8], kinds: &[Kept]) -> Result<&'a [u8], Refused<'a>>
    ensures { left_out (check_thing (known_in kinds.now) text.now) ≡ ended result }
{
    let start = read_literal(text, b"thing ")?;
    let (name, rest) = read_name(start)?;
    let Some(count) = count_of(kinds, name) else {
        return Err(Rule::Name.at(start));
    };
    let (row, rest) = check_row(rest, rest.len() + 1)?;
    if row.count != count {
        return Err(Rule::Number.at(text));
    }
    match row.large {
        None => Ok(rest),
        Some(number) => Err(Rule::Number.at(number)),
    }
}

// A message, where there are so many things.
fn check_note(text: &[u8], things: usize) -> Result<&[u8], Refused<'_>>
    requires { things ≤ too_large }
    ensures { left_out (check_note things text.now) ≡ ended result }
{
    let rest = read_literal(text, b"message ")?;
    let rest = check_below(rest, TOO_LARGE)?;
    let rest = read_literal(rest, b" ")?;
    let rest = check_below(rest, things)?;
    let rest = read_literal(rest, b" ")?;
    let rest = check_below(rest, TOO_LARGE)?;
    Ok(read_literal(rest, b"\n")?)
}

// Whether a text begins with a byte.
fn begins_with(text: &[u8], byte: u8) -> bool
    ensures { result ≡ first_is (λ b. b == byte) text.now }
{
    text.first().is_some_and(|first| *first == byte)
}

// Messages up to the end of the text, and how many.
fn check_notes(text: &[u8], things: usize) -> Result<usize, Refused<'_>>
    requires { things ≤ too_large }
    ensures { map_checked (sized 0) (check_notes things most_notes text.now) ≡ outcome result }
{
    let mut rest = text;
    for count in 0..NOTES {
        if rest.is_empty() {
            return Ok(count);
        }
        rest = check_note(rest, things)?;
    }
    if rest.is_empty() {
        return Ok(NOTES);
    }
    if begins_with(rest, b'm') {
        return Err(Rule::Limit.at(rest));
    }
    Err(Rule::Form.at(rest))
}

// Things up to the messages, the messages up to the end of the text, and how many. One thing too many is refused, unless its line has more or
// fewer numbers than its kind, which comes before.
fn check_things<'a>(text: &'a [u8], kinds: &[Kept]) -> Result<Counts, Refused<'a>>
    ensures { map_checked (amounts 0) (check_things (known_in kinds.now) 0 most_things text.now) ≡ map_checked amounts_of (outcome result) }
{
    let mut rest = text;
    for things in 0..THINGS {
        if !begins_with(rest, b't') {
            let notes = check_notes(rest, things)?;
            return Ok(Counts { things, notes });
        }
        rest = check_thing(rest, kinds)?;
    }
    if begins_with(rest, b't') {
        return Err(cut_off(rest, 0, check_thing(rest, kinds)));
    }
    let notes = check_notes(rest, THINGS)?;
    let things = THINGS;
    Ok(Counts { things, notes })
}

// Kinds up to the things and messages, and these up to the end of the text. The table is an array, since there is no heap; it is filled by a
// `while`, since the rest and the lines that are left run along.
fn check_kinds(text: &[u8]) -> Result<Extent, Refused<'_>>
    ensures { map_checked (sizes 0 0) (check_kinds 4097 [] 4096 text.now) ≡ map_checked sizes_of (outcome result) }
{
    let mut table = [Kept { name: 0, count: 0 }; LINES];
    let mut rest = text;
    let mut kinds = 0;
    let mut left = LINES;
    while begins_with(rest, b'k') {
        let ((kind, behind), next) = check_kind(rest, &table[..kinds], left)?;
        rest = next;
        left = behind;
        // Each kind takes a line, so that there are never more than lines.
        if kinds == LINES {
            return Err(Rule::Limit.at(rest));
        }
        table[kinds] = kind;
        kinds += 1;
    }
    let Counts { things, notes } = check_things(rest, &table[..kinds])?;
    Ok(Extent {
        lines: text.len() - rest.len(),
        kinds,
        things,
        notes,
    })
}

// A whole text, which may have 64 MiB.
fn check_whole(text: &[u8]) -> Result<Extent, Refused<'_>>
    ensures { map_checked (sizes 0 0) (checked text.now) ≡ map_checked sizes_of (outcome result) }
{
    let whole = check_kinds(text);
    if text.len() <= BYTES {
        return whole;
    }
    match whole {
        Ok(_) => Err(Rule::Limit.at(&text[BYTES..])),
        Err(_) => Err(cut_off(text, BYTES, whole)),
    }
}

// Whether the bytes are a text that keeps all rules, and how large it is; else the first refusal.
pub fn check(bytes: &[u8]) -> Result<Extent, Refusal>
    ensures { Answered bytes.now result (checked bytes.now) }
{
    check_whole(bytes).map_err(|refused| refused.within(bytes))
}
