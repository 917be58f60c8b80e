// The cases of a table: three lines each, a word with a label, the bytes with escapes, and a last line.
ghost use Rattle.std.specs.Prelude.{◌<◌, ◌≤◌, length};

use std::alloc::{AllocError, Global};

#[derive(Clone, Copy)]
pub struct Case<'a> {
    pub label: &'a [u8],
    pub bytes: &'a [u8],
    pub expected: &'a [u8],
}

// Does something with each case whose first line begins with the word, one at a time: a row of all would take more memory than the table.
// Behind the end of the last line there is no other.
pub fn each_case<'a, F: FnMut(Case<'a>) -> anyhow::Result<()>>(
    table: &'a [u8],
    word: &[u8],
    mut each: F,
) -> anyhow::Result<()>
    requires { F.IsAlwaysCallable each }
{
    let table = table.strip_suffix(b"\n").unwrap_or(table);
    let mut lines = table.split(|b| *b == b'\n');
    while let Some(first) = lines.next() {
        let Some(label) = first.strip_prefix(word) else {
            continue;
        };
        let (Some(bytes), Some(expected)) = (lines.next(), lines.next()) else {
            break;
        };
        each(Case {
            label,
            bytes,
            expected,
        })?;
    }
    Ok(())
}

fn hex(b: u8) -> u8 {
    match b {
        b'0'..=b'9' => b - b'0',
        b'a'..=b'f' => b - b'a' + 10,
        _ => 0,
    }
}

// The byte that stands at the front, as \n, \xNN, \\ or itself, and what lies behind it.
fn unescape(line: &[u8]) -> (u8, &[u8])
    requires { 0 < length line.now }
    ensures { length result.1.now < length line.now }
{
    match line {
        [b'\\', b'n', rest @ ..] => (b'\n', rest),
        [b'\\', b'x', high, low, rest @ ..] => {
            (hex(*high).wrapping_mul(16).wrapping_add(hex(*low)), rest)
        }
        [b'\\', b'\\', rest @ ..] => (b'\\', rest),
        [b, rest @ ..] => (*b, rest),
        [] => (0, line),
    }
}

// The bytes that a part of a line stands for, with no repeats in it.
fn unescape_all(heap: Global, line: &[u8]) -> Result<Vec<u8>, AllocError> {
    let mut out = Vec::new(heap);
    let mut rest = line;
    // How many bytes a step takes depends on the bytes.
    while !rest.is_empty() {
        let (b, behind) = unescape(rest);
        out.push(b)?;
        rest = behind;
    }
    Ok(out)
}

// What stands before the first such byte, and what lies behind it, if it is there.
fn split_at_first(line: &[u8], wanted: u8) -> (&[u8], Option<&[u8]>) {
    match line.iter().position(|b| *b == wanted) {
        Some(at) => (&line[..at], Some(&line[at + 1..])),
        None => (line, None),
    }
}

// COUNT:STRING, the bytes of STRING as often as COUNT says.
fn repeat(heap: Global, out: &mut Vec<u8>, inside: &[u8]) -> Result<(), AllocError> {
    let (count, string) = split_at_first(inside, b':');
    let (Some(count), Some(string)) = (words::number_of(count), string) else {
        return Ok(());
    };
    let bytes = unescape_all(heap, string)?;
    for _turn in 0..count {
        out.extend_from_slice(bytes.as_slice())?;
    }
    Ok(())
}

// The bytes that a line stands for: what stands between a brace that opens and the next that closes is a repeat.
pub fn expand(heap: Global, line: &[u8]) -> Result<Vec<u8>, AllocError> {
    let mut out = Vec::new(heap);
    let mut rest = line;
    // Each turn takes a byte at least, but for a last one with nothing left.
    for _turn in 0..line.len() {
        let (plain, opened) = split_at_first(rest, b'{');
        let bytes = unescape_all(heap, plain)?;
        out.extend_from_slice(bytes.as_slice())?;
        let Some(behind) = opened else {
            break;
        };
        let (inside, closed) = split_at_first(behind, b'}');
        repeat(heap, &mut out, inside)?;
        rest = closed.unwrap_or(&[]);
    }
    Ok(out)
}
