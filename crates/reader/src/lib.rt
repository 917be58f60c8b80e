// Whether bytes have the form of a text: each function answers the bytes behind what it reads; or, as the error, those from the first on at which
// no text goes on so. The recursion goes as deep as lines and parentheses do, and nothing guards its stack; `checker` is what programs read files with.
#![tactic(auto)]

ghost use Rattle.std.specs.Prelude.{◌≡◌, MatchResult};
ghost use Rattle.grammar.specs.Parse.{read_plain, read_term, read_expr, read_last, read_lines, read_upto, read_row, read_kind, read_thing, read_note, read_notes, read_things, read_kinds, read_name, read_number, read_word, checked};
ghost use Rattle.grammar.specs.Syntax.{Text, IsText, is_operand};
ghost use Rattle.words.specs.Reads.{behind};
ghost use Rattle.words.specs.Words.{stands_for_number};
ghost use Rattle.reader.specs.Form.{StopsAt};
ghost use Rattle.reader.specs.Rests.{forget, read_head, read_sent, read_put, read_simple, shape, closed, whole};

use words::{
    Closing, Word, begins_with_letter, read_literal, read_name, read_number, read_sign, read_word,
};

// The most names behind a kind's.
const NAMES: usize = 64;

// Whether a word may stand where a number is wanted.
fn stands_for_number(word: Word) -> bool
    ensures { result ≡ stands_for_number word }
{
    matches!(word, Word::Name(_) | Word::It | Word::Me | Word::Now)
}

// A name, it, me or now.
#[tactic(auto, using(crate::proofs::Ends::operand_ends))]
fn read_operand<'a>(text: &'a [u8]) -> Result<&'a [u8], &'a [u8]>
    ensures { forget (checked is_operand (read_word text.now)) ≡ behind result }
{
    let (word, rest) = read_word(text)?;
    if stands_for_number(word) {
        Ok(rest)
    } else {
        Err(rest)
    }
}

// A number or a word that stands for one.
#[tactic(auto, using(crate::proofs::Ends::plain_ends))]
fn read_plain<'a>(text: &'a [u8]) -> Result<&'a [u8], &'a [u8]>
    ensures { forget (read_plain text.now) ≡ behind result }
{
    if begins_with_letter(text) {
        return read_operand(text);
    }
    let (_, rest) = read_number(text)?;
    Ok(rest)
}

// An expression, at most so deep.
#[tactic(auto, using(crate::proofs::Ends::term_none, crate::proofs::Ends::term_more))]
fn read_term<'a>(text: &'a [u8], depth: usize) -> Result<&'a [u8], &'a [u8]>
    ensures { forget (read_term depth text.now) ≡ behind result }
{
    if depth == 0 {
        return Err(text);
    }
    let Ok(inner) = read_literal(text, b"(") else {
        return read_plain(text);
    };
    let first = read_term(inner, depth - 1)?;
    let (_, second) = read_sign(read_literal(first, b" ")?)?;
    let rest = read_term(read_literal(second, b" ")?, depth - 1)?;
    read_literal(rest, b")")
}

// An expression, however deep.
#[tactic(auto, using(crate::proofs::Ends::expr_ends))]
fn read_expr<'a>(text: &'a [u8]) -> Result<&'a [u8], &'a [u8]>
    ensures { forget (read_expr text.now) ≡ behind result }
{
    read_term(text, text.len() + 1)
}

// An expression that ends the line.
#[tactic(auto, using(crate::proofs::Ends::last_ends))]
fn read_last<'a>(text: &'a [u8]) -> Result<&'a [u8], &'a [u8]>
    ensures { forget (read_last text.now) ≡ behind result }
{
    read_literal(read_expr(text)?, b"\n")
}

// A space and an expression that ends the line.
#[tactic(auto, using(crate::proofs::Ends::head_ends))]
fn read_head<'a>(text: &'a [u8]) -> Result<&'a [u8], &'a [u8]>
    ensures { forget (read_head text.now) ≡ behind result }
{
    read_last(read_literal(text, b" ")?)
}

// What stands behind send: what, to whom, after how long.
#[tactic(auto, using(crate::proofs::Ends::sent_ends))]
fn read_sent<'a>(text: &'a [u8]) -> Result<&'a [u8], &'a [u8]>
    ensures { forget (read_sent text.now) ≡ behind result }
{
    let what = read_expr(read_literal(text, b" ")?)?;
    let whom = read_expr(read_literal(what, b" to ")?)?;
    read_last(read_literal(whom, b" after ")?)
}

// Behind the name that is assigned: a draw, or an expression that ends the line.
fn read_put<'a>(text: &'a [u8]) -> Result<&'a [u8], &'a [u8]>
    ensures { read_put text.now ≡ behind result }
{
    let value = read_literal(text, b" = ")?;
    if !begins_with_letter(value) {
        return read_last(value);
    }
    let (word, rest) = read_word(value)?;
    match word {
        Word::Draw => read_head(rest),
        _ if stands_for_number(word) => read_literal(rest, b"\n"),
        _ => Err(rest),
    }
}

// A line with no lines in it, behind its first word.
fn read_simple<'a>(text: &'a [u8], word: Word) -> Result<&'a [u8], &'a [u8]>
    ensures { read_simple word text.now ≡ behind result }
{
    match word {
        Word::Say => read_head(text),
        Word::Send => read_sent(text),
        Word::Name(_) => read_put(text),
        _ => Err(text),
    }
}

// Lines up to the end that closes them, or the else, if that may be; at most so many.
#[tactic(auto, using(crate::proofs::Lines::lines_none, crate::proofs::Lines::lines_by, crate::proofs::Lines::by_other))]
fn read_lines<'a>(
    text: &'a [u8],
    most: usize,
    or_else: bool,
) -> Result<(Closing, &'a [u8]), &'a [u8]>
    ensures { shape (read_lines most or_else text.now) ≡ closed result }
{
    if most == 0 {
        return Err(text);
    }
    let (word, rest) = read_word(text)?;
    match word {
        Word::End => Ok((Closing::End, read_literal(rest, b"\n")?)),
        Word::Else if or_else => Ok((Closing::Else, read_literal(rest, b"\n")?)),
        Word::Again => {
            let (_, next) = read_lines(read_head(rest)?, most - 1, false)?;
            read_lines(next, most - 1, or_else)
        }
        Word::If => {
            let (closing, next) = read_lines(read_head(rest)?, most - 1, true)?;
            match closing {
                Closing::End => read_lines(next, most - 1, or_else),
                Closing::Else => {
                    let (_, last) = read_lines(next, most - 1, false)?;
                    read_lines(last, most - 1, or_else)
                }
            }
        }
        _ => read_lines(read_simple(rest, word)?, most - 1, or_else),
    }
}

// Names, each after a space, up to the end of the line; at most so many.
#[tactic(auto, using(crate::proofs::Items::names_none, crate::proofs::Items::names_more))]
fn read_names<'a>(text: &'a [u8], most: usize) -> Result<&'a [u8], &'a [u8]>
    ensures { forget (read_upto read_name most text.now) ≡ behind result }
{
    let mut rest = text;
    for _ in 0..most {
        if let Ok(next) = read_literal(rest, b"\n") {
            return Ok(next);
        }
        (_, rest) = read_name(read_literal(rest, b" ")?)?;
    }
    read_literal(rest, b"\n")
}

// Numbers, each after a space, up to the end of the line; at most so many. One function for both rows would take a type for each kind of item, with
// a trait that says how it is read, and be longer than the two, which also differ behind the last item.
#[tactic(auto, using(crate::proofs::Items::numbers_none, crate::proofs::Items::numbers_more))]
fn read_numbers<'a>(text: &'a [u8], most: usize) -> Result<&'a [u8], &'a [u8]>
    ensures { forget (read_row read_number most text.now) ≡ behind result }
{
    let mut rest = text;
    for _ in 0..most {
        if let Ok(next) = read_literal(rest, b"\n") {
            return Ok(next);
        }
        (_, rest) = read_number(read_literal(rest, b" ")?)?;
    }
    Err(rest)
}

// A kind, behind its first word.
#[tactic(auto, using(crate::proofs::Items::kind_ends))]
fn read_kind<'a>(text: &'a [u8]) -> Result<&'a [u8], &'a [u8]>
    ensures { forget (read_kind text.now) ≡ behind result }
{
    let (_, names) = read_name(text)?;
    let lines = read_names(names, NAMES)?;
    let (_, rest) = read_lines(lines, lines.len() + 1, false)?;
    Ok(rest)
}

// A thing, behind its first word.
#[tactic(auto, using(crate::proofs::Items::thing_ends))]
fn read_thing<'a>(text: &'a [u8]) -> Result<&'a [u8], &'a [u8]>
    ensures { forget (read_thing text.now) ≡ behind result }
{
    let (_, numbers) = read_name(text)?;
    read_numbers(numbers, numbers.len() + 1)
}

// A message, behind its first word.
fn read_note<'a>(text: &'a [u8]) -> Result<&'a [u8], &'a [u8]>
    ensures { forget (read_note text.now) ≡ behind result }
{
    let (_, to) = read_number(text)?;
    let (_, number) = read_number(read_literal(to, b" ")?)?;
    let (_, rest) = read_number(read_literal(number, b" ")?)?;
    read_literal(rest, b"\n")
}

// Messages up to the end of the bytes.
#[tactic(auto, using(crate::proofs::Items::notes_none, crate::proofs::Items::notes_more))]
fn read_notes<'a>(text: &'a [u8], most: usize) -> Result<(), &'a [u8]>
    ensures { forget (read_notes most text.now) ≡ whole result }
{
    let mut rest = text;
    for _ in 0..most {
        if rest.is_empty() {
            return Ok(());
        }
        rest = read_note(read_literal(rest, b"message ")?)?;
    }
    Err(rest)
}

// Things, and the messages behind them.
#[tactic(auto, using(crate::proofs::Items::things_none, crate::proofs::Items::things_more, std::proofs::lemmas::Bool::ne_eqb))]
fn read_things<'a>(text: &'a [u8], most: usize) -> Result<(), &'a [u8]>
    ensures { forget (read_things most text.now) ≡ whole result }
{
    let mut rest = text;
    for i in 0..most {
        if rest.is_empty() {
            return Ok(());
        }
        if rest[0] != b't' {
            return read_notes(rest, most - i);
        }
        rest = read_thing(read_literal(rest, b"thing ")?)?;
    }
    Err(rest)
}

// Kinds, and the things and messages behind them. One function for things and kinds would take what it reads and what it goes on with, each
// with the grammar's words for it, and be longer than the two.
#[tactic(auto, using(crate::proofs::Items::kinds_none, crate::proofs::Items::kinds_more, std::proofs::lemmas::Bool::ne_eqb))]
fn read_kinds<'a>(text: &'a [u8], most: usize) -> Result<(), &'a [u8]>
    ensures { forget (read_kinds most text.now) ≡ whole result }
{
    let mut rest = text;
    for i in 0..most {
        if rest.is_empty() {
            return Ok(());
        }
        if rest[0] != b'k' {
            return read_things(rest, most - i);
        }
        rest = read_kind(read_literal(rest, b"kind ")?)?;
    }
    Err(rest)
}

// Whether the bytes have the form of a text; else the first byte at which no text goes on so.
pub fn form(bytes: &[u8]) -> Result<(), usize>
    ensures { MatchResult result (λ _. (t : Text) × IsText bytes.now t) (λ p. StopsAt bytes.now p) }
{
    // No `map_err`: its closure would have to ask that the rest is no longer than the bytes, which only the answer says.
    match read_kinds(bytes, bytes.len() + 1) {
        Ok(()) => Ok(()),
        Err(rest) => Err(bytes.len() - rest.len()),
    }
}
