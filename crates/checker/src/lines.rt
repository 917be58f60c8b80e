// Expressions and the lines of a kind, checked by all rules.
ghost use Rattle.std.specs.Prelude.{◌≡◌, ℕ, cond, List};
ghost use Rattle.grammar.specs.Parse.{got, read_word};
ghost use Rattle.grammar.specs.Syntax.{newline, Term};
ghost use Rattle.grammar.specs.Check.{Block, Head, refused, check_literal, in_line, check_operand, check_plain, check_two, check_term, check_expr, check_last, check_rest, check_send, check_value, check_assign, check_deeper, check_by, check_head, excess, check_lines};
ghost use Rattle.words.specs.Reads.{map_got};
ghost use Rattle.words.specs.Words.{unpack, word_of, spelling};
ghost use Rattle.checker.specs.Refusals.{map_checked, left_out, ended, read, refused_by, names_in};
ghost use Rattle.checker.specs.Lines.{sort_of, sort_by, shape, shape_of};

use super::Rule;
use crate::limits::{LINE, Refused, TOO_LARGE, check_below, cut_off, within_line};
use words::{Closing, Word, begins_with_letter, read_literal, read_sign, read_word};

// A word that stands for a number: it, me, now, or a name that is known.
fn check_operand<'a>(text: &'a [u8], names: &[u64]) -> Result<&'a [u8], Refused<'a>>
    ensures { left_out (check_operand (names_in names.now) text.now) ≡ ended result }
{
    let (word, rest) = read_word(text)?;
    match word {
        Word::It | Word::Me | Word::Now => Ok(rest),
        Word::Name(name) => {
            if names.contains(&name) {
                Ok(rest)
            } else {
                Err(Rule::Name.at(text))
            }
        }
        _ => Err(Rule::Form.at(rest)),
    }
}

// A number, or a word that stands for one.
fn check_plain<'a>(text: &'a [u8], names: &[u64]) -> Result<&'a [u8], Refused<'a>>
    ensures { left_out (check_plain (names_in names.now) text.now) ≡ ended result }
{
    if begins_with_letter(text) {
        check_operand(text, names)
    } else {
        check_below(text, TOO_LARGE)
    }
}

// Two expressions with a sign between, behind the parenthesis that opens; each at most so deep.
#[cycle(terms)]
fn check_two<'a>(text: &'a [u8], names: &[u64], depth: usize) -> Result<&'a [u8], Refused<'a>>
    ensures { left_out (check_two (check_term (names_in names.now) depth) text.now) ≡ ended result }
{
    let rest = check_term(text, names, depth)?;
    let rest = read_literal(rest, b" ")?;
    let (_, rest) = read_sign(rest)?;
    let rest = read_literal(rest, b" ")?;
    let rest = check_term(rest, names, depth)?;
    Ok(read_literal(rest, b")")?)
}

// An expression, at most so deep.
#[cycle(terms)]
fn check_term<'a>(text: &'a [u8], names: &[u64], depth: usize) -> Result<&'a [u8], Refused<'a>>
    ensures { left_out (check_term (names_in names.now) depth text.now) ≡ ended result }
{
    if depth == 0 {
        return Err(Rule::Limit.at(text));
    }
    match read_literal(text, b"(") {
        Ok(rest) => check_two(rest, names, depth - 1),
        Err(_) => check_plain(text, names),
    }
}

// An expression.
fn check_expr<'a>(text: &'a [u8], names: &[u64]) -> Result<&'a [u8], Refused<'a>>
    ensures { left_out (check_expr (names_in names.now) text.now) ≡ ended result }
{
    check_term(text, names, LINE)
}

// An expression that ends the line.
fn check_last<'a>(text: &'a [u8], names: &[u64]) -> Result<&'a [u8], Refused<'a>>
    ensures { left_out (check_last (names_in names.now) text.now) ≡ ended result }
{
    let rest = check_expr(text, names)?;
    Ok(read_literal(rest, b"\n")?)
}

// A space and an expression that ends the line.
fn check_rest<'a>(text: &'a [u8], names: &[u64]) -> Result<&'a [u8], Refused<'a>>
    ensures { (f : Term → Head) → left_out (check_rest (names_in names.now) f text.now) ≡ ended result }
{
    let rest = read_literal(text, b" ")?;
    check_last(rest, names)
}

// What stands behind send: what, to whom, after how long.
fn check_send<'a>(text: &'a [u8], names: &[u64]) -> Result<&'a [u8], Refused<'a>>
    ensures { left_out (check_send (names_in names.now) text.now) ≡ ended result }
{
    let rest = read_literal(text, b" ")?;
    let rest = check_expr(rest, names)?;
    let rest = read_literal(rest, b" to ")?;
    let rest = check_expr(rest, names)?;
    let rest = read_literal(rest, b" after ")?;
    check_last(rest, names)
}

// What is assigned: a draw, or an expression that ends the line.
fn check_value<'a>(text: &'a [u8], names: &[u64]) -> Result<&'a [u8], Refused<'a>>
    ensures { (w : List ℕ) → left_out (check_value (names_in names.now) w text.now) ≡ ended result }
{
    if !begins_with_letter(text) {
        return check_last(text, names);
    }
    let (word, rest) = read_word(text)?;
    match word {
        Word::Draw => check_rest(rest, names),
        _ => check_last(text, names),
    }
}

// The line in front, whose name has to be known; the rest stands behind the name.
fn check_assign<'a>(
    text: &'a [u8],
    name: u64,
    rest: &'a [u8],
    names: &[u64],
) -> Result<&'a [u8], Refused<'a>>
    ensures { left_out (check_assign (names_in names.now) text.now (unpack name) rest.now) ≡ ended result }
{
    if !names.contains(&name) {
        return Err(Rule::Name.at(text));
    }
    let rest = read_literal(rest, b" = ")?;
    check_value(rest, names)
}

// The first line of a branch or a repeat, in front; the rest stands behind its word. It is too deep if no more may stand in each other.
fn check_deeper<'a>(
    text: &'a [u8],
    rest: &'a [u8],
    names: &[u64],
    deep: usize,
) -> Result<&'a [u8], Refused<'a>>
    ensures { (f : Term → Head) → left_out (check_deeper (names_in names.now) deep text.now f rest.now) ≡ ended result }
{
    let rest = read_literal(rest, b" ")?;
    if deep == 0 {
        return Err(Rule::Limit.at(text));
    }
    check_last(rest, names)
}

// What sort of line it is: what closes lines, a line with no lines in it, or the first line of a repeat or a branch.
#[derive(Clone, Copy)]
enum Sort {
    End,
    Else,
    Simple,
    Again,
    If,
}

// The sort of a line that begins with a word.
impl From<Word> for Sort {
    ghost from_gives = { λ word sort. sort ≡ sort_by word };

    fn from(word: Word) -> Sort {
        match word {
            Word::End => Sort::End,
            Word::Else => Sort::Else,
            Word::Again => Sort::Again,
            Word::If => Sort::If,
            _ => Sort::Simple,
        }
    }
}

// Where lines stand: the names of the kind's numbers, how many branches and repeats may still stand in each other, and whether else may close them.
#[derive(Clone, Copy)]
pub struct Scope<'a> {
    pub names: &'a [u64],
    pub deep: usize,
    pub or_else: bool,
}

// The end of the line behind a word that closes lines, if it may stand there.
fn check_close(text: &[u8], may_close: bool) -> Result<&[u8], Refused<'_>>
    ensures { cond may_close (check_literal newline text.now) (refused 1 text.now) ≡ ended result }
{
    if may_close {
        Ok(read_literal(text, b"\n")?)
    } else {
        Err(Rule::Form.at(text))
    }
}

// The line in front by its first word; the rest stands behind it.
fn check_by<'a>(
    text: &'a [u8],
    word: Word,
    rest: &'a [u8],
    scope: Scope,
) -> Result<&'a [u8], Refused<'a>>
    requires { map_got word_of (read_word text.now) ≡ got word rest.now }
    ensures { left_out (check_by (names_in scope.entry.names.now) scope.entry.deep scope.entry.or_else text.now (spelling word) rest.now) ≡ ended result }
{
    match word {
        Word::End => check_close(rest, true),
        Word::Else => check_close(rest, scope.or_else),
        Word::Say => check_rest(rest, scope.names),
        Word::Send => check_send(rest, scope.names),
        Word::If | Word::Again => check_deeper(text, rest, scope.names, scope.deep),
        Word::Name(name) => check_assign(text, name, rest, scope.names),
        _ => Err(Rule::Form.at(rest)),
    }
}

// One line of a kind.
fn check_head<'a>(text: &'a [u8], scope: Scope) -> Result<(Sort, &'a [u8]), Refused<'a>>
    ensures { map_checked sort_of (check_head (names_in scope.entry.names.now) scope.entry.deep scope.entry.or_else text.now) ≡ read result }
{
    let (word, rest) = read_word(text)?;
    let rest = check_by(text, word, rest, scope)?;
    Ok((Sort::from(word), rest))
}

// The refusal where no line may come any more: one line too many, unless its first byte is refused by a rule that comes before.
fn none_left<'a>(text: &'a [u8], scope: Scope) -> Refused<'a>
    ensures { excess {B = Block} text.now (check_head (names_in scope.entry.names.now) scope.entry.deep scope.entry.or_else text.now) ≡ refused_by result }
{
    cut_off(text, 0, check_head(text, scope))
}

// Lines up to the end that closes them, or the else, if that may be, of which so many may come: how they close, and how many may still come. The
// recursion goes no deeper than most, which is more than may come.
pub fn check_lines<'a>(
    text: &'a [u8],
    scope: Scope,
    most: usize,
    left: usize,
) -> Result<((Closing, usize), &'a [u8]), Refused<'a>>
    ensures { map_checked shape (check_lines (names_in scope.entry.names.now) most left scope.entry.deep scope.entry.or_else text.now) ≡ map_checked shape_of (read result) }
{
    if most == 0 {
        return Err(Rule::Limit.at(text));
    }
    if left == 0 {
        return Err(none_left(text, scope));
    }
    let (sort, rest) = within_line(text, check_head(text, scope))?;
    let next = most - 1;
    let left = left - 1;
    let body = Scope {
        names: scope.names,
        deep: scope.deep.saturating_sub(1),
        or_else: false,
    };
    match sort {
        Sort::End => Ok(((Closing::End, left), rest)),
        Sort::Else => Ok(((Closing::Else, left), rest)),
        Sort::Simple => check_lines(rest, scope, next, left),
        Sort::Again => {
            let ((_, left), rest) = check_lines(rest, body, next, left)?;
            check_lines(rest, scope, next, left)
        }
        Sort::If => {
            let branch = Scope {
                names: scope.names,
                deep: body.deep,
                or_else: true,
            };
            let ((by, left), rest) = check_lines(rest, branch, next, left)?;
            match by {
                Closing::End => check_lines(rest, scope, next, left),
                Closing::Else => {
                    let ((_, left), rest) = check_lines(rest, body, next, left)?;
                    check_lines(rest, scope, next, left)
                }
            }
        }
    }
}
