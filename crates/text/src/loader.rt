// Lent slices filled from a text that was checked. Other bytes fill them with anything. What reads is given the text from where it stands,
// and gives the text behind.
ghost use Rattle.std.specs.Prelude.{◌≡◌, ℕ, ◌+◌, ◌≤◌, ◌==◌, true, List, [], ◌∷◌, length, take, drop, slice_set};
ghost use Rattle.grammar.specs.Rules.{Keeps};
ghost use Rattle.grammar.specs.Syntax.{Text, IsText};
ghost use Rattle.body.specs.Code.{expr_word};
ghost use Rattle.text.specs.Loaded.{Loaded, SameLent, slices_in, roomy_for};
ghost use Rattle.text.specs.Slices.{filled, roomy};
ghost use Rattle.text.specs.Writes.{row_of, writes};
ghost use Rattle.text.specs.Slots.{row_in};
ghost use Rattle.text.specs.Parts.{place_of, WordAt, NameAt, NumberAt, TermAt, OperandAt, sign_word, PlainAt, ExprAt, HeadAt, SayAt, SendAt, DrawAt, PutAt, SimpleAt, LinesAt, BranchAt, RepeatAt, between};
ghost use Rattle.text.specs.Tables.{NoteAt, NotesAt, RowAt, firsts, ThingsAt, KindAt, KindsAt};

use super::entries::{Entry, nth, position_of};
use body::{Act, Binary, ExprOp, LineOp, Process, skip};
use checker::{Extent, Refusal, Rule, check};
use meaning::Message;
use words::Word;

// The lent slices that a model is read into: words, where each kind's words begin, names, processes with their variables, and messages.
#[derive(Drop)]
pub struct Lent<'a> {
    pub code: &'a mut [u32],
    pub kinds: &'a mut [u32],
    pub names: &'a mut [u64],
    pub processes: &'a mut [Process],
    pub vars: &'a mut [u32],
    pub messages: &'a mut [Message],
}

// Lent places, the first so many of them in use.
#[derive(Drop)]
struct Slots<'a, T> {
    items: &'a mut [T],
    used: usize,
}

impl<T: Copy> Slots<'_, T> {
    // One more, if there is a place.
    fn push(&mut self, item: T)
        ensures same { self.new.items.ghost_name ≡ self.old.items.ghost_name }
        ensures is { row_in self.new ≡ writes (item ∷ []) (row_in self.old) }
    {
        if self.used < self.items.len() {
            self.items[self.used] = item;
            self.used += 1;
        }
    }

    // Another item in a place, if there is that place.
    fn set(&mut self, place: usize, item: T)
        ensures same { self.new.items.ghost_name ≡ self.old.items.ghost_name }
        ensures is { row_in self.new ≡ row_of self.old.used (slice_set self.old.items.now place item) }
    {
        if place < self.items.len() {
            self.items[place] = item;
        }
    }
}

fn word_at(text: &[u8]) -> (Word, &[u8])
    ensures { WordAt text.now result.0 result.1.now }
{
    words::read_word(text).unwrap_or_else(|rest| (Word::Name(0), rest))
}

pub fn name_at(text: &[u8]) -> (u64, &[u8])
    ensures { NameAt text.now result.0 result.1.now }
{
    words::read_name(text).unwrap_or_else(|rest| (0, rest))
}

pub fn number_at(text: &[u8]) -> (u32, &[u8])
    ensures { NumberAt text.now result.0 result.1.now }
{
    match words::read_number(text) {
        Ok((digits, rest)) => (words::number_of(digits).unwrap_or(0), rest),
        Err(rest) => (0, rest),
    }
}

// The place of a name in a row, or the length of the row.
fn place_of(names: &[u64], name: u64) -> usize
    ensures is { result ≡ place_of name names.now }
    ensures inside { result ≤ length names.now }
{
    position_of(names, name).unwrap_or(names.len())
}

// The operation of a sign. No From<u8> for ExprOp: a crate implements std's traits for its own types only.
fn operation(sign: u8) -> ExprOp
    ensures { expr_word result ≡ sign_word sign }
{
    match sign {
        b'+' => ExprOp::Two(Binary::Plus),
        b'-' => ExprOp::Two(Binary::Minus),
        b'*' => ExprOp::Two(Binary::Times),
        b'/' => ExprOp::Two(Binary::Over),
        b'%' => ExprOp::Two(Binary::Remains),
        b'<' => ExprOp::Two(Binary::Less),
        b'=' => ExprOp::Two(Binary::Same),
        _ => ExprOp::Fixed,
    }
}

// The words of a word that stands for a number.
fn fill_operand(word: Word, names: &[u64], code: &mut Slots<'_, u32>)
    requires { length names.now ≤ 64 }
    ensures same { code.new.items.ghost_name ≡ code.old.items.ghost_name }
    ensures is { OperandAt names.now word (row_in code.old) (row_in code.new) }
{
    match word {
        Word::It => code.push(u32::from(ExprOp::It)),
        Word::Me => code.push(u32::from(ExprOp::Me)),
        Word::Now => code.push(u32::from(ExprOp::Clock)),
        Word::Name(name) => {
            code.push(u32::from(ExprOp::Var));
            code.push(place_of(names, name) as u32);
        }
        _ => {}
    }
}

// The words of a number or a word, which doesn't begin with a parenthesis.
fn fill_plain<'a>(text: &'a [u8], names: &[u64], code: &mut Slots<'_, u32>) -> &'a [u8]
    requires { length names.now ≤ 64 }
    ensures same { code.new.items.ghost_name ≡ code.old.items.ghost_name }
    ensures is { PlainAt text.now names.now (row_in code.old) result.now (row_in code.new) }
{
    if nth(text, 0, 0).is_ascii_digit() {
        let (number, rest) = number_at(text);
        code.push(u32::from(ExprOp::Fixed));
        code.push(number);
        return rest;
    }
    let (word, rest) = word_at(text);
    fill_operand(word, names, code);
    rest
}

// The words of an expression, at most so deep. The first is put when the sign is read.
fn fill_term<'a>(text: &'a [u8], names: &[u64], code: &mut Slots<'_, u32>, depth: usize) -> &'a [u8]
    requires { length names.now ≤ 64 }
    ensures same { code.new.items.ghost_name ≡ code.old.items.ghost_name }
    ensures is { TermAt text.now names.now depth (row_in code.old) result.now (row_in code.new) }
{
    if depth == 0 {
        return text;
    }
    if nth(text, 0, 0) != b'(' {
        return fill_plain(text, names, code);
    }
    let opened = code.used;
    code.push(0);
    let first = fill_term(skip(text, 1), names, code, depth - 1);
    let sign = skip(first, 1);
    code.set(opened, u32::from(operation(nth(sign, 0, 0))));
    let second = fill_term(skip(sign, 2), names, code, depth - 1);
    skip(second, 1)
}

// The words of an expression, however deep.
fn fill_expr<'a>(text: &'a [u8], names: &[u64], code: &mut Slots<'_, u32>) -> &'a [u8]
    requires { length names.now ≤ 64 }
    ensures same { code.new.items.ghost_name ≡ code.old.items.ghost_name }
    ensures is { ExprAt text.now names.now (row_in code.old) result.now (row_in code.new) }
{
    fill_term(text, names, code, text.len())
}

// The words of an expression after a space, and reading goes on at the next line.
fn fill_head<'a>(text: &'a [u8], names: &[u64], code: &mut Slots<'_, u32>) -> &'a [u8]
    requires { length names.now ≤ 64 }
    ensures same { code.new.items.ghost_name ≡ code.old.items.ghost_name }
    ensures is { HeadAt text.now names.now (row_in code.old) result.now (row_in code.new) }
{
    let value = fill_expr(skip(text, 1), names, code);
    skip(value, 1)
}

fn fill_say<'a>(text: &'a [u8], names: &[u64], code: &mut Slots<'_, u32>) -> &'a [u8]
    requires { length names.now ≤ 64 }
    ensures same { code.new.items.ghost_name ≡ code.old.items.ghost_name }
    ensures is { SayAt text.now names.now (row_in code.old) result.now (row_in code.new) }
{
    code.push(u32::from(LineOp::Do(Act::Say)));
    fill_head(text, names, code)
}

// The text behind an expression.
fn skip_expr<'a>(text: &'a [u8], names: &[u64]) -> &'a [u8]
    requires { length names.now ≤ 64 }
    ensures { ExprAt text.now names.now (row_of 0 []) result.now (row_of 0 []) }
{
    let mut nothing = Slots {
        items: &mut [],
        used: 0,
    };
    fill_expr(text, names, &mut nothing)
}

// What is sent, to whom and after how long: the words of the last come first.
fn fill_send<'a>(text: &'a [u8], names: &[u64], code: &mut Slots<'_, u32>) -> &'a [u8]
    requires { length names.now ≤ 64 }
    ensures same { code.new.items.ghost_name ≡ code.old.items.ghost_name }
    ensures is { SendAt text.now names.now (row_in code.old) result.now (row_in code.new) }
{
    let what = skip(text, 1);
    let to = skip(skip_expr(what, names), 4);
    let after = skip(skip_expr(to, names), 7);
    code.push(u32::from(LineOp::Do(Act::Send)));
    let behind = fill_expr(after, names, code);
    fill_expr(to, names, code);
    fill_expr(what, names, code);
    skip(behind, 1)
}

// Whether draw stands in front.
fn is_draw(text: &[u8]) -> bool
    ensures { DrawAt text.now result }
{
    if !words::begins_with_letter(text) {
        return false;
    }
    let (word, _) = word_at(text);
    matches!(word, Word::Draw)
}

// A number that is assigned or drawn, behind its name.
fn fill_put<'a>(text: &'a [u8], name: u64, names: &[u64], code: &mut Slots<'_, u32>) -> &'a [u8]
    requires { length names.now ≤ 64 }
    ensures same { code.new.items.ghost_name ≡ code.old.items.ghost_name }
    ensures is { PutAt text.now name names.now (row_in code.old) result.now (row_in code.new) }
{
    let place = place_of(names, name) as u32;
    let value = skip(text, 3);
    if is_draw(value) {
        code.push(u32::from(LineOp::Do(Act::Draw)));
        code.push(place);
        return fill_head(skip(value, 4), names, code);
    }
    code.push(u32::from(LineOp::Do(Act::Assign)));
    code.push(place);
    fill_head(skip(text, 2), names, code)
}

// A line with no lines in it, behind its first word.
fn fill_simple<'a>(text: &'a [u8], word: Word, names: &[u64], code: &mut Slots<'_, u32>) -> &'a [u8]
    requires { length names.now ≤ 64 }
    ensures same { code.new.items.ghost_name ≡ code.old.items.ghost_name }
    ensures is { SimpleAt text.now word names.now (row_in code.old) result.now (row_in code.new) }
{
    match word {
        Word::Say => fill_say(text, names, code),
        Word::Send => fill_send(text, names, code),
        Word::Name(name) => fill_put(text, name, names, code),
        _ => text,
    }
}

// How many places lie between two.
fn between(from: usize, to: usize) -> u32
    ensures { result ≡ between from to }
{
    (to.saturating_sub(from) % 4294967296) as u32
}

// A branch, behind its first word. It says how many words the lines in it take, which is put when they are written; with no else there is one.
#[cycle(lines)]
fn fill_branch<'a>(
    text: &'a [u8],
    names: &[u64],
    code: &mut Slots<'_, u32>,
    most: usize,
) -> &'a [u8]
    requires { length names.now ≤ 64 }
    ensures same { code.new.items.ghost_name ≡ code.old.items.ghost_name }
    ensures is { BranchAt text.now names.now most (row_in code.old) result.now (row_in code.new) }
{
    code.push(u32::from(LineOp::Branch));
    let opened = code.used;
    code.push(0);
    let second = code.used;
    code.push(0);
    let head = fill_head(text, names, code);
    let start = code.used;
    let one = fill_lines(head, names, code, most);
    let end = code.used;
    code.set(opened, between(start, end));
    if nth(one, 1, 0) == b'l' {
        let two = fill_lines(skip(one, 5), names, code, most);
        code.set(second, between(end, code.used));
        return skip(two, 4);
    }
    code.push(u32::from(LineOp::Stop));
    code.set(second, 1);
    skip(one, 4)
}

// A repeat, behind its first word. It says how many words the lines in it take.
#[cycle(lines)]
fn fill_repeat<'a>(
    text: &'a [u8],
    names: &[u64],
    code: &mut Slots<'_, u32>,
    most: usize,
) -> &'a [u8]
    requires { length names.now ≤ 64 }
    ensures same { code.new.items.ghost_name ≡ code.old.items.ghost_name }
    ensures is { RepeatAt text.now names.now most (row_in code.old) result.now (row_in code.new) }
{
    code.push(u32::from(LineOp::Repeat));
    let opened = code.used;
    code.push(0);
    let head = fill_head(text, names, code);
    let start = code.used;
    let inner = fill_lines(head, names, code, most);
    code.set(opened, between(start, code.used));
    skip(inner, 4)
}

// The words of lines, at most so many; reading goes on at what closes them.
#[cycle(lines)]
fn fill_lines<'a>(text: &'a [u8], names: &[u64], code: &mut Slots<'_, u32>, most: usize) -> &'a [u8]
    requires { length names.now ≤ 64 }
    ensures same { code.new.items.ghost_name ≡ code.old.items.ghost_name }
    ensures is { LinesAt text.now names.now most (row_in code.old) result.now (row_in code.new) }
{
    if most == 0 {
        return text;
    }
    let (word, rest) = word_at(text);
    match word {
        Word::If => {
            let next = fill_branch(rest, names, code, most - 1);
            fill_lines(next, names, code, most - 1)
        }
        Word::Again => {
            let next = fill_repeat(rest, names, code, most - 1);
            fill_lines(next, names, code, most - 1)
        }
        Word::End | Word::Else => {
            code.push(u32::from(LineOp::Stop));
            text
        }
        _ => {
            let next = fill_simple(rest, word, names, code);
            fill_lines(next, names, code, most - 1)
        }
    }
}

// What a message says: its time, to whom, and the number; and the text behind.
fn note_at(text: &[u8]) -> (u32, u32, u32, &[u8])
    ensures { NoteAt text.now result.0 result.1 result.2 result.3.now }
{
    let (time, rest) = number_at(skip(text, 8));
    let (to, rest) = number_at(skip(rest, 1));
    let (number, rest) = number_at(skip(rest, 1));
    (time, to, number, skip(rest, 1))
}

// So many messages, which come from outside: from the number behind the last thing.
fn fill_notes(text: &[u8], things: usize, count: usize, messages: &mut [Message])
    ensures { NotesAt text.now things count messages.old messages.new }
{
    let from = (things % 4294967296) as u32;
    let mut notes = Slots {
        items: messages,
        used: 0,
    };
    let mut rest = text;
    for k in 0..count {
        let (time, to, number, behind) = note_at(rest);
        notes.push(Message {
            time: time as u64,
            to,
            from,
            count: k as u64,
            number,
        });
        rest = behind;
    }
}

// A row's entries, with another item in the places that are left; how many there are, and the text behind.
fn fill_row<'a, T: Entry>(
    text: &'a [u8],
    none: T,
    slots: &mut Slots<'_, T>,
    left: usize,
) -> (u32, &'a [u8])
    requires { left ≤ 64 }
    ensures same { slots.new.items.ghost_name ≡ slots.old.items.ghost_name }
    ensures is { RowAt T.good T.value none text.now left (row_in slots.old) result.1.now result.0 (row_in slots.new) }
    ensures narrow { result.0 ≤ left }
{
    if left == 0 {
        return (0, text);
    }
    if nth(text, 0, 0) != b' ' {
        slots.push(none);
        return fill_row(text, none, slots, left - 1);
    }
    let (entry, rest) = T::read(skip(text, 1));
    slots.push(entry);
    let (width, rest) = fill_row(rest, none, slots, left - 1);
    (width + 1, rest)
}

// The place of a kind among the first so many, each with its name in front of 64 others. A loop, since a kind whose row is missing counts too:
// chunks of 65 names would end before it.
fn kind_of(names: &[u64], count: usize, name: u64) -> usize
    ensures is { result ≡ place_of name (firsts count names.now) }
    ensures inside { result ≤ count }
{
    let mut rows = names;
    for j in 0..count {
        if nth(rows, 0, 0) == name {
            return j;
        }
        rows = skip(rows, 65);
    }
    count
}

// So many things, of so many kinds.
fn fill_things<'a>(
    text: &'a [u8],
    kinds: usize,
    names: &[u64],
    count: usize,
    processes: &mut [Process],
    vars: &mut [u32],
) -> &'a [u8]
    ensures { ThingsAt text.now kinds names.now count result.now processes.old vars.old processes.new vars.new }
{
    let mut things = Slots {
        items: processes,
        used: 0,
    };
    let mut rows = Slots {
        items: vars,
        used: 0,
    };
    let mut rest = text;
    for _i in 0..count {
        let (name, numbers) = name_at(skip(rest, 6));
        let (width, behind) = fill_row(numbers, 0, &mut rows, 64);
        things.push(Process {
            kind: (kind_of(names, kinds, name) % 4294967296) as u32,
            width,
            seed: 0,
            sent: 0,
        });
        rest = skip(behind, 1);
    }
    rest
}

// So many names from a place on, if there are so many.
fn part(names: &[u64], from: usize, n: usize) -> &[u64]
    ensures is { from + n ≤ length names.now → result.now ≡ take n (drop from names.now) }
    ensures few { length result.now ≤ n }
{
    let behind = skip(names, from);
    if n <= behind.len() { &behind[..n] } else { &[] }
}

// The names and the words of a kind.
fn fill_kind<'a>(text: &'a [u8], names: &mut Slots<'_, u64>, code: &mut Slots<'_, u32>) -> &'a [u8]
    ensures same { names.new.items.ghost_name ≡ names.old.items.ghost_name }
    ensures same_code { code.new.items.ghost_name ≡ code.old.items.ghost_name }
    ensures is { KindAt text.now (row_in names.old) (row_in code.old) result.now (row_in names.new) (row_in code.new) }
{
    let (name, numbers) = name_at(skip(text, 5));
    names.push(name);
    let start = names.used;
    let (width, rest) = fill_row(numbers, 0, names, 64);
    let items = &mut *names.items;
    let own = part(items, start, width as usize);
    let lines = skip(rest, 1);
    let end = fill_lines(lines, own, code, lines.len());
    skip(end, 4)
}

// So many kinds, into the three slices that kinds take; no struct of them, which nothing else would use.
fn fill_kinds<'a>(
    text: &'a [u8],
    count: usize,
    code: &mut [u32],
    kinds: &mut [u32],
    names: &mut [u64],
) -> &'a [u8]
    ensures { KindsAt text.now count result.now code.old kinds.old names.old code.new kinds.new names.new }
{
    let mut words = Slots {
        items: code,
        used: 0,
    };
    let mut starts = Slots {
        items: kinds,
        used: 0,
    };
    let mut rows = Slots {
        items: names,
        used: 0,
    };
    let mut rest = text;
    for _i in 0..count {
        starts.push((words.used % 4294967296) as u32);
        rest = fill_kind(rest, &mut rows, &mut words);
    }
    rest
}

// How many kinds, things and messages a text has.
#[derive(Clone, Copy)]
pub struct Amounts {
    pub kinds: usize,
    pub things: usize,
    pub notes: usize,
}

// Lent slices filled from a text that keeps all rules and has so many kinds, things and messages, if they are long enough.
pub fn fill(bytes: &[u8], amounts: Amounts, lent: &mut Lent<'_>)
    ensures same { SameLent lent.old lent.new }
    ensures is { (t : Text) → IsText bytes.now t → Keeps t → length t.kinds ≡ amounts.kinds → length t.things ≡ amounts.things → length t.notes ≡ amounts.notes →
        roomy t (slices_in lent.old) ≡ true → slices_in lent.new ≡ filled t (slices_in lent.old) }
{
    let things = fill_kinds(bytes, amounts.kinds, lent.code, lent.kinds, lent.names);
    let names = &mut *lent.names;
    let notes = fill_things(
        things,
        amounts.kinds,
        names,
        amounts.things,
        lent.processes,
        lent.vars,
    );
    fill_notes(notes, amounts.things, amounts.notes, lent.messages);
}

// Whether lent slices are long enough for a text of that extent.
fn is_roomy(extent: Extent, lent: &Lent<'_>) -> bool
    requires kinds { extent.kinds ≤ 4096 }
    requires things { extent.things ≤ 65536 }
    ensures { result ≡ roomy_for extent (slices_in lent.now) }
{
    extent.lines <= lent.code.len()
        && extent.kinds <= lent.kinds.len()
        && 65 * extent.kinds <= lent.names.len()
        && extent.things <= lent.processes.len()
        && 64 * extent.things <= lent.vars.len()
        && extent.notes <= lent.messages.len()
}

// A text is read into lent slices. A refusal has changed nothing that was lent.
pub fn load(bytes: &[u8], lent: &mut Lent<'_>) -> Result<Extent, Refusal>
    ensures same { SameLent lent.old lent.new }
    ensures is { Loaded bytes.now (slices_in lent.old) (slices_in lent.new) result }
{
    let extent = check(bytes)?;
    if !is_roomy(extent, lent) {
        return Err(Rule::Lent.refusal(4));
    }
    let amounts = Amounts {
        kinds: extent.kinds,
        things: extent.things,
        notes: extent.notes,
    };
    fill(bytes, amounts, lent);
    Ok(extent)
}
