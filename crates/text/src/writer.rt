// The text of what lent slices hold, written into lent bytes.
ghost use Rattle.std.specs.Prelude.{◌≡◌, ℕ, List, ◌∷◌, [], ◌==◌, map, position, take, slice_index};
ghost use Rattle.words.specs.Words.{unpack};
ghost use Rattle.text.specs.Named.{digits, digits_upto, kind_text, note_text};
ghost use Rattle.text.specs.Written.{Writes, Wrote, Opened, WritesText, Written, sign_of, else_head, lines_bytes, held_kind, kind_name, thing_of, kinds_bytes, things_bytes, notes_bytes, text_bytes};
ghost use Rattle.body.specs.Code.{expr_of, expr_by, body_of};
ghost use Rattle.body.specs.declared.ExprOp.TheVariants.{Two};
ghost use Rattle.body.specs.declared.Act.TheVariants.{Send};
ghost use Rattle.body.specs.declared.LineOp.TheVariants.{Do, Branch, Repeat};
ghost use Rattle.grammar.specs.Syntax.{sign_byte, show_row, show_kinds, show_things, show_notes};
ghost use Rattle.text.specs.Slices.{names_of, held_note};

use super::entries::{Entry, first, nth, position_of};
use body::{Act, Binary, ExprOp, LineOp, Process, skip};
use checker::{Refusal, Rule};
use meaning::Message;

// A model as lent slices hold it: words, where each kind's words begin, names, processes with their variables, and messages.
#[derive(Clone, Copy)]
pub struct Model<'a> {
    pub code: &'a [u32],
    pub kinds: &'a [u32],
    pub names: &'a [u64],
    pub processes: &'a [Process],
    pub vars: &'a [u32],
    pub messages: &'a [Message],
}

// Lent bytes, written up to an end that may not pass the limit. What has no place in them is only counted.
#[derive(Drop)]
pub struct Out<'a> {
    bytes: &'a mut [u8],
    end: usize,
    limit: usize,
}

// No From<Binary> for u8: a crate implements std's traits for its own types only.
fn sign(op: Binary) -> u8
    ensures { result ≡ sign_byte (sign_of op) }
{
    match op {
        Binary::Plus => b'+',
        Binary::Minus => b'-',
        Binary::Times => b'*',
        Binary::Over => b'/',
        Binary::Remains => b'%',
        Binary::Less => b'<',
        Binary::Same => b'=',
    }
}

// The code behind the expression at its front.
fn skip_term(code: &[u32], fuel: usize) -> &[u32]
    ensures { result.now ≡ (expr_of fuel code.now).rest }
{
    if fuel == 0 || code.is_empty() {
        return code;
    }
    let rest = skip(code, 1);
    match ExprOp::from(code[0]) {
        ExprOp::Fixed | ExprOp::Var => skip(rest, 1),
        ExprOp::Two(_) => skip_term(skip_term(rest, fuel - 1), fuel - 1),
        ExprOp::It | ExprOp::Me | ExprOp::Clock | ExprOp::Nothing => rest,
    }
}

// The names up to the first that is 0.
fn known(names: &[u64]) -> &[u64]
    ensures { map unpack result.now ≡ names_of names.now }
{
    match position_of(names, 0) {
        Some(k) => &names[..k],
        None => names,
    }
}

impl Out<'_> {
    // One byte, or None where it would pass the limit.
    fn put(&mut self, b: u8) -> Option<()>
        ensures { Writes (b ∷ []) self.old self.new result }
    {
        if self.end >= self.limit {
            return None;
        }
        if self.end < self.bytes.len() {
            self.bytes[self.end] = b;
        }
        self.end += 1;
        Some(())
    }

    // Just these bytes.
    fn write_all(&mut self, bytes: &[u8]) -> Option<()>
        ensures { Writes bytes.now self.old self.new result }
    {
        for b in bytes {
            self.put(*b)?;
        }
        Some(())
    }

    // The word that a packed one stands for. A loop that divides, since bytes of 0 may stand within: it ends where only they are left.
    pub fn write_name(&mut self, packed: u64) -> Option<()>
        ensures { Writes (unpack packed) self.old self.new result }
    {
        let mut p = packed;
        for _turn in 0..8usize {
            if p == 0 {
                return Some(());
            }
            self.put((p % 256) as u8)?;
            p /= 256;
        }
        Some(())
    }

    // At most k digits.
    fn write_digits(&mut self, k: usize, n: u64) -> Option<()>
        ensures { Writes (digits_upto k n) self.old self.new result }
    {
        if k == 0 {
            return Some(());
        }
        if n < 10 {
            return self.put(b'0' + n as u8);
        }
        self.write_digits(k - 1, n / 10)?;
        self.put(b'0' + (n % 10) as u8)
    }

    pub fn write_number(&mut self, n: u64) -> Option<()>
        ensures { Writes (digits n) self.old self.new result }
    {
        self.write_digits(20, n)
    }

    // The expression at the front of the code, at most so deep; names has the packed names of the variables. Gives the code behind it.
    #[cycle(terms)]
    fn write_term<'b>(&mut self, code: &'b [u32], fuel: usize, names: &[u64]) -> Option<&'b [u32]>
        ensures { Wrote names.now (expr_of fuel code.now) self.old self.new result }
    {
        if fuel == 0 || code.is_empty() {
            self.write_number(0)?;
            return Some(code);
        }
        let rest = skip(code, 1);
        match ExprOp::from(code[0]) {
            ExprOp::Fixed => {
                self.write_number(nth(rest, 0, 0) as u64)?;
                Some(skip(rest, 1))
            }
            ExprOp::Var => {
                self.write_name(nth(names, nth(rest, 0, 0) as usize, 0))?;
                Some(skip(rest, 1))
            }
            ExprOp::It => {
                self.write_all(b"it")?;
                Some(rest)
            }
            ExprOp::Me => {
                self.write_all(b"me")?;
                Some(rest)
            }
            ExprOp::Clock => {
                self.write_all(b"now")?;
                Some(rest)
            }
            ExprOp::Two(op) => self.write_two(op, rest, fuel - 1, names),
            ExprOp::Nothing => {
                self.write_number(0)?;
                Some(rest)
            }
        }
    }

    // An operation on two expressions, behind its first word.
    #[cycle(terms)]
    fn write_two<'b>(
        &mut self,
        op: Binary,
        code: &'b [u32],
        fuel: usize,
        names: &[u64],
    ) -> Option<&'b [u32]>
        ensures { Wrote names.now (expr_by (Two op) (expr_of fuel) code.now) self.old self.new result }
    {
        self.put(b'(')?;
        let middle = self.write_term(code, fuel, names)?;
        self.put(b' ')?;
        self.put(sign(op))?;
        self.put(b' ')?;
        let behind = self.write_term(middle, fuel, names)?;
        self.put(b')')?;
        Some(behind)
    }

    // A send, whose code has when, to whom and what, and whose text has these the other way round.
    fn write_send<'b>(&mut self, code: &'b [u32], fuel: usize, names: &[u64]) -> Option<&'b [u32]>
        ensures { Opened names.now (Do Send) fuel code.now self.old self.new result }
    {
        let to = skip_term(code, fuel);
        let what = skip_term(to, fuel);
        self.write_all(b"send ")?;
        let behind = self.write_term(what, fuel, names)?;
        self.write_all(b" to ")?;
        self.write_term(to, fuel, names)?;
        self.write_all(b" after ")?;
        self.write_term(code, fuel, names)?;
        self.put(b'\n')?;
        Some(behind)
    }

    // A line with no lines in it. Gives the code behind it.
    fn write_act<'b>(
        &mut self,
        act: Act,
        code: &'b [u32],
        fuel: usize,
        names: &[u64],
    ) -> Option<&'b [u32]>
        ensures { Opened names.now (Do act) fuel code.now self.old self.new result }
    {
        match act {
            Act::Assign => {
                self.write_name(nth(names, nth(code, 0, 0) as usize, 0))?;
                self.write_all(b" = ")?;
                let behind = self.write_term(skip(code, 1), fuel, names)?;
                self.put(b'\n')?;
                Some(behind)
            }
            Act::Draw => {
                self.write_name(nth(names, nth(code, 0, 0) as usize, 0))?;
                self.write_all(b" = draw ")?;
                let behind = self.write_term(skip(code, 1), fuel, names)?;
                self.put(b'\n')?;
                Some(behind)
            }
            Act::Say => {
                self.write_all(b"say ")?;
                let behind = self.write_term(code, fuel, names)?;
                self.put(b'\n')?;
                Some(behind)
            }
            Act::Send => self.write_send(code, fuel, names),
        }
    }

    // What stands before the lines of an else: nothing where there are none.
    fn write_else(&mut self, code: &[u32], fuel: usize) -> Option<()>
        ensures { Writes (else_head (body_of fuel code.now)) self.old self.new result }
    {
        if fuel == 0 || code.is_empty() {
            return Some(());
        }
        match LineOp::from(code[0]) {
            LineOp::Stop => Some(()),
            _ => self.write_all(b"else\n"),
        }
    }

    // A branch behind its first word. Gives the code behind it.
    #[cycle(lines)]
    fn write_branch<'b>(&mut self, code: &'b [u32], fuel: usize, names: &[u64]) -> Option<&'b [u32]>
        ensures { Opened names.now Branch fuel code.now self.old self.new result }
    {
        self.write_all(b"if ")?;
        let then = self.write_term(skip(code, 2), fuel, names)?;
        self.put(b'\n')?;
        self.write_lines(then, fuel, names)?;
        let otherwise = skip(then, nth(code, 0, 0) as usize);
        self.write_else(otherwise, fuel)?;
        self.write_lines(otherwise, fuel, names)?;
        self.write_all(b"end\n")?;
        Some(skip(otherwise, nth(code, 1, 0) as usize))
    }

    // So too of a repeat.
    #[cycle(lines)]
    fn write_repeat<'b>(&mut self, code: &'b [u32], fuel: usize, names: &[u64]) -> Option<&'b [u32]>
        ensures { Opened names.now Repeat fuel code.now self.old self.new result }
    {
        self.write_all(b"again ")?;
        let body = self.write_term(skip(code, 1), fuel, names)?;
        self.put(b'\n')?;
        self.write_lines(body, fuel, names)?;
        self.write_all(b"end\n")?;
        Some(skip(body, nth(code, 0, 0) as usize))
    }

    // The lines at the front of the code, one after the other; fuel falls with each line and each depth.
    #[cycle(lines)]
    fn write_lines(&mut self, mut code: &[u32], fuel: usize, names: &[u64]) -> Option<()>
        ensures { Writes (lines_bytes names.now fuel code.now) self.old self.new result }
    {
        for left in (0..fuel).rev() {
            let Some((first, rest)) = code.split_first() else {
                return Some(());
            };
            code = match LineOp::from(*first) {
                LineOp::Stop => return Some(()),
                LineOp::Do(act) => self.write_act(act, rest, left, names)?,
                LineOp::Branch => self.write_branch(rest, left, names)?,
                LineOp::Repeat => self.write_repeat(rest, left, names)?,
            };
        }
        Some(())
    }

    fn write_note(&mut self, m: Message) -> Option<()>
        ensures { Writes (show_notes (note_text (held_note m) ∷ [])) self.old self.new result }
    {
        self.write_all(b"message ")?;
        self.write_number(m.time)?;
        self.put(b' ')?;
        self.write_number(m.to as u64)?;
        self.put(b' ')?;
        self.write_number(m.number as u64)?;
        self.put(b'\n')
    }

    // One loop for messages, things and kinds would take a trait for what comes of each, and be longer than the three.
    fn write_notes(&mut self, messages: &[Message]) -> Option<()>
        ensures { Writes (notes_bytes messages.now) self.old self.new result }
    {
        for m in messages {
            self.write_note(*m)?;
        }
        Some(())
    }

    // Entries, each after a space.
    fn write_row<T: Entry>(&mut self, row: &[T]) -> Option<()>
        ensures { Writes (show_row (map T.bytes row.now)) self.old self.new result }
    {
        for entry in row {
            self.put(b' ')?;
            entry.write(self)?;
        }
        Some(())
    }

    // A thing of the kind with this packed name.
    fn write_thing(&mut self, name: u64, numbers: &[u32]) -> Option<()>
        ensures { Writes (show_things (thing_of name numbers.now ∷ [])) self.old self.new result }
    {
        self.write_all(b"thing ")?;
        self.write_name(name)?;
        self.write_row(numbers)?;
        self.put(b'\n')
    }

    // The things, whose variables stand in rows of 64.
    fn write_things(&mut self, model: Model<'_>) -> Option<()>
        ensures { Writes (things_bytes model.entry.kinds.now model.entry.names.now model.entry.processes.now model.entry.vars.now) self.old self.new result }
    {
        let mut rows = model.vars;
        for p in model.processes {
            let name = kind_name(model.kinds, model.names, p.kind);
            let row = first(rows, p.width.min(64) as usize);
            self.write_thing(name, row)?;
            rows = skip(rows, 64);
        }
        Some(())
    }

    // The kind whose code begins at a place, with its row of names in front.
    fn write_kind(&mut self, code: &[u32], start: u32, names: &[u64]) -> Option<()>
        ensures { Writes (show_kinds (kind_text (held_kind code.now start names.now) ∷ [])) self.old self.new result }
    {
        let numbers = known(first(skip(names, 1), 64));
        let own = skip(code, start as usize);
        self.write_all(b"kind ")?;
        self.write_name(nth(names, 0, 0))?;
        self.write_row(numbers)?;
        self.put(b'\n')?;
        self.write_lines(own, own.len(), numbers)?;
        self.write_all(b"end\n")
    }

    fn write_kinds(&mut self, model: Model<'_>) -> Option<()>
        ensures { Writes (kinds_bytes model.entry.code.now model.entry.kinds.now model.entry.names.now) self.old self.new result }
    {
        let mut rows = model.names;
        for start in model.kinds {
            self.write_kind(model.code, *start, rows)?;
            rows = skip(rows, 65);
        }
        Some(())
    }
}

// The packed name of a kind, or that of no bytes if there is no such kind.
fn kind_name(kinds: &[u32], names: &[u64], k: u32) -> u64
    ensures { result ≡ kind_name kinds.now names.now k }
{
    if (k as usize) < kinds.len() {
        nth(names, 65 * k as usize, 0)
    } else {
        0
    }
}

// The length of the text, which is written into lent bytes as far as they go; None where it would pass the limit.
fn write_text(model: Model<'_>, bytes: &mut [u8], limit: usize) -> Option<usize>
    ensures { WritesText (text_bytes model.entry.code.now model.entry.kinds.now model.entry.names.now model.entry.processes.now model.entry.vars.now model.entry.messages.now) limit bytes.old bytes.new result }
{
    let mut out = Out {
        bytes,
        end: 0,
        limit,
    };
    out.write_kinds(model)?;
    out.write_things(model)?;
    out.write_notes(model.messages)?;
    Some(out.end)
}

// The text of the model that lent slices hold. It is counted first, so that a refusal leaves out as it was.
pub fn write(model: Model<'_>, out: &mut [u8]) -> Result<usize, Refusal>
    ensures { Written (text_bytes model.entry.code.now model.entry.kinds.now model.entry.names.now model.entry.processes.now model.entry.vars.now model.entry.messages.now) out.old out.new result }
{
    let limit = out.len();
    let n = write_text(model, &mut [], limit).ok_or(Rule::Lent.refusal(4))?;
    write_text(model, out, limit);
    Ok(n)
}
