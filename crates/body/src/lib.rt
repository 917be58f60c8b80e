// Bodies as words, and what a process does with a message.
#![tactic(auto)]

ghost use Rattle.body.specs.Play.{SameLent, room_in, put_line, put_sent, Lent, letter, plays, Acted, does, does_at, tally_of, answer, lent_after};
ghost use Rattle.meaning.specs.Model.{next_seed, drawn};
ghost use Rattle.std.specs.Prelude.{◌≡◌, ℕ, ◌<◌, ◌≤◌, length, drop, slice_index, slice_set};
ghost use Rattle.body.specs.Code.{expr_op, line_op, binary_result, Evaluated, body_of};
ghost use Rattle.body.specs.Encode.{OperationsBack, WordsDecode};

use meaning::{Line, Message};

// The most turns of one repeat.
const ROUNDS: u32 = 1000;

const WHOLE: u64 = 4294967296;

#[derive(Clone, Copy, Debug, PartialEq, Eq)]
pub enum Binary {
    Plus,
    Minus,
    Times,
    Over,
    Remains,
    Less,
    Same,
}

// How an expression opens.
#[derive(Clone, Copy, Debug, PartialEq, Eq)]
pub enum ExprOp {
    Fixed,
    Var,
    It,
    Me,
    Clock,
    Two(Binary),
    Nothing,
}

// A line with no lines in it.
#[derive(Clone, Copy, Debug, PartialEq, Eq)]
pub enum Act {
    Assign,
    Draw,
    Say,
    Send,
}

// How a line opens.
#[derive(Clone, Copy, Debug, PartialEq, Eq)]
pub enum LineOp {
    Stop,
    Do(Act),
    Branch,
    Repeat,
}

// A message that is handled, as its lines see it: what `it`, `me` and `now` are, how many processes there are, and how many messages
// this one has sent before.
#[derive(Clone, Copy, Debug, PartialEq, Eq)]
pub struct Event {
    pub it: u32,
    pub me: u32,
    pub clock: u32,
    pub processes: u32,
    pub sent: u64,
}

// The seed, and how many messages were sent and lines said at one event.
#[derive(Clone, Copy, Debug, PartialEq, Eq)]
pub struct Tally {
    pub seed: u32,
    pub sends: u64,
    pub lines: u64,
}

impl Tally {
    // Nothing sent or said yet.
    fn new(seed: u32) -> Self
        ensures { result ≡ record { seed = seed; sends = 0; lines = 0 } }
    {
        Tally {
            seed,
            sends: 0,
            lines: 0,
        }
    }
}

// A process in lent memory, beside its variables: its kind, how many variables it has, its seed, and how many messages it has sent.
#[derive(Clone, Copy, Debug, Default, PartialEq, Eq)]
#[repr(C)]
pub struct Process {
    pub kind: u32,
    pub width: u32,
    pub seed: u32,
    pub sent: u64,
}

// How many messages a process sent and lines it said at one message.
#[derive(Clone, Copy, Debug, PartialEq, Eq)]
pub struct Counts {
    pub sends: usize,
    pub lines: usize,
}

// Why a message cannot be handled: no place for a message or a line, or the process's count would reach 2^64.
#[derive(Clone, Copy, Debug, PartialEq, Eq)]
pub enum Refusal {
    Sends,
    Lines,
    Count,
}

impl From<u32> for ExprOp {
    ghost use Rattle.std.specs.Prelude.{◌≡◌};
    ghost use Rattle.body.specs.Code.{expr_op};

    ghost from_gives = { λ word op. op ≡ expr_op word };

    fn from(word: u32) -> Self {
        match word {
            0 => ExprOp::Fixed,
            1 => ExprOp::Var,
            2 => ExprOp::It,
            3 => ExprOp::Me,
            4 => ExprOp::Clock,
            5 => ExprOp::Two(Binary::Plus),
            6 => ExprOp::Two(Binary::Minus),
            7 => ExprOp::Two(Binary::Times),
            8 => ExprOp::Two(Binary::Over),
            9 => ExprOp::Two(Binary::Remains),
            10 => ExprOp::Two(Binary::Less),
            11 => ExprOp::Two(Binary::Same),
            _ => ExprOp::Nothing,
        }
    }
}

// The word that opens an expression so.
impl From<ExprOp> for u32 {
    ghost use Rattle.std.specs.Prelude.{◌≡◌};
    ghost use Rattle.body.specs.Code.{expr_word};

    ghost from_gives = { λ op word. word ≡ expr_word op };

    fn from(op: ExprOp) -> Self {
        match op {
            ExprOp::Fixed => 0,
            ExprOp::Var => 1,
            ExprOp::It => 2,
            ExprOp::Me => 3,
            ExprOp::Clock => 4,
            ExprOp::Two(Binary::Plus) => 5,
            ExprOp::Two(Binary::Minus) => 6,
            ExprOp::Two(Binary::Times) => 7,
            ExprOp::Two(Binary::Over) => 8,
            ExprOp::Two(Binary::Remains) => 9,
            ExprOp::Two(Binary::Less) => 10,
            ExprOp::Two(Binary::Same) => 11,
            ExprOp::Nothing => 12,
        }
    }
}

fn apply(op: Binary, a: u32, b: u32) -> u32
    ensures { result ≡ binary_result op a b }
{
    let x = a as u64;
    let y = b as u64;
    match op {
        Binary::Plus => ((x + y) % WHOLE) as u32,
        Binary::Minus => ((x + (WHOLE - y)) % WHOLE) as u32,
        Binary::Times => (x * y % WHOLE) as u32,
        Binary::Over => a.checked_div(b).unwrap_or(0),
        Binary::Remains => a.checked_rem(b).unwrap_or(0),
        Binary::Less => u32::from(a < b),
        Binary::Same => u32::from(a == b),
    }
}

// The word at k, or 0 where there is none.
fn word(words: &[u32], k: usize) -> u32
    ensures { result ≡ slice_index words.now k }
{
    words.get(k).copied().unwrap_or(0)
}

// What lies behind the first k.
pub fn skip<T>(items: &[T], k: usize) -> &[T]
    ensures { result.now ≡ drop k items.now }
{
    items.get(k..).unwrap_or(&[])
}

// What the expression at the front of the code comes to, and the code behind it.
fn eval<'a>(code: &'a [u32], fuel: usize, event: Event, vars: &[u32]) -> (u32, &'a [u32])
    ensures { Evaluated vars.now event fuel code.now result.0 result.1.now }
{
    if fuel == 0 || code.is_empty() {
        return (0, code);
    }
    let rest = skip(code, 1);
    match ExprOp::from(code[0]) {
        ExprOp::Fixed => (word(rest, 0), skip(rest, 1)),
        ExprOp::Var => (word(vars, word(rest, 0) as usize), skip(rest, 1)),
        ExprOp::It => (event.it, rest),
        ExprOp::Me => (event.me, rest),
        ExprOp::Clock => (event.clock, rest),
        ExprOp::Two(op) => {
            // lent anew: handing the parameter on makes the callee wait for it, a third of the time of an event
            let own = skip(vars, 0);
            let (a, middle) = eval(rest, fuel - 1, event, own);
            let (b, behind) = eval(middle, fuel - 1, event, own);
            (apply(op, a, b), behind)
        }
        ExprOp::Nothing => (0, rest),
    }
}

impl From<u32> for LineOp {
    ghost use Rattle.std.specs.Prelude.{◌≡◌};
    ghost use Rattle.body.specs.Code.{line_op};

    ghost from_gives = { λ word op. op ≡ line_op word };

    fn from(word: u32) -> Self {
        match word {
            1 => LineOp::Do(Act::Assign),
            2 => LineOp::Do(Act::Draw),
            3 => LineOp::Do(Act::Say),
            4 => LineOp::Do(Act::Send),
            5 => LineOp::Branch,
            6 => LineOp::Repeat,
            _ => LineOp::Stop,
        }
    }
}

// The word that opens a line so.
impl From<LineOp> for u32 {
    ghost use Rattle.std.specs.Prelude.{◌≡◌};
    ghost use Rattle.body.specs.Code.{line_word};

    ghost from_gives = { λ op word. word ≡ line_word op };

    fn from(op: LineOp) -> Self {
        match op {
            LineOp::Stop => 0,
            LineOp::Do(Act::Assign) => 1,
            LineOp::Do(Act::Draw) => 2,
            LineOp::Do(Act::Say) => 3,
            LineOp::Do(Act::Send) => 4,
            LineOp::Branch => 5,
            LineOp::Repeat => 6,
        }
    }
}

pub fn next_seed(seed: u32) -> u32
    ensures { result ≡ next_seed seed }
{
    ((seed as u64 * 1664525 + 1013904223) % WHOLE) as u32
}

// x goes into its place; where there is none, nothing changes.
fn place<T: Copy>(row: &mut [T], at: u64, x: T)
    ensures { row.new ≡ slice_set row.old at x }
{
    let at = at as usize;
    if at < row.len() {
        row[at] = x;
    }
}

// What is drawn below n where the seed has become this.
fn drawn_below(seed: u32, n: u32) -> u32
    ensures { result ≡ drawn seed n }
{
    (seed / 65536).checked_rem(n).unwrap_or(0)
}

// The message that a process sends at an event, if it has sent k at it before.
fn message_of(event: Event, k: u64, delay: u32, to: u32, number: u32) -> Message
    ensures { result ≡ letter event k delay to number }
{
    let later = delay.max(1);
    Message {
        time: event.clock as u64 + later as u64,
        to,
        from: event.me,
        count: event.sent.saturating_add(k),
        number,
    }
}

// Where lines are played: the message at hand, the variables, places for what is sent and said, and how many there were of each.
#[derive(Drop)]
struct Frame<'a> {
    event: Event,
    vars: &'a mut [u32],
    tally: Tally,
    sends: &'a mut [Message],
    lines: &'a mut [Line],
}

impl Frame<'_> {
    // What the expression at the front of the code comes to here, and the code behind it.
    fn eval<'b>(&self, code: &'b [u32], fuel: usize) -> (u32, &'b [u32])
        ensures { Evaluated self.now.vars.now self.now.event fuel code.now result.0 result.1.now }
    {
        eval(code, fuel, self.event, self.vars)
    }

    // A line of what was said goes into the next place.
    fn say(&mut self, number: u32)
        ensures same { SameLent self.old self.new }
        ensures says { room_in self.new ≡ put_line (record { time = self.old.event.clock; process = self.old.event.me; number = number }) (room_in self.old) }
    {
        let line = Line {
            time: u64::from(self.event.clock),
            process: self.event.me,
            number,
        };
        place(self.lines, self.tally.lines, line);
        self.tally.lines = self.tally.lines.saturating_add(1);
    }

    // A message goes into the next place, or is lost if there is nobody to send it to.
    fn send(&mut self, delay: u32, to: u32, number: u32)
        ensures same { SameLent self.old self.new }
        ensures sends { room_in self.new ≡ put_sent self.old.event delay to number (room_in self.old) }
    {
        if to < self.event.processes {
            let message = message_of(self.event, self.tally.sends, delay, to, number);
            place(self.sends, self.tally.sends, message);
            self.tally.sends = self.tally.sends.saturating_add(1);
        }
    }

    // A line with no lines in it: what it does, and the code behind it.
    fn perform<'b>(&mut self, op: Act, code: &'b [u32], fuel: usize) -> &'b [u32]
        ensures same { SameLent self.old self.new }
        ensures acts { Acted op fuel self.old.event code.now (room_in self.old) result.now (room_in self.new) }
    {
        match op {
            Act::Assign => {
                let (value, behind) = self.eval(skip(code, 1), fuel);
                place(self.vars, u64::from(word(code, 0)), value);
                behind
            }
            Act::Draw => {
                let (n, behind) = self.eval(skip(code, 1), fuel);
                self.tally.seed = next_seed(self.tally.seed);
                place(
                    self.vars,
                    u64::from(word(code, 0)),
                    drawn_below(self.tally.seed, n),
                );
                behind
            }
            Act::Say => {
                let (number, behind) = self.eval(code, fuel);
                self.say(number);
                behind
            }
            Act::Send => {
                let (delay, rest) = self.eval(code, fuel);
                let (to, rest) = self.eval(rest, fuel);
                let (number, rest) = self.eval(rest, fuel);
                self.send(delay, to, number);
                rest
            }
        }
    }

    // The lines at the front of the code, one after the other; fuel falls with each line and each depth.
    fn play(&mut self, mut code: &[u32], fuel: usize)
        ensures same { SameLent self.old self.new }
        ensures plays { room_in self.new ≡ plays self.old.event (body_of fuel code.now) (room_in self.old) }
    {
        for left in (0..fuel).rev() {
            let Some((first, rest)) = code.split_first() else {
                return;
            };
            match LineOp::from(*first) {
                LineOp::Stop => return,
                LineOp::Do(act) => code = self.perform(act, rest, left),
                LineOp::Branch => {
                    let (x, then) = self.eval(skip(rest, 2), left);
                    let otherwise = skip(then, word(rest, 0) as usize);
                    let chosen = if x == 0 { otherwise } else { then };
                    self.play(chosen, left);
                    code = skip(otherwise, word(rest, 1) as usize);
                }
                LineOp::Repeat => {
                    let (x, body) = self.eval(skip(rest, 1), left);
                    let turns = x.min(ROUNDS);
                    for _turn in 0..turns {
                        self.play(body, left);
                    }
                    code = skip(body, word(rest, 0) as usize);
                }
            }
        }
    }
}

// How many messages and lines there would be: played on a copy and with no places, so that nothing lent changes.
fn measure(code: &[u32], event: Event, seed: u32, vars: &[u32]) -> Tally
    requires { length vars.now ≤ 64 }
    ensures { result ≡ tally_of (does_at event code.now seed vars.now) }
{
    let mut copy = [0u32; 64];
    let part = &mut copy[0..vars.len()];
    part.copy_from_slice(vars);
    let mut frame = Frame {
        event,
        vars: part,
        tally: Tally::new(seed),
        sends: &mut [],
        lines: &mut [],
    };
    frame.play(code, code.len());
    frame.tally
}

// What the process does with a message. In a refusal nothing lent has changed. The slices stand side by side: callers lend parts
// of theirs, which a struct made for the call would only pass on.
pub fn handle(
    code: &[u32],
    processes: u32,
    process: &mut Process,
    vars: &mut [u32],
    m: Message,
    sends: &mut [Message],
    lines: &mut [Line],
) -> Result<Counts, Refusal>
    requires narrow { length vars.old ≤ 64 }
    requires timely { m.time < 4294967296 }
    ensures answers { result ≡ answer (does code.now processes process.old vars.old m) (length sends.old) (length lines.old) }
    ensures holds { ◌≡◌ {A = Lent} (record { process = process.new; vars = vars.new; sends = sends.new; lines = lines.new }) (lent_after result (does code.now processes process.old vars.old m) (record { process = process.old; vars = vars.old; sends = sends.old; lines = lines.old })) }
{
    let event = Event {
        it: m.number,
        me: m.to,
        clock: m.time as u32,
        processes,
        sent: process.sent,
    };
    let need = measure(code, event, process.seed, vars);
    if need.sends > sends.len() as u64 {
        return Err(Refusal::Sends);
    }
    if need.lines > lines.len() as u64 {
        return Err(Refusal::Lines);
    }
    if need.sends > u64::MAX - process.sent {
        return Err(Refusal::Count);
    }
    let mut frame = Frame {
        event,
        vars,
        tally: Tally::new(process.seed),
        sends,
        lines,
    };
    frame.play(code, code.len());
    let tally = frame.tally;
    process.seed = tally.seed;
    process.sent += tally.sends;
    Ok(Counts {
        sends: tally.sends as usize,
        lines: tally.lines as usize,
    })
}

// The words of lines stand for those lines, whatever stands behind them.
pub fn words_decode()
    ensures { WordsDecode }
{}

// The word of each operation opens just that operation.
pub fn operations_back()
    ensures { OperationsBack }
{}
