// The meaning as a program: a step, and a run with a budget, over lent slices.
#![tactic(auto)]

ghost use Rattle.std.specs.Prelude.{◌≡◌, ℕ, ◌*◌, ◌<◌, ◌≤◌, min, List, length, take, MatchBool, MatchOption, MatchResult};
ghost use Rattle.body.specs.Play.{answer};
ghost use Rattle.sequential.specs.Memory.{RowInOrder, Begun, Unbegun, unready, started, code_of, done_in, Did, Untouched, SameLent, memory, memory_in, Shaped, Stepped, RunIn, NotRun, model_of, state_of, shaped, stops, outcome_of};
ghost use Rattle.std.specs.Result.{result_err};
ghost use Rattle.queue.specs.Row.{Taken, Untaken};

use body::{Counts, Process, Refusal, handle, next_seed, skip};
use meaning::{Line, Message};
use queue::{insert_all, take_first};

// The most processes of a model.
const PROCESSES: usize = 65536;

// The places for the variables of one process.
const WIDTH: usize = 64;

// How far a run has come: how many messages wait in the row, and how many lines were said.
#[derive(Clone, Copy, Debug, Default, PartialEq, Eq)]
#[repr(C)]
pub struct Progress {
    pub waiting: usize,
    pub said: usize,
}

// Why a run stops: nothing is left before the end; the budget is used up, or the places for lines are; more messages would wait than there
// are places; more lines were said at one message than there are places; a count would reach 2^64; the lent slices are too short.
#[derive(Clone, Copy, Debug, PartialEq, Eq)]
pub enum Outcome {
    Ended,
    Paused,
    Waiting,
    Lines,
    Count,
    Short,
}

// Why a run cannot begin: the run's seed is 2^31 or more, there are too many processes, or more messages than places.
#[derive(Clone, Copy, Debug, PartialEq, Eq)]
pub enum Unready {
    Seed,
    Processes,
    Messages,
}

// How a run ended, and after how many steps.
#[derive(Clone, Copy, Debug, PartialEq, Eq)]
pub struct Report {
    pub outcome: Outcome,
    pub steps: u64,
}

// The most that the run's seed may be, and one more.
const SEEDS: u32 = 2147483648;

// Each process gets a seed from the run's seed and its number, and has sent nothing.
fn start_all(processes: &mut [Process], luck: u32)
    requires seed { luck < 2147483648 }
    requires few { length processes.old ≤ 65536 }
    ensures { processes.new ≡ started luck 0 processes.old }
{
    for (k, process) in processes.iter_mut().enumerate() {
        process.seed = next_seed(next_seed(luck + k as u32));
        process.sent = 0;
    }
}

// The start of a run: seeds, nothing sent or said, and the messages from outside in their order. In a refusal nothing lent has changed. No
// method of `Lent`, which would ask for variables and lines.
pub fn begin(
    processes: &mut [Process],
    row: &mut [Message],
    progress: &mut Progress,
    luck: u32,
    outside: &[Message],
) -> Result<(), Unready>
    ensures answers { result_err result ≡ unready luck (length processes.old) (length outside.now) (length row.old) }
    ensures holds { MatchResult result
        (λ _. Begun luck outside.now processes.old row.old processes.new row.new progress.new)
        (λ _. Unbegun processes.old row.old progress.old processes.new row.new progress.new) }
{
    if luck >= SEEDS {
        return Err(Unready::Seed);
    }
    if processes.len() > PROCESSES {
        return Err(Unready::Processes);
    }
    if outside.len() > row.len() {
        return Err(Unready::Messages);
    }
    start_all(processes, luck);
    let mut waiting = 0;
    let _ = insert_all(row, &mut waiting, outside);
    *progress = Progress { waiting, said: 0 };
    Ok(())
}

// What a run is played from: the words of all kinds, and where those of each kind begin.
#[derive(Clone, Copy)]
pub struct Program<'a> {
    pub code: &'a [u32],
    pub kinds: &'a [u32],
}

impl<'a> Program<'a> {
    // The code of a kind.
    fn code_of(self, kind: u32) -> &'a [u32]
        ensures { result.now ≡ code_of self.entry.code.now self.entry.kinds.now kind }
    {
        match self.kinds.get(kind as usize) {
            Some(start) => skip(self.code, *start as usize),
            None => &[],
        }
    }
}

// How many variables a process has.
fn width_of(process: Process) -> usize
    ensures { result ≡ min process.width 64 }
{
    WIDTH.min(process.width as usize)
}

// What the process that m is for does with it; where there is no such process, nobody does it. In a refusal nothing lent has changed. The
// slices stand side by side: as a method of `Lent` it would have to say how the part of the lines that is lent lies in the whole.
fn handle_in(
    program: Program<'_>,
    processes: &mut [Process],
    vars: &mut [u32],
    m: Message,
    sends: &mut [Message],
    lines: &mut [Line],
) -> Result<Counts, Refusal>
    requires few { length processes.old ≤ 65536 }
    requires wide { 64 * length processes.old ≤ length vars.old }
    requires timely { m.time < 4294967296 }
    ensures answers { result ≡ answer (done_in program.entry.code.now program.entry.kinds.now processes.old vars.old m) (length sends.old) (length lines.old) }
    ensures holds { MatchResult result
        (λ _. Did program.entry.code.now program.entry.kinds.now m processes.old vars.old sends.old lines.old processes.new vars.new sends.new lines.new)
        (λ _. Untouched processes.old vars.old sends.old lines.old processes.new vars.new sends.new lines.new) }
{
    let k = m.to as usize;
    let count = processes.len() as u32;
    if k >= processes.len() {
        let mut nobody = Process::default();
        return handle(
            program.code_of(0),
            count,
            &mut nobody,
            &mut [],
            m,
            sends,
            lines,
        );
    }
    let mut process = processes[k];
    let from = k * WIDTH;
    let own = &mut vars[from..from + width_of(process)];
    let done = handle(
        program.code_of(process.kind),
        count,
        &mut process,
        own,
        m,
        sends,
        lines,
    );
    processes[k] = process;
    done
}

// Why a run stops at a refused message, where so many lines have been said before. No From: the refusal alone does not tell.
fn outcome_of(refusal: Refusal, said: usize) -> Outcome
    ensures { result ≡ outcome_of refusal said }
{
    match refusal {
        Refusal::Sends => Outcome::Waiting,
        Refusal::Lines if said == 0 => Outcome::Lines,
        Refusal::Lines => Outcome::Paused,
        Refusal::Count => Outcome::Count,
    }
}

// What is lent for a run and changes: processes and their variables, the row of waiting messages, lines, and how far the run has come.
#[derive(Drop)]
pub struct Lent<'a> {
    pub processes: &'a mut [Process],
    pub vars: &'a mut [u32],
    pub row: &'a mut [Message],
    pub lines: &'a mut [Line],
    pub progress: &'a mut Progress,
}

impl Lent<'_> {
    // Whether the lent slices are long enough for the processes and for what is in use, and so many places for what one message sends.
    fn is_shaped(&self, places: usize) -> bool
        ensures { result ≡ shaped (memory_in self.now) places }
    {
        let count = self.processes.len();
        count <= PROCESSES
            && WIDTH * count <= self.vars.len()
            && self.row.len() <= places
            && self.progress.waiting <= self.row.len()
            && self.progress.said <= self.lines.len()
    }

    // The first to be handled, and how many would wait without it.
    fn next(&self) -> Option<(Message, usize)>
        ensures { MatchOption result
            (Untaken self.now.row.now self.now.progress.now.waiting self.now.progress.now.waiting)
            (λ x. Taken x.0 self.now.row.now self.now.progress.now.waiting x.1) }
    {
        let mut waiting = self.progress.waiting;
        let m = take_first(self.row, &mut waiting)?;
        Some((m, waiting))
    }

    // One step of the meaning, or why the run stops here.
    fn step(&mut self, program: Program<'_>, sends: &mut [Message], end: u32) -> Option<Outcome>
        requires { Shaped (memory_in self.old) (length sends.old) }
        ensures same { SameLent self.old self.new }
        ensures answers { (ns : List (List ℕ)) → result ≡ stops (model_of program.entry.code.now program.entry.kinds.now self.old.processes.now ns) end (length self.old.row.now) (length self.old.lines.now) (state_of (memory_in self.old)) }
        ensures holds { MatchOption result
            (Stepped program.entry.code.now program.entry.kinds.now end (length sends.old) (memory_in self.old) (memory_in self.new))
            (λ _. memory_in self.new ≡ memory_in self.old) }
    {
        let Some((m, mut waiting)) = self.next() else {
            return Some(Outcome::Ended);
        };
        if m.time >= u64::from(end) {
            return Some(Outcome::Ended);
        }
        let places = self.row.len() - waiting;
        let said = self.progress.said;
        let processes = &mut *self.processes;
        let vars = &mut *self.vars;
        let lines = &mut *self.lines;
        match handle_in(
            program,
            processes,
            vars,
            m,
            &mut sends[..places],
            &mut lines[said..],
        ) {
            Ok(counts) => {
                let _ = insert_all(self.row, &mut waiting, &sends[..counts.sends]);
                *self.progress = Progress {
                    waiting,
                    said: said + counts.lines,
                };
                None
            }
            Err(refusal) => Some(outcome_of(refusal, said)),
        }
    }

    // The lines that were said and not forgotten.
    pub fn said(&self) -> &[Line]
        ensures { result.now ≡ take self.now.progress.now.said self.now.lines.now }
    {
        self.lines.get(..self.progress.said).unwrap_or(self.lines)
    }

    // Forgets the lines that were said, as once they are printed.
    pub fn forget(&mut self)
        ensures same { SameLent self.old self.new }
        ensures forgets { memory_in self.new ≡ memory self.old.processes.now self.old.vars.now self.old.row.now self.old.lines.now (record { waiting = self.old.progress.now.waiting; said = 0 }) }
    {
        self.progress.said = 0;
    }

    // A run of at most budget steps: it stops where nothing is left before the end or the next message cannot be handled. What sends holds
    // after a run that was not refused is not promised, nor what stands in places that are not in use.
    pub fn run(
        &mut self,
        program: Program<'_>,
        sends: &mut [Message],
        end: u32,
        budget: u64,
    ) -> Report
        ensures same { SameLent self.old self.new }
        ensures runs { MatchBool (shaped (memory_in self.old) (length sends.old))
            (RunIn program.entry.code.now program.entry.kinds.now end budget (length sends.old) (memory_in self.old) result (memory_in self.new))
            (NotRun (memory_in self.old) sends.old result (memory_in self.new) sends.new) }
    {
        if !self.is_shaped(sends.len()) {
            return Report {
                outcome: Outcome::Short,
                steps: 0,
            };
        }
        for steps in 0..budget {
            if let Some(outcome) = self.step(program, sends, end) {
                return Report { outcome, steps };
            }
        }
        Report {
            outcome: Outcome::Paused,
            steps: budget,
        }
    }
}

// In the row in lent memory messages wait in their order, and no two are the same.
pub fn row_in_order()
    ensures { RowInOrder }
{}
