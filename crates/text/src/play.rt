// A text is played: it is read, and what its model says is written line by line.
ghost use Rattle.std.specs.Prelude.{◌≡◌, length, IfErr, IfOk};
ghost use Rattle.sequential.specs.Memory.{SameLent, memory_in};
ghost use Rattle.text.specs.Played.{PlayedOn, Played, Unplayed};
ghost use Rattle.text.specs.Asked.{settled};

use super::stage::{Failure, open};
use body::Process;
use checker::{Refusal, Rule};
use meaning::{Line, Message};
use sequential::{Lent, Outcome, Program, Progress, begin};
use std::alloc::Global;
use std::io;
use std::io::{Cursor, Write};

// Messages handled between two prints.
const BUDGET: u64 = 65536;

// The most bytes of a line with its end: numbers of 20, 10 and 10 digits.
const LONGEST: usize = 43;

// What is given with a text: the end, the luck, and the places for messages and for lines.
#[derive(Clone, Copy, Debug, PartialEq, Eq)]
pub struct Given<T> {
    pub end: T,
    pub luck: T,
    pub places: T,
}

// As it was written.
pub type Asked = Given<u64>;

// The same in range.
pub type Settings = Given<u32>;

// The end is 1 to 2^32 - 1, the luck below 2^31 and the places 1 to 65,536; else the first that isn't is refused.
pub fn settle(asked: Asked) -> Result<Settings, Refusal>
    ensures { result ≡ settled asked }
{
    if asked.end == 0 || asked.end > 4294967295 {
        return Err(Rule::Lent.refusal(1));
    }
    if asked.luck > 2147483647 {
        return Err(Rule::Lent.refusal(2));
    }
    if asked.places == 0 || asked.places > 65536 {
        return Err(Rule::Lent.refusal(3));
    }
    Ok(Given {
        end: asked.end as u32,
        luck: asked.luck as u32,
        places: asked.places as u32,
    })
}

// A line is written whole, by one write: where the output is not buffered, who reads beside never sees a part of it.
fn write_line<W: Write>(out: &mut W, line: Line) -> io::Result<()> {
    let mut whole = Cursor::new([0; LONGEST]);
    writeln!(whole, "{line}")?;
    let end = whole.position() as usize;
    out.write_all(whole.get_ref().get(..end).unwrap_or(&[]))
}

// Plays on from where memory stands to the end, or as far as it can be: writes the lines that are said as they come, and tells from time to
// time how many messages have been handled.
fn play_on<W: Write, F: FnMut(u64) -> io::Result<()>>(
    lent: &mut Lent<'_>,
    program: Program<'_>,
    sends: &mut [Message],
    end: u32,
    out: &mut W,
    mut handled: F,
) -> io::Result<Outcome>
    requires callable { F.IsAlwaysCallable handled }
    requires unsaid { lent.old.progress.now.said ≡ 0 }
    ensures same { SameLent lent.old lent.new }
    ensures plays { IfOk result (λ o. PlayedOn program.entry.code.now program.entry.kinds.now end (length sends.old) (memory_in lent.old) (memory_in lent.new) o) }
{
    let mut count = 0u64;
    // Up to the end of the run, which no count of pieces tells before.
    for _piece in 0..u64::MAX {
        let report = lent.run(program, sends, end, BUDGET);
        for line in lent.said() {
            write_line(out, *line)?;
        }
        lent.forget();
        if report.outcome != Outcome::Paused {
            return Ok(report.outcome);
        }
        count = count.saturating_add(report.steps);
        handled(count)?;
    }
    Ok(Outcome::Paused)
}

// Plays a model so, from its start.
pub fn play_model<W: Write, F: FnMut(u64) -> io::Result<()>>(
    heap: Global,
    program: Program<'_>,
    processes: &mut [Process],
    vars: &mut [u32],
    outside: &[Message],
    settings: Settings,
    out: &mut W,
    handled: F,
) -> Result<Outcome, Failure>
    requires { F.IsAlwaysCallable handled }
    ensures played { IfOk result (λ o. Played program.entry.code.now program.entry.kinds.now settings outside.now processes.old vars.old processes.new vars.new o) }
    ensures fails { IfErr result Unplayed }
{
    let places = settings.places as usize;
    let mut row = vec![in heap; Message::default(); places]?;
    let mut sends = vec![in heap; Message::default(); places]?;
    let mut lines = vec![in heap; Line::default(); places]?;
    let mut progress = Progress::default();
    let row = row.as_mut_slice();
    let Ok(()) = begin(processes, row, &mut progress, settings.luck, outside) else {
        return Ok(Outcome::Waiting);
    };
    let mut lent = Lent {
        processes,
        vars,
        row,
        lines: lines.as_mut_slice(),
        progress: &mut progress,
    };
    let outcome = play_on(
        &mut lent,
        program,
        sends.as_mut_slice(),
        settings.end,
        out,
        handled,
    )?;
    Ok(outcome)
}

// Plays a text so.
pub fn play<W: Write, F: FnMut(u64) -> io::Result<()>>(
    heap: Global,
    text: &[u8],
    settings: Settings,
    out: &mut W,
    handled: F,
) -> Result<Outcome, Failure>
    requires { F.IsAlwaysCallable handled }
{
    let mut stage = open(heap, text)?;
    let program = Program {
        code: stage.code.as_slice(),
        kinds: stage.kinds.as_slice(),
    };
    play_model(
        heap,
        program,
        stage.processes.as_mut_slice(),
        stage.vars.as_mut_slice(),
        stage.messages.as_slice(),
        settings,
        out,
        handled,
    )
}
