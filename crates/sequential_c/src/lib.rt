// The sequential run for callers in C: a static library of one function.
#![tactic(auto)]

ghost use Rattle.std.specs.Prelude.{List, length, MatchBool};
ghost use Rattle.sequential.specs.Memory.{NotRun, RunIn, memory, shaped};
ghost use Rattle.sequential.specs.declared.Outcome.{Outcome};
ghost use Rattle.sequential.specs.declared.Outcome.TheVariants as Outcome;

use body::Process;
use meaning::{Line, Message};
use sequential::{Lent, Program, Progress};

// Plays on from what the lent slices hold, at most so many messages, and says how many were handled.
#[unsafe(no_mangle)]
pub extern "C" fn sequential_run(
    code: &[u32],
    kinds: &[u32],
    processes: &mut [Process],
    vars: &mut [u32],
    row: &mut [Message],
    sends: &mut [Message],
    lines: &mut [Line],
    progress: &mut Progress,
    end: u32,
    budget: u64,
) -> u64
    ensures { MatchBool (shaped (memory processes.old vars.old row.old lines.old progress.old) (length sends.old))
        ((o : Outcome) × RunIn code.now kinds.now end budget (length sends.old) (memory processes.old vars.old row.old lines.old progress.old) (record { outcome = o; steps = result }) (memory processes.new vars.new row.new lines.new progress.new))
        (NotRun (memory processes.old vars.old row.old lines.old progress.old) sends.old (record { outcome = Outcome.Short; steps = result }) (memory processes.new vars.new row.new lines.new progress.new) sends.new) }
{
    let program = Program { code, kinds };
    let mut lent = Lent {
        processes,
        vars,
        row,
        lines,
        progress,
    };
    lent.run(program, sends, end, budget).steps
}
