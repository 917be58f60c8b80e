// plain: plays the models of a table one message after the other, and prints what they say.
#![tactic(auto)]

ghost use Rattle.std.specs.Prelude.{◌≡◌, ◌*◌, length, IfOk, vec_len};

mod table;

use sequential::Outcome;
use std::alloc::{AllocError, Global};
use table::Example;
use text::play::{Given, play_model};
use text::stage::Failure;

// Places for waiting messages and for lines.
const PLACES: u32 = 64;

// The run's seed.
const LUCK: u32 = 1;

// The variables of all processes, 64 places for each: the first as the model says, the others 0.
fn variables(heap: Global, e: Example) -> Result<Vec<u32>, AllocError>
    ensures { IfOk result (λ v. vec_len v ≡ 64 * length e.processes.now) }
{
    let mut vars = Vec::new(heap);
    let mut row = [0; 64];
    row[0] = e.first;
    for _process in e.processes {
        vars.extend_from_slice(&row)?;
    }
    Ok(vars)
}

// Plays a model to its end, or as far as it can be.
fn play(rt: &HostRuntime, heap: Global, e: Example) -> Result<Outcome, Failure> {
    let mut processes = Vec::from_slice(heap, e.processes)?;
    let mut vars = variables(heap, e)?;
    let settings = Given {
        end: e.end,
        luck: LUCK,
        places: PLACES,
    };
    play_model(
        heap,
        e.program,
        processes.as_mut_slice(),
        vars.as_mut_slice(),
        e.outside,
        settings,
        &mut rt.stdout(),
        |_count| Ok(()),
    )
}

fn play_all(rt: &HostRuntime, heap: Global) -> anyhow::Result<()> {
    for e in table::examples() {
        let name = e.name;
        println!(rt; "model {name}")?;
        match play(rt, heap, e)? {
            Outcome::Ended => println!(rt; "done")?,
            _ => println!(rt; "not done")?,
        }
    }
    Ok(())
}

fn main(rt: HostRuntime) -> anyhow::Result<()> {
    play_all(&rt, rt.alloc())
}
