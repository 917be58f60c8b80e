// plain_text: plays a text one message after the other, and prints what it says.
#![tactic(auto)]

use anyhow::anyhow;
use sequential::Outcome;
use std::alloc::Global;
use std::io::{BufWriter, Write};
use std::{env, fs, io};
use text::play::{Asked, Given, play, settle};
use text::stage::Failure;
use words::number_of;

const USAGE: &str = "usage: plain_text TEXT LUCK END R [progress]
  TEXT      a file with the text of a model
  LUCK      the luck, 0 to 2147483647
  END       the time at which the run ends, 1 to 4294967295
  R         places for waiting messages and for lines, 1 to 65536
  progress  messages handled are counted on standard error";

// What the arguments ask for.
#[derive(Drop)]
struct Command {
    path: String,
    asked: Asked,
    loud: bool,
}

// A number as it was written; one of 2^32 or more is out of every range.
fn number(argument: &str) -> Option<u64> {
    let digits = argument.as_bytes();
    if digits.is_empty() || !digits.iter().all(|d| d.is_ascii_digit()) {
        return None;
    }
    Some(number_of(digits).map_or(u64::MAX, u64::from))
}

// The arguments behind the program's own name; None if they are not what is expected.
fn read_command(rt: &HostRuntime) -> io::Result<Option<Command>> {
    let mut arguments = env::args(rt)?;
    let _program = arguments.next();
    let (Some(path), Some(luck), Some(end), Some(places)) = (
        arguments.next(),
        arguments.next(),
        arguments.next(),
        arguments.next(),
    ) else {
        return Ok(None);
    };
    let loud = match arguments.next() {
        None => false,
        Some(word) if word.as_str() == "progress" => true,
        Some(_) => return Ok(None),
    };
    if arguments.next().is_some() {
        return Ok(None);
    }
    let (Some(luck), Some(end), Some(places)) = (
        number(luck.as_str()),
        number(end.as_str()),
        number(places.as_str()),
    ) else {
        return Ok(None);
    };
    Ok(Some(Command {
        path,
        asked: Given { end, luck, places },
        loud,
    }))
}

// Plays the text of a file; what is given is looked at before it is read.
fn play_file(rt: &HostRuntime, heap: Global, command: &Command) -> Result<Outcome, Failure> {
    let settings = settle(command.asked)?;
    let loud = command.loud;
    let bytes = fs::read(rt, command.path.as_str())?;
    let mut out = BufWriter::new(heap, rt.stdout())?;
    let outcome = play(heap, bytes.as_slice(), settings, &mut out, |messages| {
        if loud {
            eprintln!(rt; "{messages} messages")?;
        }
        Ok(())
    })?;
    out.flush()?;
    Ok(outcome)
}

fn run(rt: &HostRuntime, heap: Global) -> anyhow::Result<()> {
    let Some(command) = read_command(rt)? else {
        eprintln!(rt; "{USAGE}")?;
        return Err(anyhow!("the arguments are not what is expected"));
    };
    match play_file(rt, heap, &command) {
        Ok(Outcome::Ended) => println!(rt; "done")?,
        Ok(_) => println!(rt; "not done")?,
        Err(Failure::Refused(refusal)) => println!(rt; "{refusal}")?,
        Err(failure) => return Err(failure.into()),
    }
    Ok(())
}

fn main(rt: HostRuntime) -> anyhow::Result<()> {
    run(&rt, rt.alloc())
}
