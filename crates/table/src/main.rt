// table: tries the reader on texts whose answers were written by hand, writes those that are taken anew, and plays the worked models.
#![tactic(auto)]

mod cases;

use anyhow::anyhow;
use cases::{each_case, expand};
use sequential::Outcome;
use std::alloc::Global;
use std::fs;
use text::play::{Given, play, settle};
use text::stage::{Failure, Stage, open};

// Whether a text that was taken, written anew, is read and then written as the same.
fn lasts(heap: Global, stage: &Stage, most: usize) -> Result<bool, Failure> {
    let once = stage.to_text(heap, most)?;
    let twice = open(heap, once.as_slice())?.to_text(heap, most)?;
    Ok(once.as_slice() == twice.as_slice())
}

// The answer to a text: taken, refused, or taken and not the same when written anew.
fn answer(heap: Global, text: &[u8]) -> Result<String, Failure> {
    let stage = match open(heap, text) {
        Ok(stage) => stage,
        Err(Failure::Refused(refusal)) => return Ok(format!(in heap; "{refusal}")?),
        Err(failure) => return Err(failure),
    };
    let answer = match lasts(heap, &stage, text.len()) {
        Ok(true) => "taken",
        Ok(false) | Err(Failure::Refused(_)) => "taken, but not as it was written",
        Err(failure) => return Err(failure),
    };
    Ok(String::from_str(heap, answer)?)
}

// Tries each text of the table.
fn try_texts(rt: &HostRuntime, heap: Global) -> anyhow::Result<()> {
    let file = fs::read(rt, "texts.txt")?;
    let mut tried = 0u64;
    let mut differ = 0u64;
    each_case(file.as_slice(), b"text ", |case| {
        let text = expand(heap, case.bytes)?;
        let got = answer(heap, text.as_slice())?;
        tried = tried.saturating_add(1);
        if got.as_bytes() != case.expected {
            differ = differ.saturating_add(1);
            let name = String::from_utf8_lossy(heap, case.label)?;
            println!(rt; "{name}: {got}")?;
        }
        Ok(())
    })?;
    println!(rt; "{tried} texts, {differ} differ")?;
    Ok(())
}

// Plays each worked model.
fn play_models(rt: &HostRuntime, heap: Global) -> anyhow::Result<()> {
    let file = fs::read(rt, "models.txt")?;
    each_case(file.as_slice(), b"model ", |case| {
        let end = match words::number_of(case.expected) {
            Some(end) => u64::from(end),
            None => 0,
        };
        let text = expand(heap, case.bytes)?;
        let name = String::from_utf8_lossy(heap, case.label)?;
        println!(rt; "model {name}")?;
        play_model(rt, heap, text.as_slice(), end)
    })
}

// Plays one with luck 1 and 64 places.
fn play_model(rt: &HostRuntime, heap: Global, text: &[u8], end: u64) -> anyhow::Result<()> {
    let Ok(settings) = settle(Given {
        end,
        luck: 1,
        places: 64,
    }) else {
        return Err(anyhow!("the end is out of range"));
    };
    match play(heap, text, settings, &mut rt.stdout(), |_count| Ok(())) {
        Ok(Outcome::Ended) => println!(rt; "done")?,
        Ok(_) => println!(rt; "not done")?,
        Err(Failure::Refused(refusal)) => println!(rt; "{refusal}")?,
        Err(failure) => return Err(failure.into()),
    }
    Ok(())
}

fn run(rt: &HostRuntime, heap: Global) -> anyhow::Result<()> {
    try_texts(rt, heap)?;
    play_models(rt, heap)
}

fn main(rt: HostRuntime) -> anyhow::Result<()> {
    run(&rt, rt.alloc())
}
