// anew: reads a text and writes it anew, with each else that has no lines left out.
#![tactic(auto)]

use anyhow::anyhow;
use std::alloc::Global;
use std::io::Write;
use std::{env, fs, io};
use text::stage::{Failure, open};

const USAGE: &str = "usage: anew TEXT
  TEXT  a file with the text of a model, which is written anew to standard output";

// The one argument behind the program's own name.
fn read_path(rt: &HostRuntime) -> io::Result<Option<String>> {
    let mut arguments = env::args(rt)?;
    let _program = arguments.next();
    let path = arguments.next();
    if arguments.next().is_some() {
        return Ok(None);
    }
    Ok(path)
}

// The text written anew, which is at most as long as it was.
fn written(heap: Global, text: &[u8]) -> Result<Vec<u8>, Failure> {
    open(heap, text)?.to_text(heap, text.len())
}

fn run(rt: &HostRuntime, heap: Global) -> anyhow::Result<()> {
    let Some(path) = read_path(rt)? else {
        eprintln!(rt; "{USAGE}")?;
        return Err(anyhow!("the arguments are not what is expected"));
    };
    let bytes = fs::read(rt, path.as_str())?;
    match written(heap, bytes.as_slice()) {
        Ok(text) => rt.stdout().write_all(text.as_slice())?,
        Err(Failure::Refused(refusal)) => println!(rt; "{refusal}")?,
        Err(failure) => return Err(failure.into()),
    }
    Ok(())
}

fn main(rt: HostRuntime) -> anyhow::Result<()> {
    run(&rt, rt.alloc())
}
