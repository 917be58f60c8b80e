// Memory for a text, made as large as any text of so many bytes needs, and the model that it is filled with.
ghost use Rattle.std.specs.Prelude.{◌≡◌, IfErr, IfOk};
ghost use Rattle.text.specs.Loaded.{Unopened};
ghost use Rattle.text.specs.Written.{text_bytes, Unwritten};
ghost use Rattle.text.specs.declared.stage.Failure.TheVariants.{Refused, Memory, Io};

use super::{Lent, Model, load, write};
use body::Process;
use checker::Refusal;
use meaning::Message;
use std::alloc::{AllocError, Global};
use std::io;
use thiserror::Error;

// The most bytes of all lines of kinds, so the most words.
const WORDS: usize = 4194304;

// The most kinds, things and messages of a text, and the fewest bytes of a line of each.
const KINDS: usize = 2048;

const KIND_BYTES: usize = 11;

const THINGS: usize = 65536;

const THING_BYTES: usize = 8;

const NOTES: usize = 65536;

const NOTE_BYTES: usize = 14;

// A model with its names: words, where each kind's words begin, names, processes with their variables, and messages.
#[derive(Drop)]
pub struct Stage {
    pub code: Vec<u32>,
    pub kinds: Vec<u32>,
    pub names: Vec<u64>,
    pub processes: Vec<Process>,
    pub vars: Vec<u32>,
    pub messages: Vec<Message>,
}

impl Stage {
    pub fn model(&self) -> Model<'_>
        ensures code { result.code.now ≡ self.now.code.items }
        ensures kinds { result.kinds.now ≡ self.now.kinds.items }
        ensures names { result.names.now ≡ self.now.names.items }
        ensures processes { result.processes.now ≡ self.now.processes.items }
        ensures vars { result.vars.now ≡ self.now.vars.items }
        ensures messages { result.messages.now ≡ self.now.messages.items }
    {
        Model {
            code: self.code.as_slice(),
            kinds: self.kinds.as_slice(),
            names: self.names.as_slice(),
            processes: self.processes.as_slice(),
            vars: self.vars.as_slice(),
            messages: self.messages.as_slice(),
        }
    }

    // The text of the model, if it takes no more than so many bytes.
    pub fn to_text(&self, heap: Global, most: usize) -> Result<Vec<u8>, Failure>
        ensures text { IfOk result (λ v. v.items ≡ text_bytes self.now.code.items self.now.kinds.items self.now.names.items self.now.processes.items self.now.vars.items self.now.messages.items) }
        ensures fails { IfErr result (Unwritten (text_bytes self.now.code.items self.now.kinds.items self.now.names.items self.now.processes.items self.now.vars.items self.now.messages.items) most) }
    {
        let mut out = vec![in heap; 0u8; most]?;
        let count = write(self.model(), out.as_mut_slice())?;
        out.truncate(count);
        Ok(out)
    }
}

// Why a text was not opened or played: it was refused, or there was no memory, or the output failed.
#[derive(Debug, Drop, Error)]
pub enum Failure {
    #[error("{0}")]
    Refused(Refusal),
    #[error("{0}")]
    Memory(AllocError),
    #[error("{0}")]
    Io(io::Error),
}

impl From<Refusal> for Failure {
    ghost from_gives = { λ refusal failure. failure ≡ Refused refusal };

    fn from(refusal: Refusal) -> Failure {
        Failure::Refused(refusal)
    }
}

impl From<io::Error> for Failure {
    ghost from_gives = { λ error failure. failure ≡ Io error };

    fn from(error: io::Error) -> Failure {
        Failure::Io(error)
    }
}

impl From<AllocError> for Failure {
    ghost from_gives = { λ error failure. failure ≡ Memory error };

    fn from(error: AllocError) -> Failure {
        Failure::Memory(error)
    }
}

// Memory for any text of so many bytes.
fn make_stage(heap: Global, bytes: usize) -> Result<Stage, AllocError> {
    let kinds = KINDS.min(bytes / KIND_BYTES);
    let things = THINGS.min(bytes / THING_BYTES);
    let notes = NOTES.min(bytes / NOTE_BYTES);
    Ok(Stage {
        code: vec![in heap; 0; WORDS.min(bytes)]?,
        kinds: vec![in heap; 0; kinds]?,
        names: vec![in heap; 0; 65 * kinds]?,
        processes: vec![in heap; Process::default(); things]?,
        vars: vec![in heap; 0; 64 * things]?,
        messages: vec![in heap; Message::default(); notes]?,
    })
}

// Reads a text into memory of its own.
pub fn open(heap: Global, text: &[u8]) -> Result<Stage, Failure>
    ensures { IfErr result (Unopened text.now) }
{
    let mut stage = make_stage(heap, text.len())?;
    let mut lent = Lent {
        code: stage.code.as_mut_slice(),
        kinds: stage.kinds.as_mut_slice(),
        names: stage.names.as_mut_slice(),
        processes: stage.processes.as_mut_slice(),
        vars: stage.vars.as_mut_slice(),
        messages: stage.messages.as_mut_slice(),
    };
    let extent = load(text, &mut lent)?;
    stage.kinds.truncate(extent.kinds);
    stage.processes.truncate(extent.things);
    stage.messages.truncate(extent.notes);
    Ok(stage)
}
