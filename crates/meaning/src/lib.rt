// The meaning of a model, as definitions in specs/, and what is proved of it. The code above is held to these definitions.
#![tactic(auto)]

ghost use Rattle.meaning.specs.Agree.{Agreement};
ghost use Rattle.meaning.specs.Law.{WholeRun};
ghost use Rattle.meaning.specs.Promise.{InOrder, Independent, Later, MayForget};
ghost use Rattle.meaning.specs.Worked.{WorkedModels};

use std::fmt;

// A message: for when, to and from which process, its number among those that its sender has sent, and what it carries.
// One from outside is from the number behind the last process.
#[derive(Clone, Copy, Debug, Default, PartialEq, Eq)]
#[repr(C)]
pub struct Message {
    pub time: u64,
    pub to: u32,
    pub from: u32,
    pub count: u64,
    pub number: u32,
}

// A line said: when, by which process, and what.
#[derive(Clone, Copy, Debug, Default, PartialEq, Eq)]
#[repr(C)]
pub struct Line {
    pub time: u64,
    pub process: u32,
    pub number: u32,
}

// As it is printed: the time, the process and the number.
impl fmt::Display for Line {
    ghost use Rattle.std.specs.Prelude.{Some};
    ghost use Rattle.meaning.specs.Printed.{line_text};

    ghost output = { λ l. Some (line_text l) };

    fn fmt<W: fmt::Write>(&self, f: &mut fmt::Formatter<W>) -> fmt::Result {
        let Line {
            time,
            process,
            number,
        } = *self;
        write!(f, "{time} {process} {number}")
    }
}

// The five worked models print what they should.
pub fn worked_models()
    ensures { WorkedModels }
{}

// Messages wait in their order, and no two are the same.
pub fn in_order()
    ensures { InOrder }
{}

// What is sent is later than what it came from, and counted once.
pub fn later()
    ensures { Later }
{}

// Messages to different processes may be handled in either order.
pub fn independent()
    ensures { Independent }
{}

// A run handles the one history that there is, and says what it says.
pub fn whole_run()
    ensures { WholeRun }
{}

// A run may print its lines and forget them, and go on.
pub fn may_forget()
    ensures { MayForget }
{}

// Players who agree on what they sent each other before a time have together played what the meaning plays before it.
pub fn agreement()
    ensures { Agreement }
{}
