// The worked models A to G as words: each is small, and shows one rule of the meaning.
ghost use Rattle.meaning.specs.Worked.{echo as echo_model, rally as rally_model, sum as sum_model, fan as fan_model, wrap as wrap_model};
ghost use Rattle.plain.specs.Table.{all_words, dice_lines, count_lines};
ghost use Rattle.std.specs.Prelude.{◌≡◌, [], ◌∷◌};

use body::Process;
use meaning::Message;
use sequential::Program;

// A model, its messages from outside and its end.
#[derive(Clone, Copy)]
pub struct Example {
    pub name: &'static str,
    pub program: Program<'static>,
    pub processes: &'static [Process],
    // the first variable of each process; the others are 0
    pub first: u32,
    pub outside: &'static [Message],
    pub end: u32,
}

// kind 0, no variables; written out, since a constant cannot be a call of default()
const BARE: Process = Process {
    kind: 0,
    width: 0,
    seed: 0,
    sent: 0,
};

// kind 1, no variables
const SECOND: Process = Process {
    kind: 1,
    width: 0,
    seed: 0,
    sent: 0,
};

// kind 0, one variable
const WITH_A: Process = Process {
    kind: 0,
    width: 1,
    seed: 0,
    sent: 0,
};

// from outside, where there is one process
const FIRST: Message = Message {
    time: 0,
    to: 0,
    from: 1,
    count: 0,
    number: 0,
};

// say it
fn echo() -> Example
    ensures { result.program.code.now ≡ all_words echo_model.model.bodies }
{
    let outside = &[Message {
        time: 5,
        to: 0,
        from: 1,
        count: 0,
        number: 7,
    }];
    Example {
        name: "A",
        program: Program {
            code: &[3, 2, 0],
            kinds: &[0],
        },
        processes: &[BARE],
        first: 0,
        outside,
        end: 100,
    }
}

// say it / if (it < 3) / send (it + 1) to (1 - me) after 2 / end
fn rally() -> Example
    ensures { result.program.code.now ≡ all_words rally_model.model.bodies }
{
    let code = &[
        3, 2, 5, 12, 1, 10, 2, 0, 3, 4, 0, 2, 6, 0, 1, 3, 5, 2, 0, 1, 0, 0, 0,
    ];
    let outside = &[Message {
        time: 0,
        to: 0,
        from: 2,
        count: 0,
        number: 0,
    }];
    Example {
        name: "B",
        program: Program { code, kinds: &[0] },
        processes: &[BARE, BARE],
        first: 0,
        outside,
        end: 100,
    }
}

// a = (a + it) / say a
fn sum() -> Example
    ensures { result.program.code.now ≡ all_words sum_model.model.bodies }
{
    let outside = &[
        Message {
            time: 3,
            to: 0,
            from: 1,
            count: 0,
            number: 1,
        },
        Message {
            time: 3,
            to: 0,
            from: 1,
            count: 1,
            number: 2,
        },
        Message {
            time: 9,
            to: 0,
            from: 1,
            count: 2,
            number: 4,
        },
    ];
    Example {
        name: "C",
        program: Program {
            code: &[1, 0, 5, 1, 0, 2, 3, 1, 0, 0],
            kinds: &[0],
        },
        processes: &[WITH_A],
        first: 10,
        outside,
        end: 9,
    }
}

// a = draw 6 / say a / send 0 to me after 1
fn dice() -> Example
    ensures { result.program.code.now ≡ all_words (dice_lines ∷ []) }
{
    let code = &[2, 0, 0, 6, 3, 1, 0, 4, 0, 1, 3, 0, 0, 0];
    Example {
        name: "D",
        program: Program { code, kinds: &[0] },
        processes: &[WITH_A],
        first: 0,
        outside: &[FIRST],
        end: 6,
    }
}

// again it / a = (a + 1) / end / say a
fn count_up() -> Example
    ensures { result.program.code.now ≡ all_words (count_lines ∷ []) }
{
    let code = &[6, 8, 2, 1, 0, 5, 1, 0, 0, 1, 0, 3, 1, 0, 0];
    let outside = &[Message {
        time: 0,
        to: 0,
        from: 1,
        count: 0,
        number: 5,
    }];
    Example {
        name: "E",
        program: Program { code, kinds: &[0] },
        processes: &[WITH_A],
        first: 0,
        outside,
        end: 100,
    }
}

// send 1 to 1 after 0 / send 2 to 1 after 1 / send 3 to 9 after 1, and for the second kind: say it
fn fan() -> Example
    ensures { result.program.code.now ≡ all_words fan_model.model.bodies }
{
    let code = &[
        4, 0, 0, 0, 1, 0, 1, 4, 0, 1, 0, 1, 0, 2, 4, 0, 1, 0, 9, 0, 3, 0, 3, 2, 0,
    ];
    let outside = &[Message {
        time: 0,
        to: 0,
        from: 2,
        count: 0,
        number: 0,
    }];
    Example {
        name: "F",
        program: Program {
            code,
            kinds: &[0, 22],
        },
        processes: &[BARE, SECOND],
        first: 0,
        outside,
        end: 100,
    }
}

// say (0 - 1) / say (7 / 0) / say (7 % 4)
fn wrap() -> Example
    ensures { result.program.code.now ≡ all_words wrap_model.model.bodies }
{
    let code = &[3, 6, 0, 0, 0, 1, 3, 8, 0, 7, 0, 0, 3, 9, 0, 7, 0, 4, 0];
    Example {
        name: "G",
        program: Program { code, kinds: &[0] },
        processes: &[BARE],
        first: 0,
        outside: &[FIRST],
        end: 100,
    }
}

pub fn examples() -> [Example; 7] {
    [echo(), rally(), sum(), dice(), count_up(), fan(), wrap()]
}
