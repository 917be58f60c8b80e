// Whether bytes are a text that is taken, and else the refusal. A function answers what it read and the bytes behind it; or which rule is broken,
// and the bytes from there on. Here are rules and refusals; `limits` has what is refused and what is too large, `lines` the lines of a kind, `texts`
// kinds, things, messages and whole texts.
#![tactic(auto)]

ghost use Rattle.std.specs.Prelude.{◌≡◌};
ghost use Rattle.checker.specs.Refusals.{number_of};

use std::fmt;

mod limits;
mod lines;
mod texts;

pub use limits::{Refused, TOO_LARGE, check_below};
pub use texts::{Extent, check};

// Which rule a refusal is by: the form of a text; a name that isn't there, or is there twice; a number that is too large, or a count or a thing
// that isn't so; a limit; what was given or lent; a letter.
#[derive(Clone, Copy, Debug, PartialEq, Eq)]
pub enum Rule {
    Form = 1,
    Name = 2,
    Number = 3,
    Limit = 4,
    Lent = 5,
    Letter = 6,
}

impl Rule {
    // A refusal by this rule.
    pub fn refusal(self, place: usize) -> Refusal
        ensures { result ≡ record { rule = self; place = place } }
    {
        Refusal { rule: self, place }
    }
}

// The number of a rule.
impl From<Rule> for u8 {
    ghost from_gives = { λ rule n. n ≡ number_of rule };

    fn from(rule: Rule) -> u8 {
        rule as u8
    }
}

// A refusal, and its place.
#[derive(Clone, Copy, Debug, PartialEq, Eq)]
pub struct Refusal {
    pub rule: Rule,
    pub place: usize,
}

// As it is printed: "refused 1 at 6".
impl fmt::Display for Refusal {
    ghost use Rattle.std.specs.Prelude.{Some};
    ghost use Rattle.checker.specs.Printed.{refusal_text};

    ghost output = { λ r. Some (refusal_text r) };

    fn fmt<W: fmt::Write>(&self, f: &mut fmt::Formatter<W>) -> fmt::Result {
        let number = u8::from(self.rule);
        let place = self.place;
        write!(f, "refused {number} at {place}")
    }
}
