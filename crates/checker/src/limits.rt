// What is refused, with the bytes from there on; numbers that are too large, and lines and texts that are too long.
ghost use Rattle.std.specs.Prelude.{◌≡◌, ◌-◌, ◌≤◌, length};
ghost use Rattle.grammar.specs.Check.{check_target, too_long, overrun, in_line, too_large};
ghost use Rattle.checker.specs.Refusals.{left_out, ended, refused_by, outcome};

use super::{Refusal, Rule};
use words::{number_of, read_number};

// A rule that is broken, and the bytes from there on.
#[derive(Clone, Copy)]
pub struct Refused<'a> {
    pub rule: Rule,
    pub from: &'a [u8],
}

// Where no text goes on so, the form is refused.
impl<'a> From<&'a [u8]> for Refused<'a> {
    ghost use Rattle.checker.specs.declared.Rule.TheVariants.{Form};

    ghost from_gives = { λ from refused. refused ≡ record { rule = Form; from = from } };

    fn from(from: &'a [u8]) -> Refused<'a> {
        Rule::Form.at(from)
    }
}

impl Rule {
    // This rule, broken at the front of a text.
    pub(crate) fn at(self, text: &[u8]) -> Refused<'_>
        ensures { result ≡ record { rule = self; from = text.entry } }
    {
        Refused {
            rule: self,
            from: text,
        }
    }
}

impl Refused<'_> {
    // The refusal in the whole text, which ends as the bytes that are refused do.
    pub fn within(self, text: &[u8]) -> Refusal
        ensures { result ≡ record { rule = self.entry.rule; place = length text.now - length self.entry.from.now } }
    {
        let place = text.len().saturating_sub(self.from.len());
        self.rule.refusal(place)
    }
}

// Numbers are below 2^32.
pub const TOO_LARGE: usize = 4294967296;

// The most bytes of a line of a kind, with its end.
pub const LINE: usize = 1024;

// A number below a limit; else it is refused at its first digit.
pub fn check_below<'a>(text: &'a [u8], limit: usize) -> Result<&'a [u8], Refused<'a>>
    requires { limit ≤ too_large }
    ensures { left_out (check_target limit text.now) ≡ ended result }
{
    let (digits, rest) = read_number(text)?;
    match number_of(digits) {
        Some(n) if (n as usize) < limit => Ok(rest),
        _ => Err(Rule::Number.at(text)),
    }
}

// Whether the line in front has a byte behind its first 1,024.
fn is_too_long(text: &[u8]) -> bool
    ensures { result ≡ too_long text.now }
{
    text.len() > LINE && !text[..LINE].contains(&b'\n')
}

// The byte behind so many is one too many: a refusal further on gives way to it.
pub fn cut_off<'a, T: Drop>(
    text: &'a [u8],
    most: usize,
    read: Result<T, Refused<'a>>,
) -> Refused<'a>
    requires { most ≤ length text.now }
    ensures { refused_by {A = T} result ≡ overrun most text.now (outcome read.entry) }
{
    match read {
        Err(refused) if text.len().saturating_sub(refused.from.len()) <= most => refused,
        _ => Rule::Limit.at(&text[most..]),
    }
}

// What is read of the line in front, which may not be too long.
pub fn within_line<'a, T: Drop>(
    text: &'a [u8],
    read: Result<T, Refused<'a>>,
) -> Result<T, Refused<'a>>
    ensures { outcome result ≡ in_line text.now (outcome read.entry) }
{
    if is_too_long(text) {
        return Err(cut_off(text, LINE, read));
    }
    read
}
