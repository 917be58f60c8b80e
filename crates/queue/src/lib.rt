// Messages that wait, in a row that the caller lends: the first `len` places are in use, and the last in use is the
// first to be handled. So taking the first moves nothing, and putting one in moves only those that come before it. The length stands beside
// the row: it is a field of a struct that callers in C lend, so that a struct of both would be made anew for each call.
#![tactic(auto)]

ghost use Rattle.std.specs.Prelude.{◌≡◌, ◌+◌, ◌<◌, length, MatchOption, MatchResult};
ghost use Rattle.meaning.specs.Model.{before};
ghost use Rattle.meaning.specs.Promise.{Sorted};
ghost use Rattle.queue.specs.Row.{Fresh, Inserted, InsertedAll, Refused, Taken, Untaken, first_of, waiting};

use meaning::Message;

// Too few places are left for what was to be put in.
#[derive(Clone, Copy, Debug, PartialEq, Eq)]
pub struct Full;

// Whether a is handled before b: by time, then to whom, then from whom, then count. No Ord: two messages with one key may carry other
// numbers, and are not equal. The time stands by itself, since `place` asks for each message that it moves, and times mostly differ.
pub fn is_before(a: Message, b: Message) -> bool
    ensures { result ≡ before a b }
{
    if a.time != b.time {
        a.time < b.time
    } else {
        (a.to, a.from, a.count) < (b.to, b.from, b.count)
    }
}

// The first to be handled.
pub fn first(row: &[Message], len: usize) -> Option<Message>
    ensures { result ≡ first_of row.now len }
{
    row.get(..len)?.last().copied()
}

// The first to be handled, which then waits no more.
pub fn take_first(row: &[Message], len: &mut usize) -> Option<Message>
    ensures first { result ≡ first_of row.now len.old }
    ensures left { MatchOption result
        (Untaken row.now len.old len.new)
        (λ x. Taken x row.now len.old len.new) }
    ensures in_order { Sorted (waiting row.now len.old) → Sorted (waiting row.now len.new) }
{
    let x = first(row, *len)?;
    *len -= 1;
    Some(x)
}

// Puts m in where it belongs; the row has a place for it. Looking for the place and then moving the others by `copy_within` takes
// twice as long as this one pass.
fn place(row: &mut [Message], len: usize, m: Message)
    requires { len < length row.old }
    ensures { Inserted m row.old len row.new (len + 1) }
{
    for at in (0..len).rev() {
        let other = row[at];
        if is_before(m, other) {
            row[at + 1] = m;
            return;
        }
        row[at + 1] = other;
    }
    row[0] = m;
}

// Puts m in where it belongs, unless the row is full.
pub fn insert(row: &mut [Message], len: &mut usize, m: Message) -> Result<(), Full>
    ensures inserted { MatchResult result
        (λ _. Inserted m row.old len.old row.new len.new)
        (λ _. Refused 1 row.old len.old row.new len.new) }
    ensures in_order { Sorted (waiting row.old len.old)
        → Fresh m (waiting row.old len.old)
        → Sorted (waiting row.new len.new) }
{
    if *len >= row.len() {
        return Err(Full);
    }
    place(row, *len, m);
    *len += 1;
    Ok(())
}

// Puts each of more in where it belongs, or none of them if the row has too few places.
pub fn insert_all(row: &mut [Message], len: &mut usize, more: &[Message]) -> Result<(), Full>
    ensures { MatchResult result
        (λ _. InsertedAll more.now row.old len.old row.new len.new)
        (λ _. Refused (length more.now) row.old len.old row.new len.new) }
{
    if *len > row.len() || more.len() > row.len() - *len {
        return Err(Full);
    }
    for m in more {
        place(row, *len, *m);
        *len += 1;
    }
    Ok(())
}
