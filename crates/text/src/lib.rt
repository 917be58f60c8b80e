// Texts and the lent slices that a model is played from.
#![tactic(auto)]

ghost use Rattle.text.specs.Promise.{DigitsRead, FilledHolds};

mod entries;
pub mod laws;
mod loader;
pub mod play;
pub mod stage;
mod writer;

pub use loader::{Amounts, Lent, fill, load};
pub use writer::{Model, write};

// The digits of a number are read as that number.
pub fn digits_read()
    ensures { DigitsRead }
{}

// Slices that a text fills hold what the text says.
pub fn filled_holds()
    ensures { FilledHolds }
{}
