// What stands in rows: of lent slices, by its place, and of texts, each entry after a space.
ghost use Rattle.std.specs.Prelude.{◌≡◌, ◌==◌, ◌&&◌, ℕ, Bool, List, position, take, slice_index_or};
ghost use Rattle.grammar.specs.Check.{decimal};
ghost use Rattle.grammar.specs.Syntax.{is_name};
ghost use Rattle.words.specs.Words.{pack, unpack};
ghost use Rattle.text.specs.Named.{digits};
ghost use Rattle.text.specs.Parts.{ReadAt, is_small};
ghost use Rattle.text.specs.Written.{Writes};

use super::loader::{name_at, number_at};
use super::writer::Out;

// The item at k, or another where there is none.
pub fn nth<T: Copy>(items: &[T], k: usize, none: T) -> T
    ensures { result ≡ slice_index_or items.now k none }
{
    items.get(k).copied().unwrap_or(none)
}

// The first k.
pub fn first<T>(items: &[T], k: usize) -> &[T]
    ensures { result.now ≡ take k items.now }
{
    items.get(..k).unwrap_or(items)
}

// The first place of a name.
pub fn position_of(names: &[u64], name: u64) -> Option<usize>
    ensures { result ≡ position (λ n. n == name) names.now }
{
    names.iter().position(|n| *n == name)
}

// What stands in a row of a text: a number, or a packed name. bytes are what is written of it; value is what bytes that are good are read as.
pub trait Entry: Copy {
    ghost bytes: { Self → List ℕ };

    ghost good: { List ℕ → Bool };

    ghost value: { List ℕ → Self };

    fn write(self, out: &mut Out<'_>) -> Option<()>
        ensures { Writes (bytes self) out.old out.new result };

    fn read(text: &[u8]) -> (Self, &[u8])
        ensures { ReadAt good value text.now result.0 result.1.now };
}

impl Entry for u32 {
    ghost bytes = { digits };

    ghost good = { is_small };

    ghost value = { λ ds. decimal 0 ds };

    fn write(self, out: &mut Out<'_>) -> Option<()> {
        out.write_number(self as u64)
    }

    fn read(text: &[u8]) -> (u32, &[u8]) {
        number_at(text)
    }
}

impl Entry for u64 {
    ghost bytes = { unpack };

    ghost good = { is_name };

    ghost value = { pack };

    fn write(self, out: &mut Out<'_>) -> Option<()> {
        out.write_name(self)
    }

    fn read(text: &[u8]) -> (u64, &[u8]) {
        name_at(text)
    }
}
