// What stands in a letter in always as many bytes: numbers, the lowest byte first, and messages and lines, one field behind another.

ghost use Rattle.std.specs.Prelude.{◌≡◌, ℕ, ◌+◌, ◌^◌, ◌≤◌, Bool, nat_lt, List, ◌++◌, length, take, drop};
ghost use Rattle.letters.specs.Letters.{little, value_of, message_bytes, message_of, message_fits, line_bytes, line_of, line_fits};
ghost use Rattle.letters.specs.Promise.{IsReadBack};
ghost use Rattle.letters.specs.Back.{long_back, int_back, message_back, line_back};

use meaning::{Line, Message};

pub trait Wire: Copy {
    // How many bytes it takes.
    const SIZE: usize;

    ghost SIZE: { ℕ };

    // Its bytes, what bytes stand for, and whether its fields fit their types.
    ghost bytes_of: { Self → List ℕ };

    ghost of_bytes: { List ℕ → Self };

    ghost fits: { Self → Bool };

    // Writes it from a place on, and nothing else.
    fn write(self, out: &mut [u8], at: usize)
        requires { at + SIZE ≤ length out.old }
        ensures { out.new ≡ take at out.old ++ (bytes_of self ++ drop (at + SIZE) out.old) };

    // What the bytes from a place on are.
    fn read(bytes: &[u8], at: usize) -> Self
        requires { at + SIZE ≤ length bytes.now }
        ensures reads { result ≡ of_bytes (take SIZE (drop at bytes.now)) }
        ensures exact { bytes_of result ≡ take SIZE (drop at bytes.now) };

    // What fits its type is read back from its bytes.
    ghost back: { IsReadBack SIZE bytes_of of_bytes fits };
}

// The two impls for numbers stand apart, since the bytes of a number are methods of each type, and of no trait.
impl Wire for u32 {
    const SIZE: usize = 4;

    ghost SIZE = { 4 };

    ghost bytes_of = { λ n. little n 4 };

    ghost of_bytes = { value_of };

    ghost fits = { λ n. nat_lt n (2 ^ 32) };

    #[tactic(auto, using(crate::proofs::Numbers::number_written))]
    fn write(self, out: &mut [u8], at: usize) {
        out[at..at + Self::SIZE].copy_from_slice(&self.to_le_bytes());
    }

    fn read(bytes: &[u8], at: usize) -> u32 {
        u32::from_le_bytes(bytes[at..at + Self::SIZE].try_into().unwrap())
    }

    ghost back = { int_back };
}

impl Wire for u64 {
    const SIZE: usize = 8;

    ghost SIZE = { 8 };

    ghost bytes_of = { λ n. little n 8 };

    ghost of_bytes = { value_of };

    ghost fits = { λ n. nat_lt n (2 ^ 64) };

    #[tactic(auto, using(crate::proofs::Numbers::number_written))]
    fn write(self, out: &mut [u8], at: usize) {
        out[at..at + Self::SIZE].copy_from_slice(&self.to_le_bytes());
    }

    fn read(bytes: &[u8], at: usize) -> u64 {
        u64::from_le_bytes(bytes[at..at + Self::SIZE].try_into().unwrap())
    }

    ghost back = { long_back };
}

impl Wire for Message {
    const SIZE: usize = 28;

    ghost SIZE = { 28 };

    ghost bytes_of = { message_bytes };

    ghost of_bytes = { message_of };

    ghost fits = { message_fits };

    fn write(self, out: &mut [u8], at: usize) {
        self.time.write(out, at);
        self.to.write(out, at + 8);
        self.from.write(out, at + 12);
        self.count.write(out, at + 16);
        self.number.write(out, at + 24);
    }

    fn read(bytes: &[u8], at: usize) -> Message {
        let part = &bytes[at..at + Self::SIZE];
        Message {
            time: u64::read(part, 0),
            to: u32::read(part, 8),
            from: u32::read(part, 12),
            count: u64::read(part, 16),
            number: u32::read(part, 24),
        }
    }

    ghost back = { message_back };
}

impl Wire for Line {
    const SIZE: usize = 16;

    ghost SIZE = { 16 };

    ghost bytes_of = { line_bytes };

    ghost of_bytes = { line_of };

    ghost fits = { line_fits };

    fn write(self, out: &mut [u8], at: usize) {
        self.time.write(out, at);
        self.process.write(out, at + 8);
        self.number.write(out, at + 12);
    }

    fn read(bytes: &[u8], at: usize) -> Line {
        let part = &bytes[at..at + Self::SIZE];
        Line {
            time: u64::read(part, 0),
            process: u32::read(part, 8),
            number: u32::read(part, 12),
        }
    }

    ghost back = { line_back };
}
