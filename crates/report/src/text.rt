// A text that is written into a lent buffer: bytes, words and numbers, one behind the other.
ghost use Rattle.std.specs.Prelude.{◌≡◌, [], ◌∷◌, ◌++◌, ◌+◌, ◌*◌, ◌≤◌, ◌<◌, length};
ghost use Rattle.rules.specs.Sheet.{decimal as Sheet·decimal};
ghost use Rattle.report.specs.Most.{digits_most, number_most};
ghost use Rattle.report.specs.Writes.{Room, Writes};

use itoa::Buffer;

// The buffer, and the place behind what is written.
#[derive(Drop)]
pub struct Text<'a> {
    pub out: &'a mut [u8],
    pub at: usize,
}

impl<'a> Text<'a> {
    // Nothing is written yet.
    pub fn new(out: &'a mut [u8]) -> Text<'a>
        ensures lent { result.out.ghost_name ≡ out.entry.ghost_name }
        ensures front { (result.out.now ≡ out.old) × (result.at ≡ 0) }
    {
        Text { out, at: 0 }
    }

    // One byte.
    pub fn byte(&mut self, b: u8)
        requires { Room 1 self.old }
        ensures { Writes 1 (b ∷ []) self.old self.new }
    {
        self.out[self.at] = b;
        self.at += 1;
    }

    // Fixed bytes.
    pub fn word(&mut self, w: &[u8])
        requires { Room (length w.now) self.old }
        ensures { Writes (length w.now) w.now self.old self.new }
    {
        let end = self.at + w.len();
        self.out[self.at..end].copy_from_slice(w);
        self.at = end;
    }

    // A number in decimal digits.
    pub fn decimal(&mut self, n: u64)
        requires { Room (length (Sheet·decimal n)) self.old }
        ensures { Writes digits_most (Sheet·decimal n) self.old self.new }
    {
        let mut digits = Buffer::new();
        self.word(digits.format(n).as_bytes());
    }

    // A byte, and a number behind it.
    pub fn byte_and_number(&mut self, b: u8, n: u32)
        requires { Room (1 + number_most) self.old }
        ensures { Writes (1 + number_most) (b ∷ Sheet·decimal n) self.old self.new }
    {
        self.byte(b);
        self.decimal(u64::from(n));
    }

    // Two numbers, each behind a space.
    pub fn two_numbers(&mut self, first: u32, second: u32)
        requires { Room (2 * (1 + number_most)) self.old }
        ensures { Writes (2 * (1 + number_most)) ((32 ∷ Sheet·decimal first) ++ (32 ∷ Sheet·decimal second)) self.old self.new }
    {
        self.byte_and_number(b' ', first);
        self.byte_and_number(b' ', second);
    }
}
