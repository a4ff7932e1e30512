// Bytes of a lent buffer, read and written in place. Numbers are big-endian.
ghost use Rattle.std.specs.Prelude.{◌≡◌, ◌+◌, ◌*◌, ◌^◌, ◌-◌, ◌≤◌, length, take, drop, replicate, ◌++◌};
ghost use Rattle.basics.specs.Put.{put};
ghost use Rattle.plan.specs.Layout.{spelled, bytes_of};
ghost use Rattle.buffer.specs.Words.{number64, with_number64};
ghost use Rattle.buffer.specs.Zero.{zero_bytes};

// The byte at a place.
pub fn get8(s: &[u8], at: usize) -> u8
    requires { at + 1 ≤ length s.now }
    ensures { result ≡ spelled 0 (take 1 (drop at s.now)) }
{
    s[at]
}

// A number at a place, and a number written there: its own from_be_bytes and to_be_bytes, of which there is no trait.

// The number that two bytes spell.
pub fn get16(s: &[u8], at: usize) -> u16
    requires { at + 2 ≤ length s.now }
    ensures { result ≡ spelled 0 (take 2 (drop at s.now)) }
{
    u16::from_be_bytes([s[at], s[at + 1]])
}

// The number that four bytes spell.
pub fn get32(s: &[u8], at: usize) -> u32
    requires { at + 4 ≤ length s.now }
    ensures { result ≡ spelled 0 (take 4 (drop at s.now)) }
{
    u32::from_be_bytes([s[at], s[at + 1], s[at + 2], s[at + 3]])
}

// The order of eight bytes, in halves of four. By sums and not by from_be_bytes, which makes one load of all eight: where a caller looks at a part of the number, as the check of a log does, its bytes are then read alone (a full check was 15 in a hundred slower).
fn spell32(a: u8, b: u8, c: u8, d: u8) -> u32
    ensures { result ≡ ((a * 256 + b) * 256 + c) * 256 + d }
{
    ((u32::from(a) * 256 + u32::from(b)) * 256 + u32::from(c)) * 256 + u32::from(d)
}

fn spell64(a: u8, b: u8, c: u8, d: u8, e: u8, f: u8, g: u8, h: u8) -> u64
    ensures { result ≡ a * 256 ^ 7 + b * 256 ^ 6 + c * 256 ^ 5 + d * 256 ^ 4 + e * 256 ^ 3 + f * 256 ^ 2 + g * 256 + h }
{
    u64::from(spell32(a, b, c, d)) * 4_294_967_296 + u64::from(spell32(e, f, g, h))
}

// The number that eight bytes spell.
pub fn get64(s: &[u8], at: usize) -> u64
    requires { at + 8 ≤ length s.now }
    ensures { result ≡ number64 at s.now }
{
    spell64(
        s[at],
        s[at + 1],
        s[at + 2],
        s[at + 3],
        s[at + 4],
        s[at + 5],
        s[at + 6],
        s[at + 7],
    )
}

// Whether the bytes from a place up to another are all 0. They are or-ed together and tested once, so that the compiler takes many at a time.
pub fn all_zero(s: &[u8], from: usize, to: usize) -> bool
    requires { (from ≤ to) × (to ≤ length s.now) }
    ensures { result ≡ zero_bytes (take (to - from) (drop from s.now)) }
{
    let mut seen: u8 = 0;
    for b in &s[from..to] {
        seen |= *b;
    }
    seen == 0
}

// The bytes from a place up to another become 0.
pub fn fill_zero(s: &mut [u8], from: usize, to: usize)
    requires { (from ≤ to) × (to ≤ length s.old) }
    ensures { s.new ≡ take from s.old ++ replicate (to - from) 0 ++ drop to s.old }
{
    s[from..to].fill(0);
}

// One slice to the front of another.
pub fn copy_to(from: &[u8], to: &mut [u8])
    requires { length from.now ≤ length to.old }
    ensures { to.new ≡ from.now ++ drop (length from.now) to.old }
{
    // Not copy_from_slice, which would call memmove: the libraries for C ask for no such name.
    for i in 0..from.len() {
        to[i] = from[i];
    }
}

// A byte at a place.
pub fn put8(s: &mut [u8], at: usize, v: u8)
    requires { at + 1 ≤ length s.old }
    ensures { s.new ≡ put s.old at (bytes_of 1 v) }
{
    s[at] = v;
}

// A number in two bytes.
pub fn put16(s: &mut [u8], at: usize, v: u16)
    requires { at + 2 ≤ length s.old }
    ensures { s.new ≡ put s.old at (bytes_of 2 v) }
{
    s[at..at + 2].copy_from_slice(&v.to_be_bytes());
}

// A number in four bytes.
pub fn put32(s: &mut [u8], at: usize, v: u32)
    requires { at + 4 ≤ length s.old }
    ensures { s.new ≡ put s.old at (bytes_of 4 v) }
{
    s[at..at + 4].copy_from_slice(&v.to_be_bytes());
}

// A number in eight bytes.
pub fn put64(s: &mut [u8], at: usize, v: u64)
    requires { at + 8 ≤ length s.old }
    ensures { s.new ≡ with_number64 at v s.old }
{
    s[at..at + 8].copy_from_slice(&v.to_be_bytes());
}
