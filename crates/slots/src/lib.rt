// What stands in the slots (docs/LAYOUT.md), read and written at an offset: records, what something was made from, messages, log entries, held records and targets. A record's eight bytes go as one number. Messages move up by one slot, log entries by several.
#![tactic(auto)]

ghost use Rattle.std.specs.Prelude.{◌≡◌, ℕ, List, ◌++◌, ◌+◌, ◌*◌, ◌≤◌, ◌<◌, length, take, drop, replicate};
ghost use Rattle.basics.specs.Put.{put};
ghost use Rattle.plan.specs.Record.{record_layout};
ghost use Rattle.rules.specs.Line.{fed, made};
ghost use Rattle.state.specs.Pieces.{origin_layout, message_layout, entry_layout, held_layout, target_layout};
ghost use Rattle.slots.specs.Sizes.{record-long, origin-long, message-long, entry-long, held-long, target-long};
ghost use Rattle.slots.specs.Slots.{SenderIs, origin_is, message_is, entry_is, held_is, target_is};

use buffer::{bytes, layout, record};
use plan::Record;

pub mod list;

// What something was made from: 0 for nothing, else the sender and 1; and the sender's time.
#[derive(Clone, Copy, Debug, PartialEq, Eq)]
pub struct Made {
    pub from: u8,
    pub time: u32,
}

impl Made {
    pub fn nothing() -> Made
        ensures { origin_is result ≡ fed }
    {
        Made { from: 0, time: 0 }
    }

    // From a sender's message, which has its time.
    pub fn by(sender: u8, time: u32) -> Made
        requires { sender < 255 }
        ensures { origin_is result ≡ made sender time }
    {
        Made {
            from: sender + 1,
            time,
        }
    }

    // The sender, if it was made from something; its time is the field's.
    pub fn sender(self) -> Option<usize>
        ensures { SenderIs self result }
    {
        if self.from == 0 {
            return None;
        }
        Some(usize::from(self.from - 1))
    }
}

// A message on a channel.
#[derive(Clone, Copy)]
pub struct Sent {
    pub what: Record,
    pub time: u32,
    pub made: Made,
}

// A log entry, with the set of channels that take it.
#[derive(Clone, Copy)]
pub struct Logged {
    pub what: Record,
    pub time: u32,
    pub made: Made,
    pub before: Made,
    pub set: u8,
}

// A held record.
#[derive(Clone, Copy)]
pub struct Waiting {
    pub what: Record,
    pub sender: u8,
    pub time: u32,
    pub before: Made,
}

// A target: the node's time, the parent and the parent's time, which order targets in turn.
#[derive(Clone, Copy, Debug, PartialEq, Eq, PartialOrd, Ord)]
pub struct Goal {
    pub time: u32,
    pub parent: u32,
    pub sent: u32,
}

// What stands at an offset in a line's bytes: read, and written with the unused bytes of its slot.
pub trait Piece: Copy {
    ghost SIZE: { ℕ };

    // What it is that some bytes are read as, and the bytes that it is written as.
    ghost is_read: { Self → List ℕ → Type 0 };

    ghost written: { Self → List ℕ };

    // Whether it fits in its bytes.
    ghost fits: { Self → Type 0 };

    const SIZE: usize;

    fn read(s: &[u8], at: usize) -> Self
        requires { at + SIZE ≤ length s.now }
        ensures { is_read result (take SIZE (drop at s.now)) };

    fn write(self, s: &mut [u8], at: usize)
        requires { (at + SIZE ≤ length s.old) × fits self }
        ensures { s.new ≡ put s.old at (written self) };

    ghost sized: { (x : Self) → length (written x) ≡ SIZE };
}

// A record's eight bytes go as one number.
impl Piece for Record {
    ghost SIZE = { 8 };

    ghost is_read = { λ r bs. r ≡ record_layout.read bs };

    ghost written = { record_layout.write };

    ghost fits = { λ _. Unit {0} };

    const SIZE: usize = 8;

    fn read(s: &[u8], at: usize) -> Record {
        record::record_of(bytes::get64(s, at))
    }

    fn write(self, s: &mut [u8], at: usize) {
        bytes::put64(s, at, record::number_of(self));
    }

    ghost sized = { record-long };
}

impl Piece for Made {
    ghost SIZE = { 5 };

    ghost is_read = { λ m bs. origin_is m ≡ origin_layout.read bs };

    ghost written = { λ m. origin_layout.write (origin_is m) };

    ghost fits = { λ _. Unit {0} };

    const SIZE: usize = 5;

    fn read(s: &[u8], at: usize) -> Made {
        Made {
            from: s[at],
            time: bytes::get32(s, at + 1),
        }
    }

    // The time beside nothing is 0.
    fn write(self, s: &mut [u8], at: usize) {
        bytes::put8(s, at, self.from);
        bytes::put32(s, at + 1, if self.from == 0 { 0 } else { self.time });
    }

    ghost sized = { λ m. origin-long (origin_is m) };
}

impl Piece for Sent {
    ghost SIZE = { 20 };

    ghost is_read = { λ m bs. message_is m ≡ message_layout.read bs };

    ghost written = { λ m. message_layout.write (message_is m) };

    ghost fits = { λ _. Unit {0} };

    const SIZE: usize = layout::MESSAGE_SIZE;

    fn read(s: &[u8], at: usize) -> Sent {
        Sent {
            what: Record::read(s, at),
            time: bytes::get32(s, at + 8),
            made: Made::read(s, at + 12),
        }
    }

    fn write(self, s: &mut [u8], at: usize) {
        self.what.write(s, at);
        bytes::put32(s, at + 8, self.time);
        self.made.write(s, at + 12);
        bytes::put16(s, at + 17, 0);
        bytes::put8(s, at + 19, 0);
    }

    ghost sized = { λ m. message-long (message_is m) };
}

impl Piece for Logged {
    ghost SIZE = { 24 };

    ghost is_read = { λ e bs. entry_is e ≡ entry_layout.read bs };

    ghost written = { λ e. entry_layout.write (entry_is e) };

    ghost fits = { λ _. Unit {0} };

    const SIZE: usize = layout::ENTRY_SIZE;

    fn read(s: &[u8], at: usize) -> Logged {
        Logged {
            what: Record::read(s, at),
            time: bytes::get32(s, at + 8),
            made: Made::read(s, at + 12),
            before: Made::read(s, at + 17),
            set: s[at + 22],
        }
    }

    fn write(self, s: &mut [u8], at: usize) {
        self.what.write(s, at);
        bytes::put32(s, at + 8, self.time);
        self.made.write(s, at + 12);
        self.before.write(s, at + 17);
        bytes::put8(s, at + 22, self.set);
        bytes::put8(s, at + 23, 0);
    }

    ghost sized = { λ e. entry-long (entry_is e) };
}

impl Piece for Waiting {
    ghost SIZE = { 20 };

    ghost is_read = { λ h bs. held_is h ≡ held_layout.read bs };

    ghost written = { λ h. held_layout.write (held_is h) };

    ghost fits = { λ _. Unit {0} };

    const SIZE: usize = layout::HELD_SIZE;

    fn read(s: &[u8], at: usize) -> Waiting {
        Waiting {
            what: Record::read(s, at),
            sender: s[at + 8],
            time: bytes::get32(s, at + 9),
            before: Made::read(s, at + 13),
        }
    }

    fn write(self, s: &mut [u8], at: usize) {
        self.what.write(s, at);
        bytes::put8(s, at + 8, self.sender);
        bytes::put32(s, at + 9, self.time);
        self.before.write(s, at + 13);
        bytes::put16(s, at + 18, 0);
    }

    ghost sized = { λ h. held-long (held_is h) };
}

// The parent is a node's number.
impl Piece for Goal {
    ghost SIZE = { 12 };

    ghost is_read = { λ g bs. target_is g ≡ target_layout.read bs };

    ghost written = { λ g. target_layout.write (target_is g) };

    ghost fits = { λ g. g.parent < 256 };

    const SIZE: usize = layout::TARGET_SIZE;

    fn read(s: &[u8], at: usize) -> Goal {
        Goal {
            time: bytes::get32(s, at),
            parent: u32::from(s[at + 8]),
            sent: bytes::get32(s, at + 4),
        }
    }

    fn write(self, s: &mut [u8], at: usize) {
        bytes::put32(s, at, self.time);
        bytes::put32(s, at + 4, self.sent);
        bytes::put8(s, at + 8, self.parent as u8);
        bytes::put8(s, at + 9, 0);
        bytes::put16(s, at + 10, 0);
    }

    ghost sized = { λ g. target-long (target_is g) };
}

// A slot to one before it, eight bytes at a time, so that its record goes as one number (document 02, 2026-03), and what is left of it.
fn move_slot(s: &mut [u8], from: usize, to: usize, size: usize)
    requires { (to ≤ from) × (from + size ≤ length s.old) }
    ensures { s.new ≡ put s.old to (take size (drop from s.old)) }
{
    let words = size / 8;
    for k in 0..words {
        let word = bytes::get64(s, from + 8 * k);
        bytes::put64(s, to + 8 * k, word);
    }
    s.copy_within(from + 8 * words..from + size, to + 8 * words);
}

// So many slots move up over as many as are gone before them; those freed behind become 0.
pub fn close_up<T: Piece>(s: &mut [u8], at: usize, gone: usize, count: usize)
    requires { at + T.SIZE * gone + T.SIZE * count ≤ length s.old }
    ensures { s.new ≡ put s.old at (take (T.SIZE * count) (drop (at + T.SIZE * gone) s.old) ++ replicate (T.SIZE * gone) 0) }
{
    let size = T::SIZE;
    let gap = size * gone;
    for i in 0..count {
        let to = at + size * i;
        move_slot(s, to + gap, to, size);
    }
    let last = at + size * count;
    bytes::fill_zero(s, last, last + gap);
}
