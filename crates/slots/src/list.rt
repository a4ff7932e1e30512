// A list in a node's page or a channel's block: its count, and slots of one size behind it.
ghost use Rattle.std.specs.Prelude.{◌≡◌, ◌++◌, ◌+◌, ◌*◌, ◌≤◌, ◌<◌, ◌-◌, take, drop, replicate, length};
ghost use Rattle.basics.specs.Put.{put};
ghost use Rattle.plan.specs.Layout.{bytes_of};
ghost use Rattle.slots.specs.List.{count_in, Whole};

use buffer::{bytes, layout};

// Where it lies behind its page's or block's first byte, and a slot's size.
#[derive(Clone, Copy)]
pub struct SlotList {
    pub at: usize,
    pub slot: usize,
}

pub const LOG: SlotList = SlotList {
    at: layout::LOG,
    slot: layout::ENTRY_SIZE,
};

pub const HELD: SlotList = SlotList {
    at: layout::HELD,
    slot: layout::HELD_SIZE,
};

pub const TARGETS: SlotList = SlotList {
    at: layout::TARGETS,
    slot: layout::TARGET_SIZE,
};

pub const QUEUE: SlotList = SlotList {
    at: layout::QUEUE,
    slot: layout::MESSAGE_SIZE,
};

impl SlotList {
    // How many it has, in the page or block that begins at a place.
    pub fn count(self, s: &[u8], from: usize) -> usize
        requires { from + self.at + 4 ≤ length s.now }
        ensures { result ≡ count_in (from + self.at) s.now }
    {
        bytes::get32(s, from + self.at) as usize
    }

    // Where a slot begins.
    pub fn place(self, from: usize, i: usize) -> usize
        requires { (from + self.at + 4 < 65_536) × (self.slot < 65_536) × (i < 65_536) }
        ensures { result ≡ from + self.at + 4 + self.slot * i }
    {
        from + self.at + layout::COUNT + self.slot * i
    }

    // One more is counted: where its slot begins.
    pub fn add(self, s: &mut [u8], from: usize) -> usize
        requires { Whole self s.old from }
        ensures counted { s.new ≡ put s.old (from + self.at) (bytes_of 4 (count_in (from + self.at) s.old + 1)) }
        ensures place { result ≡ from + self.at + 4 + self.slot * count_in (from + self.at) s.old }
    {
        let count = bytes::get32(s, from + self.at);
        bytes::put32(s, from + self.at, count + 1);
        self.place(from, count as usize)
    }

    // Emptied: its count and the slots used become 0.
    pub fn clear(self, s: &mut [u8], from: usize)
        requires { Whole self s.old from }
        ensures { let end = from + self.at + 4 + self.slot * count_in (from + self.at) s.old in s.new ≡ take (from + self.at) s.old ++ replicate (end - (from + self.at)) 0 ++ drop end s.old }
    {
        let end = self.place(from, self.count(s, from));
        bytes::fill_zero(s, from + self.at, end);
    }
}
