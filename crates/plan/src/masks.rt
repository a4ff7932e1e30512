// Sets of channels: as an iterator, and the masks that they lie in.
ghost use Rattle.std.specs.Prelude.{◌≡◌, Bool, [], not, ◌+◌, ◌-◌, ◌^◌, ◌≤◌, ◌<◌};
ghost use Rattle.std.specs.Iterator.{YieldsFirst, item_count};
ghost use Rattle.plan.specs.declared.Channel.{Channel};
ghost use Rattle.plan.specs.Plan.{plan_of, plan_channels, is_none, entering, leaving};
ghost use Rattle.plan.specs.Mask.{listed, among, takes_at, some_takes, plan_mask, Tests, Passing, CountOf, FirstOf, TakingOf};

use crate::{Record, bytes, channels};

// Some of a plan's channels, rising (`listed`): a mask, bit b for channel b.
#[derive(Clone, Copy)]
pub struct Channels {
    mask: u32,
}

impl Iterator for Channels {
    type Item = usize;

    ghost next_gives = { YieldsFirst listed };

    ghost remaining = { item_count listed };

    // The lowest channel, which then goes.
    fn next(&mut self) -> Option<usize> {
        if self.mask == 0 {
            return None;
        }
        let b = mask_next(self.mask);
        self.mask -= 1 << b;
        Some(b as usize)
    }
}

impl Channels {
    pub fn is_empty(self) -> bool
        ensures { result ≡ is_none (listed self) }
    {
        self.mask == 0
    }

    // Those that take a record.
    pub fn taking(self, plan: &[u8], r: Record) -> Channels
        ensures { listed result ≡ among (takes_at (plan_of plan.now) r) (listed self) }
    {
        let mut mask: u32 = 0;
        for b in self {
            let c = channels::channel_at(plan, b);
            mask += u32::from(channels::channel_takes(c, r)) << b;
        }
        Channels { mask }
    }

    // Whether one of them takes a record, by its fields.
    pub fn some_takes(self, plan: &[u8], piece: u32, material: u8, mass: u16) -> bool
        ensures { result ≡ not (is_none (among (takes_at (plan_of plan.now) (record { piece = piece; material = material; mass = mass })) (listed self))) }
    {
        for b in self {
            if channels::takes_fields(channels::channel_at(plan, b), piece, material, mass) {
                return true;
            }
        }
        false
    }
}

// The channels whose ends pass a test; none where the plan has more than 24.
fn channels_where<F: Fn(u8, u8) -> bool>(plan: &[u8], passes: F) -> Channels
    requires { F.IsAlwaysCallable passes }
    ensures { (f : Channel → Bool) → Tests (F.post passes) f → Passing plan.now f result }
{
    let m = bytes::channel_count(plan);
    if 24 < m {
        return Channels { mask: 0 };
    }
    let mut mask: u32 = 0;
    for b in (0..m).rev() {
        let at = bytes::channel_from(plan, b);
        mask = 2 * mask + u32::from(passes(bytes::byte_at(plan, at), bytes::byte_at(plan, at + 1)));
    }
    Channels { mask }
}

// The channels that enter a node; none where the plan has more than 24.
pub fn entering(plan: &[u8], node: usize) -> Channels
    ensures few { plan_channels plan.now ≤ 24 → listed result ≡ entering (plan_of plan.now) node }
    ensures many { 24 < plan_channels plan.now → listed result ≡ [] }
{
    channels_where(plan, |_, receiver| usize::from(receiver) == node)
}

// The channels that leave a node; none where the plan has more than 24.
pub fn leaving(plan: &[u8], node: usize) -> Channels
    ensures few { plan_channels plan.now ≤ 24 → listed result ≡ leaving (plan_of plan.now) node }
    ensures many { 24 < plan_channels plan.now → listed result ≡ [] }
{
    channels_where(plan, |sender, _| usize::from(sender) == node)
}

// The same by masks, which stay beside the iterator: their promises are of any mask, for whoever calls the plan alone. Ones count a mask's channels, trailing zeros give the next (document 01).

// How many channels a mask has.
pub fn mask_count(mask: u32) -> u32
    ensures { CountOf mask result }
{
    mask.count_ones()
}

// The first channel of a mask, 32 if there is none.
pub fn mask_next(mask: u32) -> u32
    ensures { FirstOf mask result }
{
    mask.trailing_zeros()
}

// The channels that enter a node, as a mask.
pub fn entering_mask(plan: &[u8], node: usize) -> u32
    ensures { result ≡ plan_mask plan.now (entering (plan_of plan.now) node) }
{
    entering(plan, node).mask
}

// The channels that leave a node, as a mask.
pub fn leaving_mask(plan: &[u8], node: usize) -> u32
    ensures { result ≡ plan_mask plan.now (leaving (plan_of plan.now) node) }
{
    leaving(plan, node).mask
}

// A mask without a channel that is in it.
pub fn without(mask: u32, b: u32) -> u32
    requires { (b < 32) × (2 ^ b ≤ mask) }
    ensures { result ≡ mask - 2 ^ b }
{
    mask - (1 << b)
}

// Of a mask's channels those that take a record, as a mask.
pub fn taking_among(plan: &[u8], mask: u32, r: Record) -> u32
    ensures { TakingOf plan.now r mask result }
{
    Channels { mask }.taking(plan, r).mask
}

// Whether one of a mask's channels takes a record, by its fields.
pub fn some_takes(plan: &[u8], mask: u32, piece: u32, material: u8, mass: u16) -> bool
    ensures { result ≡ some_takes (plan_of plan.now) (record { piece = piece; material = material; mass = mass }) mask }
{
    Channels { mask }.some_takes(plan, piece, material, mass)
}
