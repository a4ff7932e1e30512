// A channel: read in place, and whether it takes a record (document 01, "A belt takes a record if .."; document 02, 2026-02 for its window of masses, 2026-05 for ticks).
ghost use Rattle.std.specs.Prelude.{◌≡◌, cond, ◌+◌, ◌%◌, ◌<◌, take, drop};
ghost use Rattle.plan.specs.Layout.{spelled};
ghost use Rattle.plan.specs.Channel.{bit_set, takes};
ghost use Rattle.plan.specs.Plan.{plan_of, channel_at};

use crate::{Channel, Record, bytes, records};

// Bit i of a mask, bit 0 lowest.
fn bit_set(mask: u16, i: u8) -> bool
    ensures { result ≡ bit_set mask i }
{
    i <= 15 && (mask >> i) % 2 == 1
}

// A piece number's remainder; by 0 it is the number itself. By 1, which most channels have, nothing is divided.
fn left_over(piece: u32, modulus: u8) -> u32
    ensures { result ≡ piece % modulus }
{
    match modulus {
        0 => piece,
        1 => 0,
        _ => piece % u32::from(modulus),
    }
}

// Whether a channel takes a record, by its fields (records.rt says why); whether it is a tick is asked last.
pub fn takes_fields(c: Channel, piece: u32, material: u8, mass: u16) -> bool
    ensures { result ≡ takes c (record { piece = piece; material = material; mass = mass }) }
{
    let bit = bit_set(c.mask, material);
    let left = left_over(piece, c.modulus);
    if bit & (left == u32::from(c.remainder)) & ((c.least <= mass) & (mass <= c.greatest)) {
        return true;
    }
    records::is_tick(piece, material, mass)
}

// Whether a channel takes a record. Beside takes_fields, whose caller has the fields in registers.
pub fn channel_takes(c: Channel, r: Record) -> bool
    ensures { result ≡ takes c r }
{
    takes_fields(c, r.piece, r.material, r.mass)
}

// The number of two bytes at i, where the plan has windows; else what stands for it.
fn bound_at(plan: &[u8], i: usize, windows: bool, other: u16) -> u16
    ensures { result ≡ cond windows (spelled 0 (take 2 (drop i plan.now))) other }
{
    if windows {
        bytes::word_at(plan, i)
    } else {
        other
    }
}

// A channel, read in place.
pub fn channel_at(plan: &[u8], channel: usize) -> Channel
    ensures { result ≡ channel_at (plan_of plan.now) channel }
{
    if bytes::channel_count(plan) <= channel {
        return Channel::default();
    }
    let at = bytes::channel_from(plan, channel);
    let windows = bytes::has_windows(plan);
    let least = bound_at(plan, at + 6, windows, 0);
    let greatest = bound_at(plan, at + 8, windows, 65_535);
    // In every plan that is not refused six bytes are there: by themselves, no test is made of each.
    if at + 6 <= plan.len() {
        return Channel {
            sender: plan[at],
            receiver: plan[at + 1],
            mask: u16::from_be_bytes([plan[at + 2], plan[at + 3]]),
            modulus: plan[at + 4],
            remainder: plan[at + 5],
            least,
            greatest,
        };
    }
    Channel {
        sender: bytes::byte_at(plan, at),
        receiver: bytes::byte_at(plan, at + 1),
        mask: bytes::word_at(plan, at + 2),
        modulus: bytes::byte_at(plan, at + 4),
        remainder: bytes::byte_at(plan, at + 5),
        least,
        greatest,
    }
}
