// The set of the channels that leave a node and take a record (document 02, 2026-06), by the plan at a state's front. Channels rise by their sender, so those of a node stand together.
ghost use Rattle.std.specs.Prelude.{◌≡◌, ◌<◌};
ghost use Rattle.plan.specs.Plan.{plan_of, plan_nodes, is_sink};
ghost use Rattle.plan.specs.Mask.{set_of};
ghost use Rattle.buffer.specs.Ready.{Ready, OnChannel};
ghost use Rattle.buffer.specs.Sets.{LeaveFrom, Begin, BitOf};

use crate::look;
use plan::Record;

// Where the channels that leave a node begin: at a channel before which none does, or behind it.
pub fn leaving_from(s: &[u8], n: usize, from: usize) -> usize
    requires { Ready s.now × LeaveFrom (plan_of s.now) n from }
    ensures { Begin (plan_of s.now) n result }
{
    let m = look::channel_count(s);
    for b in from..m {
        if n <= look::sender_of(s, b) {
            return b;
        }
    }
    m.max(from)
}

// Whether no channel leaves a node, by where they would begin.
pub fn none_leaves(s: &[u8], n: usize, first: usize) -> bool
    requires { Ready s.now × Begin (plan_of s.now) n first }
    ensures { result ≡ is_sink (plan_of s.now) n }
{
    if look::channel_count(s) <= first {
        return true;
    }
    look::sender_of(s, first) != n
}

// The set of the channels that leave a node and take a record; the first of them is given.
pub fn set_for(s: &[u8], n: usize, first: usize, r: Record) -> u8
    requires { Ready s.now × (n < plan_nodes s.now) × Begin (plan_of s.now) n first }
    ensures { result ≡ set_of (plan_of s.now) n r }
{
    let mut set: u8 = 0;
    let mut bit: u8 = 1;
    for b in first..look::channel_count(s) {
        if look::sender_of(s, b) != n {
            return set;
        }
        let takes = plan::channels::channel_takes(look::channel_of(s, b), r);
        set += u8::from(takes) * bit;
        bit *= 2;
    }
    set
}

// Which bit of its sender's sets is a channel's: the number of channels of the same sender that stand before it.
pub fn bit_of(s: &[u8], b: usize) -> u8
    requires { OnChannel s.now b }
    ensures { BitOf (plan_of s.now) b result }
{
    let n = look::sender_of(s, b);
    let mut bit: u8 = 0;
    for k in (0..b).rev() {
        if look::sender_of(s, k) != n {
            return bit;
        }
        bit += 1;
    }
    bit
}
