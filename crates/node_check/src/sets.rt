// The sets in a node's log (document 02, 2026-06). Where every channel that leaves the node takes any piece and any mass, a set goes by the material alone and is looked up in a table; else the sets are looked at channel by channel.
ghost use Rattle.std.specs.Prelude.{◌≡◌, ◌+◌, ◌≤◌, ◌<◌, length};
ghost use Rattle.plan.specs.Plan.{plan_of, plan_nodes};
ghost use Rattle.rules.specs.Lists.{all_of};
ghost use Rattle.rules.specs.Line.{node_at};
ghost use Rattle.state.specs.State.{line_of};
ghost use Rattle.items.specs.Items.{set_right};
ghost use Rattle.buffer.specs.Ready.{Ready};
ghost use Rattle.buffer.specs.Sets.{Begin};
ghost use Rattle.node_check.specs.NodeCheck.{entry_in};
ghost use Rattle.node_check.specs.Sets.{LogOf, bit_right, none_past, is_open, Below, Added, Listed, material_table};

use crate::Page;
use buffer::{bytes, layout, look, record};
use plan::Channel;

// Whether a channel takes any piece and any mass: what it takes goes by the material.
fn is_open(c: Channel) -> bool
    ensures { result ≡ is_open c }
{
    (c.modulus == 1) & (c.least == 0) & (c.greatest == 65_535)
}

// A channel's bit is added to the sets of the materials that it takes, and to a tick's, which stands at 31.
fn add_channel(t: &mut [u8; 32], mask: u16, bit: u8)
    requires { (length t.old ≡ 32) × Below t.old bit × (bit ≤ 128) }
    ensures { Added t.old mask bit t.new }
{
    for i in 0..16 {
        t[i] += bit * ((mask >> i) % 2) as u8;
    }
    t[31] += bit;
}

// The sets by material; none where a channel is not open.
fn by_material(s: &[u8], n: usize, first: usize) -> Option<[u8; 32]>
    requires { Ready s.now × (n < plan_nodes s.now) × Begin (plan_of s.now) n first }
    ensures { material_table (plan_of s.now) n result }
{
    let mut sets: [u8; 32] = [0; 32];
    let mut bit: u8 = 1;
    for b in first..look::channel_count(s) {
        if look::sender_of(s, b) != n {
            return Some(sets);
        }
        let c = look::channel_of(s, b);
        if !is_open(c) {
            return None;
        }
        add_channel(&mut sets, c.mask, bit);
        bit *= 2;
    }
    Some(sets)
}

// A channel's bit, the k-th, in an entry's set.
fn bit_ok(s: &[u8], c: Channel, k: u8, at: usize) -> bool
    requires { (at + 24 ≤ length s.now) × (k < 8) }
    ensures { result ≡ bit_right c k (entry_in at s.now) }
{
    let what = record::record_of(bytes::get64(s, at));
    let takes = plan::channels::takes_fields(c, what.piece, what.material, what.mass);
    let set = s[at + 22];
    takes == ((set >> k) % 2 == 1)
}

impl Page<'_> {
    // The sets of so many entries, by the table: 255 % 32 is 31, and no other record has a material above 15.
    fn listed_ok(&self, sets: &[u8; 32], count: usize) -> bool
        requires { LogOf self.now.joins.state.now self.now.n self.now.at count × Listed (plan_of self.now.joins.state.now) self.now.n sets.now }
        ensures { result ≡ all_of (set_right (plan_of self.now.joins.state.now) self.now.n) (node_at (line_of self.now.joins.state.now) self.now.n).log }
    {
        let s = self.joins.state;
        (0..count).all(|i| {
            let slot = self.at + layout::LOG_SLOTS + layout::ENTRY_SIZE * i;
            s[slot + 22] == sets[usize::from(s[slot + 4]) % 32]
        })
    }

    // A channel's bit, the k-th, in the sets of so many entries.
    fn bits_ok(&self, c: Channel, k: u8, count: usize) -> bool
        requires { LogOf self.now.joins.state.now self.now.n self.now.at count × (k < 8) }
        ensures { result ≡ all_of (bit_right c k) (node_at (line_of self.now.joins.state.now) self.now.n).log }
    {
        let s = self.joins.state;
        (0..count).all(|i| bit_ok(
            s,
            c,
            k,
            self.at + layout::LOG_SLOTS + layout::ENTRY_SIZE * i,
        ))
    }

    // Whether the sets of so many entries have no bit from the k-th on.
    fn none_past(&self, k: u8, count: usize) -> bool
        requires { LogOf self.now.joins.state.now self.now.n self.now.at count × (k < 8) }
        ensures { result ≡ all_of (none_past k) (node_at (line_of self.now.joins.state.now) self.now.n).log }
    {
        let s = self.joins.state;
        (0..count).all(|i| {
            let slot = self.at + layout::LOG_SLOTS + layout::ENTRY_SIZE * i;
            (s[slot + 22] >> k) == 0
        })
    }

    // The sets of so many entries, channel by channel: each is read once.
    fn found_ok(&self, first: usize, count: usize) -> bool
        requires { LogOf self.now.joins.state.now self.now.n self.now.at count × Begin (plan_of self.now.joins.state.now) self.now.n first }
        ensures { result ≡ all_of (set_right (plan_of self.now.joins.state.now) self.now.n) (node_at (line_of self.now.joins.state.now) self.now.n).log }
    {
        let s = self.joins.state;
        let mut k: u8 = 0;
        for b in first..look::channel_count(s) {
            if look::sender_of(s, b) != self.n {
                return self.none_past(k, count);
            }
            if !self.bits_ok(look::channel_of(s, b), k, count) {
                return false;
            }
            k += 1;
        }
        self.none_past(k, count)
    }

    // The sets of a log whose entries are right otherwise.
    pub fn sets_ok(&self, count: usize) -> bool
        requires { LogOf self.now.joins.state.now self.now.n self.now.at count }
        ensures { result ≡ all_of (set_right (plan_of self.now.joins.state.now) self.now.n) (node_at (line_of self.now.joins.state.now) self.now.n).log }
    {
        if count == 0 {
            return true;
        }
        let s = self.joins.state;
        let first = buffer::sets::leaving_from(s, self.n, 0);
        match by_material(s, self.n, first) {
            Some(sets) => self.listed_ok(&sets, count),
            None => self.found_ok(first, count),
        }
    }
}
