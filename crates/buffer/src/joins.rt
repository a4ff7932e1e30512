// The plan's channels by their ends, made once for a check or a Trim: looking a sender up is then one read. And what things in the state were made from: an origin's first byte is 0 for none, else the sender and 1; a time stands with a sender only.
ghost use Rattle.std.specs.Prelude.{◌≡◌, ◌&&◌, ◌+◌, ◌*◌, ◌<◌, true, length, get_or, set};
ghost use Rattle.plan.specs.Plan.{plan_of, plan_channels, channel_at, entering, is_source};
ghost use Rattle.rules.specs.Line.{made};
ghost use Rattle.state.specs.Pieces.{origin_from};
ghost use Rattle.state.specs.State.{line_of};
ghost use Rattle.items.specs.Items.{from_sender, if_found, before_right, origin_right};
ghost use Rattle.buffer.specs.Exact.{time_named};
ghost use Rattle.buffer.specs.Ready.{Ready};
ghost use Rattle.buffer.specs.Joins.{EndsOf, JoinOf};

use crate::{bytes, layout, look};

// A channel, and its place among those that enter its receiver.
#[derive(Clone, Copy, Debug, PartialEq, Eq)]
pub struct Joint {
    pub channel: usize,
    pub place: usize,
}

// For each receiver and sender a channel and 32 times its place in one byte, which is one read, and 255 for none; for each node the number of channels that enter it. A plan has at most 12 nodes.
#[derive(Clone, Copy)]
pub struct Ends {
    pub codes: [u8; 144],
    pub counts: [u8; 12],
}

impl Ends {
    // One channel, by its ends: its place is the number of channels so far that enter its receiver.
    fn enter(&mut self, from: usize, to: usize, b: usize)
        requires { (from < 12) × (to < 12) × (b + 32 * get_or self.old.counts to 0 < 255) }
        ensures { (self.new.codes ≡ set self.old.codes (12 * to + from) (b + 32 * get_or self.old.counts to 0))
            × (self.new.counts ≡ set self.old.counts to (get_or self.old.counts to 0 + 1)) }
    {
        let place = self.counts[to];
        self.codes[12 * to + from] = b as u8 + 32 * place;
        self.counts[to] = place + 1;
    }

    // Of the plan at a ready state's front.
    pub fn of(s: &[u8]) -> Ends
        requires { Ready s.now }
        ensures { EndsOf s.now result.codes result.counts }
    {
        let mut ends = Ends {
            codes: [255; 144],
            counts: [0; 12],
        };
        let size = plan::bytes::channel_size(s);
        let mut at = plan::bytes::channel_from(s, 0);
        for b in 0..look::channel_count(s) {
            ends.enter(usize::from(s[at]), usize::from(s[at + 1]), b);
            at += size;
        }
        ends
    }
}

// A ready state, and its plan's channels by their ends.
#[derive(Clone, Copy)]
pub struct Joins<'a> {
    pub state: &'a [u8],
    pub ends: &'a Ends,
    pub ghost ready: { Ready state.now },
    pub ghost whole: { EndsOf state.now ends.now.codes ends.now.counts },
}

impl<'a> Joins<'a> {
    pub fn of(state: &'a [u8], ends: &'a Ends) -> Joins<'a>
        requires { Ready state.now × EndsOf state.now ends.now.codes ends.now.counts }
        ensures { result.state.now ≡ state.now }
    {
        Joins { state, ends }
    }

    // The channel from a sender to a node, if there is one.
    pub fn joined(&self, sender: usize, node: usize) -> Option<Joint>
        ensures { JoinOf self.now.state.now sender node result }
    {
        if 12 <= sender || 12 <= node {
            return None;
        }
        let code = usize::from(self.ends.codes[12 * node + sender]);
        if code == 255 {
            return None;
        }
        Some(Joint {
            channel: code % 32,
            place: code / 32,
        })
    }

    // Whether a channel leads from a sender to a node.
    pub fn is_parent(&self, sender: usize, node: usize) -> bool
        ensures { result ≡ if_found (from_sender (line_of self.now.state.now).plan sender (entering (line_of self.now.state.now).plan node)) (λ b. true) }
    {
        self.joined(sender, node).is_some()
    }

    // How many channels enter a node.
    pub fn parents(&self, node: usize) -> usize
        ensures { result ≡ length (entering (plan_of self.now.state.now) node) }
    {
        if 12 <= node {
            return 0;
        }
        usize::from(self.ends.counts[node])
    }

    // Whether no channel enters a node.
    pub fn is_source(&self, node: usize) -> bool
        ensures { result ≡ is_source (plan_of self.now.state.now) node }
    {
        self.parents(node) == 0
    }

    // What an input was made from that came on channel b from a sender.
    fn before_ok(&self, sender: usize, b: usize, from: usize, time: u32) -> bool
        requires { (b < plan_channels self.now.state.now) × ((channel_at (plan_of self.now.state.now) b).sender ≡ sender) }
        ensures { result ≡ (time_named from time && before_right (line_of self.now.state.now) sender b (origin_from from time)) }
    {
        if from == 0 {
            let source = self.is_source(sender);
            return source & (time == 0);
        }
        let Some(joint) = self.joined(from - 1, sender) else {
            return false;
        };
        let heard = bytes::get32(
            self.state,
            layout::BLOCKS + layout::BLOCK * b + (layout::HEARD + 4 * joint.place),
        );
        (0 < time) & (time <= heard)
    }

    // What node n made something from, a sender and its time, and what that was made from.
    pub fn made_ok(&self, n: usize, sender: usize, time: u32, earlier: usize, since: u32) -> bool
        ensures { result ≡ (time_named earlier since && origin_right (line_of self.now.state.now) n (made sender time) (origin_from earlier since)) }
    {
        let Some(joint) = self.joined(sender, n) else {
            return false;
        };
        let taken = bytes::get32(
            self.state,
            layout::BLOCKS + layout::BLOCK * joint.channel + layout::TAKEN,
        );
        let rest = self.before_ok(sender, joint.channel, earlier, since);
        (0 < time) & ((time <= taken) & rest)
    }

    // What node n made something from, by its bytes, and what that was made from.
    pub fn origin_ok(&self, n: usize, from: usize, time: u32, earlier: usize, since: u32) -> bool
        ensures { result ≡ ((time_named from time && time_named earlier since) && origin_right (line_of self.now.state.now) n (origin_from from time) (origin_from earlier since)) }
    {
        if from == 0 {
            let source = self.is_source(n);
            return (source & (time == 0)) & ((earlier == 0) & (since == 0));
        }
        self.made_ok(n, from - 1, time, earlier, since)
    }
}
