// The check of a channel's block: its bytes are right, and the channel keeps the rules.
#![tactic(auto)]

ghost use Rattle.std.specs.Prelude.{◌≡◌, not, ◌&&◌, ◌||◌, ◌∷◌, ◌+◌, ◌-◌, ◌*◌, ◌≤◌, ◌<◌, length};
ghost use Rattle.plan.specs.Plan.{plan_of, plan_nodes, plan_channels, channel_at};
ghost use Rattle.rules.specs.Lists.{greatest_of};
ghost use Rattle.rules.specs.Line.{lane_at, queue_limit, accepted_steps};
ghost use Rattle.rules.specs.Step.{node_down, end_down};
ghost use Rattle.rules.specs.Damaged.{marks_joined, channel_holds};
ghost use Rattle.state.specs.Sizes.{block_at, heard_at, parent_limit, queue_at, count_size, message_size, low_limit, lane_rest_at, lane_rest};
ghost use Rattle.state.specs.Right.{word_at};
ghost use Rattle.state.specs.Lane.{heard_count};
ghost use Rattle.state.specs.State.{line_of};
ghost use Rattle.state.specs.Pieces.{origin_from};
ghost use Rattle.items.specs.Items.{named_right, queue_right, channel_right};
ghost use Rattle.buffer.specs.Exact.{zero_at, time_named, message_exact, slots_exact, block_exact};
ghost use Rattle.buffer.specs.Ready.{Ready};
ghost use Rattle.channel_check.specs.Channel.{Ends, QueueFits, lows_within, message_ok};

use buffer::joins::Joins;
use buffer::{Line, bytes, layout, look, origin};

// Whether an end of a channel is down.
fn end_down(s: &[u8], sender: usize, receiver: usize) -> bool
    requires { Ready s.now × (sender < plan_nodes s.now) × (receiver < plan_nodes s.now) }
    ensures { result ≡ (node_down (line_of s.now) sender || node_down (line_of s.now) receiver) }
{
    look::is_down(s, sender) | look::is_down(s, receiver)
}

// A channel's block of a ready state: where it starts, the nodes at the channel's ends and whether one of them is down, and all accepted steps, which no time passes.
#[derive(Clone, Copy)]
struct Block<'a> {
    joins: Joins<'a>,
    b: usize,
    at: usize,
    sender: usize,
    receiver: usize,
    stopped: bool,
    steps: u32,
    ghost start: { at ≡ block_at b },
    ghost ends: { Ends joins.state.now b sender receiver },
    ghost down: { stopped ≡ end_down (line_of joins.state.now) b },
    ghost all: { steps ≡ accepted_steps (line_of joins.state.now) },
}

impl Block<'_> {
    // The greatest of the receiver's clock entries that stand on the channel.
    fn most_heard(&self, heard: usize) -> u32
        requires { heard ≡ heard_count (plan_of self.now.joins.state.now) (channel_at (plan_of self.now.joins.state.now) self.now.b) }
        ensures { result ≡ greatest_of ((lane_at (line_of self.now.joins.state.now) self.now.b).taken ∷ (lane_at (line_of self.now.joins.state.now) self.now.b).heard) }
    {
        let s = self.joins.state;
        let mut most = bytes::get32(s, self.at + layout::TAKEN);
        for i in 0..heard {
            most = most.max(bytes::get32(s, self.at + (layout::HEARD + 4 * i)));
        }
        most
    }

    // The words of parents that the sender does not have are 0.
    fn unheard_zero(&self, heard: usize) -> bool
        requires { heard ≤ 4 }
        ensures { result ≡ zero_at (block_at self.now.b + heard_at + 4 * heard) (4 * (parent_limit - heard)) self.now.joins.state.now }
    {
        let s = self.joins.state;
        let mut seen: u32 = 0;
        for i in heard..4 {
            seen |= bytes::get32(s, self.at + (layout::HEARD + 4 * i));
        }
        seen == 0
    }

    // The bytes that the block leaves unused are 0: those of further parents, of further messages, and at the end.
    fn zeros_ok(&self, heard: usize, count: usize) -> bool
        requires { QueueFits self.now.joins.state.now self.now.b count × (heard ≤ 4) }
        ensures { result ≡ (zero_at (block_at self.now.b + heard_at + 4 * heard) (4 * (parent_limit - heard)) self.now.joins.state.now
            && (zero_at (block_at self.now.b + queue_at + count_size + message_size * count) (message_size * (queue_limit - count)) self.now.joins.state.now
            && zero_at (block_at self.now.b + lane_rest_at) lane_rest self.now.joins.state.now)) }
    {
        let s = self.joins.state;
        let unheard = self.unheard_zero(heard);
        let behind = bytes::all_zero(
            s,
            self.at + layout::QUEUE_SLOTS + layout::MESSAGE_SIZE * count,
            self.at + layout::LOW,
        );
        let rest = bytes::all_zero(s, self.at + layout::BLOCK_REST, self.at + layout::BLOCK);
        unheard & (behind & rest)
    }

    // The low clock is nowhere above the clock. Where the clock's words of further parents are 0, so are the low clock's.
    fn low_ok(&self) -> bool
        ensures { result ≡ lows_within self.now.joins.state.now (block_at self.now.b) low_limit }
    {
        let s = self.joins.state;
        let mut ok = true;
        for i in 0..5 {
            let low = bytes::get32(s, self.at + (layout::LOW + 4 * i));
            let clock = bytes::get32(s, self.at + (layout::TAKEN + 4 * i));
            ok &= low <= clock;
        }
        ok
    }

    // No two crash marks are joined, and nothing stands on the channel that its ends' status forbids.
    fn ends_ok(&self, count: usize, most: u32) -> bool
        requires { (count ≡ word_at (block_at self.now.b + queue_at) self.now.joins.state.now)
            × (most ≡ greatest_of ((lane_at (line_of self.now.joins.state.now) self.now.b).taken ∷ (lane_at (line_of self.now.joins.state.now) self.now.b).heard)) }
        ensures { result ≡ (not (marks_joined (line_of self.now.joins.state.now) self.now.b) && not (channel_holds (line_of self.now.joins.state.now) self.now.b)) }
    {
        let s = self.joins.state;
        let unmarked = bytes::get32(s, self.at) == 0;
        let empty = count == 0;
        let down = look::is_down(s, self.receiver);
        let replays = look::is_replaying(s, self.sender);
        let joined = look::has_crashed(s, self.sender) & look::has_crashed(s, self.receiver);
        let held = (self.stopped & !(unmarked & empty)) | (down & (0 < most)) | (replays & !empty);
        !joined & !held
    }

    // What the sender made something from: nothing, or a parent's message. A time stands with a name only.
    fn named_ok(&self, from: usize, time: u32) -> bool
        ensures { result ≡ (time_named from time && named_right (line_of self.now.joins.state.now) self.now.sender (origin_from from time)) }
    {
        if from == 0 {
            return (time == 0) & self.joins.is_source(self.sender);
        }
        let parent = self.joins.is_parent(from - 1, self.sender);
        ((0 < time) & (time <= self.steps)) & parent
    }

    // A message: record, time, what it was made from, three bytes unused.
    fn message_ok(&self, slot: usize) -> bool
        requires { slot + 20 ≤ length self.now.joins.state.now }
        ensures { result ≡ message_ok self.now.joins.state.now self.now.sender slot }
    {
        let s = self.joins.state;
        let from = usize::from(s[slot + 12]);
        let time = bytes::get32(s, slot + 13);
        let what = origin::record_ok(s, slot);
        let named = self.named_ok(from, time);
        let unused = (s[slot + 17] | s[slot + 18] | s[slot + 19]) == 0;
        what & named & unused
    }

    // The messages, so many. Where no end is down, their times rise strictly from above what was taken to the mark.
    fn queue_ok(&self, count: usize) -> bool
        requires { QueueFits self.now.joins.state.now self.now.b count }
        ensures { result ≡ (slots_exact message_exact message_size (block_at self.now.b + queue_at + count_size) count self.now.joins.state.now
            && queue_right (line_of self.now.joins.state.now) self.now.b (lane_at (line_of self.now.joins.state.now) self.now.b).queue) }
    {
        let s = self.joins.state;
        let mark = bytes::get32(s, self.at);
        let mut last = bytes::get32(s, self.at + layout::TAKEN);
        let mut ok = self.stopped | (last <= mark);
        for i in 0..count {
            let slot = self.at + layout::QUEUE_SLOTS + layout::MESSAGE_SIZE * i;
            let time = bytes::get32(s, slot + 8);
            let here = self.message_ok(slot);
            ok = ok & here & (self.stopped | ((last < time) & (time <= mark)));
            last = time;
        }
        ok
    }
}

// A channel's block.
pub fn channel_ok(joins: &Joins, b: usize, steps: u32) -> bool
    requires { (b < plan_channels joins.now.state.now) × (steps ≡ accepted_steps (line_of joins.now.state.now)) }
    ensures { result ≡ (block_exact (heard_count (plan_of joins.now.state.now) (channel_at (plan_of joins.now.state.now) b)) (block_at b) joins.now.state.now
        && channel_right (line_of joins.now.state.now) b) }
{
    let s = joins.state;
    let at = layout::BLOCKS + layout::BLOCK * b;
    let count = bytes::get32(s, at + layout::QUEUE);
    if Line::QUEUE_LIMIT < count {
        return false;
    }
    let count = count as usize;
    let sender = look::sender_of(s, b);
    let receiver = look::receiver_of(s, b);
    let block = Block {
        joins: *joins,
        b,
        at,
        sender,
        receiver,
        stopped: end_down(s, sender, receiver),
        steps,
    };
    let mark = bytes::get32(s, at);
    let heard = joins.parents(sender);
    let most = block.most_heard(heard);
    let zeros = block.zeros_ok(heard, count);
    let low = block.low_ok();
    let queue = block.queue_ok(count);
    let ends = block.ends_ok(count, most);
    zeros & ((mark <= steps) & (most <= steps)) & queue & ends & low
}
