// A channel's fields, read and written in the state's bytes. What is written leaves every other byte as it was: each function promises the line with that channel's lane changed.
#![tactic(auto)]

ghost use Rattle.std.specs.Prelude.{◌≡◌, List, [], ◌∷◌, ◌+◌, ◌≤◌, ◌<◌, max, length, get_or};
ghost use Rattle.basics.specs.Put.{put};
ghost use Rattle.plan.specs.Plan.{plan_of, plan_channels, entering};
ghost use Rattle.plan.specs.Layout.{bytes_of};
ghost use Rattle.items.specs.Items.{place_from};
ghost use Rattle.buffer.specs.Ready.{Ready};
ghost use Rattle.rules.specs.Line.{queue_limit, Message, lane_at, sender_of, parents};
ghost use Rattle.rules.specs.Clock.{raise_heard};
ghost use Rattle.rules.specs.Step.{taken_lane};
ghost use Rattle.state.specs.Lane.{with_heard};
ghost use Rattle.state.specs.State.{line_of};
ghost use Rattle.state.specs.Right.{word_at};
ghost use Rattle.buffer.specs.Holds.{Holds, AtLane, LaneNow};
ghost use Rattle.state.specs.Changes.{with_mark, with_taken, with_queue, nothing_heard, nothing_low, more_queued, first_gone};
ghost use Rattle.slots.specs.Slots.{origin_is, message_is};
ghost use Rattle.buffer.specs.Nothing.{no_message};
ghost use Rattle.channel_fields.specs.Raised.{place_is, taken_to, heard_to, low_to};

use buffer::{bytes, layout, look};
use slots::{Made, Piece, Sent, list};

// ---- read

pub fn mark_of(s: &[u8], b: usize) -> u32
    requires { Ready s.now × (b < plan_channels s.now) }
    ensures { result ≡ (lane_at (line_of s.now) b).mark }
{
    bytes::get32(s, layout::BLOCKS + layout::BLOCK * b)
}

pub fn taken_of(s: &[u8], b: usize) -> u32
    requires { Ready s.now × (b < plan_channels s.now) }
    ensures { result ≡ (lane_at (line_of s.now) b).taken }
{
    bytes::get32(s, layout::BLOCKS + layout::BLOCK * b + layout::TAKEN)
}

// The entry heard at a place among the sender's parents.
pub fn heard_of(s: &[u8], b: usize, place: usize) -> u32
    requires { Ready s.now × (b < plan_channels s.now) × (place < length (lane_at (line_of s.now) b).heard) }
    ensures { result ≡ get_or (lane_at (line_of s.now) b).heard place 0 }
{
    bytes::get32(
        s,
        layout::BLOCKS + layout::BLOCK * b + layout::HEARD + 4 * place,
    )
}

// The low clock's entry at a place: the sender's, and then its parents'.
pub fn low_clock_of(s: &[u8], b: usize, place: usize) -> u32
    requires { Ready s.now × (b < plan_channels s.now) × (place < length (lane_at (line_of s.now) b).low) }
    ensures { result ≡ get_or (lane_at (line_of s.now) b).low place 0 }
{
    bytes::get32(
        s,
        layout::BLOCKS + layout::BLOCK * b + layout::LOW + 4 * place,
    )
}

pub fn queue_count(s: &[u8], b: usize) -> usize
    requires { AtLane s.now b }
    ensures { (result ≡ length (lane_at (line_of s.now) b).queue) × (result ≤ queue_limit) }
{
    list::QUEUE.count(s, layout::BLOCKS + layout::BLOCK * b)
}

// The queue's first message.
pub fn first_of(s: &[u8], b: usize) -> Sent
    requires { AtLane s.now b × (0 < length (lane_at (line_of s.now) b).queue) }
    ensures { message_is result ≡ get_or (lane_at (line_of s.now) b).queue 0 no_message }
{
    Sent::read(s, layout::BLOCKS + layout::BLOCK * b + layout::QUEUE_SLOTS)
}

// ---- written

pub fn set_mark(s: &mut [u8], b: usize, time: u32)
    requires { AtLane s.old b }
    ensures { LaneNow s.old b (with_mark time) s.new }
{
    bytes::put32(s, layout::BLOCKS + layout::BLOCK * b, time);
}

pub fn set_taken(s: &mut [u8], b: usize, time: u32)
    requires { AtLane s.old b }
    ensures { LaneNow s.old b (with_taken time) s.new }
{
    bytes::put32(s, layout::BLOCKS + layout::BLOCK * b + layout::TAKEN, time);
}

// Every entry heard becomes 0.
pub fn clear_heard(s: &mut [u8], b: usize)
    requires { AtLane s.old b }
    ensures { LaneNow s.old b nothing_heard s.new }
{
    let at = layout::BLOCKS + layout::BLOCK * b;
    bytes::fill_zero(s, at + layout::HEARD, at + layout::QUEUE);
}

// Every entry of the low clock becomes 0.
pub fn clear_low_clock(s: &mut [u8], b: usize)
    requires { AtLane s.old b }
    ensures { LaneNow s.old b nothing_low s.new }
{
    let at = layout::BLOCKS + layout::BLOCK * b;
    bytes::fill_zero(s, at + layout::LOW, at + layout::BLOCK_REST);
}

// The number at a place, raised to a time.
fn raise(s: &mut [u8], at: usize, time: u32)
    requires { at + 4 ≤ length s.old }
    ensures { s.new ≡ put s.old at (bytes_of 4 (max (word_at at s.old) time)) }
{
    let number = bytes::get32(s, at);
    bytes::put32(s, at, number.max(time));
}

// The low clock's entry at a place, raised to a time.
pub fn raise_low_clock(s: &mut [u8], b: usize, place: usize, time: u32)
    requires { AtLane s.old b × (place < length (lane_at (line_of s.old) b).low) }
    ensures { LaneNow s.old b (low_to place time) s.new }
{
    let at = layout::BLOCKS + layout::BLOCK * b + layout::LOW + 4 * place;
    raise(s, at, time);
}

// The queue emptied: its count and the slots used become 0.
pub fn clear_queue(s: &mut [u8], b: usize)
    requires { AtLane s.old b }
    ensures { LaneNow s.old b (with_queue []) s.new }
{
    list::QUEUE.clear(s, layout::BLOCKS + layout::BLOCK * b);
}

// One more message, behind the others.
pub fn push_message(s: &mut [u8], b: usize, m: Sent)
    requires { AtLane s.old b × (length (lane_at (line_of s.old) b).queue < queue_limit) }
    ensures { LaneNow s.old b (more_queued (message_is m)) s.new }
{
    let at = list::QUEUE.add(s, layout::BLOCKS + layout::BLOCK * b);
    m.write(s, at);
}

// The queue's first message goes, and those behind it move up.
pub fn drop_first(s: &mut [u8], b: usize)
    requires { AtLane s.old b × (0 < length (lane_at (line_of s.old) b).queue) }
    ensures { LaneNow s.old b first_gone s.new }
{
    let at = layout::BLOCKS + layout::BLOCK * b + layout::QUEUE;
    let count = bytes::get32(s, at);
    bytes::put32(s, at, count - 1);
    slots::close_up::<Sent>(s, at + layout::COUNT, 1, (count - 1) as usize);
}

// Where a parent stands among the parents of a node, if it is one.
fn place_of(s: &[u8], parent: usize, node: usize) -> Option<usize>
    requires { Ready s.now }
    ensures { place_is result ≡ place_from (plan_of s.now) parent 0 (entering (plan_of s.now) node) }
{
    let mut place: usize = 0;
    for b in 0..look::channel_count(s) {
        if look::receiver_of(s, b) == node {
            if look::sender_of(s, b) == parent {
                return Some(place);
            }
            place += 1;
        }
    }
    None
}

// The entry at a place, raised to a time.
fn raise_at(s: &mut [u8], b: usize, place: usize, time: u32)
    requires { AtLane s.old b × (place < length (lane_at (line_of s.old) b).heard) }
    ensures { LaneNow s.old b (heard_to place time) s.new }
{
    let at = layout::BLOCKS + layout::BLOCK * b + layout::HEARD + 4 * place;
    raise(s, at, time);
}

// The entry for the sender's parent that a message was made from, raised to its time.
pub fn raise_heard(s: &mut [u8], b: usize, m: Made)
    requires { AtLane s.old b }
    ensures { LaneNow s.old b (λ x. with_heard (raise_heard (parents (line_of s.old).plan (sender_of (line_of s.old) b)) x.heard (origin_is m)) x) s.new }
{
    let Some(parent) = m.sender() else {
        return;
    };
    if let Some(place) = place_of(s, parent, look::sender_of(s, b)) {
        raise_at(s, b, place, m.time);
    }
}

// What is taken, raised to a time.
fn raise_taken(s: &mut [u8], b: usize, time: u32)
    requires { AtLane s.old b }
    ensures { LaneNow s.old b (taken_to time) s.new }
{
    let at = layout::BLOCKS + layout::BLOCK * b + layout::TAKEN;
    raise(s, at, time);
}

// "the receiver removes the belt's first message, raises its clock by it"
pub fn take_first(s: &mut [u8], b: usize, m: Sent)
    requires { AtLane s.old b × (0 < length (lane_at (line_of s.old) b).queue) }
    ensures { (rest : List Message) → (lane_at (line_of s.old) b).queue ≡ message_is m ∷ rest → Holds s.new (taken_lane b (message_is m) rest (line_of s.old)) }
{
    raise_taken(s, b, m.time);
    raise_heard(s, b, m.made);
    drop_first(s, b);
}
