// A Take of a node that replays (document 01, "While B replays"): the record is held or dropped, and the replay ends with the last row.
#![tactic(auto)]

ghost use Rattle.std.specs.Prelude.{◌≡◌, true, false, not, ◌||◌, ◌++◌, ◌≤◌, ◌<◌, eqb, length, get_or};
ghost use Rattle.plan.specs.Plan.{plan_of, plan_channels};
ghost use Rattle.plan.specs.Mask.{set_of};
ghost use Rattle.rules.specs.Line.{held_limit, node_at, lane_at, receiver_of, with_node};
ghost use Rattle.rules.specs.Frame as frames;
ghost use Rattle.rules.specs.Recover.{row_goal};
ghost use Rattle.rules.specs.Replay.{passed_on, entry_at};
ghost use Rattle.rules.specs.Step.{replaying, end_down};
ghost use Rattle.rules.specs.Trim.{with_log};
ghost use Rattle.answers.specs.Number.{number};
ghost use Rattle.state.specs.State.{line_of};
ghost use Rattle.buffer.specs.Nothing.{no_held};
ghost use Rattle.buffer.specs.Sets.{Begin};
ghost use Rattle.buffer.specs.Holds.{Holds, AtNode, NodeNow, Undamaged, Did};
ghost use Rattle.slots.specs.Slots.{message_is, entry_is, held_is};
ghost use Rattle.buffer.specs.Rows.{Rows};
ghost use Rattle.replay_items.specs.Items.{one_more, held_with};
ghost use Rattle.replay_table.specs.Ends.{entry_from};
ghost use Rattle.replay.specs.After.{row_after, rows_after, would_hold, to_be_held, First, taken_now, held_more, end_log, ended_node, Enters, Loggable, Open};

use answers::Refusal;
use buffer::status::Status;
use buffer::{Line, look, sets};
use plan::Record;
use recover::rows;
use replay_table::PlacedRecord;
use slots::{Logged, Made, Sent, Waiting};

const HELD_LIMIT: usize = Line::HELD_LIMIT as usize;

// A message that a node takes from a channel while it replays: the node's own, and what it is to hold of it, if some channel takes that.
#[derive(Clone, Copy)]
struct Arrival {
    channel: usize,
    node: usize,
    message: Sent,
    last: Option<Waiting>,
}

// ---- rows

// "the greatest A-time of its targets", 0 if the parent has none: of each parent.
fn goals_of(s: &[u8], n: usize) -> [u32; 12]
    requires { AtNode s.now n }
    ensures { Rows result (row_goal (node_at (line_of s.now) n).targets) }
{
    let mut goals = [0; 12];
    for i in (0..node_fields::target_count(s, n)).rev() {
        let g = node_fields::target_of(s, n, i);
        rows::raise(&mut goals, g.parent, g.sent);
    }
    goals
}

// Whether channel c's row is complete by all goals once a message of a time is taken from channel b, if c enters the node.
fn row_after(s: &[u8], n: usize, goals: &[u32; 12], b: usize, time: u32, c: usize) -> bool
    requires { AtNode s.now n × Rows goals.now (row_goal (node_at (line_of s.now) n).targets) × (c < plan_channels s.now) }
    ensures { result ≡ (not (eqb (receiver_of (line_of s.now) c) n) || row_after (line_of s.now) n b time c) }
{
    if look::receiver_of(s, c) != n {
        return true;
    }
    let goal = goals[look::sender_of(s, c)];
    let taken = channel_fields::taken_of(s, c);
    if c != b {
        return goal <= taken;
    }
    goal <= taken.max(time)
}

// Whether all rows are complete then.
fn rows_after(s: &[u8], n: usize, goals: &[u32; 12], b: usize, time: u32) -> bool
    requires { AtNode s.now n × Rows goals.now (row_goal (node_at (line_of s.now) n).targets) }
    ensures { result ≡ rows_after (line_of s.now) n b time }
{
    for c in 0..look::channel_count(s) {
        if !row_after(s, n, goals, b, time, c) {
            return false;
        }
    }
    true
}

// ---- the record

// Whether some channel that leaves the node takes a record: its set is a mask, and the ones count them. Channel b enters the node, so none up to it leaves.
fn goes_on(s: &[u8], n: usize, b: usize, what: Record) -> bool
    requires { Enters s.now n b }
    ensures { result ≡ passed_on (line_of s.now).plan n what }
{
    let first = sets::leaving_from(s, n, b + 1);
    let set = sets::set_for(s, n, first, what);
    set.count_ones() != 0
}

// The first message of channel b as its receiver n would hold it.
fn waiting_of(s: &[u8], n: usize, b: usize, m: Sent) -> Waiting
    requires { Enters s.now n b }
    ensures { held_is result ≡ would_hold (line_of s.now) b (message_is m) }
{
    Waiting {
        what: passing::made_by(s, n, m.what),
        sender: look::channel_of(s, b).sender,
        time: m.time,
        before: m.made,
    }
}

// What its receiver is to hold of it, if anything.
fn to_be_held(s: &[u8], n: usize, b: usize, m: Sent) -> Option<Waiting>
    requires { Enters s.now n b }
    ensures { one_more result ≡ to_be_held (line_of s.now) b (message_is m) }
{
    let last = waiting_of(s, n, b, m);
    goes_on(s, n, b, last.what).then_some(last)
}

// ---- what is left

// The message is taken, and held if some channel takes its record.
fn hold(s: &mut [u8], a: Arrival)
    requires { AtNode s.old a.node × (a.channel < plan_channels s.old) × First (line_of s.old) a.channel (message_is a.message) × (length (held_with (line_of s.old) a.node a.last) ≤ held_limit) }
    ensures { Holds s.new (held_more a.node (one_more a.last) (taken_now (line_of s.old) a.channel (message_is a.message))) }
{
    channel_fields::take_first(s, a.channel, a.message);
    if let Some(last) = a.last {
        node_fields::append_held(s, a.node, last);
    }
}

// A held record as it is logged in a column, with its set.
fn logged(h: Waiting, column: u32, set: u8) -> Logged
    requires { h.sender < 255 }
    ensures { entry_is result ≡ entry_at (λ _. set) column (held_is h) }
{
    Logged {
        what: h.what,
        time: column,
        made: Made::by(h.sender, h.time),
        before: h.before,
        set,
    }
}

// A held record of a number in its column, as it is logged; `first` is where the channels that leave the node begin.
fn entry_for(s: &[u8], n: usize, first: usize, last: Option<Waiting>, x: PlacedRecord) -> Logged
    requires { AtNode s.now n × Begin (plan_of s.now) n first × (x.number < length (held_with (line_of s.now) n last)) × ((get_or (held_with (line_of s.now) n last) x.number no_held).sender < 255) }
    ensures { entry_is result ≡ entry_from (set_of (line_of s.now).plan n) (held_with (line_of s.now) n last) x }
{
    let h = replay_items::held_at(s, n, last, x.number as usize);
    let set = sets::set_for(s, n, first, h.what);
    logged(h, x.column, set)
}

// The log of a replay's end, entry by entry.
fn log_placed(s: &mut [u8], a: Arrival, log: &[PlacedRecord])
    requires { Enters s.old a.node a.channel × Loggable (line_of s.old) a.node (one_more a.last) log.now }
    ensures { NodeNow s.old a.node (with_log (end_log (line_of s.old) a.node (one_more a.last) log.now)) s.new }
{
    let first = sets::leaving_from(s, a.node, a.channel + 1);
    for x in log {
        let e = entry_for(s, a.node, first, a.last, *x);
        node_fields::append_entry(s, a.node, e);
    }
}

// "held records are placed, logged in order of column as their times, B's time becomes high, and B is up, targets and held list emptied"
fn end(s: &mut [u8], a: Arrival, log: &[PlacedRecord])
    requires { Enters s.old a.node a.channel × First (line_of s.old) a.channel (message_is a.message) × Loggable (line_of s.old) a.node (one_more a.last) log.now }
    ensures { Holds s.new (with_node a.node (ended_node (line_of s.old) a.node (end_log (line_of s.old) a.node (one_more a.last) log.now)) (taken_now (line_of s.old) a.channel (message_is a.message))) }
{
    let high = recover::told::high_of(s, a.node);
    channel_fields::take_first(s, a.channel, a.message);
    log_placed(s, a, log);
    node_fields::clear_held(s, a.node);
    node_fields::clear_targets(s, a.node);
    node_fields::set_time(s, a.node, high);
    node_fields::set_status(s, a.node, Status::Up);
}

// The last row is complete: 24, or the replay ends. Its log has a function's stack to itself, which a Take that goes on does not pay for.
#[inline(never)]
fn ended(s: &mut [u8], a: Arrival) -> Result<(), Refusal>
    requires { Open s.old a × (rows_after (line_of s.old) a.node a.channel a.message.time ≡ true) }
    ensures { Did s.old (frames.take a.channel) s.new (number result) }
{
    let log = replay_table::placed(s, a.node, a.last)?;
    end(s, a, log.entries());
    Ok(())
}

// What is left of a Take once neither 20 nor 21 is the answer: 24, or it is done.
fn take_on(s: &mut [u8], goals: &[u32; 12], a: Arrival) -> Result<(), Refusal>
    requires { Open s.old a × Rows goals.now (row_goal (node_at (line_of s.old) a.node).targets) }
    ensures { Did s.old (frames.take a.channel) s.new (number result) }
{
    if !rows_after(s, a.node, goals, a.channel, a.message.time) {
        hold(s, a);
        return Ok(());
    }
    ended(s, a)
}

// Take, where the receiver replays, both ends are not down and the channel has a message: 20, 21 and 24 refuse it.
pub fn take_replaying(s: &mut [u8], b: usize) -> Result<(), Refusal>
    requires { Undamaged s.old × (b < plan_channels s.old) × (end_down (line_of s.old) b ≡ false) × (0 < length (lane_at (line_of s.old) b).queue) × (replaying (line_of s.old) (receiver_of (line_of s.old) b) ≡ true) }
    ensures { Did s.old (frames.take b) s.new (number result) }
{
    let n = look::receiver_of(s, b);
    let goals = goals_of(s, n);
    let parent = look::sender_of(s, b);
    let goal = goals[parent];
    if goal <= channel_fields::taken_of(s, b) {
        return Err(Refusal::RowComplete);
    }
    let m = channel_fields::first_of(s, b);
    let last = to_be_held(s, n, b, m);
    let full = HELD_LIMIT <= node_fields::held_count(s, n);
    if last.is_some() & full {
        return Err(Refusal::NoSpace);
    }
    take_on(
        s,
        &goals,
        Arrival {
            channel: b,
            node: n,
            message: m,
            last,
        },
    )
}
