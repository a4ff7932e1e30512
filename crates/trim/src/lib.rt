// Trim on the bytes of a state (document 02, 2026-04). Nothing is written before the answer is known to be 0: a refusal leaves the state as it came.
#![tactic(auto)]

ghost use Rattle.std.specs.Prelude.{◌≡◌, ◌≤◌, ◌<◌, length, get_or};
ghost use Rattle.answers.specs.Number.{number};
ghost use Rattle.plan.specs.Plan.{plan_of, plan_channels, channel_at, entering};
ghost use Rattle.rules.specs.Line.{node_at, sender_of, parents, with_lanes};
ghost use Rattle.rules.specs.Trim.{floor_time, droppable, leading, low_by, with_low};
ghost use Rattle.rules.specs.Step.{not_all_up};
ghost use Rattle.rules.specs.Frame.{trim};
ghost use Rattle.state.specs.State.{line_of};
ghost use Rattle.buffer.specs.Ready.{Ready};
ghost use Rattle.buffer.specs.Joins.{EndsOf};
ghost use Rattle.buffer.specs.Holds.{Holds, AtNode, AtLane, LaneNow, Undamaged, Did};
ghost use Rattle.slots.specs.Slots.{origin_is, entry_is};
ghost use Rattle.buffer.specs.Rows.{Rows};
ghost use Rattle.trim.specs.Trimmed.{trim_answer, heard_lowers, channel_lowers, sender_within, entry_within, raised_on};

use answers::Refusal;
use buffer::joins::{Ends, Joins};
use buffer::look;
use buffer::status::Status;
use plan::masks;
use slots::{Logged, Made};

// ---- what is asked

// Whether a node is down or replaying.
fn not_all_up(s: &[u8]) -> bool
    requires { Ready s.now }
    ensures { result ≡ not_all_up (line_of s.now) }
{
    let mut found = false;
    for n in 0..look::node_count(s) {
        found |= look::status_of(s, n) != Status::Up;
    }
    found
}

// Whether node n may be trimmed now.
fn asked(s: &[u8], n: usize) -> Result<(), Refusal>
    requires { Ready s.now }
    ensures { number result ≡ trim_answer (line_of s.now) n }
{
    if look::node_count(s) <= n {
        return Err(Refusal::NoSuchPlace);
    }
    if not_all_up(s) {
        return Err(Refusal::NotAllUp);
    }
    Ok(())
}

// ---- floor times, one for each of at most 12 nodes

// The nodes' own times.
fn own_times(s: &[u8]) -> [u32; 12]
    requires { Ready s.now }
    ensures { Rows result (λ q. (node_at (line_of s.now) q).time) }
{
    let mut times = [0; 12];
    for n in 0..look::node_count(s) {
        times[n] = node_fields::time_of(s, n);
    }
    times
}

// By what is heard on a channel of the sender's parents.
fn lower_heard(joins: &Joins, b: usize, sender: usize, floors: &mut [u32; 12])
    requires { (b < plan_channels joins.now.state.now) × (sender ≡ (channel_at (plan_of joins.now.state.now) b).sender) }
    ensures { Rows floors.new (λ q. heard_lowers (line_of joins.now.state.now) b q (get_or floors.old q 0)) }
{
    for q in 0..12 {
        if let Some(joint) = joins.joined(q, sender) {
            let heard = channel_fields::heard_of(joins.state, b, joint.place);
            floors[q] = floors[q].min(heard);
        }
    }
}

// By all that a channel's receiver holds for the sender and through it.
fn lower_on(joins: &Joins, b: usize, floors: &mut [u32; 12])
    requires { b < plan_channels joins.now.state.now }
    ensures { Rows floors.new (λ q. channel_lowers (line_of joins.now.state.now) b q (get_or floors.old q 0)) }
{
    let sender = look::sender_of(joins.state, b);
    lower_heard(joins, b, sender, floors);
    floors[sender] = floors[sender].min(channel_fields::taken_of(joins.state, b));
}

fn floors_of(joins: &Joins) -> [u32; 12]
    ensures { Rows result (floor_time (line_of joins.now.state.now)) }
{
    let mut floors = own_times(joins.state);
    for b in 0..look::channel_count(joins.state) {
        lower_on(joins, b, &mut floors);
    }
    floors
}

// ---- the run that is dropped

fn sender_within(floors: &[u32; 12], made: Made) -> bool
    ensures { result ≡ sender_within floors.now (origin_is made) }
{
    let Some(sender) = made.sender() else {
        return true;
    };
    made.time <= floors.get(sender).copied().unwrap_or(0)
}

fn entry_within(floors: &[u32; 12], n: usize, e: Logged) -> bool
    requires { n < 12 }
    ensures { result ≡ entry_within floors.now n (entry_is e) }
{
    (e.time <= floors[n]) & sender_within(floors, e.made)
}

// How many entries the run has.
fn run_of(s: &[u8], n: usize, floors: &[u32; 12]) -> usize
    requires { AtNode s.now n × Rows floors.now (floor_time (line_of s.now)) }
    ensures { (result ≡ length (leading (droppable (line_of s.now) n) (node_at (line_of s.now) n).log)) × (result ≤ length (node_at (line_of s.now) n).log) }
{
    let count = node_fields::log_count(s, n);
    for i in 0..count {
        if !entry_within(floors, n, node_fields::entry_of(s, n, i)) {
            return i;
        }
    }
    count
}

// ---- the low clock

// The part on a channel, raised by an entry if it was made from the sender's message.
fn raise_by(s: &mut [u8], ends: &Ends, b: usize, sender: usize, e: Logged)
    requires { AtLane s.old b × EndsOf s.old ends.now.codes ends.now.counts × (sender ≡ (channel_at (plan_of s.old) b).sender) }
    ensures { LaneNow s.old b (λ x. with_low (low_by (parents (line_of s.old).plan (sender_of (line_of s.old) b)) (sender_of (line_of s.old) b) (origin_is e.made) (origin_is e.before) x.low) x) s.new }
{
    if e.made.sender() != Some(sender) {
        return;
    }
    channel_fields::raise_low_clock(s, b, 0, e.made.time);
    let Some(earlier) = e.before.sender() else {
        return;
    };
    let joined = Joins::of(s, ends).joined(earlier, sender);
    if let Some(joint) = joined {
        channel_fields::raise_low_clock(s, b, 1 + joint.place, e.before.time);
    }
}

// By the first entries of node n's log, so many.
fn raise_channel(s: &mut [u8], ends: &Ends, n: usize, b: usize, count: usize)
    requires { AtLane s.old b × AtNode s.old n × EndsOf s.old ends.now.codes ends.now.counts × (count ≤ length (node_at (line_of s.old) n).log) }
    ensures { LaneNow s.old b (raised_on (line_of s.old) n count b) s.new }
{
    let sender = look::sender_of(s, b);
    for i in 0..count {
        let e = node_fields::entry_of(s, n, i);
        raise_by(s, ends, b, sender, e);
    }
}

fn raise_channels(s: &mut [u8], ends: &Ends, n: usize, count: usize)
    requires { AtNode s.old n × EndsOf s.old ends.now.codes ends.now.counts × (count ≤ length (node_at (line_of s.old) n).log) }
    ensures { Holds s.new (with_lanes (raised_on (line_of s.old) n count) (entering (line_of s.old).plan n) (line_of s.old)) }
{
    for b in masks::entering(s, n) {
        raise_channel(s, ends, n, b, count);
    }
}

// Kind 6.
pub fn trim(s: &mut [u8], n: usize) -> Result<(), Refusal>
    requires { Undamaged s.old }
    ensures { Did s.old (trim n) s.new (number result) }
{
    asked(s, n)?;
    let ends = Ends::of(s);
    let floors = floors_of(&Joins::of(s, &ends));
    let count = run_of(s, n, &floors);
    if count != 0 {
        raise_channels(s, &ends, n, count);
        node_fields::drop_entries(s, n, count);
    }
    Ok(())
}
