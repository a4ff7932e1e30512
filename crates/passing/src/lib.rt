// Feed, Send, and Take of a node that is up, on the state's bytes (document 01, "Clocks and steps", kinds 1 to 3; document 02, 2026-08). Nothing is written before the answer is known to be 0.
#![tactic(auto)]

ghost use Rattle.std.specs.Prelude.{◌≡◌, true, false, cond, not, ◌||◌, List, ℕ, suc, ◌<◌, length, eqb, MatchOption};
ghost use Rattle.answers.specs.Number.{number};
ghost use Rattle.plan.specs.Record.{record_layout, record_fits};
ghost use Rattle.plan.specs.Plan.{plan_of, plan_nodes, plan_channels, is_sink};
ghost use Rattle.plan.specs.Mask.{set_of};
ghost use Rattle.rules.specs.Line.{queue_limit, node_at, lane_at};
ghost use Rattle.rules.specs.Frame as frames;
ghost use Rattle.rules.specs.Clock.{message_of, logged, sent_on};
ghost use Rattle.rules.specs.Replay.{time_for};
ghost use Rattle.rules.specs.Step.{end_down, sendable, made_by};
ghost use Rattle.state.specs.State.{line_of};
ghost use Rattle.buffer.specs.Ready.{Ready, OnChannel};
ghost use Rattle.buffer.specs.Sets.{LeaveFrom, Begin};
ghost use Rattle.buffer.specs.Holds.{AtLane, NodeNow, LaneNow, Undamaged, Did};
ghost use Rattle.slots.specs.Slots.{origin_is, message_is, entry_is};
ghost use Rattle.passing.specs.Passing.{next_is, LaterFrom, Loggable, Taking};

use answers::Refusal;
use buffer::{Line, look, sets};
use plan::Record;
use slots::{Logged, Made, Sent};

const LOG: usize = Line::LOG_LIMIT as usize;

const QUEUE: usize = Line::QUEUE_LIMIT as usize;

// Whether an end of a channel is down.
pub fn end_down(s: &[u8], b: usize) -> bool
    requires { OnChannel s.now b }
    ensures { result ≡ end_down (line_of s.now) b }
{
    look::is_down(s, look::sender_of(s, b)) || look::is_down(s, look::receiver_of(s, b))
}

// The record that a node makes of another, by its rule.
pub fn made_by(s: &[u8], n: usize, what: Record) -> Record
    requires { Ready s.now }
    ensures { result ≡ made_by (line_of s.now) n what }
{
    plan::nodes::apply(plan::nodes::node_rule(s, n), what)
}

// The channels that take a record from a node that made it: where those that leave the node begin, and the set of those that take it.
#[derive(Clone, Copy)]
struct Takers {
    first: usize,
    set: u8,
}

impl Takers {
    // None of the channels before `from` leaves the node.
    fn of(s: &[u8], n: usize, from: usize, what: Record) -> Takers
        requires { Ready s.now × (n < plan_nodes s.now) × LeaveFrom (plan_of s.now) n from }
        ensures { Begin (plan_of s.now) n result.first × (result.set ≡ set_of (plan_of s.now) n what) }
    {
        let first = sets::leaving_from(s, n, from);
        let set = sets::set_for(s, n, first, what);
        Takers { first, set }
    }

    // Whether the record gets a time of its own: some channel takes it, or none leaves the node (document 02, 2026-08).
    fn give_time(self, s: &[u8], n: usize) -> bool
        requires { Ready s.now × Begin (plan_of s.now) n self.first }
        ensures { result ≡ (is_sink (plan_of s.now) n || not (eqb self.set 0)) }
    {
        self.set != 0 || sets::none_leaves(s, n, self.first)
    }

    // The record's time: the node's next one, or else its present one.
    fn time(self, s: &[u8], n: usize) -> u32
        requires { Loggable s.now n × Begin (plan_of s.now) n self.first }
        ensures { result ≡ cond (is_sink (plan_of s.now) n || not (eqb self.set 0)) (suc (node_at (line_of s.now) n).time) (node_at (line_of s.now) n).time }
    {
        node_fields::time_of(s, n) + u32::from(self.give_time(s, n))
    }
}

// What a node made is logged, and its time is then the node's.
fn log_made(s: &mut [u8], n: usize, e: Logged)
    requires { Loggable s.old n }
    ensures { NodeNow s.old n (logged e.time e.set e.what (origin_is e.made) (origin_is e.before)) s.new }
{
    node_fields::append_entry(s, n, e);
    node_fields::set_time(s, n, e.time);
}

// "an infeed applies its rule, its time rises by 1, the message is logged"; "On an infeed with leaving belts, a Feed that none of them takes leaves nothing but the step count"
pub fn feed(s: &mut [u8], n: usize, what: Option<Record>) -> Result<(), Refusal>
    requires { Undamaged s.old }
    ensures { (bytes : List ℕ) → MatchOption what (record_fits bytes ≡ false) (λ r. (record_layout.read bytes ≡ r) × (record_fits bytes ≡ true)) → Did s.old (frames.feed n bytes) s.new (number result) }
{
    if look::node_count(s) <= n {
        return Err(Refusal::NoSuchPlace);
    }
    if !look::is_source(s, n) {
        return Err(Refusal::WrongPlace);
    }
    let fed = what.ok_or(Refusal::WrongRecord)?;
    let made = made_by(s, n, fed);
    let takers = Takers::of(s, n, 0, made);
    if !takers.give_time(s, n) {
        return Ok(());
    }
    if LOG <= node_fields::log_count(s, n) {
        return Err(Refusal::NoSpace);
    }
    let e = Logged {
        what: made,
        time: node_fields::time_of(s, n) + 1,
        made: Made::nothing(),
        before: Made::nothing(),
        set: takers.set,
    };
    log_made(s, n, e);
    Ok(())
}

// The number of the first entry of a node's log that is later than a mark, or of entries if none is. Times do not fall, and most entries have been sent: from the last one back.
fn first_later(s: &[u8], n: usize, mark: u32, count: usize) -> usize
    requires { Undamaged s.now × (n < plan_nodes s.now) × (count ≡ length (node_at (line_of s.now) n).log) }
    ensures { LaterFrom mark (node_at (line_of s.now) n).log result }
{
    for k in (0..count).rev() {
        if node_fields::entry_of(s, n, k).time <= mark {
            return k + 1;
        }
    }
    0
}

// "the first logged message later than the belt's mark that the belt takes", by the channel's bit in the entries' sets
fn next_of(s: &[u8], b: usize) -> Option<Logged>
    requires { Undamaged s.now × (b < plan_channels s.now) }
    ensures { next_is result ≡ sendable (line_of s.now) b }
{
    let n = look::sender_of(s, b);
    let bit = sets::bit_of(s, b);
    let mark = channel_fields::mark_of(s, b);
    let count = node_fields::log_count(s, n);
    for i in first_later(s, n, mark, count)..count {
        let e = node_fields::entry_of(s, n, i);
        if (e.set >> bit) % 2 == 1 {
            return Some(e);
        }
    }
    None
}

// A log entry as a message.
fn message_of(e: Logged) -> Sent
    ensures { message_is result ≡ message_of (entry_is e) }
{
    Sent {
        what: e.what,
        time: e.time,
        made: e.made,
    }
}

// A log entry "goes on the belt; the mark becomes its time".
fn put_on(s: &mut [u8], b: usize, e: Logged)
    requires { AtLane s.old b × (length (lane_at (line_of s.old) b).queue < queue_limit) }
    ensures { LaneNow s.old b (sent_on (entry_is e)) s.new }
{
    let m = message_of(e);
    channel_fields::push_message(s, b, m);
    channel_fields::set_mark(s, b, e.time);
}

pub fn send(s: &mut [u8], b: usize) -> Result<(), Refusal>
    requires { Undamaged s.old }
    ensures { Did s.old (frames.send b) s.new (number result) }
{
    if look::channel_count(s) <= b {
        return Err(Refusal::NoSuchPlace);
    }
    if end_down(s, b) {
        return Err(Refusal::WrongStatus);
    }
    let e = next_of(s, b).ok_or(Refusal::NothingThere)?;
    if QUEUE <= channel_fields::queue_count(s, b) {
        return Err(Refusal::ChannelFull);
    }
    put_on(s, b, e);
    Ok(())
}

// What a node made of a record that it took is logged at its time; none of the channels before `from` leaves the node.
fn log_taken(s: &mut [u8], n: usize, from: usize, what: Record, made: Made, before: Made)
    requires { Loggable s.old n × LeaveFrom (plan_of s.old) n from }
    ensures { let p = (line_of s.old).plan in NodeNow s.old n (logged (time_for p n what (node_at (line_of s.old) n).time) (set_of p n what) what (origin_is made) (origin_is before)) s.new }
{
    let takers = Takers::of(s, n, from, what);
    let time = takers.time(s, n);
    log_made(
        s,
        n,
        Logged {
            what,
            time,
            made,
            before,
            set: takers.set,
        },
    );
}

// "the receiver removes the belt's first message, raises its clock by it, applies its rule, raises its time by 1 and logs": of a receiver that is up, where there is something to take. Where channels leave the receiver and none of them takes the record, it is logged at the present time.
pub fn take_up(s: &mut [u8], b: usize) -> Result<(), Refusal>
    requires { Taking s.old b }
    ensures { Did s.old (frames.take b) s.new (number result) }
{
    let c = look::channel_of(s, b);
    let n = usize::from(c.receiver);
    if LOG <= node_fields::log_count(s, n) {
        return Err(Refusal::NoSpace);
    }
    let m = channel_fields::first_of(s, b);
    channel_fields::take_first(s, b, m);
    let what = made_by(s, n, m.what);
    log_taken(s, n, b + 1, what, Made::by(c.sender, m.time), m.made);
    Ok(())
}
