// Crash, Recover, Ask and Commit on the bytes of a state (document 01, kinds 4 and 5; document 02, 2026-07). Nothing is written before the answer is known to be 0: a refusal leaves the state as it came.
#![tactic(auto)]

ghost use Rattle.std.specs.Prelude.{◌≡◌, ◌<◌, length};
ghost use Rattle.answers.specs.Number.{number};
ghost use Rattle.plan.specs.Plan.{plan_of, plan_nodes};
ghost use Rattle.rules.specs.Line.{up, replay};
ghost use Rattle.rules.specs.Step.{neighbour_crashed};
ghost use Rattle.rules.specs.Frame.{crash, recover, ask, commit};
ghost use Rattle.state.specs.Changes.{with_targets};
ghost use Rattle.state.specs.State.{line_of};
ghost use Rattle.buffer.specs.Ready.{Ready, OnChannel};
ghost use Rattle.buffer.specs.Holds.{Holds, AtNode, AtLane, NodeNow, LaneNow, Undamaged, Did};
ghost use Rattle.buffer.specs.Rows.{rows_long};
ghost use Rattle.buffer.specs.Status.{status_is};
ghost use Rattle.node_fields.specs.Kept.{kept_is};
ghost use Rattle.recover.specs.Found.{targets_in};
ghost use Rattle.restart.specs.Answers.{is_end, beside_on, reach_answer, crash_answer, restart_asked};
ghost use Rattle.restart.specs.Finds.{filled, Restoring, KeptRows};
ghost use Rattle.restart.specs.Lanes.{wiped, cleared, with_entry, marked, crashed_on, restored_on, crashed_lanes, restored_lanes};
ghost use Rattle.restart.specs.Nodes.{emptied, settled, Fillable};

use answers::Refusal;
use buffer::look;
use buffer::status::Status;
use node_fields::Kept;
use recover::told;
use recover::told::Found;
use slots::Goal;

// ---- what is asked

// Whether a node is a source or a sink.
fn is_end(s: &[u8], n: usize) -> bool
    requires { Ready s.now }
    ensures { result ≡ is_end (line_of s.now) n }
{
    look::is_source(s, n) | look::is_sink(s, n)
}

// Whether channel b joins a node to one that bears a crash mark.
fn beside_on(s: &[u8], n: usize, b: usize) -> bool
    requires { OnChannel s.now b }
    ensures { result ≡ beside_on (line_of s.now) n b }
{
    let from = look::sender_of(s, b);
    let to = look::receiver_of(s, b);
    ((to == n) & look::has_crashed(s, from)) | ((from == n) & look::has_crashed(s, to))
}

fn beside_crashed(s: &[u8], n: usize) -> bool
    requires { Ready s.now }
    ensures { result ≡ neighbour_crashed (line_of s.now) n }
{
    let mut found = false;
    for b in 0..look::channel_count(s) {
        found |= beside_on(s, n, b);
    }
    found
}

// Of a node that is to be crashed or restarted: it is there, and no source or sink.
fn may_reach(s: &[u8], n: usize) -> Result<(), Refusal>
    requires { Ready s.now }
    ensures { number result ≡ reach_answer (line_of s.now) n }
{
    if look::node_count(s) <= n {
        return Err(Refusal::NoSuchPlace);
    }
    if is_end(s, n) {
        return Err(Refusal::WrongPlace);
    }
    Ok(())
}

fn may_crash(s: &[u8], n: usize) -> Result<(), Refusal>
    requires { Ready s.now }
    ensures { number result ≡ crash_answer (line_of s.now) n }
{
    may_reach(s, n)?;
    if look::is_down(s, n) {
        return Err(Refusal::WrongStatus);
    }
    if beside_crashed(s, n) {
        return Err(Refusal::CrashedNeighbour);
    }
    Ok(())
}

fn may_restart(s: &[u8], n: usize) -> Result<(), Refusal>
    requires { Ready s.now }
    ensures { number result ≡ restart_asked (line_of s.now) n }
{
    may_reach(s, n)?;
    if !look::is_down(s, n) {
        return Err(Refusal::WrongStatus);
    }
    Ok(())
}

// ---- Crash

// The node is down and crash-marked, and "its log, [..] time, targets and held records [..] are emptied to 0".
fn empty_node(s: &mut [u8], n: usize)
    requires { AtNode s.old n }
    ensures { NodeNow s.old n emptied s.new }
{
    node_fields::set_status(s, n, Status::Down);
    node_fields::mark_crashed(s, n);
    node_fields::set_time(s, n, 0);
    node_fields::clear_log(s, n);
    node_fields::clear_held(s, n);
    node_fields::clear_targets(s, n);
    node_fields::clear_kept(s, n);
}

// A channel that enters it, with its clock and its low clock; one that leaves it, whose clocks are the child's.
fn wipe(s: &mut [u8], b: usize)
    requires { AtLane s.old b }
    ensures { LaneNow s.old b wiped s.new }
{
    channel_fields::set_mark(s, b, 0);
    channel_fields::set_taken(s, b, 0);
    channel_fields::clear_heard(s, b);
    channel_fields::clear_queue(s, b);
    channel_fields::clear_low_clock(s, b);
}

fn clear(s: &mut [u8], b: usize)
    requires { AtLane s.old b }
    ensures { LaneNow s.old b cleared s.new }
{
    channel_fields::set_mark(s, b, 0);
    channel_fields::clear_queue(s, b);
}

fn crash_channel(s: &mut [u8], n: usize, b: usize)
    requires { AtLane s.old b }
    ensures { LaneNow s.old b (crashed_on (line_of s.old).plan n b) s.new }
{
    if look::receiver_of(s, b) == n {
        wipe(s, b);
        return;
    }
    if look::sender_of(s, b) == n {
        clear(s, b);
    }
}

// This walk and the one that restores stay two: one over a closure would have to promise it AtLane in each state on the way, in more lines than both.
fn crash_channels(s: &mut [u8], n: usize)
    requires { Holds s.old (line_of s.old) }
    ensures { Holds s.new (crashed_lanes n (line_of s.old)) }
{
    for b in 0..look::channel_count(s) {
        crash_channel(s, n, b);
    }
}

// Kind 4.
pub fn crash(s: &mut [u8], n: usize) -> Result<(), Refusal>
    requires { Undamaged s.old }
    ensures { Did s.old (crash n) s.new (number result) }
{
    may_crash(s, n)?;
    empty_node(s, n);
    crash_channels(s, n);
    Ok(())
}

// ---- Recover, Ask and Commit

// What Recover finds of a node, if it isn't refused.
fn find(s: &[u8], n: usize, found: &mut Found) -> Result<(), Refusal>
    requires { Undamaged s.now }
    ensures { Restoring s.now n (filled result found.new) }
{
    may_restart(s, n)?;
    told::find(s, n, found)?;
    if found.has_no_outcome(s, n) {
        return Err(Refusal::NoPlacing);
    }
    Ok(())
}

// The targets found, into a node that has none.
fn put_targets(s: &mut [u8], n: usize, targets: &[Goal])
    requires { Fillable s.old n targets.now }
    ensures { NodeNow s.old n (with_targets (targets_in targets.now)) s.new }
{
    for g in targets {
        node_fields::append_target(s, n, *g);
    }
}

// "No targets: B is up. Else it replays."
fn status_with(count: usize) -> Status
    ensures { (count ≡ 0 → status_is result ≡ up) × (0 < count → status_is result ≡ replay) }
{
    if count == 0 {
        Status::Up
    } else {
        Status::Replaying
    }
}

// "B's time is low", its status goes by its targets, and it keeps no answer.
fn settle(s: &mut [u8], n: usize, low: u32)
    requires { AtNode s.old n }
    ensures { NodeNow s.old n (settled low) s.new }
{
    let count = node_fields::target_count(s, n);
    node_fields::set_time(s, n, low);
    node_fields::set_status(s, n, status_with(count));
    node_fields::clear_kept(s, n);
}

// "each entering belt's mark [is] the restored entry", and so is the clock's.
fn restore_entry(s: &mut [u8], b: usize, time: u32)
    requires { AtLane s.old b }
    ensures { LaneNow s.old b (with_entry time) s.new }
{
    channel_fields::set_mark(s, b, time);
    channel_fields::set_taken(s, b, time);
}

// "each leaving belt's mark is the child's entry for B"
fn restore_mark(s: &mut [u8], b: usize)
    requires { AtLane s.old b }
    ensures { LaneNow s.old b marked s.new }
{
    let time = channel_fields::taken_of(s, b);
    channel_fields::set_mark(s, b, time);
}

fn restore_channel(s: &mut [u8], n: usize, b: usize, entries: &[u32; 12])
    requires { AtLane s.old b × (length entries.now ≡ rows_long) }
    ensures { LaneNow s.old b (restored_on (line_of s.old).plan n entries.now b) s.new }
{
    let parent = look::sender_of(s, b);
    if look::receiver_of(s, b) == n {
        restore_entry(s, b, entries[parent]);
        return;
    }
    if parent == n {
        restore_mark(s, b);
    }
}

fn restore_channels(s: &mut [u8], n: usize, entries: &[u32; 12])
    requires { Holds s.old (line_of s.old) × (length entries.now ≡ rows_long) }
    ensures { Holds s.new (restored_lanes n entries.now (line_of s.old)) }
{
    for b in 0..look::channel_count(s) {
        restore_channel(s, n, b, entries);
    }
}

// Kind 5.
pub fn recover(s: &mut [u8], n: usize) -> Result<(), Refusal>
    requires { Undamaged s.old }
    ensures { Did s.old (recover n) s.new (number result) }
{
    let mut found = Found::new();
    find(s, n, &mut found)?;
    node_fields::clear_targets(s, n);
    put_targets(s, n, found.targets.all());
    settle(s, n, found.low);
    restore_channels(s, n, &found.entries);
    Ok(())
}

// Kind 7: "works out what Recover would and keeps it with the down node".
pub fn ask(s: &mut [u8], n: usize) -> Result<(), Refusal>
    requires { Undamaged s.old }
    ensures { Did s.old (ask n) s.new (number result) }
{
    let mut answer = Found::new();
    find(s, n, &mut answer)?;
    let kept = answer.answer(s, n);
    node_fields::clear_targets(s, n);
    put_targets(s, n, answer.targets.all());
    node_fields::set_kept(s, n, kept);
    Ok(())
}

// The kept entry of each parent, by the parent's number.
fn kept_entries(s: &[u8], n: usize, kept: Kept) -> [u32; 12]
    requires { Ready s.now × (n < plan_nodes s.now) }
    ensures { (length result ≡ rows_long) × KeptRows (plan_of s.now) n (kept_is kept) result }
{
    let mut entries: [u32; 12] = [0; 12];
    for (place, b) in plan::masks::entering(s, n).enumerate() {
        entries[look::sender_of(s, b)] = kept.entries[place];
    }
    entries
}

// Kind 8: "applies it". Nothing is worked out.
pub fn commit(s: &mut [u8], n: usize) -> Result<(), Refusal>
    requires { Undamaged s.old }
    ensures { Did s.old (commit n) s.new (number result) }
{
    may_restart(s, n)?;
    let Some(kept) = node_fields::kept_of(s, n) else {
        return Err(Refusal::NothingKept);
    };
    let entries = kept_entries(s, n, kept);
    settle(s, n, kept.low);
    restore_channels(s, n, &entries);
    Ok(())
}
