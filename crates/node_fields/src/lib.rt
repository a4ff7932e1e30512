// A node's fields, read and written in the state's bytes. What is written leaves every other byte as it was: each function promises the line with that node changed.
#![tactic(auto)]

ghost use Rattle.std.specs.Prelude.{◌≡◌, true, not, [], ◌≤◌, ◌<◌, length, get_or, drop};
ghost use Rattle.std.proofs.Math.Option.{none, some};
ghost use Rattle.plan.specs.Plan.{plan_nodes};
ghost use Rattle.rules.specs.Line.{log_limit, held_limit, target_limit, Asked, node_at};
ghost use Rattle.rules.specs.Step.{is_nothing};
ghost use Rattle.state.specs.Pieces.{asked_numbers};
ghost use Rattle.state.specs.State.{line_of};
ghost use Rattle.buffer.specs.Ready.{Ready};
ghost use Rattle.buffer.specs.Holds.{AtNode, NodeNow};
ghost use Rattle.rules.specs.Trim.{with_log};
ghost use Rattle.state.specs.Changes.{with_status, with_crashed, with_time, with_held, with_targets, with_asked, more_logged, more_held, more_targets};
ghost use Rattle.slots.specs.Slots.{entry_is, held_is, target_is};
ghost use Rattle.buffer.specs.Nothing.{no_entry, no_held, no_target};
ghost use Rattle.buffer.specs.Status.{status_is};
ghost use Rattle.node_fields.specs.Kept.{kept_is, keeps};

use buffer::status::Status;
use buffer::{bytes, layout};
use slots::{Goal, Logged, Piece, Waiting, list};

// An answer that is kept: the low and the high time, and the restored entry of each parent.
#[derive(Clone, Copy, Debug, PartialEq, Eq)]
pub struct Kept {
    pub low: u32,
    pub high: u32,
    pub entries: [u32; 4],
}

// ---- read

pub fn time_of(s: &[u8], n: usize) -> u32
    requires { Ready s.now × (n < plan_nodes s.now) }
    ensures { result ≡ (node_at (line_of s.now) n).time }
{
    bytes::get32(s, layout::PAGE * (1 + n) + layout::TIME)
}

pub fn log_count(s: &[u8], n: usize) -> usize
    requires { AtNode s.now n }
    ensures { (result ≡ length (node_at (line_of s.now) n).log) × (result ≤ log_limit) }
{
    list::LOG.count(s, layout::PAGE * (1 + n))
}

pub fn held_count(s: &[u8], n: usize) -> usize
    requires { AtNode s.now n }
    ensures { (result ≡ length (node_at (line_of s.now) n).held) × (result ≤ held_limit) }
{
    list::HELD.count(s, layout::PAGE * (1 + n))
}

pub fn target_count(s: &[u8], n: usize) -> usize
    requires { AtNode s.now n }
    ensures { (result ≡ length (node_at (line_of s.now) n).targets) × (result ≤ target_limit) }
{
    list::TARGETS.count(s, layout::PAGE * (1 + n))
}

// Entry i of the log, held record i, target i.
pub fn entry_of(s: &[u8], n: usize, i: usize) -> Logged
    requires { AtNode s.now n × (i < length (node_at (line_of s.now) n).log) }
    ensures { entry_is result ≡ get_or (node_at (line_of s.now) n).log i no_entry }
{
    Logged::read(s, list::LOG.place(layout::PAGE * (1 + n), i))
}

pub fn held_of(s: &[u8], n: usize, i: usize) -> Waiting
    requires { AtNode s.now n × (i < length (node_at (line_of s.now) n).held) }
    ensures { held_is result ≡ get_or (node_at (line_of s.now) n).held i no_held }
{
    Waiting::read(s, list::HELD.place(layout::PAGE * (1 + n), i))
}

pub fn target_of(s: &[u8], n: usize, i: usize) -> Goal
    requires { AtNode s.now n × (i < length (node_at (line_of s.now) n).targets) }
    ensures { target_is result ≡ get_or (node_at (line_of s.now) n).targets i no_target }
{
    Goal::read(s, list::TARGETS.place(layout::PAGE * (1 + n), i))
}

// Whether an answer is kept with the node (document 02, 2026-07); the answer; and its number i: low, high, the entries.
pub fn has_kept(s: &[u8], n: usize) -> bool
    requires { Ready s.now × (n < plan_nodes s.now) }
    ensures { result ≡ not (is_nothing (node_at (line_of s.now) n).asked) }
{
    bytes::get32(s, layout::PAGE * (1 + n) + layout::KEPT) != 0
}

pub fn kept_of(s: &[u8], n: usize) -> Option<Kept>
    requires { Ready s.now × (n < plan_nodes s.now) }
    ensures { keeps result ≡ (node_at (line_of s.now) n).asked }
{
    if !has_kept(s, n) {
        return None;
    }
    Some(Kept {
        low: kept_number(s, n, 0),
        high: kept_number(s, n, 1),
        entries: [
            kept_number(s, n, 2),
            kept_number(s, n, 3),
            kept_number(s, n, 4),
            kept_number(s, n, 5),
        ],
    })
}

pub fn kept_number(s: &[u8], n: usize, i: usize) -> u32
    requires { Ready s.now × (n < plan_nodes s.now) × (i < 6) }
    ensures { (a : Asked) → (node_at (line_of s.now) n).asked ≡ some a → result ≡ get_or (asked_numbers a) i 0 }
{
    bytes::get32(s, layout::PAGE * (1 + n) + (layout::KEPT_SLOT + 4 * i))
}

// ---- written

pub fn set_status(s: &mut [u8], n: usize, status: Status)
    requires { AtNode s.old n }
    ensures { NodeNow s.old n (with_status (status_is status)) s.new }
{
    bytes::put8(s, layout::PAGE * (1 + n), u8::from(status));
}

pub fn mark_crashed(s: &mut [u8], n: usize)
    requires { AtNode s.old n }
    ensures { NodeNow s.old n (with_crashed true) s.new }
{
    bytes::put8(s, layout::PAGE * (1 + n) + 1, 1);
}

pub fn set_time(s: &mut [u8], n: usize, time: u32)
    requires { AtNode s.old n }
    ensures { NodeNow s.old n (with_time time) s.new }
{
    bytes::put32(s, layout::PAGE * (1 + n) + layout::TIME, time);
}

// Each list emptied: its count and the slots used become 0.
pub fn clear_log(s: &mut [u8], n: usize)
    requires { AtNode s.old n }
    ensures { NodeNow s.old n (with_log []) s.new }
{
    list::LOG.clear(s, layout::PAGE * (1 + n));
}

pub fn clear_held(s: &mut [u8], n: usize)
    requires { AtNode s.old n }
    ensures { NodeNow s.old n (with_held []) s.new }
{
    list::HELD.clear(s, layout::PAGE * (1 + n));
}

pub fn clear_targets(s: &mut [u8], n: usize)
    requires { AtNode s.old n }
    ensures { NodeNow s.old n (with_targets []) s.new }
{
    list::TARGETS.clear(s, layout::PAGE * (1 + n));
}

// The kept answer written, and emptied.
pub fn set_kept(s: &mut [u8], n: usize, kept: Kept)
    requires { AtNode s.old n }
    ensures { NodeNow s.old n (with_asked (some (kept_is kept))) s.new }
{
    let at = layout::PAGE * (1 + n) + layout::KEPT;
    let [first, second, third, fourth] = kept.entries;
    bytes::put32(s, at, 1);
    bytes::put32(s, at + 4, kept.low);
    bytes::put32(s, at + 8, kept.high);
    bytes::put32(s, at + 12, first);
    bytes::put32(s, at + 16, second);
    bytes::put32(s, at + 20, third);
    bytes::put32(s, at + 24, fourth);
}

pub fn clear_kept(s: &mut [u8], n: usize)
    requires { AtNode s.old n }
    ensures { NodeNow s.old n (with_asked none) s.new }
{
    let at = layout::PAGE * (1 + n);
    bytes::fill_zero(s, at + layout::KEPT, at + layout::PAGE_REST);
}

// One more entry in the log, one more held record, one more target, behind the others.
pub fn append_entry(s: &mut [u8], n: usize, e: Logged)
    requires { AtNode s.old n × (length (node_at (line_of s.old) n).log < log_limit) }
    ensures { NodeNow s.old n (more_logged (entry_is e)) s.new }
{
    let at = list::LOG.add(s, layout::PAGE * (1 + n));
    e.write(s, at);
}

pub fn append_held(s: &mut [u8], n: usize, h: Waiting)
    requires { AtNode s.old n × (length (node_at (line_of s.old) n).held < held_limit) }
    ensures { NodeNow s.old n (more_held (held_is h)) s.new }
{
    let at = list::HELD.add(s, layout::PAGE * (1 + n));
    h.write(s, at);
}

pub fn append_target(s: &mut [u8], n: usize, g: Goal)
    requires { AtNode s.old n × (length (node_at (line_of s.old) n).targets < target_limit) × (g.parent < 256) }
    ensures { NodeNow s.old n (more_targets (target_is g)) s.new }
{
    let at = list::TARGETS.add(s, layout::PAGE * (1 + n));
    g.write(s, at);
}

// So many entries at the log's front go, and those behind them move up.
pub fn drop_entries(s: &mut [u8], n: usize, count: usize)
    requires { AtNode s.old n × (count ≤ length (node_at (line_of s.old) n).log) }
    ensures { NodeNow s.old n (λ x. with_log (drop count x.log) x) s.new }
{
    let left = log_count(s, n) - count;
    let at = layout::PAGE * (1 + n) + layout::LOG;
    bytes::put32(s, at, left as u32);
    slots::close_up::<Logged>(s, at + layout::COUNT, count, left);
}
