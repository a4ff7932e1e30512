// The check of a node's page.
#![tactic(auto)]

ghost use Rattle.std.specs.Prelude.{◌≡◌, not, ◌&&◌, ◌||◌, ◌+◌, ◌*◌, ◌-◌, ◌≤◌, ◌<◌, length, get_or, leb};
ghost use Rattle.plan.specs.Plan.{plan_of, plan_nodes, is_none, is_source, is_sink};
ghost use Rattle.plan.specs.Mask.{listed, among, takes_at};
ghost use Rattle.rules.specs.Lists.{all_of};
ghost use Rattle.rules.specs.Line.{node_at, accepted_steps, log_limit, held_limit, target_limit};
ghost use Rattle.state.specs.Sizes.{page_at, count_size, time_at, log_at, entry_size, held_at, held_size, targets_at, target_size};
ghost use Rattle.state.specs.Node.{status_number};
ghost use Rattle.state.specs.State.{line_of};
ghost use Rattle.state.specs.Right.{word_at};
ghost use Rattle.items.specs.Items.{may_follow, entries_right, log_right, held_all_right, target_right, status_right, node_plain};
ghost use Rattle.buffer.specs.Exact.{entry_exact, held_exact, target_exact, slots_exact, list_exact, page_exact};
ghost use Rattle.buffer.specs.Check.{record_in};
ghost use Rattle.buffer.specs.Status.{status_is};
ghost use Rattle.node_check.specs.NodeCheck.{PageOf, target_in, head_exact, entry_plain, entry_made, held_plain, held_made, page_end_exact, holds_nothing, log_pass, ListFound};

use buffer::joins::Joins;
use buffer::status::Status;
use buffer::{Line, bytes, layout, look, origin, record};
use plan::masks::Channels;

mod sets;

// A node's page of a ready state: where it starts, and all accepted steps, which no time passes.
#[derive(Clone, Copy)]
struct Page<'a> {
    joins: Joins<'a>,
    n: usize,
    at: usize,
    steps: u32,
    ghost there: { PageOf joins.state.now n at },
    ghost all: { steps ≡ accepted_steps (line_of joins.state.now) },
}

// A log entry's record and its unused byte.
fn entry_plain(s: &[u8], at: usize) -> bool
    requires { at + 24 ≤ length s.now }
    ensures { result ≡ entry_plain at s.now }
{
    let what = origin::record_ok(s, at);
    what & (s[at + 23] == 0)
}

// Whether an entry is plain, its time not past the top, and one that may follow another: it is later or, at an inner node's entry with an empty set, the same (document 02, 2026-08).
fn follows(s: &[u8], inner: bool, slot: usize, plain: bool, last: u32, time: u32, top: u32) -> bool
    requires { slot + 24 ≤ length s.now }
    ensures { result ≡ (plain && (may_follow inner last time (get_or s.now (slot + 22) 0) && leb time top)) }
{
    let again = inner & (last == time) & (s[slot + 22] == 0);
    plain & (((last < time) | again) & (time <= top))
}

// A held record's record and its two unused bytes.
fn held_plain(s: &[u8], at: usize) -> bool
    requires { at + 20 ≤ length s.now }
    ensures { result ≡ held_plain at s.now }
{
    let what = origin::record_ok(s, at);
    what & ((s[at + 18] | s[at + 19]) == 0)
}

// What a node of a status may not have: its time, and how many log entries, held records, targets and kept answers.
#[derive(Clone, Copy)]
struct Counts {
    time: u32,
    log: u32,
    held: u32,
    targets: u32,
    kept: u32,
}

impl Counts {
    // Held records, targets and a kept answer where it is up; anything but a kept answer and its targets where it is down; a log and a kept answer where it replays.
    fn suit(self, status: Status) -> bool
        ensures { result ≡ holds_nothing (status_number (status_is status)) self.time self.log self.held self.targets self.kept }
    {
        match status {
            Status::Up => (self.held == 0) & (self.targets == 0) & (self.kept == 0),
            Status::Down => {
                (self.time == 0)
                    & (self.log == 0)
                    & (self.held == 0)
                    & ((self.targets == 0) | (self.kept != 0))
            }
            Status::Replaying => (self.log == 0) & (self.kept == 0),
        }
    }
}

// Whether one of some channels takes a record.
fn passed_on(s: &[u8], channels: Channels, at: usize) -> bool
    requires { at + 8 ≤ length s.now }
    ensures { result ≡ not (is_none (among (takes_at (plan_of s.now) (record_in at s.now)) (listed channels))) }
{
    let what = record::record_of(bytes::get64(s, at));
    channels.some_takes(s, what.piece, what.material, what.mass)
}

// A list: its count, which is within a limit, so many slots that pass a test, and zero bytes behind them.
fn list_ok<F: Fn(usize) -> bool>(s: &[u8], at: usize, limit: u32, size: usize, used: F) -> bool
    requires room { at + 4 + size * limit ≤ length s.now }
    requires asked { word_at at s.now ≤ limit → F.pre used (word_at at s.now) }
    ensures { ListFound (F.post used) limit size at s.now result }
{
    let count = bytes::get32(s, at);
    if limit < count {
        return false;
    }
    let slots = at + layout::COUNT;
    used(count as usize)
        && bytes::all_zero(
            s,
            slots + size * (count as usize),
            slots + size * (limit as usize),
        )
}

impl Page<'_> {
    // What a log entry was made from, and what that was made from.
    fn entry_made(&self, slot: usize) -> bool
        requires { slot + 24 ≤ length self.now.joins.state.now }
        ensures { result ≡ entry_made self.now.n slot self.now.joins.state.now }
    {
        let s = self.joins.state;
        let from = usize::from(s[slot + 12]);
        let time = bytes::get32(s, slot + 13);
        let earlier = usize::from(s[slot + 17]);
        let since = bytes::get32(s, slot + 18);
        self.joins.origin_ok(self.n, from, time, earlier, since)
    }

    // A loop of its own beside entries_ok: with the test of repeated times in that one a full check took 13 in a hundred longer.
    // The log's entries from the first on that is not plain, later than the last and within the top: times may repeat there.
    fn entries_on(&self, first: usize, count: usize, last: u32, top: u32) -> bool
        requires { (first ≤ count) × (count ≤ log_limit) × (top ≡ (node_at (line_of self.now.joins.state.now) self.now.n).time) }
        ensures { result ≡ log_pass self.now.joins.state.now self.now.n last (self.now.at + 12 + entry_size * first) (count - first) }
    {
        let s = self.joins.state;
        let source = self.joins.is_source(self.n);
        let sink = look::is_sink(s, self.n);
        let inner = !(source | sink);
        let mut so_far = last;
        for i in first..count {
            let slot = self.at + layout::LOG_SLOTS + layout::ENTRY_SIZE * i;
            let time = bytes::get32(s, slot + 8);
            let plain = entry_plain(s, slot);
            if !follows(s, inner, slot, plain, so_far, time, top) {
                return false;
            }
            if !self.entry_made(slot) {
                return false;
            }
            so_far = time;
        }
        true
    }

    // The log's entries, so many: their times rise to the node's, or repeat where their sets are empty. The sets themselves are looked at behind this.
    fn entries_ok(&self, count: usize) -> bool
        requires { (count ≡ word_at (page_at self.now.n + log_at) self.now.joins.state.now) × (count ≤ log_limit) }
        ensures { result ≡ (slots_exact entry_exact entry_size (page_at self.now.n + log_at + count_size) count self.now.joins.state.now
            && entries_right (line_of self.now.joins.state.now) self.now.n (node_at (line_of self.now.joins.state.now) self.now.n).log) }
    {
        let s = self.joins.state;
        let top = bytes::get32(s, self.at + layout::TIME);
        let mut last: u32 = 0;
        for i in 0..count {
            let slot = self.at + layout::LOG_SLOTS + layout::ENTRY_SIZE * i;
            let time = bytes::get32(s, slot + 8);
            let plain = entry_plain(s, slot);
            if !(plain & ((last < time) & (time <= top))) {
                return self.entries_on(i, count, last, top);
            }
            if !self.entry_made(slot) {
                return false;
            }
            last = time;
        }
        true
    }

    // The log: its entries, and their sets.
    fn log_ok(&self) -> bool
        ensures { result ≡ (list_exact entry_exact log_limit entry_size (page_at self.now.n + log_at) self.now.joins.state.now
            && log_right (line_of self.now.joins.state.now) self.now.n (node_at (line_of self.now.joins.state.now) self.now.n).log) }
    {
        list_ok(
            self.joins.state,
            self.at + layout::LOG,
            Line::LOG_LIMIT,
            layout::ENTRY_SIZE,
            |count| { self.entries_ok(count) && self.sets_ok(count) },
        )
    }

    // What a held record was made from, a sender and its time, and what that was made from.
    fn held_made(&self, slot: usize) -> bool
        requires { slot + 20 ≤ length self.now.joins.state.now }
        ensures { result ≡ held_made self.now.n slot self.now.joins.state.now }
    {
        let s = self.joins.state;
        let sender = usize::from(s[slot + 8]);
        let time = bytes::get32(s, slot + 9);
        let earlier = usize::from(s[slot + 13]);
        let since = bytes::get32(s, slot + 14);
        self.joins.made_ok(self.n, sender, time, earlier, since)
    }

    // The held records, so many: the times of a row rise.
    fn held_each_ok(&self, count: usize) -> bool
        requires { (count ≡ word_at (page_at self.now.n + held_at) self.now.joins.state.now) × (count ≤ held_limit) }
        ensures { result ≡ (slots_exact held_exact held_size (page_at self.now.n + held_at + count_size) count self.now.joins.state.now
            && held_all_right (line_of self.now.joins.state.now) self.now.n (node_at (line_of self.now.joins.state.now) self.now.n).held) }
    {
        if count == 0 {
            return true;
        }
        let s = self.joins.state;
        let channels = plan::masks::leaving(s, self.n);
        // The last time of each row, by sender: a plan has at most 12 nodes.
        let mut rows: [u32; 12] = [0; 12];
        for i in 0..count {
            let slot = self.at + layout::HELD_SLOTS + layout::HELD_SIZE * i;
            let sender = usize::from(s[slot + 8]);
            let time = bytes::get32(s, slot + 9);
            let plain = held_plain(s, slot);
            let last = rows.get(sender).copied().unwrap_or(0);
            if !(plain & (last < time)) {
                return false;
            }
            let made = self.held_made(slot);
            let passed = passed_on(s, channels, slot);
            if !(made & passed) {
                return false;
            }
            if sender < rows.len() {
                rows[sender] = time;
            }
        }
        true
    }

    // The list of held records.
    fn held_ok(&self) -> bool
        ensures { result ≡ (list_exact held_exact held_limit held_size (page_at self.now.n + held_at) self.now.joins.state.now
            && held_all_right (line_of self.now.joins.state.now) self.now.n (node_at (line_of self.now.joins.state.now) self.now.n).held) }
    {
        list_ok(
            self.joins.state,
            self.at + layout::HELD,
            Line::HELD_LIMIT,
            layout::HELD_SIZE,
            |count| { self.held_each_ok(count) },
        )
    }

    // A target: the node's time, the parent's time, the parent, three bytes unused.
    fn target_ok(&self, slot: usize) -> bool
        requires { slot + 12 ≤ length self.now.joins.state.now }
        ensures { result ≡ (target_exact slot self.now.joins.state.now && target_right (line_of self.now.joins.state.now) self.now.n (target_in slot self.now.joins.state.now)) }
    {
        let s = self.joins.state;
        let parent = self.joins.is_parent(usize::from(s[slot + 8]), self.n);
        // Read behind the lookup, each number is one load.
        let time = bytes::get32(s, slot);
        let other = bytes::get32(s, slot + 4);
        let unused = ((s[slot + 9] | s[slot + 10]) | s[slot + 11]) == 0;
        unused & ((time <= self.steps) & (other <= self.steps) & parent)
    }

    // The targets, so many.
    fn target_each_ok(&self, count: usize) -> bool
        requires { (count ≡ word_at (page_at self.now.n + targets_at) self.now.joins.state.now) × (count ≤ target_limit) }
        ensures { result ≡ (slots_exact target_exact target_size (page_at self.now.n + targets_at + count_size) count self.now.joins.state.now
            && all_of (target_right (line_of self.now.joins.state.now) self.now.n) (node_at (line_of self.now.joins.state.now) self.now.n).targets) }
    {
        (0..count).all(|i| self.target_ok(self.at + layout::TARGET_SLOTS + layout::TARGET_SIZE * i))
    }

    // The list of targets.
    fn targets_ok(&self) -> bool
        ensures { result ≡ (list_exact target_exact target_limit target_size (page_at self.now.n + targets_at) self.now.joins.state.now
            && all_of (target_right (line_of self.now.joins.state.now) self.now.n) (node_at (line_of self.now.joins.state.now) self.now.n).targets) }
    {
        list_ok(
            self.joins.state,
            self.at + layout::TARGETS,
            Line::TARGET_LIMIT,
            layout::TARGET_SIZE,
            |count| { self.target_each_ok(count) },
        )
    }

    // The end of a page: one kept answer at most, and zero bytes behind it.
    fn rest_ok(&self) -> bool
        ensures { result ≡ page_end_exact self.now.at self.now.joins.state.now }
    {
        let kept = list_ok(
            self.joins.state,
            self.at + layout::KEPT,
            1,
            layout::PAGE_REST - layout::KEPT_SLOT,
            |_| true,
        );
        kept & bytes::all_zero(
            self.joins.state,
            self.at + layout::PAGE_REST,
            self.at + layout::PAGE,
        )
    }

    // Status, crash mark, two bytes unused, time.
    fn head_ok(&self) -> bool
        ensures { result ≡ (head_exact self.now.at self.now.joins.state.now && leb (word_at (self.now.at + time_at) self.now.joins.state.now) self.now.steps) }
    {
        let s = self.joins.state;
        let at = self.at;
        let time = bytes::get32(s, at + layout::TIME);
        let unused = (s[at + 2] | s[at + 3]) == 0;
        (s[at] <= 2) & (s[at + 1] <= 1) & unused & (time <= self.steps)
    }

    // Whether a crash mark is on a source or a sink.
    fn marks_an_end(&self, crashed: bool) -> bool
        ensures { result ≡ (crashed && (is_source (plan_of self.now.joins.state.now) self.now.n || is_sink (plan_of self.now.joins.state.now) self.now.n)) }
    {
        crashed && (self.joins.is_source(self.n) | look::is_sink(self.joins.state, self.n))
    }

    // Status and crash mark, by what the node holds and where it stands in the plan.
    fn status_ok(&self) -> bool
        ensures { result ≡ status_right (line_of self.now.joins.state.now).plan self.now.n (node_at (line_of self.now.joins.state.now) self.now.n) }
    {
        let s = self.joins.state;
        let status = look::status_of(s, self.n);
        let crashed = look::has_crashed(s, self.n);
        let counts = Counts {
            time: bytes::get32(s, self.at + layout::TIME),
            log: bytes::get32(s, self.at + layout::LOG),
            held: bytes::get32(s, self.at + layout::HELD),
            targets: bytes::get32(s, self.at + layout::TARGETS),
            kept: bytes::get32(s, self.at + layout::KEPT),
        };
        let end = self.marks_an_end(crashed);
        ((status == Status::Up) | crashed) & !end & counts.suit(status)
    }
}

// A node's page: right bytes, and a right node but for what its restart asks.
pub fn node_ok(joins: &Joins, n: usize, steps: u32) -> bool
    requires { (n < plan_nodes joins.now.state.now) × (steps ≡ accepted_steps (line_of joins.now.state.now)) }
    ensures { result ≡ (page_exact (page_at n) joins.now.state.now && node_plain (line_of joins.now.state.now) n) }
{
    let page = Page {
        joins: *joins,
        n,
        at: layout::PAGE + layout::PAGE * n,
        steps,
    };
    let head = page.head_ok();
    let log = page.log_ok();
    let held = page.held_ok();
    let targets = page.targets_ok();
    let rest = page.rest_ok();
    let status = page.status_ok();
    head & log & held & targets & (rest & status)
}
