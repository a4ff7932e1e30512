// What the children's clocks, low clocks and logs tell of a node: low, high, the restored entries and the targets.
ghost use Rattle.std.specs.Prelude.{◌≡◌, ◌+◌, ◌-◌, ◌≤◌, ◌<◌, ◌∷◌, [], length, MatchResult};
ghost use Rattle.plan.specs.Plan.{plan_nodes};
ghost use Rattle.rules.specs.Line.{node_at};
ghost use Rattle.rules.specs.Recover.{low_of, high_of, triples, restored, targets_of, answer_of};
ghost use Rattle.state.specs.State.{line_of};
ghost use Rattle.buffer.specs.Ready.{Ready, OnChannel};
ghost use Rattle.buffer.specs.Rows.{rows_long, Rows};
ghost use Rattle.slots.specs.Slots.{target_is};
ghost use Rattle.node_fields.specs.Kept.{kept_is};
ghost use Rattle.recover.specs.Found.{LogsCounted, entry_at, triple_of, goal_list, TooMany, no_outcome};
ghost use Rattle.recover.specs.Finds.{Finds, Told, ToldOn};

use crate::targets::Targets;
use crate::{lows, rows};
use answers::Refusal;
use buffer::{bytes, layout, look};
use node_fields::Kept;
use slots::{Goal, Made, Piece};

// What Recover finds of a node: low, the targets, and each parent's restored entry, by the parent's number.
#[derive(Drop)]
pub struct Found {
    pub low: u32,
    pub targets: Targets,
    pub entries: [u32; 12],
}

impl Found {
    // Nothing of any node, for find to fill.
    pub fn new() -> Found
        ensures { (result.low ≡ 0) × (result.targets ≡ []) × Rows result.entries (λ q. 0) }
    {
        Found {
            low: 0,
            targets: Targets::new(),
            entries: [0; 12],
        }
    }

    // Whether targets conflict, or all rows are complete as soon as the node is restored, and it has targets.
    pub fn has_no_outcome(&self, s: &[u8], n: usize) -> bool
        requires { Ready s.now × Rows self.now.entries (restored (line_of s.now) n) }
        ensures outcome { result ≡ no_outcome (line_of s.now) n self.now.targets }
        ensures few { length self.now.targets ≤ 64 }
    {
        let targets = self.targets.all();
        if targets.is_empty() {
            return false;
        }
        let mut goals: [u32; 12] = [0; 12];
        rows::conflict_in(targets, &mut goals) || rows::rows_restored(s, n, &goals, &self.entries)
    }

    // What Ask keeps of it.
    pub fn answer(&self, s: &[u8], n: usize) -> Kept
        requires { Ready s.now × (n < plan_nodes s.now) × Finds s.now n self.now }
        ensures { kept_is result ≡ answer_of (line_of s.now) n }
    {
        Kept {
            low: self.low,
            high: high_of(s, n),
            entries: rows::listed(s, n, &self.entries),
        }
    }
}

// Low and high are two loops, since low is of the channels that there are and high is 0 without any: with one over a closure the clauses would be longer than both.
// "Low is the least [..] clock entry for B among its children."
pub fn low_of(s: &[u8], n: usize) -> u32
    requires { Ready s.now }
    ensures { result ≡ low_of (line_of s.now) n }
{
    let mut low: Option<u32> = None;
    for b in 0..look::channel_count(s) {
        if look::sender_of(s, b) == n {
            let taken = channel_fields::taken_of(s, b);
            low = Some(low.map_or(taken, |least| taken.min(least)));
        }
    }
    low.unwrap_or(0)
}

// "[..] and high the greatest".
pub fn high_of(s: &[u8], n: usize) -> u32
    requires { Ready s.now }
    ensures { result ≡ high_of (line_of s.now) n }
{
    let mut high: u32 = 0;
    for b in 0..look::channel_count(s) {
        if look::sender_of(s, b) == n {
            high = high.max(channel_fields::taken_of(s, b));
        }
    }
    high
}

// As the function of this name in node_fields, which asks for a state that holds a line: here nothing is known but that the count is in its limit.
fn log_count(s: &[u8], k: usize) -> usize
    requires { Ready s.now × LogsCounted s.now × (k < plan_nodes s.now) }
    ensures { (result ≡ length (node_at (line_of s.now) k).log) × (result ≤ 64) }
{
    bytes::get32(s, layout::PAGE * (1 + k) + layout::LOG) as usize
}

// What entry i of node k's log says of node n: a target, if it was made from a message of n and that from a parent's.
fn told_at(s: &[u8], n: usize, k: usize, i: usize) -> Option<Goal>
    requires { Ready s.now × LogsCounted s.now × (n < plan_nodes s.now) × (k < plan_nodes s.now) × (i < 64) × (i < length (node_at (line_of s.now) k).log) }
    ensures { goal_list result ≡ triple_of n (entry_at (line_of s.now) k i) }
{
    let at = layout::PAGE * (1 + k) + layout::LOG_SLOTS + layout::ENTRY_SIZE * i;
    let made = Made::read(s, at + 12);
    let before = Made::read(s, at + 17);
    if made.sender()? != n {
        return None;
    }
    let parent = before.sender()?;
    Some(Goal {
        time: made.time,
        parent: parent as u32,
        sent: before.time,
    })
}

// ---- what the children tell

impl Found {
    // By an entry: its time in the parent's row if it is up to low, a target if it is above low.
    fn hear(&mut self, g: Goal) -> Result<(), Refusal>
        requires { length self.old.entries ≡ rows_long }
        ensures { Told (target_is g ∷ []) self.old result self.new }
    {
        if g.time <= self.low {
            rows::raise(&mut self.entries, g.parent, g.sent);
            return Ok(());
        }
        self.targets.add(g)
    }

    // In node k's log: by all its entries.
    fn hear_log(&mut self, s: &[u8], n: usize, k: usize) -> Result<(), Refusal>
        requires { Ready s.now × LogsCounted s.now × (n < plan_nodes s.now) × (k < plan_nodes s.now) × (length self.old.entries ≡ rows_long) }
        ensures { Told (triples n (node_at (line_of s.now) k).log) self.old result self.new }
    {
        let mut outcome: Result<(), Refusal> = Ok(());
        for i in 0..log_count(s, k) {
            if let Some(g) = told_at(s, n, k, i) {
                outcome = outcome.and(self.hear(g));
            }
        }
        outcome
    }

    // On channel b: by the low clock and in the log at its end, if the channel leaves the node.
    fn hear_channel(&mut self, s: &[u8], n: usize, b: usize) -> Result<(), Refusal>
        requires { OnChannel s.now b × LogsCounted s.now × (n < plan_nodes s.now) × (length self.old.entries ≡ rows_long) }
        ensures { ToldOn s.now n b self.old result self.new }
    {
        if look::sender_of(s, b) != n {
            return Ok(());
        }
        lows::lows_on(s, n, b, &mut self.entries);
        self.hear_log(s, n, look::receiver_of(s, b))
    }
}

// Of a node. "Targets are the distinct triples (B-time, A, A-time) with B-time above low, over all children": refused if there are more than 64.
// "the restored entry is the greatest A-time in children's log entries made from B's messages with B-time at most low, 0 if none", and at least what the children's low clocks hold.
// Low and the entries are found of a node that is refused, too.
// What is found is lent: handed out, it would lie on the stack of each caller twice, and line_check would need twice the stack.
pub fn find(s: &[u8], n: usize, found: &mut Found) -> Result<(), Refusal>
    requires { Ready s.now × LogsCounted s.now × (n < plan_nodes s.now) }
    ensures told { MatchResult result (λ _. Finds s.now n found.new) (TooMany (targets_of (line_of s.now) n)) }
    ensures rows { (found.new.low ≡ low_of (line_of s.now) n) × Rows found.new.entries (restored (line_of s.now) n) }
{
    found.low = low_of(s, n);
    found.targets.clear();
    found.entries = [0; 12];
    let mut outcome: Result<(), Refusal> = Ok(());
    for b in 0..look::channel_count(s) {
        outcome = outcome.and(found.hear_channel(s, n, b));
    }
    outcome
}
