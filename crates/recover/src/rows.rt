// Rows, a number for each parent: a plan has at most 12 nodes.
ghost use Rattle.std.specs.Prelude.{◌≡◌, true, not, ◌||◌, false, List, eqb, ◌≤◌, ◌<◌, length};
ghost use Rattle.plan.specs.Plan.{plan_of, plan_nodes, channel_at};
ghost use Rattle.std.specs.List.{list_any};
ghost use Rattle.rules.specs.Line.{Target};
ghost use Rattle.rules.specs.Recover.{restored, clash, conflict, row_goal, answer_of};
ghost use Rattle.state.specs.State.{line_of};
ghost use Rattle.buffer.specs.Ready.{Ready, OnChannel};
ghost use Rattle.buffer.specs.Rows.{rows_long, Rows};
ghost use Rattle.slots.specs.Slots.{target_is};
ghost use Rattle.recover.specs.Found.{targets_in, rows_in, raised_at, is_above, row_reached};

use buffer::look;
use slots::Goal;

// A parent's row raised to a time, if the time is above it; and whether it is.
pub fn raise(rows: &mut [u32; 12], parent: u32, time: u32) -> bool
    requires { length rows.old ≡ rows_long }
    ensures { (result ≡ is_above rows.old parent time) × Rows rows.new (raised_at rows.old parent time) }
{
    let at = parent as usize;
    if 12 <= at {
        return false;
    }
    if time <= rows[at] {
        return false;
    }
    rows[at] = time;
    true
}

// "the greatest A-time of its targets", 0 if the parent has none: of each parent, in rows that are 0 before.
// And whether times rise, all of them and each parent's: then no target clashes with another.
fn rising(targets: &[Goal], rows: &mut [u32; 12]) -> bool
    requires { Rows rows.old (λ q. 0) }
    ensures { (result ≡ true → conflict (targets_in targets.now) ≡ false) × Rows rows.new (row_goal (targets_in targets.now)) }
{
    let mut time: u32 = 0;
    let mut ok = true;
    for g in targets {
        let above = raise(rows, g.parent, g.sent);
        ok = ok & (time < g.time) & above;
        time = g.time;
    }
    ok
}

fn clash_between(g: Goal, h: Goal) -> bool
    ensures { result ≡ clash (target_is g) (target_is h) }
{
    (g.time == h.time) | ((g.parent == h.parent) & (g.sent == h.sent))
}

// Whether a target clashes with one of those behind it.
fn clashes(g: Goal, behind: &[Goal]) -> bool
    ensures { result ≡ list_any (λ h. clash (target_is g) (target_is h)) behind.now }
{
    behind.iter().any(|h| clash_between(g, *h))
}

// "targets give one time two inputs or one input two times"; and each row's goal, in rows that are 0 before.
pub fn conflict_in(targets: &[Goal], rows: &mut [u32; 12]) -> bool
    requires { Rows rows.old (λ q. 0) }
    ensures { (result ≡ conflict (targets_in targets.now)) × Rows rows.new (row_goal (targets_in targets.now)) }
{
    if rising(targets, rows) {
        return false;
    }
    let mut rest = targets;
    while let Some((g, behind)) = rest.split_first() {
        if clashes(*g, behind) {
            return true;
        }
        rest = behind;
    }
    false
}

// Whether channel b's row is complete by what each parent's goal and restored entry are, if the channel enters the node.
fn row_restored(s: &[u8], n: usize, b: usize, goals: &[u32; 12], entries: &[u32; 12]) -> bool
    requires { OnChannel s.now b × (length goals.now ≡ rows_long) × (length entries.now ≡ rows_long) }
    ensures { result ≡ (not (eqb (channel_at (plan_of s.now) b).receiver n) || row_reached goals.now entries.now (channel_at (plan_of s.now) b).sender) }
{
    if look::receiver_of(s, b) != n {
        return true;
    }
    let parent = look::sender_of(s, b);
    goals[parent] <= entries[parent]
}

// Whether all rows are complete in the restored node, by what each parent's goal and restored entry are.
pub fn rows_restored(s: &[u8], n: usize, goals: &[u32; 12], entries: &[u32; 12]) -> bool
    requires { Ready s.now × (length goals.now ≡ rows_long) × Rows entries.now (restored (line_of s.now) n) }
    ensures { (ts : List Target) → Rows goals.now (row_goal ts) → result ≡ rows_in (line_of s.now) n ts }
{
    let mut ok = true;
    for b in 0..look::channel_count(s) {
        ok &= row_restored(s, n, b, goals, entries);
    }
    ok
}

// The restored entry of each parent, in the order of the channels that enter the node, 0 behind them.
pub fn listed(s: &[u8], n: usize, entries: &[u32; 12]) -> [u32; 4]
    requires { Ready s.now × (n < plan_nodes s.now) × Rows entries.now (restored (line_of s.now) n) }
    ensures { result ≡ (answer_of (line_of s.now) n).entries }
{
    let mut out: [u32; 4] = [0; 4];
    for (place, b) in plan::masks::entering(s, n).enumerate() {
        out[place] = entries[look::sender_of(s, b)];
    }
    out
}
