// The check of the whole state (document 01, "Damaged"): part by part, then every node's page, every channel's block, and what the restarts ask.
ghost use Rattle.std.specs.Prelude.{◌≡◌, true, not, ◌||◌, ◌<◌, length};
ghost use Rattle.plan.specs.Plan.{plan_nodes, plan_channels};
ghost use Rattle.rules.specs.Lists.{all_of, up_to};
ghost use Rattle.rules.specs.Line.{accepted_steps};
ghost use Rattle.rules.specs.Step.{replaying};
ghost use Rattle.state.specs.Sizes.{state_size};
ghost use Rattle.state.specs.State.{line_of};
ghost use Rattle.buffer.specs.Ready.{Ready};
ghost use Rattle.items.specs.Items.{replay_right, restart_right, steps_right};
ghost use Rattle.line.specs.Whole.{PagesRight, AllSteps, plan_exact, node_checked, channel_checked, state_checked};

use crate::check;
use buffer::joins::{Ends, Joins};
use buffer::{Line, look};

// Every node's page, but for what its restart asks.
fn pages_ok(joins: &Joins, steps: u32) -> bool
    requires { steps ≡ accepted_steps (line_of joins.now.state.now) }
    ensures { result ≡ all_of (node_checked joins.now.state.now) (up_to 0 (plan_nodes joins.now.state.now)) }
{
    (0..look::node_count(joins.state)).all(|n| node_check::node_ok(joins, n, steps))
}

// Every channel's block.
fn channels_ok(joins: &Joins, steps: u32) -> bool
    requires { steps ≡ accepted_steps (line_of joins.now.state.now) }
    ensures { result ≡ all_of (channel_checked joins.now.state.now) (up_to 0 (plan_channels joins.now.state.now)) }
{
    (0..look::channel_count(joins.state)).all(|b| channel_check::channel_ok(joins, b, steps))
}

// What a node's replay asks, if it has one.
fn replay_ok(s: &[u8], n: usize) -> bool
    requires { Ready s.now × PagesRight s.now × (n < plan_nodes s.now) }
    ensures { result ≡ (not (replaying (line_of s.now) n) || replay_right (line_of s.now) n) }
{
    !look::is_replaying(s, n) || recover::replay_ok(s, n)
}

// What a node's restart asks: of its replay, and of the answer that it keeps.
fn restart_ok(s: &[u8], n: usize) -> bool
    requires { Ready s.now × PagesRight s.now × (n < plan_nodes s.now) }
    ensures { result ≡ restart_right (line_of s.now) n }
{
    let kept = recover::kept_ok(s, n);
    replay_ok(s, n) & kept
}

// What every node's restart asks.
fn restarts_ok(s: &[u8]) -> bool
    requires { Ready s.now × PagesRight s.now }
    ensures { result ≡ all_of (restart_right (line_of s.now)) (up_to 0 (plan_nodes s.now)) }
{
    (0..look::node_count(s)).all(|n| restart_ok(s, n))
}

// All accepted steps, where those of each console are within the limit.
fn all_steps(s: &[u8]) -> Option<u32>
    requires { Ready s.now }
    ensures { AllSteps (line_of s.now) result }
{
    let mut all: u32 = 0;
    for console in 0..Line::CONSOLES {
        let steps = look::steps_from(s, console);
        if Line::STEP_LIMIT < steps {
            return None;
        }
        all += steps;
    }
    Some(all)
}

// All that stands behind a plan that would not be refused and counts within the limit. The plan's channels are put in a table once.
fn parts_ok(s: &[u8], steps: u32) -> bool
    requires { Ready s.now × (plan_exact s.now ≡ true) × (steps_right (line_of s.now).steps ≡ true) × (steps ≡ accepted_steps (line_of s.now)) }
    ensures { result ≡ state_checked s.now }
{
    let ends = Ends::of(s);
    let joins = Joins::of(s, &ends);
    let rest = check::rest_ok(s);
    let nodes = pages_ok(&joins, steps);
    let channels = channels_ok(&joins, steps);
    let found = rest & nodes & channels;
    if !found {
        return false;
    }
    restarts_ok(s)
}

// All of it.
pub fn state_ok(s: &[u8]) -> bool
    requires { length s.now ≡ state_size }
    ensures { result ≡ state_checked s.now }
{
    if !check::plan_ok(s) {
        return false;
    }
    match all_steps(s) {
        Some(steps) => parts_ok(s, steps),
        None => false,
    }
}
