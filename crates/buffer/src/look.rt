// Lookups in a state, read in place: the plan at its front, whose channels have their sender and receiver first; a node's status and crash mark, the first bytes of its page.
ghost use Rattle.std.specs.Prelude.{◌≡◌, cond, ◌+◌, ◌≤◌, ◌<◌, length, take, drop};
ghost use Rattle.plan.specs.Layout.{spelled};
ghost use Rattle.plan.specs.Channel.{has_windows};
ghost use Rattle.plan.specs.Plan.{plan_of, plan_version, plan_nodes, plan_channels, channel_from, channel_at, is_source, is_sink};
ghost use Rattle.rules.specs.Line.{console_count, steps_from, node_at};
ghost use Rattle.rules.specs.Step.{node_down, replaying};
ghost use Rattle.state.specs.State.{line_of};
ghost use Rattle.buffer.specs.Ready.{Ready, OnChannel};
ghost use Rattle.buffer.specs.Status.{status_is};

use crate::status::Status;
use crate::{bytes, layout};
use plan::Channel;

// How many nodes the plan has.
pub fn node_count(s: &[u8]) -> usize
    requires { Ready s.now }
    ensures { (result ≡ plan_nodes s.now) × (result ≤ 12) }
{
    usize::from(s[3])
}

// How many channels the plan has.
pub fn channel_count(s: &[u8]) -> usize
    requires { Ready s.now }
    ensures { (result ≡ plan_channels s.now) × (result ≤ 24) }
{
    usize::from(s[4])
}

// These four read as `plan` does, but do not look for the end of the bytes, which is far behind a ready state's plan.

// Whether the plan's channels have a window of masses.
fn has_windows(s: &[u8]) -> bool
    requires { Ready s.now }
    ensures { result ≡ has_windows (plan_version s.now) }
{
    s[2] == 2
}

// Where a channel's bytes start.
fn channel_from(s: &[u8], b: usize) -> usize
    requires { OnChannel s.now b }
    ensures { (result ≡ channel_from s.now b) × (result ≤ 293) }
{
    let at = 5 + 4 * node_count(s);
    if has_windows(s) {
        at + 10 * b
    } else {
        at + 6 * b
    }
}

// An end of a channel's window, at a place; what stands for it where the plan has no windows.
fn bound_of(s: &[u8], at: usize, windows: bool, other: u16) -> u16
    requires { at + 2 ≤ length s.now }
    ensures { result ≡ cond windows (spelled 0 (take 2 (drop at s.now))) other }
{
    if windows { bytes::get16(s, at) } else { other }
}

// A channel.
pub fn channel_of(s: &[u8], b: usize) -> Channel
    requires { OnChannel s.now b }
    ensures { result ≡ channel_at (plan_of s.now) b }
{
    let at = channel_from(s, b);
    let windows = has_windows(s);
    Channel {
        sender: s[at],
        receiver: s[at + 1],
        mask: bytes::get16(s, at + 2),
        modulus: s[at + 4],
        remainder: s[at + 5],
        least: bound_of(s, at + 6, windows, 0),
        greatest: bound_of(s, at + 8, windows, 65_535),
    }
}

// A channel's sender and its receiver.
pub fn sender_of(s: &[u8], b: usize) -> usize
    requires { OnChannel s.now b }
    ensures { (result ≡ (channel_at (plan_of s.now) b).sender) × (result < plan_nodes s.now) }
{
    let at = channel_from(s, b);
    usize::from(s[at])
}

pub fn receiver_of(s: &[u8], b: usize) -> usize
    requires { OnChannel s.now b }
    ensures { (result ≡ (channel_at (plan_of s.now) b).receiver) × (result < plan_nodes s.now) }
{
    let at = channel_from(s, b);
    usize::from(s[at + 1])
}

// Whether no channel enters a node.
pub fn is_source(s: &[u8], node: usize) -> bool
    requires { Ready s.now }
    ensures { result ≡ is_source (plan_of s.now) node }
{
    plan::masks::entering(s, node).is_empty()
}

// Whether no channel leaves a node.
pub fn is_sink(s: &[u8], node: usize) -> bool
    requires { Ready s.now }
    ensures { result ≡ is_sink (plan_of s.now) node }
{
    plan::masks::leaving(s, node).is_empty()
}

// A node's status.
pub fn status_of(s: &[u8], n: usize) -> Status
    requires { Ready s.now × (n < plan_nodes s.now) }
    ensures { status_is result ≡ (node_at (line_of s.now) n).status }
{
    match s[layout::PAGE * (1 + n)] {
        0 => Status::Up,
        1 => Status::Down,
        _ => Status::Replaying,
    }
}

// Whether a node is down.
pub fn is_down(s: &[u8], n: usize) -> bool
    requires { Ready s.now × (n < plan_nodes s.now) }
    ensures { result ≡ node_down (line_of s.now) n }
{
    status_of(s, n) == Status::Down
}

// Whether a node replays.
pub fn is_replaying(s: &[u8], n: usize) -> bool
    requires { Ready s.now × (n < plan_nodes s.now) }
    ensures { result ≡ replaying (line_of s.now) n }
{
    status_of(s, n) == Status::Replaying
}

// Whether a node bears a crash mark.
pub fn has_crashed(s: &[u8], n: usize) -> bool
    requires { Ready s.now × (n < plan_nodes s.now) }
    ensures { result ≡ (node_at (line_of s.now) n).crashed }
{
    0 < s[layout::PAGE * (1 + n) + 1]
}

// The steps accepted from a console.
pub fn steps_from(s: &[u8], console: usize) -> u32
    requires { Ready s.now × (console < console_count) }
    ensures { result ≡ steps_from (line_of s.now) console }
{
    bytes::get32(s, layout::STEPS + layout::COUNT * console)
}
