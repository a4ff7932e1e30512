// The checks 1 to 7 of a plan, one by one.
ghost use Rattle.std.specs.Prelude.{◌≡◌, [], ◌+◌, ◌<◌, ◌≤◌, get_or, drop};
ghost use Rattle.plan.specs.Layout.{read_slots};
ghost use Rattle.plan.specs.Rule.{rule_fits, rule_fields};
ghost use Rattle.plan.specs.Channel.{channel_fits, channel_after};
ghost use Rattle.plan.specs.Plan.{plan_of, plan_nodes};
ghost use Rattle.plan.specs.Check.{bad_length, bad_version, bad_counts, bad_size, bad_rules, bad_channels, bad_degrees};
ghost use Rattle.plan.specs.Degrees.{Joined, Degrees};

use crate::{Channel, bytes, channels, nodes};

// 1: shorter than a head, or another length than its length field says.
pub fn bad_length(plan: &[u8]) -> bool
    ensures { result ≡ bad_length plan.now }
{
    let field = usize::from(bytes::word_at(plan, 0));
    (plan.len() < 5) | (field != plan.len())
}

// 2: the version.
pub fn bad_version(plan: &[u8]) -> bool
    ensures { result ≡ bad_version plan.now }
{
    bytes::version(plan).is_none()
}

// 3: the counts of nodes and channels.
pub fn bad_counts(plan: &[u8]) -> bool
    ensures { result ≡ bad_counts plan.now }
{
    let n = bytes::node_count(plan);
    let m = bytes::channel_count(plan);
    !((2 <= n) & (n <= 12) & (1 <= m) & (m <= 24))
}

// 4: another length than the head gives.
pub fn bad_size(plan: &[u8]) -> bool
    ensures { result ≡ bad_size plan.now }
{
    plan.len() != bytes::size_by_head(plan)
}

fn node_rule_fits(plan: &[u8], node: usize) -> bool
    requires { (node < plan_nodes plan.now) × (node < 256) }
    ensures { result ≡ rule_fits (get_or (read_slots rule_fields (plan_nodes plan.now) (drop 5 plan.now)) node []) }
{
    let at = 5 + 4 * node;
    nodes::rule_fits(
        bytes::byte_at(plan, at),
        bytes::byte_at(plan, at + 1),
        bytes::word_at(plan, at + 2),
    )
}

// 5: a rule.
pub fn bad_rules(plan: &[u8]) -> bool
    ensures { result ≡ bad_rules plan.now }
{
    let mut ok = true;
    for i in 0..bytes::node_count(plan) {
        ok &= node_rule_fits(plan, i);
    }
    !ok
}

// Whether a channel's fields are within their limits, in a plan of n nodes.
fn channel_fits(n: usize, c: Channel) -> bool
    ensures { result ≡ channel_fits n c }
{
    (c.sender < c.receiver)
        & (usize::from(c.receiver) < n)
        & (1 <= c.mask)
        & (1 <= c.modulus)
        & (c.remainder < c.modulus)
        & (c.least <= c.greatest)
}

// Whether a channel comes after a sender and a receiver.
fn channel_after(sender: u8, receiver: u8, c: Channel) -> bool
    ensures { result ≡ channel_after sender receiver c }
{
    (sender, receiver) < (c.sender, c.receiver)
}

// 6: a channel's fields, or the channels' order.
pub fn bad_channels(plan: &[u8]) -> bool
    ensures { result ≡ bad_channels plan.now }
{
    let n = bytes::node_count(plan);
    let mut ok = true;
    let mut sender: u8 = 0;
    let mut receiver: u8 = 0;
    for b in 0..bytes::channel_count(plan) {
        let c = channels::channel_at(plan, b);
        ok &= channel_fits(n, c) & channel_after(sender, receiver, c);
        sender = c.sender;
        receiver = c.receiver;
    }
    !ok
}

// How many channels enter a node, and how many leave it.
#[derive(Clone, Copy)]
struct Degree {
    enter: u8,
    leave: u8,
}

// The degrees of all nodes: each channel is counted at its sender and at its receiver.
fn degrees(plan: &[u8]) -> [Degree; 12]
    requires { Joined plan.now }
    ensures { Degrees (plan_of plan.now) result }
{
    let mut degrees = [Degree { enter: 0, leave: 0 }; 12];
    for b in 0..bytes::channel_count(plan) {
        let at = bytes::channel_from(plan, b);
        let sender = usize::from(plan[at]);
        let receiver = usize::from(plan[at + 1]);
        degrees[sender].leave += 1;
        degrees[receiver].enter += 1;
    }
    degrees
}

// 7: more than 4 channels into a node or out of it, in a plan that the checks 3, 4 and 6 pass.
pub fn bad_degrees(plan: &[u8]) -> bool
    requires { Joined plan.now }
    ensures { result ≡ bad_degrees plan.now }
{
    let degrees = degrees(plan);
    let mut ok = true;
    for degree in &degrees[..bytes::node_count(plan)] {
        ok &= (degree.enter <= 4) & (degree.leave <= 4);
    }
    !ok
}
