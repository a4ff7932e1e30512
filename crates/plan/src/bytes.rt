// A plan's bytes, read in place; past the end they are 0.
ghost use Rattle.std.specs.Prelude.{◌≡◌, ◌+◌, ◌<◌, ◌≤◌, MatchOption, get_or, take, drop, false};
ghost use Rattle.plan.specs.Layout.{spelled};
ghost use Rattle.plan.specs.Channel.{has_windows, channel_size};
ghost use Rattle.plan.specs.Plan.{plan_version, plan_nodes, plan_channels, size_by_head, channel_from};
ghost use Rattle.plan.specs.Check.{version_fits};
ghost use Rattle.plan.specs.Named.{version_number};

use crate::Version;

// The byte at i, 0 past the end.
pub fn byte_at(s: &[u8], i: usize) -> u8
    ensures { result ≡ get_or s.now i 0 }
{
    if i < s.len() { s[i] } else { 0 }
}

// The number that the two bytes at i spell; what is left of them at the end.
pub fn word_at(s: &[u8], i: usize) -> u16
    ensures { result ≡ spelled 0 (take 2 (drop i s.now)) }
{
    let high = byte_at(s, i);
    if i < s.len() && i + 1 < s.len() {
        return u16::from_be_bytes([high, s[i + 1]]);
    }
    u16::from(high)
}

// The version that the plan names, if there is one of that number.
pub fn version(plan: &[u8]) -> Option<Version>
    ensures { MatchOption result (version_fits (plan_version plan.now) ≡ false) (λ v. plan_version plan.now ≡ version_number v) }
{
    match byte_at(plan, 2) {
        1 => Some(Version::One),
        2 => Some(Version::Two),
        _ => None,
    }
}

// Whether a plan's channels have a window of masses: those of version 2.
pub fn has_windows(plan: &[u8]) -> bool
    ensures { result ≡ has_windows (plan_version plan.now) }
{
    matches!(version(plan), Some(Version::Two))
}

// How many bytes a channel of the plan has.
pub fn channel_size(plan: &[u8]) -> usize
    ensures { (result ≡ channel_size (plan_version plan.now)) × (result ≤ 10) }
{
    if has_windows(plan) { 10 } else { 6 }
}

pub fn node_count(plan: &[u8]) -> usize
    ensures { (result ≡ plan_nodes plan.now) × (result < 256) }
{
    usize::from(byte_at(plan, 3))
}

pub fn channel_count(plan: &[u8]) -> usize
    ensures { (result ≡ plan_channels plan.now) × (result < 256) }
{
    usize::from(byte_at(plan, 4))
}

// Where a channel's bytes start; for the count of channels, where the plan ends.
pub fn channel_from(plan: &[u8], b: usize) -> usize
    requires { b < 256 }
    ensures { (result ≡ channel_from plan.now b) × (result ≤ 3575) }
{
    5 + 4 * node_count(plan) + channel_size(plan) * b
}

// How long the plan is, by its head.
pub fn size_by_head(plan: &[u8]) -> usize
    ensures { (result ≡ size_by_head plan.now) × (result ≤ 3575) }
{
    channel_from(plan, channel_count(plan))
}
