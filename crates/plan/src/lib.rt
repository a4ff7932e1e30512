// Records, rules, channels and plans (document 01, "The line").
#![tactic(auto)]

ghost use Rattle.std.specs.Prelude.{◌≡◌, cond, Ok, Err};
ghost use Rattle.answers.specs.Number.{number};
ghost use Rattle.plan.specs.Check.{plan_refusal};

use answers::Refusal;

pub mod bytes;
pub mod channels;
pub mod checks;
pub mod masks;
pub mod nodes;
pub mod records;

// A record: piece number, material, mass in tenths of a gram.
#[derive(Clone, Copy)]
pub struct Record {
    pub piece: u32,
    pub material: u8,
    pub mass: u16,
}

// A node's rule.
#[derive(Clone, Copy)]
pub enum Rule {
    Keep,
    Relabel(u8, u8),
    Cap(u16),
}

// A rule's kinds.
#[derive(Clone, Copy)]
pub enum Kind {
    Keep,
    Relabel,
    Cap,
}

// A plan's versions: document 01's, and document 02's (2026-02), whose channels have a window of masses.
#[derive(Clone, Copy)]
pub enum Version {
    One,
    Two,
}

// A channel (document 01: belt), and the least and the greatest mass that it takes (document 02, 2026-02).
#[derive(Clone, Copy, Default)]
pub struct Channel {
    pub sender: u8,
    pub receiver: u8,
    pub mask: u16,
    pub modulus: u8,
    pub remainder: u8,
    pub least: u16,
    pub greatest: u16,
}

fn refused_if(bad: bool, refusal: Refusal) -> Result<(), Refusal>
    ensures { result ≡ cond bad (Err refusal) (Ok tt) }
{
    if bad { Err(refusal) } else { Ok(()) }
}

// The first of document 01's refusals 1 to 7 that applies to a plan.
pub fn plan_check(plan: &[u8]) -> Result<(), Refusal>
    ensures { number result ≡ plan_refusal plan.now }
{
    refused_if(checks::bad_length(plan), Refusal::PlanLength)?;
    refused_if(checks::bad_version(plan), Refusal::PlanVersion)?;
    refused_if(checks::bad_counts(plan), Refusal::PlanCounts)?;
    refused_if(checks::bad_size(plan), Refusal::PlanSize)?;
    refused_if(checks::bad_rules(plan), Refusal::PlanRule)?;
    refused_if(checks::bad_channels(plan), Refusal::PlanChannel)?;
    refused_if(checks::bad_degrees(plan), Refusal::PlanDegree)
}
