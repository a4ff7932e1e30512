// A node's rule: read in place, and applied by a match (document 01, "The line").
ghost use Rattle.std.specs.Prelude.{◌≡◌, ◌+◌, ◌%◌, ◌<◌, MatchOption};
ghost use Rattle.plan.specs.Rule.{applied, rule_of_kind, rule_kind_fits};
ghost use Rattle.plan.specs.Named.{kind_number};
ghost use Rattle.plan.specs.Plan.{plan_of, rule_at};
ghost use Rattle.plan.specs.Narrow.{narrowed};

use crate::{Kind, Record, Rule, bytes};

// The record that a node's rule makes of a record.
pub fn apply(rule: Rule, r: Record) -> Record
    ensures { result ≡ applied rule r }
{
    match rule {
        Rule::Relabel(p, q) if r.material == p => Record { material: q, ..r },
        Rule::Cap(q) => Record {
            mass: r.mass.min(q),
            ..r
        },
        _ => r,
    }
}

// The kind of rule that a number names, if it names one.
fn kind_of(number: u8) -> Option<Kind>
    ensures { MatchOption result (2 < number) (λ kind. number ≡ kind_number kind) }
{
    match number {
        0 => Some(Kind::Keep),
        1 => Some(Kind::Relabel),
        2 => Some(Kind::Cap),
        _ => None,
    }
}

// Whether a rule's numbers are within their limits. Three numbers, as the plan spells them: a struct of them would be made at two places and be no plainer.
pub fn rule_fits(kind: u8, p: u8, q: u16) -> bool
    ensures { result ≡ rule_kind_fits kind p q }
{
    match kind_of(kind) {
        Some(Kind::Keep) => (p == 0) & (q == 0),
        Some(Kind::Relabel) => (p <= 15) & (q <= 15),
        Some(Kind::Cap) => (p == 0) & (1 <= q),
        None => false,
    }
}

// A rule from its numbers.
fn rule_of(kind: u8, p: u8, q: u16) -> Rule
    ensures { result ≡ narrowed (rule_of_kind kind p q) }
{
    match kind_of(kind) {
        Some(Kind::Relabel) => Rule::Relabel(p, (q % 256) as u8),
        Some(Kind::Cap) => Rule::Cap(q),
        _ => Rule::Keep,
    }
}

// A node's rule, read in place.
pub fn node_rule(plan: &[u8], node: usize) -> Rule
    ensures { result ≡ narrowed (rule_at (plan_of plan.now) node) }
{
    if bytes::node_count(plan) <= node {
        return Rule::Keep;
    }
    let at = 5 + 4 * node;
    rule_of(
        bytes::byte_at(plan, at),
        bytes::byte_at(plan, at + 1),
        bytes::word_at(plan, at + 2),
    )
}
