// The check of a plan for C (panel/plan.h), with the clauses of the crate plan.
#![tactic(auto)]

ghost use Rattle.std.specs.Prelude.{◌≡◌};
ghost use Rattle.plan.specs.Check.{plan_refusal};

// The first of document 01's refusals 1 to 7 that applies to a plan, 0 if none does.
#[unsafe(no_mangle)]
pub extern "C" fn plan_check(plan: &[u8]) -> u32
    ensures { result ≡ plan_refusal plan.now }
{
    answers::number(plan::plan_check(plan))
}
