// The line in its lent buffer, for the panel: what is passed are bytes, what comes back is whether the call is refused, and why.
#![tactic(auto)]

ghost use Rattle.std.specs.Prelude.{◌≡◌};
ghost use Rattle.answers.specs.Number.{number};
ghost use Rattle.state.specs.State.{state_answer};
ghost use Rattle.line.specs.Load.{load_answer, load_left};
ghost use Rattle.line.specs.Step.{step_answer, step_left};
ghost use Rattle.line.specs.Write.{write_answer, write_left};

use answers::Refusal;
use buffer::{Line, bytes};

mod check;
mod whole;

// Load: the plan's first refusal, or a state of another size; accepted, the plan's line, in which nothing has happened yet, is in the state.
pub fn line_load(plan: &[u8], state: &mut [u8]) -> Result<(), Refusal>
    ensures { (number result ≡ load_answer plan.now state.old)
        × (state.new ≡ load_left plan.now state.old) }
{
    plan::plan_check(plan)?;
    if state.len() != Line::STATE_SIZE {
        return Err(Refusal::State);
    }
    // Buffer's own: copy_from_slice would call memmove, which a caller in C need not have.
    bytes::copy_to(plan, state);
    bytes::fill_zero(state, plan.len(), Line::STATE_SIZE);
    Ok(())
}

// Check: a state of another size or a damaged one is refused.
pub fn line_check(state: &[u8]) -> Result<(), Refusal>
    ensures { number result ≡ state_answer state.now }
{
    if state.len() != Line::STATE_SIZE {
        return Err(Refusal::State);
    }
    if !whole::state_ok(state) {
        return Err(Refusal::State);
    }
    Ok(())
}

// Write: refused as the check says, or for an output shorter than the plan; accepted, the state's plan is in the output.
pub fn line_write(state: &[u8], plan: &mut [u8]) -> Result<(), Refusal>
    ensures { (number result ≡ write_answer state.now plan.old)
        × (plan.new ≡ write_left state.now plan.old) }
{
    line_check(state)?;
    let size = plan::bytes::size_by_head(state);
    if plan.len() < size {
        return Err(Refusal::OutputShort);
    }
    bytes::copy_to(&state[0..size], plan);
    Ok(())
}

// Step: refused as the check says, or as the frame's step is; accepted, the state holds the line that the step leaves.
pub fn line_step(state: &mut [u8], frame: &[u8]) -> Result<(), Refusal>
    ensures { (number result ≡ step_answer state.old frame.now)
        × (state.new ≡ step_left state.old frame.now) }
{
    line_check(state)?; // refused, it stays as it was
    step::step(state, frame)
}
