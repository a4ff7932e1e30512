// The line in its lent buffer for C (panel/line.h), with the clauses of the crate line.
#![tactic(auto)]

ghost use Rattle.std.specs.Prelude.{◌≡◌};
ghost use Rattle.state.specs.State.{state_answer};
ghost use Rattle.line.specs.Load.{load_answer, load_left};
ghost use Rattle.line.specs.Step.{step_answer, step_left};
ghost use Rattle.line.specs.Write.{write_answer, write_left};

// Load: the plan's first refusal, 8 for a state of another size, or 0 with the plan's line, in which nothing has happened yet, in the state.
#[unsafe(no_mangle)]
pub extern "C" fn line_load(plan: &[u8], state: &mut [u8]) -> u32
    ensures { (result ≡ load_answer plan.now state.old)
        × (state.new ≡ load_left plan.now state.old) }
{
    answers::number(line::line_load(plan, state))
}

// Check: 8 for a state of another size or a damaged one, 0 for a line.
#[unsafe(no_mangle)]
pub extern "C" fn line_check(state: &[u8]) -> u32
    ensures { result ≡ state_answer state.now }
{
    answers::number(line::line_check(state))
}

// Write: 8 as the check says, 23 for an output shorter than the plan, or 0 with the state's plan in the output.
#[unsafe(no_mangle)]
pub extern "C" fn line_write(state: &[u8], plan: &mut [u8]) -> u32
    ensures { (result ≡ write_answer state.now plan.old)
        × (plan.new ≡ write_left state.now plan.old) }
{
    answers::number(line::line_write(state, plan))
}

// Step: 8 as the check says, then what the frame's step answers; accepted, the state holds the line that the step leaves.
#[unsafe(no_mangle)]
pub extern "C" fn line_step(state: &mut [u8], frame: &[u8]) -> u32
    ensures { (result ≡ step_answer state.old frame.now)
        × (state.new ≡ step_left state.old frame.now) }
{
    answers::number(line::line_step(state, frame))
}
