// A step on a state that holds an undamaged line (document 01, "Clocks and steps"). The state is not looked through again: whoever calls it holds a line, and holds one afterwards.
#![tactic(auto)]

ghost use Rattle.std.specs.Prelude.{◌<◌};
ghost use Rattle.answers.specs.Number.{number};
ghost use Rattle.rules.specs.Line.{step_limit, console_count, steps_from, counted};
ghost use Rattle.rules.specs.Frame as frames;
ghost use Rattle.state.specs.State.{line_of};
ghost use Rattle.buffer.specs.Holds.{Holds, Undamaged, Did};
ghost use Rattle.frame.specs.Reading.{Asks};
ghost use Rattle.step.specs.Stepped.{Stepped};

use answers::Refusal;
use buffer::{Line, bytes, layout, look};
use frame::{Asked, Frame};

// Take: what both kinds of receivers are asked, then the one that there is.
fn take(s: &mut [u8], b: usize) -> Result<(), Refusal>
    requires { Undamaged s.old }
    ensures { Did s.old (frames.take b) s.new (number result) }
{
    if look::channel_count(s) <= b {
        return Err(Refusal::NoSuchPlace);
    }
    if passing::end_down(s, b) {
        return Err(Refusal::WrongStatus);
    }
    if channel_fields::queue_count(s, b) == 0 {
        return Err(Refusal::NothingThere);
    }
    if look::is_replaying(s, look::receiver_of(s, b)) {
        return replay::take_replaying(s, b);
    }
    passing::take_up(s, b)
}

// What a frame asks, by its kind.
fn asked(s: &mut [u8], f: Frame) -> Result<(), Refusal>
    requires { Undamaged s.old }
    ensures { (g : frames.Frame) → Asks f g → Did s.old g s.new (number result) }
{
    match f {
        Frame::Feed { node, what } => passing::feed(s, node, what),
        Frame::Send(b) => passing::send(s, b),
        Frame::Take(b) => take(s, b),
        Frame::Crash(n) => restart::crash(s, n),
        Frame::Recover(n) => restart::recover(s, n),
        Frame::Trim(n) => trim::trim(s, n),
        Frame::Ask(n) => restart::ask(s, n),
        Frame::Commit(n) => restart::commit(s, n),
    }
}

// One more step accepted from a console.
fn count_step(s: &mut [u8], console: usize)
    requires { Holds s.old (line_of s.old) × (console < console_count) × (steps_from (line_of s.old) console < step_limit) }
    ensures { Holds s.new (counted console (line_of s.old)) }
{
    let steps = look::steps_from(s, console);
    bytes::put32(s, layout::STEPS + layout::COUNT * console, steps + 1);
}

// A frame passed to such a state: 9 to 21 and 24 to 27 refuse it. By itself, so that the check before it does not lie on its stack.
#[inline(never)]
pub fn step(s: &mut [u8], frame: &[u8]) -> Result<(), Refusal>
    requires { Undamaged s.old }
    ensures { Stepped s.old frame.now s.new (number result) }
{
    let Asked { console, frame } = frame::read(frame)?;
    if Line::STEP_LIMIT <= look::steps_from(s, console) {
        return Err(Refusal::StepsUsedUp);
    }
    asked(s, frame)?;
    count_step(s, console);
    Ok(())
}
