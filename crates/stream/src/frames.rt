// The frames in a part of the window, and the plan in front of it.
ghost use Rattle.std.specs.Prelude.{◌≡◌, ◌+◌, ◌≤◌, length, take, drop};
ghost use Rattle.std.proofs.Math.Seq.{slice};
ghost use Rattle.plan.specs.Layout.{spelled};
ghost use Rattle.rules.specs.Sheet.{answer_line};
ghost use Rattle.report.specs.Most.{answer_most};
ghost use Rattle.report.specs.Writes.{Room, Writes};
ghost use Rattle.stream.specs.Reading.{too_short};
ghost use Rattle.stream.specs.Frames.{Found, PlanSize, Workable, AllWorked};

use answers::Refusal;
use buffer::bytes;
use frame::HEAD;
use report::text::Text;

// A length field.
pub fn field(window: &[u8], at: usize) -> usize
    requires { at + 2 ≤ length window.now }
    ensures { (result ≡ spelled 0 (take 2 (drop at window.now))) × (result ≤ 65535) }
{
    usize::from(bytes::get16(window, at))
}

// "The plan is as long as its length field says, or all there is."
pub fn plan_size(window: &[u8], end: usize) -> usize
    requires { end ≤ length window.now }
    ensures { PlanSize (take end window.now) result }
{
    if end < 2 {
        return end;
    }
    field(window, 0).min(end)
}

// The frames that are still to be worked: where in the window the next one starts, where the bytes end, and the next one's number.
#[derive(Clone, Copy)]
pub struct Frames {
    pub at: usize,
    pub end: usize,
    pub count: u64,
}

impl Frames {
    // How long the next frame is, if a whole one is there.
    fn next(self, window: &[u8]) -> Option<usize>
        requires { (self.at ≤ self.end) × (self.end ≤ length window.now) }
        ensures { Found (slice self.at self.end window.now) result }
    {
        let rest = self.end - self.at;
        if rest < 2 {
            return None;
        }
        let size = field(window, self.at);
        if size < HEAD || rest < size {
            return None;
        }
        Some(size)
    }

    // Whether a length field under 5 is next.
    pub fn too_short(self, window: &[u8]) -> bool
        requires { (self.at ≤ self.end) × (self.end ≤ length window.now) }
        ensures { result ≡ too_short (slice self.at self.end window.now) }
    {
        self.end - self.at >= 2 && field(window, self.at) < HEAD
    }

    // A frame that is cut "is answered 9".
    pub fn cut(self, text: &mut Text)
        requires { Room answer_most text.old }
        ensures { Writes answer_most (answer_line self.count 9) text.old text.new }
    {
        report::answer_line(self.count, u32::from(Refusal::FrameLength), text);
    }

    // Every whole frame is answered; the others are left.
    pub fn work(mut self, state: &mut [u8], window: &[u8], text: &mut Text) -> Frames
        requires { Workable state.old window.now self.at self.end self.count text.old.out.now × (text.old.at ≡ 0) }
        ensures worked { AllWorked state.old window.now self.at self.end self.count text.old.out.now state.new text.new.out.now text.new.at result }
        ensures lent { text.new.out.ghost_name ≡ text.old.out.ghost_name }
    {
        while let Some(size) = self.next(window) {
            let next = self.at + size;
            let outcome = step::step(state, &window[self.at..next]);
            report::answer_line(self.count, answers::number(outcome), text);
            self.at = next;
            self.count += 1;
        }
        self
    }
}
