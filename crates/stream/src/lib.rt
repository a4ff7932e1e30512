// A sheet read block by block (document 01, "The sheet"). What is kept between two blocks stands at the front of a window; a block comes behind it.
#![tactic(auto)]

ghost use Rattle.std.specs.Prelude.{◌≡◌, [], ◌+◌, ◌-◌, length, take, drop};
ghost use Rattle.std.proofs.Math.Seq.{slice};
ghost use Rattle.rules.specs.Sheet.{frames_text};
ghost use Rattle.state.specs.State.{line_of};
ghost use Rattle.stream.specs.Reading.{frames_told, plan_told, taken, plan_all, closed};
ghost use Rattle.stream.specs.Frames.{Loadable, Workable};
ghost use Rattle.stream.specs.Reader.{reading_of, Asked, Gave, Finished, Begun};

use crate::frames::Frames;
use buffer::Line;
use report::text::Text;

mod frames;

// A plan or a frame of 65,535 bytes fits the window, and one byte more (`window_size`).
pub const WINDOW: usize = 65_536;

// What a window's frames give fits the output, and the nodes behind it (`out_size`): at most 34 bytes for each 5 read, one answer more, and the nodes' text (`text_most` in the crate `report`). These are 539,806 bytes; 132 pages of 4,096 hold them.
pub const OUT: usize = 540_672;

#[derive(Clone, Copy, PartialEq, Eq)]
pub enum Phase {
    Planning,
    Framing,
    Ended,
}

// How far reading has come: how many bytes are kept, the next frame's number, and how many bytes the last call wrote. What a call asks and gives (`Asked`, `Gave`) speaks of these in every phase.
#[derive(Clone, Copy)]
pub struct Reader {
    pub phase: Phase,
    pub have: usize,
    pub count: u64,
    pub wrote: usize,
}

// The frames in a part of the window; what is no whole frame yet is kept.
fn frame_block(state: &mut [u8], window: &mut [u8], frames: Frames, text: &mut Text) -> Reader
    requires { Workable state.old window.old frames.at frames.end frames.count text.old.out.now × (text.old.at ≡ 0) }
    ensures gave { Gave (frames_told (length (slice frames.at frames.end window.old)) frames.count (line_of state.old) (slice frames.at frames.end window.old))
        (frames.count + (frames.end - frames.at)) state.old window.old text.old.out.now state.new window.new text.new.out.now result }
    ensures lent { text.new.out.ghost_name ≡ text.old.out.ghost_name }
{
    let left = frames.work(state, window, text);
    if left.too_short(window) {
        left.cut(text);
        report::line_text(state, text);
        return Reader::ended(left.count, text.at);
    }
    window.copy_within(left.at..left.end, 0);
    Reader {
        phase: Phase::Framing,
        have: left.end - left.at,
        count: left.count,
        wrote: text.at,
    }
}

// The frames in a part of the window, where no more bytes come. "A frame length field cut short, under 5, or more than is left, is answered 9 and ends reading."
fn frame_end(state: &mut [u8], window: &[u8], frames: Frames, text: &mut Text)
    requires { Workable state.old window.now frames.at frames.end frames.count text.old.out.now × (text.old.at ≡ 0) }
    ensures finished { Finished (frames_text (length (slice frames.at frames.end window.now)) frames.count (line_of state.old) (slice frames.at frames.end window.now))
        (frames_told (length (slice frames.at frames.end window.now)) frames.count (line_of state.old) (slice frames.at frames.end window.now))
        state.old text.old.out.now state.new text.new.out.now text.new.at }
    ensures lent { text.new.out.ghost_name ≡ text.old.out.ghost_name }
{
    let left = frames.work(state, window, text);
    if left.at != left.end {
        left.cut(text);
    }
    report::line_text(state, text);
}

// The plan, once it is whole, and the frames behind it.
fn plan_block(state: &mut [u8], window: &mut [u8], end: usize, text: &mut Text) -> Reader
    requires { Loadable state.old window.old end text.old.out.now × (text.old.at ≡ 0) }
    ensures gave { Gave (plan_told (take end window.old)) (1 + end) state.old window.old text.old.out.now state.new window.new text.new.out.now result }
    ensures lent { text.new.out.ghost_name ≡ text.old.out.ghost_name }
{
    if end < 2 {
        return Reader::waiting(end);
    }
    let size = frames::field(window, 0);
    if end < size {
        return Reader::waiting(end);
    }
    if let Err(refusal) = line::line_load(&window[..size], state) {
        report::answer_line(0, u32::from(refusal), text);
        return Reader::ended(1, text.at);
    }
    let frames = Frames {
        at: size,
        end: end,
        count: 1,
    };
    frame_block(state, window, frames, text)
}

// The plan and the frames behind it, where no more bytes come.
fn plan_end(state: &mut [u8], window: &[u8], end: usize, text: &mut Text)
    requires { Loadable state.old window.now end text.old.out.now × (text.old.at ≡ 0) }
    ensures finished { Finished (plan_all (take end window.now)) (plan_told (take end window.now)) state.old text.old.out.now state.new text.new.out.now text.new.at }
    ensures lent { text.new.out.ghost_name ≡ text.old.out.ghost_name }
{
    let size = frames::plan_size(window, end);
    if let Err(refusal) = line::line_load(&window[..size], state) {
        report::answer_line(0, u32::from(refusal), text);
        return;
    }
    let frames = Frames {
        at: size,
        end: end,
        count: 1,
    };
    frame_end(state, window, frames, text);
}

impl Reader {
    // So many bytes are no whole plan yet.
    fn waiting(have: usize) -> Reader
        ensures { result ≡ record { phase = Phase.Planning; have = have; count = 1; wrote = 0 } }
    {
        Reader {
            phase: Phase::Planning,
            have: have,
            count: 1,
            wrote: 0,
        }
    }

    // No more is read, whatever comes.
    fn ended(count: u64, wrote: usize) -> Reader
        ensures { result ≡ record { phase = Phase.Ended; have = 0; count = count; wrote = wrote } }
    {
        Reader {
            phase: Phase::Ended,
            have: 0,
            count: count,
            wrote: wrote,
        }
    }

    // Nothing is read yet: the opening is written.
    pub fn begin(out: &mut [u8; OUT]) -> Reader
        ensures { Begun out.old out.new result }
    {
        let mut text = Text::new(out);
        report::opening(&mut text);
        Reader {
            phase: Phase::Planning,
            have: 0,
            count: 1,
            wrote: text.at,
        }
    }

    // A block: n new bytes stand in the window behind those that are kept.
    pub fn take_block(
        self,
        state: &mut [u8; Line::STATE_SIZE],
        window: &mut [u8; WINDOW],
        n: usize,
        out: &mut [u8; OUT],
    ) -> Reader
        requires { Asked self state.old n }
        ensures { Gave (taken (reading_of self state.old window.old) (take n (drop self.have window.old)))
            (self.count + self.have + n) state.old window.old out.old state.new window.new out.new result }
    {
        let end = self.have + n;
        let mut text = Text::new(out);
        match self.phase {
            Phase::Planning => plan_block(state, window, end, &mut text),
            Phase::Framing => {
                let frames = Frames {
                    at: 0,
                    end: end,
                    count: self.count,
                };
                frame_block(state, window, frames, &mut text)
            }
            Phase::Ended => Reader::ended(self.count, 0),
        }
    }

    // The end of the input: how many bytes were written.
    pub fn finish(
        self,
        state: &mut [u8; Line::STATE_SIZE],
        window: &[u8; WINDOW],
        out: &mut [u8; OUT],
    ) -> usize
        requires { Asked self state.old 0 }
        ensures { Finished (closed (reading_of self state.old window.now)) (taken (reading_of self state.old window.now) [])
            state.old out.old state.new out.new result }
    {
        let mut text = Text::new(out);
        match self.phase {
            Phase::Planning => plan_end(state, window, self.have, &mut text),
            Phase::Framing => {
                let frames = Frames {
                    at: 0,
                    end: self.have,
                    count: self.count,
                };
                frame_end(state, window, frames, &mut text);
            }
            Phase::Ended => {}
        }
        text.at
    }
}
