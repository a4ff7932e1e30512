// Frames (document 01, "Clocks and steps"; document 02, 2026-01, 2026-04 and 2026-07): the refusals 9 to 11 and 25, whose frame it is, and what it asks, read once.
#![tactic(auto)]

ghost use Rattle.std.specs.Prelude.{◌≡◌, ◌+◌, ◌≤◌, length, MatchOption, drop, true, false};
ghost use Rattle.plan.specs.Record.{record_layout, record_fits};
ghost use Rattle.rules.specs.Frame.{frame_version, frame_kind, bad_frame_length};
ghost use Rattle.frame.specs.Reading.{AsksOf, ReadAs, Versioned};

use answers::Refusal;
use buffer::{Line, bytes, origin};
use plan::Record;
use slots::Piece;

// What a frame asks of a node or a channel, by its kind. A Feed has its record, if its bytes are a record's.
#[derive(Clone, Copy)]
pub enum Frame {
    Feed { node: usize, what: Option<Record> },
    Send(usize),
    Take(usize),
    Crash(usize),
    Recover(usize),
    Trim(usize),
    Ask(usize),
    Commit(usize),
}

// A well-formed frame: the console whose frame it is, and what it asks.
#[derive(Clone, Copy)]
pub struct Asked {
    pub console: usize,
    pub frame: Frame,
}

// A head of version 1: the frame's length, its version, its kind, and the number of a node or a channel. One of version 2 has the console before that number.
pub const HEAD: usize = 5;

// What stands behind a Feed's kind and console: a node's number, and a record.
const FED: usize = 9;

// 9: shorter than a head, or another length than its length field says.
fn bad_length(frame: &[u8]) -> bool
    ensures { result ≡ bad_frame_length frame.now }
{
    frame.len() < HEAD || usize::from(bytes::get16(frame, 0)) != frame.len()
}

fn version_of(frame: &[u8]) -> u8
    requires { 5 ≤ length frame.now }
    ensures { result ≡ frame_version frame.now }
{
    bytes::get8(frame, 2)
}

fn kind_of(frame: &[u8]) -> u8
    requires { 5 ≤ length frame.now }
    ensures { result ≡ frame_kind frame.now }
{
    bytes::get8(frame, 3)
}

// A record, if the bytes at a place are one's.
fn record_of(s: &[u8], at: usize) -> Option<Record>
    requires { at + 8 ≤ length s.now }
    ensures { MatchOption result (record_fits (drop at s.now) ≡ false) (λ r. (record_layout.read (drop at s.now) ≡ r) × (record_fits (drop at s.now) ≡ true)) }
{
    origin::record_ok(s, at).then_some(Record::read(s, at))
}

// What a Feed asks, by what stands behind its console.
fn feed_of(behind: &[u8]) -> Option<Frame>
    ensures { AsksOf result 1 behind.now }
{
    if behind.len() != FED {
        return None;
    }
    Some(Frame::Feed {
        node: usize::from(behind[0]),
        what: record_of(behind, 1),
    })
}

// What a frame of a kind asks, by what stands behind its console; nothing if there is no such kind, or if it has another length.
fn frame_of(kind: u8, behind: &[u8]) -> Option<Frame>
    ensures { AsksOf result kind behind.now }
{
    if kind == 1 {
        return feed_of(behind);
    }
    let [number] = behind else {
        return None;
    };
    let n = usize::from(*number);
    match kind {
        2 => Some(Frame::Send(n)),
        3 => Some(Frame::Take(n)),
        4 => Some(Frame::Crash(n)),
        5 => Some(Frame::Recover(n)),
        6 => Some(Frame::Trim(n)),
        7 => Some(Frame::Ask(n)),
        8 => Some(Frame::Commit(n)),
        _ => None,
    }
}

// A console's frame, with what stands behind the console: 11, then 25.
fn read_from(frame: &[u8], console: usize, from: usize) -> Result<Asked, Refusal>
    requires { Versioned frame.now console from }
    ensures { ReadAs result frame.now }
{
    let asked = frame_of(kind_of(frame), &frame[from..]).ok_or(Refusal::FrameKind)?;
    if Line::CONSOLES <= console {
        return Err(Refusal::NoSuchConsole);
    }
    Ok(Asked {
        console,
        frame: asked,
    })
}

// A frame: 9, then 10; version 1 frames are console 0's.
pub fn read(frame: &[u8]) -> Result<Asked, Refusal>
    ensures { ReadAs result frame.now }
{
    if bad_length(frame) {
        return Err(Refusal::FrameLength);
    }
    match version_of(frame) {
        1 => read_from(frame, 0, 4),
        2 => read_from(frame, usize::from(frame[4]), 5),
        _ => Err(Refusal::FrameVersion),
    }
}
