// The program `sheet` (document 01, "The sheet"): standard input, block by block, gives the text on standard output. It only moves bytes.
#![tactic(auto)]

ghost use Rattle.std.specs.Prelude.{◌≡◌, ◌≤◌, length, IfErr};
ghost use Rattle.stream.specs.Reader.{window_size};
ghost use Rattle.sheet.specs.Turned.{got_of, ReadBehind, Between, Turned};
ghost use Rattle.sheet.specs.Ran.{Ran};

use buffer::Line;
use std::alloc::Global;
use std::io::{self, Read, Stderr, Stdin, Stdout, Write};
use stream::{OUT, Phase, Reader, WINDOW};

// A proved loop has to end, and nothing says that the input does: so many bytes are read at most, which no run uses up.
const ALLOWANCE: usize = 4_611_686_018_427_387_904;

// Why a run ended: the sheet is whole, a read failed, a write failed, or the allowance is used up.
#[derive(Clone, Copy)]
pub enum Ending {
    Whole,
    Unread,
    Unwritten,
    TooLong,
}

// The three streams, and where a message is made.
#[derive(Clone, Copy)]
struct Streams {
    input: Stdin,
    output: Stdout,
    errors: Stderr,
    alloc: Global,
}

// The system's words for an error, without the number that stands behind them.
fn words_of(text: &str) -> &str {
    match text.split_once(" (os error ") {
        Some((words, _)) => words,
        None => text,
    }
}

// A line on standard error: what failed, and why.
fn tell(streams: Streams, what: &str, why: io::Error) {
    match format!(in streams.alloc; "{why}") {
        Ok(text) => {
            let words = words_of(text.as_str());
            let _ = eprintln!(streams.errors; "{what}: {words}");
        }
        Err(_) => {
            let _ = eprintln!(streams.errors; "{what}");
        }
    }
}

// One read, behind the bytes that are kept, which stay.
fn read_behind(mut streams: Streams, window: &mut [u8], have: usize) -> io::Result<usize>
    requires { (have ≤ length window.old) × (length window.old ≡ window_size) }
    ensures { ReadBehind window.old have window.new (got_of result) }
{
    streams.input.read(&mut window[have..])
}

// The text that was written, to standard output. An empty one is not written, and does not fail. A write that fails is told, but where nobody reads the pipe any more.
fn write(mut streams: Streams, out: &[u8], wrote: usize) -> Result<(), Ending>
    requires { wrote ≤ length out.now }
    ensures { IfErr result (λ why. (why ≡ Ending.Unwritten) × (1 ≤ wrote)) }
{
    if wrote == 0 {
        return Ok(());
    }
    Write::write_all(&mut streams.output, &out[..wrote]).map_err(|why| {
        if why.kind() != io::ErrorKind::BrokenPipe {
            tell(streams, "sheet: write", why);
        }
        Ending::Unwritten
    })
}

// One block: the next reader, and what is left of the allowance; or why no other follows.
fn turn(
    streams: Streams,
    reader: Reader,
    left: usize,
    state: &mut [u8; Line::STATE_SIZE],
    window: &mut [u8; WINDOW],
    out: &mut [u8; OUT],
) -> Result<(Reader, usize), Ending>
    requires { Between reader left state.old × (window_size ≤ left) }
    ensures { Turned reader state.old window.old out.old left result state.new window.new out.new }
{
    match read_behind(streams, window, reader.have) {
        Ok(0) => {
            let wrote = reader.finish(state, window, out);
            write(streams, out, wrote)?;
            Err(Ending::Whole)
        }
        Ok(n) => {
            let next = reader.take_block(state, window, n, out);
            write(streams, out, next.wrote)?;
            if next.phase == Phase::Ended {
                return Err(Ending::Whole);
            }
            Ok((next, left - n))
        }
        Err(why) => {
            tell(streams, "sheet: read", why);
            Err(Ending::Unread)
        }
    }
}

// The opening, and then block by block.
fn run(
    streams: Streams,
    state: &mut [u8; Line::STATE_SIZE],
    window: &mut [u8; WINDOW],
    out: &mut [u8; OUT],
) -> Ending
    ensures { Ran state.old window.old out.old result state.new window.new out.new }
{
    let mut reader = Reader::begin(out);
    if let Err(ending) = write(streams, out, reader.wrote) {
        return ending;
    }
    let mut left = ALLOWANCE;
    while WINDOW <= left {
        match turn(streams, reader, left, state, window, out) {
            Ok((next, rest)) => {
                reader = next;
                left = rest;
            }
            Err(ending) => return ending,
        }
    }
    Ending::TooLong
}

fn main(rt: HostRuntime) {
    let mut state = [0u8; Line::STATE_SIZE];
    let mut window = [0u8; WINDOW];
    let mut out = [0u8; OUT];
    let streams = Streams {
        input: rt.stdin(),
        output: rt.stdout(),
        errors: rt.stderr(),
        alloc: rt.alloc(),
    };
    let ending = run(streams, &mut state, &mut window, &mut out);
    match ending {
        Ending::Whole => {}
        // Told as it failed.
        Ending::Unread => {}
        Ending::Unwritten => {}
        Ending::TooLong => {
            let _ = eprintln!(rt; "sheet: input too long");
        }
    }
}
