// A node's text: its line, a line for each log entry, its clock, its kept answer.
ghost use Rattle.std.specs.Prelude.{◌∷◌, ◌*◌, ◌<◌};
ghost use Rattle.rules.specs.Line.{node_at, log_limit};
ghost use Rattle.rules.specs.Sheet.{status_word, entry_line, node_text};
ghost use Rattle.state.specs.State.{line_of};
ghost use Rattle.buffer.specs.Holds.{AtNode};
ghost use Rattle.slots.specs.Slots.{origin_is, entry_is};
ghost use Rattle.report.specs.Most.{head_most, entry_most, clock_line_most, node_most};
ghost use Rattle.report.specs.Parts.{head_line, log_text, clock_line, origin_after, record_after};
ghost use Rattle.report.specs.Writes.{Room, Writes};

use crate::text::Text;
use crate::{Heard, clock, kept};
use buffer::look;
use buffer::status::Status;
use plan::Record;
use slots::{Logged, Made};

// up, down or replay, behind a space
fn status_word(s: &[u8], n: usize, text: &mut Text)
    requires { AtNode s.now n × Room 7 text.old }
    ensures { Writes 7 (32 ∷ status_word (node_at (line_of s.now) n).status) text.old text.new }
{
    match look::status_of(s, n) {
        Status::Up => text.word(b" up"),
        Status::Down => text.word(b" down"),
        Status::Replaying => text.word(b" replay"),
    }
}

// "`N` node, up, down or replay, time"
fn head_line(s: &[u8], n: usize, text: &mut Text)
    requires { AtNode s.now n × Room head_most text.old }
    ensures { Writes head_most (head_line (line_of s.now) n) text.old text.new }
{
    text.byte(b'N');
    text.byte_and_number(b' ', n as u32);
    status_word(s, n, text);
    text.byte_and_number(b' ', node_fields::time_of(s, n));
    text.byte(b'\n');
}

// "sender, sender's time, or `-` twice", each behind a space
fn origin_words(m: Made, text: &mut Text)
    requires { Room 22 text.old }
    ensures { Writes 22 (origin_after (origin_is m)) text.old text.new }
{
    match m.sender() {
        None => text.word(b" - -"),
        Some(sender) => text.two_numbers(sender as u32, m.time),
    }
}

// piece, material, mass, each behind a space
fn record_words(r: Record, text: &mut Text)
    requires { Room 33 text.old }
    ensures { Writes 33 (record_after r) text.old text.new }
{
    text.byte_and_number(b' ', r.piece);
    text.byte_and_number(b' ', u32::from(r.material));
    text.byte_and_number(b' ', u32::from(r.mass));
}

// "a line `L` per log entry"
fn entry_line(n: usize, e: Logged, text: &mut Text)
    requires { (n < 256) × Room entry_most text.old }
    ensures { Writes entry_most (entry_line n (entry_is e)) text.old text.new }
{
    text.byte(b'L');
    text.byte_and_number(b' ', n as u32);
    text.byte_and_number(b' ', e.time);
    origin_words(e.made, text);
    record_words(e.what, text);
    text.byte(b'\n');
}

fn log_lines(s: &[u8], n: usize, text: &mut Text)
    requires { AtNode s.now n × Room (log_limit * entry_most) text.old }
    ensures { Writes (log_limit * entry_most) (log_text (line_of s.now) n) text.old text.new }
{
    for i in 0..node_fields::log_count(s, n) {
        entry_line(n, node_fields::entry_of(s, n, i), text);
    }
}

// The layers below a clock's root: a node "in the third layer, has no brackets".
const LAYERS: u32 = 2;

// "`T` and the clock"
fn clock_line(s: &[u8], n: usize, text: &mut Text)
    requires { AtNode s.now n × Room clock_line_most text.old }
    ensures { Writes clock_line_most (clock_line (line_of s.now) n) text.old text.new }
{
    text.word(b"T ");
    clock::listed(
        s,
        LAYERS,
        n,
        node_fields::time_of(s, n),
        Heard::Itself,
        text,
    );
    text.byte(b'\n');
}

// All of a node.
pub fn node_text(s: &[u8], n: usize, text: &mut Text)
    requires { AtNode s.now n × Room node_most text.old }
    ensures { Writes node_most (node_text (line_of s.now) n) text.old text.new }
{
    head_line(s, n, text);
    log_lines(s, n, text);
    clock_line(s, n, text);
    kept::kept_line(s, n, text);
}
