// The text of a sheet (document 01, "The sheet"), written into a lent buffer: each function writes behind what is written. Nothing else of the buffer changes.
#![tactic(auto)]

ghost use Rattle.rules.specs.Sheet.{opening as Sheet·opening, answer_line, line_text};
ghost use Rattle.state.specs.State.{line_of};
ghost use Rattle.buffer.specs.Holds.{Holds};
ghost use Rattle.report.specs.Most.{opening_most, answer_most, text_most};
ghost use Rattle.report.specs.Writes.{Room, Writes};

use crate::text::Text;
use buffer::look;

pub mod clock;
pub mod kept;
pub mod node;
pub mod text;

// Whose entries for a node's parents are listed: the node's own, those that a child has heard through its channel from the node, or those of the node's kept answer.
#[derive(Clone, Copy)]
pub enum Heard {
    Itself,
    Through(usize),
    Kept,
}

// "The sheet opens with the fixed line LINE 1."
pub fn opening(text: &mut Text)
    requires { Room opening_most text.old }
    ensures { Writes opening_most Sheet·opening text.old text.new }
{
    text.word(b"LINE 1\n");
}

// "Each frame gives `A`, its number from 1, its answer."
pub fn answer_line(frame: u64, answer: u32, text: &mut Text)
    requires { Room answer_most text.old }
    ensures { Writes answer_most (answer_line frame answer) text.old text.new }
{
    text.byte(b'A');
    text.byte(b' ');
    text.decimal(frame);
    text.byte_and_number(b' ', answer);
    text.byte(b'\n');
}

// "Then per node": the text of all nodes.
pub fn line_text(s: &[u8], text: &mut Text)
    requires { Holds s.now (line_of s.now) × Room text_most text.old }
    ensures { Writes text_most (line_text (line_of s.now)) text.old text.new }
{
    for n in 0..look::node_count(s) {
        node::node_text(s, n, text);
    }
}
