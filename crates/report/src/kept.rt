// A node's kept answer: "`Q`, low, high, each parent's restored entry as `parent:time`, each target as `time[parent:time]`".
ghost use Rattle.std.specs.Prelude.{◌≡◌, ◌∷◌, ◌*◌};
ghost use Rattle.std.proofs.Math.Option.{some};
ghost use Rattle.rules.specs.Line.{node_at, target_limit};
ghost use Rattle.rules.specs.Sheet.{target_word};
ghost use Rattle.state.specs.State.{line_of};
ghost use Rattle.buffer.specs.Holds.{AtNode};
ghost use Rattle.slots.specs.Slots.{target_is};
ghost use Rattle.node_fields.specs.Kept.{kept_is};
ghost use Rattle.report.specs.Most.{restored_most, target_most, kept_most};
ghost use Rattle.report.specs.Parts.{after, restored_words, target_words, kept_line};
ghost use Rattle.report.specs.Writes.{Room, Writes};

use crate::clock;
use crate::text::Text;
use buffer::look;
use node_fields::Kept;
use slots::Goal;

// Each parent and its restored entry, behind a space.
fn restored_words(s: &[u8], n: usize, kept: Kept, text: &mut Text)
    requires { AtNode s.now n × ((node_at (line_of s.now) n).asked ≡ some (kept_is kept)) × Room (4 * restored_most) text.old }
    ensures { Writes (4 * restored_most) (after (restored_words (line_of s.now) n)) text.old text.new }
{
    for (place, channel) in plan::masks::entering(s, n).enumerate() {
        text.byte(b' ');
        clock::node_and_time(look::sender_of(s, channel), kept.entries[place], text);
    }
}

// A target, behind a space.
fn target_word(g: Goal, text: &mut Text)
    requires { Room target_most text.old }
    ensures { Writes target_most (32 ∷ target_word (target_is g)) text.old text.new }
{
    text.byte_and_number(b' ', g.time);
    text.byte(b'[');
    clock::node_and_time(g.parent as usize, g.sent, text);
    text.byte(b']');
}

fn target_words(s: &[u8], n: usize, text: &mut Text)
    requires { AtNode s.now n × Room (target_limit * target_most) text.old }
    ensures { Writes (target_limit * target_most) (after (target_words (line_of s.now) n)) text.old text.new }
{
    for i in 0..node_fields::target_count(s, n) {
        target_word(node_fields::target_of(s, n, i), text);
    }
}

// The line of a kept answer, if there is one.
pub fn kept_line(s: &[u8], n: usize, text: &mut Text)
    requires { AtNode s.now n × Room kept_most text.old }
    ensures { Writes kept_most (kept_line (line_of s.now) n) text.old text.new }
{
    let Some(kept) = node_fields::kept_of(s, n) else {
        return;
    };
    text.byte(b'Q');
    text.two_numbers(kept.low, kept.high);
    restored_words(s, n, kept, text);
    target_words(s, n, text);
    text.byte(b'\n');
}
