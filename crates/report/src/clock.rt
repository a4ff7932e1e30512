// A node's clock: "listed root first, each parent's part listed the same way inside brackets".
ghost use Rattle.std.specs.Prelude.{◌≡◌, ◌<◌, ◌^◌, get_or};
ghost use Rattle.rules.specs.Sheet.{node_and_time, listed};
ghost use Rattle.state.specs.State.{line_of};
ghost use Rattle.buffer.specs.Holds.{AtNode};
ghost use Rattle.report.specs.Clock.{times_of, HeardAt, ParentAt, separator_at};
ghost use Rattle.report.specs.Most.{clock_most};
ghost use Rattle.report.specs.Writes.{Room, Writes};

use crate::Heard;
use crate::text::Text;
use buffer::look;

pub fn node_and_time(n: usize, t: u32, text: &mut Text)
    requires { (n < 2 ^ 32) × Room 21 text.old }
    ensures { Writes 21 (node_and_time n t) text.old text.new }
{
    text.decimal(n as u64);
    text.byte_and_number(b':', t);
}

// The entry for the parent at a place.
fn parent_time(s: &[u8], n: usize, h: Heard, place: usize, channel: usize) -> u32
    requires { AtNode s.now n × HeardAt s.now n h × ParentAt s.now n place channel }
    ensures { result ≡ get_or (times_of (line_of s.now) n h) place 0 }
{
    match h {
        Heard::Itself => channel_fields::taken_of(s, channel),
        Heard::Through(c) => channel_fields::heard_of(s, c, place),
        Heard::Kept => node_fields::kept_number(s, n, 2 + place),
    }
}

// What stands before the parent at a place: a bracket before the first, else a space.
fn separator(place: usize) -> u8
    ensures { result ≡ separator_at 91 place }
{
    if place == 0 { b'[' } else { b' ' }
}

// A node and its time, and in brackets its parents, with so many layers left below it: none in the last.
pub fn listed(s: &[u8], layers: u32, n: usize, t: u32, h: Heard, text: &mut Text)
    requires { AtNode s.now n × HeardAt s.now n h × Room (clock_most layers) text.old }
    ensures { Writes (clock_most layers) (listed (line_of s.now) layers n t (times_of (line_of s.now) n h)) text.old text.new }
{
    node_and_time(n, t, text);
    if layers == 0 {
        return;
    }
    let parents = plan::masks::entering(s, n);
    if parents.is_empty() {
        return;
    }
    for (place, channel) in parents.enumerate() {
        text.byte(separator(place));
        let time = parent_time(s, n, h, place, channel);
        let parent = look::sender_of(s, channel);
        listed(s, layers - 1, parent, time, Heard::Through(channel), text);
    }
    text.byte(b']');
}
