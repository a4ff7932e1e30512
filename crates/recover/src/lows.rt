// What a child's low clock tells of a node (document 02, 2026-04).
ghost use Rattle.std.specs.Prelude.{◌≡◌, true, length};
ghost use Rattle.plan.specs.Plan.{plan_of, channel_at};
ghost use Rattle.rules.specs.Recover.{low_through};
ghost use Rattle.state.specs.State.{line_of};
ghost use Rattle.buffer.specs.Ready.{OnChannel};
ghost use Rattle.buffer.specs.Rows.{rows_long, Rows};
ghost use Rattle.recover.specs.Found.{NoLow, raised_by};

use crate::rows;
use buffer::{bytes, layout, look};

// Whether the low clock on channel b holds nothing for the sender's parents: the words behind the sender's are 0.
fn no_low(s: &[u8], b: usize) -> bool
    requires { OnChannel s.now b }
    ensures { result ≡ true → NoLow s.now b }
{
    let at = layout::BLOCKS + layout::BLOCK * b + layout::LOW;
    (bytes::get32(s, at + 4) == 0)
        & (bytes::get32(s, at + 8) == 0)
        & (bytes::get32(s, at + 12) == 0)
        & (bytes::get32(s, at + 16) == 0)
}

// What the low clock of a child holds for a node's parents through the node, on the channel b to the child, in the parents' rows.
pub fn lows_on(s: &[u8], n: usize, b: usize, rows: &mut [u32; 12])
    requires { OnChannel s.now b × ((channel_at (plan_of s.now) b).sender ≡ n) × (length rows.old ≡ rows_long) }
    ensures { Rows rows.new (raised_by rows.old (λ q. low_through (line_of s.now) n q b)) }
{
    if no_low(s, b) {
        return;
    }
    for (place, c) in plan::masks::entering(s, n).enumerate() {
        let low = channel_fields::low_clock_of(s, b, 1 + place);
        rows::raise(rows, look::sender_of(s, c) as u32, low);
    }
}
