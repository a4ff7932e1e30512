// Records at an offset: of a material 0..15 or a tick, and the zero byte 0.
ghost use Rattle.std.specs.Prelude.{◌≡◌, ◌&&◌, ◌+◌, ◌≤◌, length};
ghost use Rattle.items.specs.Items.{record_right};
ghost use Rattle.buffer.specs.Exact.{record_exact};
ghost use Rattle.buffer.specs.Check.{record_in};

use crate::{bytes, record};

// Whether eight bytes are a record's: of a material 0..15 or a tick, and the zero byte 0.
pub fn record_ok(s: &[u8], at: usize) -> bool
    requires { at + 8 ≤ length s.now }
    ensures { result ≡ (record_exact at s.now && record_right (record_in at s.now)) }
{
    let number = bytes::get64(s, at);
    let piece = record::piece_of(number);
    let material = record::material_of(number);
    let mass = record::mass_of(number);
    plan::records::known(piece, material, mass) & (record::zero_of(number) == 0)
}
