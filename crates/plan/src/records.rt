// Which records there are, by their fields: a record passed as one value is packed and unpacked again, which the check of a state would pay for.
ghost use Rattle.std.specs.Prelude.{◌≡◌};
ghost use Rattle.plan.specs.Record.{is_tick, known_record};

// Whether a record is a tick (document 02, 2026-05).
pub fn is_tick(piece: u32, material: u8, mass: u16) -> bool
    ensures { result ≡ is_tick (record { piece = piece; material = material; mass = mass }) }
{
    (material == 255) & (piece == 0) & (mass == 0)
}

// Whether a record is of a material 0..15, or a tick. By a branch, so that of most records the material alone is looked at.
pub fn known(piece: u32, material: u8, mass: u16) -> bool
    ensures { result ≡ known_record (record { piece = piece; material = material; mass = mass }) }
{
    material <= 15 || is_tick(piece, material, mass)
}
