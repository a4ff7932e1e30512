// A record in the number that its eight bytes spell (document 02, 2026-03): piece, material, the zero byte, mass, from the highest byte down.
ghost use Rattle.std.specs.Prelude.{◌≡◌, get_or};
ghost use Rattle.plan.specs.Layout.{spelled, bytes_of};
ghost use Rattle.plan.specs.Record.{record_fields, record_layout};

use plan::Record;

pub fn piece_of(number: u64) -> u32
    ensures { result ≡ get_or (record_fields.read (bytes_of 8 number)) 0 0 }
{
    (number / 4_294_967_296) as u32
}

pub fn material_of(number: u64) -> u8
    ensures { result ≡ get_or (record_fields.read (bytes_of 8 number)) 1 0 }
{
    (number / 16_777_216 % 256) as u8
}

pub fn zero_of(number: u64) -> u8
    ensures { result ≡ get_or (record_fields.read (bytes_of 8 number)) 2 0 }
{
    (number / 65_536 % 256) as u8
}

pub fn mass_of(number: u64) -> u16
    ensures { result ≡ get_or (record_fields.read (bytes_of 8 number)) 3 0 }
{
    (number % 65_536) as u16
}

pub fn record_of(number: u64) -> Record
    ensures { result ≡ record_layout.read (bytes_of 8 number) }
{
    Record {
        piece: piece_of(number),
        material: material_of(number),
        mass: mass_of(number),
    }
}

pub fn number_of(r: Record) -> u64
    ensures { result ≡ spelled 0 (record_layout.write r) }
{
    (r.piece as u64) * 4_294_967_296 + (r.material as u64) * 16_777_216 + (r.mass as u64)
}
