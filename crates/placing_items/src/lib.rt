// The placing over a lent slice of item structs: their fields go into arrays, which the placing of number slices takes.
#![tactic(auto)]

ghost use Rattle.std.specs.Prelude.{◌≡◌};
ghost use Rattle.answers.specs.Number.{number};
ghost use Rattle.placing.specs.Answer.{answer, columns_left};
ghost use Rattle.placing_items.specs.Fields.{rows_of, times_of, fixed_of, floors_of};

use answers::Refusal;
use placing::Table;

// "Each item is a row, a row time, a fixed column (0 is free) and a floor."
#[repr(C)]
#[derive(Clone, Copy, Debug, PartialEq, Eq)]
pub struct Item {
    pub row: u32,
    pub time: u32,
    pub fixed: u32,
    pub floor: u32,
}

// "at most 64 items"
const MOST_ITEMS: usize = 64;

// Document 01's placing, of "a lent slice of item structs": what the placing of their fields answers and leaves.
pub fn place(low: u32, high: u32, items: &[Item], columns: &mut [u32]) -> Result<(), Refusal>
    ensures number { number result ≡ answer low high (rows_of items.now) (times_of items.now) (fixed_of items.now) (floors_of items.now) columns.old }
    ensures left { columns.new ≡ columns_left low high (rows_of items.now) (times_of items.now) (fixed_of items.now) (floors_of items.now) columns.old }
{
    let n = items.len();
    if MOST_ITEMS < n {
        return Err(Refusal::Table);
    }
    // An array for each field: the placing takes slices of numbers, as C may lend them too.
    let mut rows = [0; MOST_ITEMS];
    let mut times = [0; MOST_ITEMS];
    let mut fixed = [0; MOST_ITEMS];
    let mut floors = [0; MOST_ITEMS];
    for (i, item) in items.iter().enumerate() {
        rows[i] = item.row;
        times[i] = item.time;
        fixed[i] = item.fixed;
        floors[i] = item.floor;
    }
    let table = Table {
        low,
        high,
        rows: &rows[..n],
        times: &times[..n],
        fixed: &fixed[..n],
        floors: &floors[..n],
    };
    table.place(columns)
}
