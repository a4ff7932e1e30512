// The placing of a table of items for C (panel/placing.h), with the clauses of the crate placing_items.
#![tactic(auto)]

ghost use Rattle.std.specs.Prelude.{◌≡◌};
ghost use Rattle.placing.specs.Answer.{answer, columns_left};
ghost use Rattle.placing_items.specs.Fields.{rows_of, times_of, fixed_of, floors_of};

use answers::number;
use placing_items::Item;

// Document 01's placing, of "a lent slice of item structs": what `placing_place` answers and leaves for the items' fields.
#[unsafe(no_mangle)]
pub extern "C" fn placing_place_items(
    low: u32,
    high: u32,
    items: &[Item],
    columns: &mut [u32],
) -> u32
    ensures { (result ≡ answer low high (rows_of items.now) (times_of items.now) (fixed_of items.now) (floors_of items.now) columns.old)
        × (columns.new ≡ columns_left low high (rows_of items.now) (times_of items.now) (fixed_of items.now) (floors_of items.now) columns.old) }
{
    number(placing_items::place(low, high, items, columns))
}
