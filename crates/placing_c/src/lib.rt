// The placing of a replay table for C (panel/placing.h), with the clauses of the crate placing.
#![tactic(auto)]

ghost use Rattle.std.specs.Prelude.{◌≡◌};
ghost use Rattle.placing.specs.Answer.{answer, columns_left};

use answers::number;
use placing::Table;

// Document 01's placing: the number answered, and on 0 the chosen columns in table order.
#[unsafe(no_mangle)]
pub extern "C" fn placing_place(
    low: u32,
    high: u32,
    rows: &[u32],
    times: &[u32],
    fixed: &[u32],
    floors: &[u32],
    columns: &mut [u32],
) -> u32
    ensures { (result ≡ answer low high rows.now times.now fixed.now floors.now columns.old)
        × (columns.new ≡ columns_left low high rows.now times.now fixed.now floors.now columns.old) }
{
    let table = Table {
        low,
        high,
        rows,
        times,
        fixed,
        floors,
    };
    number(table.place(columns))
}
