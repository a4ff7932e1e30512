// The marker of a candidate's columns for C (panel/marking.h), with the clauses of the crate marking.
#![tactic(auto)]

ghost use Rattle.std.specs.Prelude.{◌≡◌};
ghost use Rattle.marking.specs.Mark.{mark, mark_number};

use marking::mark_of;
use placing::Table;

// The mark of a candidate's columns, as one number.
#[unsafe(no_mangle)]
pub extern "C" fn marking_mark(
    low: u32,
    high: u32,
    rows: &[u32],
    times: &[u32],
    fixed: &[u32],
    floors: &[u32],
    columns: &[u32],
) -> u32
    ensures { result ≡ mark_number (mark low high rows.now times.now fixed.now floors.now columns.now) }
{
    let table = Table {
        low,
        high,
        rows,
        times,
        fixed,
        floors,
    };
    u32::from(mark_of(&table, columns))
}
