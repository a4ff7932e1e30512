// Marking a candidate's columns for a replay table (document 02, 2026-09), on lent slices of numbers.
#![tactic(auto)]

ghost use Rattle.std.specs.Prelude.{◌≡◌, ◌<◌, length, get_or};
ghost use Rattle.marking.specs.Mark.{breaks_alone, mark, mark_number};
ghost use Rattle.marking.specs.Loops.{Beside, FoundBy, Aligned};

use answers::Refusal;
use placing::Table;

// Yes, a no with the first item that breaks a rule (a table has at most 64), or a refusal's number. The definition `mark`
// answers in these three cases, and its theorems speak of them.
#[derive(Clone, Copy, Debug, PartialEq, Eq)]
pub enum Mark {
    Yes,
    No(u8),
    Refused(u32),
}

// The mark as one number, for the panel.
impl From<Mark> for u32 {
    ghost from_gives = { λ m n. n ≡ mark_number m };

    fn from(mark: Mark) -> u32 {
        match mark {
            Mark::Yes => 0,
            Mark::No(k) => 256 + u32::from(k),
            Mark::Refused(number) => number,
        }
    }
}

// Whether item k in a column breaks a rule by itself.
#[tactic(auto, unfolding(crate::specs::Mark::breaks_alone))]
fn breaks_alone(table: &Table, k: usize, column: u32) -> bool
    requires { (k < length table.now.fixed.now) × (k < length table.now.floors.now) }
    ensures { result ≡ breaks_alone table.now.low table.now.high (get_or table.now.fixed.now k 0) (get_or table.now.floors.now k 0) column }
{
    let fixed = table.fixed[k];
    let free_low = (fixed == 0) & (column <= table.floors[k]);
    let moved = (fixed != 0) & (column != fixed);
    (column <= table.low) | (table.high < column) | free_low | moved
}

// Whether item k breaks a rule with an earlier item.
fn clashes(rows: &[u32], columns: &[u32], k: usize) -> bool
    requires { (k < length rows.now) × (length columns.now ≡ length rows.now) }
    ensures { Beside rows.now columns.now k k result }
{
    let row = rows[k];
    let c = columns[k];
    let mut found = false;
    for j in 0..k {
        let its = columns[j];
        found |= (its == c) | ((rows[j] == row) & (c <= its));
    }
    found
}

// The first item that breaks a rule.
fn first_broken(table: &Table, columns: &[u32]) -> Option<usize>
    requires { Aligned table.now.rows.now table.now.fixed.now table.now.floors.now columns.now }
    ensures { FoundBy table.now.low table.now.high table.now.rows.now table.now.fixed.now table.now.floors.now columns.now result }
{
    for k in 0..table.rows.len() {
        let alone = breaks_alone(table, k, columns[k]);
        let beside = clashes(table.rows, columns, k);
        if alone | beside {
            return Some(k);
        }
    }
    None
}

// The mark of a candidate's columns. A table has at most 64 items, so every number is below 320.
pub fn mark_of(table: &Table, columns: &[u32]) -> Mark
    ensures marked { result ≡ mark table.now.low table.now.high table.now.rows.now table.now.times.now table.now.fixed.now table.now.floors.now columns.now }
    ensures small { mark_number result < 320 }
{
    if table.is_malformed() {
        return Mark::Refused(u32::from(Refusal::Table));
    }
    if columns.len() != table.rows.len() {
        return Mark::Refused(u32::from(Refusal::ListLength));
    }
    match first_broken(table, columns) {
        Some(k) => Mark::No(k as u8),
        None => Mark::Yes,
    }
}
