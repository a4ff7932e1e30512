// The chosen placing of a replay table, on lent slices of numbers. It knows nothing of lines.
#![tactic(auto)]

ghost use Rattle.std.specs.Prelude.{◌≡◌, ◌+◌, ◌-◌, ◌≤◌, ◌<◌, ◌++◌, length, get_or, replicate, ltb, eqb, cond};
ghost use Rattle.std.proofs.Math.Option.{some};
ghost use Rattle.placing.specs.Item.{items_of, item_at};
ghost use Rattle.placing.specs.Table.{most_items, row_count, AgreesLengths, item_fits, items_fit, malformed};
ghost use Rattle.placing.specs.Walk.{sooner};
ghost use Rattle.placing.specs.Answer.{answer, columns_left};
ghost use Rattle.placing.specs.Places.{Formed, Prepared, shut_until, ShutRows, NextColumn, offer_at, candidate_of, WalkGives};
ghost use Rattle.answers.specs.Number.{number};

use answers::Refusal;

// "at most 64 items"
const MOST_ITEMS: usize = 64;

// "the limits of a replay table on columns, row times and floors rise to 4,000,000"
const GREATEST: u32 = 4_000_000;

// Rows 0..3.
const ROWS: usize = 4;

// A replay table. C lends a slice for each field (`placing_place`): item i has its row, row time, fixed column (0 is free)
// and floor at place i of each.
#[derive(Clone, Copy)]
pub struct Table<'a> {
    pub low: u32,
    pub high: u32,
    pub rows: &'a [u32],
    pub times: &'a [u32],
    pub fixed: &'a [u32],
    pub floors: &'a [u32],
}

impl Table<'_> {
    // Whether item i is within its limits.
    #[tactic(auto, unfolding(crate::specs::Table::item_fits, crate::specs::Table::fixed_fits), using(crate::proofs::ItemsLaws::items_at))]
    fn item_fits(&self, i: usize) -> bool
        requires { (i < length self.now.rows.now) × AgreesLengths self.now.rows.now self.now.times.now self.now.fixed.now self.now.floors.now }
        ensures { result ≡ item_fits self.now.low self.now.high (item_at (items_of self.now.rows.now self.now.times.now self.now.fixed.now self.now.floors.now) i) }
    {
        let fixed = self.fixed[i];
        let floor = self.floors[i];
        let time = self.times[i];
        let fixed_fits = (fixed == 0) | ((self.low < fixed) & (fixed <= self.high) & (floor == 0));
        ((self.rows[i] as usize) < ROWS)
            & (1 <= time)
            & (time <= GREATEST)
            & (floor <= GREATEST)
            & fixed_fits
    }

    // Whether every item is within its limits and comes after the one before it.
    fn items_fit(&self) -> bool
        requires { AgreesLengths self.now.rows.now self.now.times.now self.now.fixed.now self.now.floors.now }
        ensures { result ≡ items_fit self.now.low self.now.high 0 0 (items_of self.now.rows.now self.now.times.now self.now.fixed.now self.now.floors.now) }
    {
        let mut ok = true;
        let mut before = (0, 0);
        for i in 0..self.rows.len() {
            let its = (self.rows[i], self.times[i]);
            ok &= self.item_fits(i) & (before < its);
            before = its;
        }
        ok
    }

    // Whether the table is malformed: refusal 22. The marker asks it too.
    pub fn is_malformed(&self) -> bool
        ensures { result ≡ malformed self.now.low self.now.high self.now.rows.now self.now.times.now self.now.fixed.now self.now.floors.now }
    {
        let n = self.rows.len();
        let agree = (self.times.len() == n) & (self.fixed.len() == n) & (self.floors.len() == n);
        let bounds = (n <= MOST_ITEMS) & (self.low <= self.high) & (self.high <= GREATEST);
        if !(agree & bounds) {
            return true;
        }
        !self.items_fit()
    }

    // Document 01's placing: the chosen columns in table order, where it is accepted.
    pub fn place(&self, columns: &mut [u32]) -> Result<(), Refusal>
        ensures number { number result ≡ answer self.now.low self.now.high self.now.rows.now self.now.times.now self.now.fixed.now self.now.floors.now columns.old }
        ensures left { columns.new ≡ columns_left self.now.low self.now.high self.now.rows.now self.now.times.now self.now.fixed.now self.now.floors.now columns.old }
    {
        if self.is_malformed() {
            return Err(Refusal::Table);
        }
        let n = self.rows.len();
        if columns.len() < n {
            return Err(Refusal::OutputShort);
        }
        let table = WellFormed {
            low: self.low,
            high: self.high,
            rows: self.rows,
            fixed: self.fixed,
            floors: self.floors,
        };
        // A refusal copies nothing.
        let mut work = [0; MOST_ITEMS];
        table.walk(&mut work)?;
        columns[..n].copy_from_slice(&work[..n]);
        Ok(())
    }
}

// A table that is not malformed, without its row times: only its check looks at them.
#[derive(Clone, Copy)]
struct WellFormed<'a> {
    low: u32,
    high: u32,
    rows: &'a [u32],
    fixed: &'a [u32],
    floors: &'a [u32],
    ghost formed: { Formed low high rows.now fixed.now floors.now },
}

impl WellFormed<'_> {
    // The last column of the item behind in a row, whose place it is, or one past the highest where there is none.
    fn last_behind(&self, lasts: &[u32; MOST_ITEMS], place: usize) -> u32
        ensures { result ≡ cond (ltb place (length self.now.rows.now)) (get_or lasts.now place 0) (self.now.high + 1) }
    {
        if place < self.rows.len() {
            lasts[place]
        } else {
            self.high + 1
        }
    }

    // Each item's last column, and each row's first place, from the table's end backwards.
    fn prepare(&self, lasts: &mut [u32; MOST_ITEMS], next: &mut [usize; ROWS])
        ensures { Prepared self.now.high 0 self.now.rows.now self.now.fixed.now lasts.new next.new }
    {
        let n = self.rows.len();
        *next = [n; ROWS];
        for i in (0..n).rev() {
            let row = self.rows[i] as usize;
            lasts[i] = last_from(self.fixed[i], self.last_behind(lasts, next[row]));
            next[row] = i;
        }
    }

    // The last column that finds a row shut, where its next place is i: its next item's floor, or the column before that
    // item's fixed one. A row with no item left stays shut.
    #[tactic(auto, unfolding(crate::specs::Places::shut_until))]
    fn shut_until(&self, row: usize, i: usize) -> u32
        ensures { result ≡ shut_until self.now.high self.now.rows.now self.now.fixed.now self.now.floors.now row i }
    {
        if i < self.rows.len() && self.rows[i] as usize == row {
            if self.fixed[i] == 0 {
                return self.floors[i];
            }
            return self.fixed[i] - 1;
        }
        self.high
    }

    // The last column that finds each row shut.
    fn shut_rows(&self, next: &[usize; ROWS]) -> [u32; ROWS]
        ensures { ShutRows self.now.high self.now.rows.now self.now.fixed.now self.now.floors.now next.now row_count result }
    {
        let mut shut = [self.high; ROWS];
        for row in 0..ROWS {
            shut[row] = self.shut_until(row, next[row]);
        }
        shut
    }

    // What a row offers column c where it is shut up to the column `shut` and has its next place at i.
    #[tactic(auto, unfolding(crate::specs::Places::offer_at))]
    fn offered(&self, lasts: &[u32; MOST_ITEMS], shut: u32, i: usize, c: u32) -> Offer
        requires { shut < c → i < length self.now.rows.now }
        ensures { result ≡ offer_at self.now.fixed.now lasts.now shut i c }
    {
        if shut < c {
            if self.fixed[i] == c {
                return Offer::Fixed;
            }
            if self.fixed[i] == 0 {
                return Offer::Free(lasts[i]);
            }
            return Offer::Passed;
        }
        Offer::Nothing
    }

    // The first column past c that finds a row open, or the one past the highest.
    fn next_column(&self, shut: &[u32; ROWS], c: u32) -> u32
        requires { c ≤ self.now.high }
        ensures { NextColumn self.now.high shut.now c result }
    {
        let mut least = self.high;
        for until in shut {
            if *until <= c {
                return c + 1;
            }
            least = least.min(*until);
        }
        least + 1
    }

    // The walk over the columns. The columns of the items placed stand in `work`, at their places; it is accepted if every
    // item has its column.
    fn walk(&self, work: &mut [u32; MOST_ITEMS]) -> Result<(), Refusal>
        requires { work.old ≡ replicate most_items 0 }
        ensures { WalkGives self.now.low self.now.high self.now.rows.now self.now.fixed.now self.now.floors.now result work.new }
    {
        let mut lasts = [0; MOST_ITEMS];
        let mut next = [0; ROWS];
        self.prepare(&mut lasts, &mut next);
        // Beside `next`, and not within it: a row's next place stands before the column that finds it shut is known.
        let mut shut = self.shut_rows(&next);
        let mut left = self.rows.len();
        let mut c = self.low + 1;
        while (0 < left) & (c <= self.high) {
            // Left at once with an item fixed at the column, its last one; else, past all rows, with the best free item.
            let chosen = 'search: {
                let mut best = None;
                for row in 0..ROWS {
                    match self.offered(&lasts, shut[row], next[row], c) {
                        Offer::Fixed => {
                            break 'search Some(Pick { row, last: c });
                        }
                        Offer::Free(last) => {
                            best = sooner(best, Pick { row, last });
                        }
                        Offer::Passed => {
                            shut[row] = self.high;
                        }
                        Offer::Nothing => {}
                    }
                }
                best
            };
            if let Some(pick) = chosen {
                let i = next[pick.row];
                work[i] = c;
                next[pick.row] = i + 1;
                shut[pick.row] = self.shut_until(pick.row, i + 1);
                left -= 1;
            }
            c = self.next_column(&shut, c);
        }
        if left != 0 {
            return Err(Refusal::NoPlacing);
        }
        Ok(())
    }
}

// An item's last column from that of the item behind it.
fn last_from(fixed: u32, behind: u32) -> u32
    ensures { result ≡ cond (eqb fixed 0) (behind - 1) fixed }
{
    if fixed == 0 {
        behind.saturating_sub(1)
    } else {
        fixed
    }
}

// What a row offers a column: its next item, fixed there or free with its last column; or nothing, as that item's fixed
// column has passed, or as the row is still shut.
#[derive(Clone, Copy)]
enum Offer {
    Fixed,
    Free(u32),
    Passed,
    Nothing,
}

// What a column takes: a row's next item, with its last column.
#[derive(Clone, Copy)]
struct Pick {
    row: usize,
    last: u32,
}

// The item with the least last column, then the lowest row: the one found before unless this one's last column is less.
fn sooner(best: Option<Pick>, pick: Pick) -> Option<Pick>
    ensures { candidate_of result ≡ sooner (candidate_of best) (some (record { row = pick.row; last = pick.last })) }
{
    match best {
        Some(before) if before.last <= pick.last => best,
        _ => Some(pick),
    }
}
