// A held table with its plan (docs/RULES.md, Held table): begun empty, a row added at the end, a row withdrawn by
// number. Its rows and labels lie in four lent lists of 64 places, of which the first `rows` count.
#![tactic(auto)]

ghost use Rattle.std.specs.Prelude.{◌≡◌, ◌≤◌, length, take, drop};
ghost use Rattle.refusals.specs.Refusals.{answer_of};
ghost use Rattle.table.specs.Tables.{RowIn, row_of, lent};
ghost use Rattle.table.specs.Planned.{called, plan_call};
ghost use Rattle.table.specs.Changes.{with_row, without_row};
ghost use Rattle.held_table.specs.Held.{held, Same, numbers_of, begun_as, begun, places_refusal, add_first, withdraw_first, held_table, change, gave, add_call, withdraw_call};
ghost use Rattle.held_table.specs.Came.{Came, AddsRow, WithdrawsRow};
ghost use Rattle.held_table.specs.Lent.{first_rows, FirstRows, RoomFor, RowHeld, plan_rows};

use basics::MAX_ROWS;
use best_plan::SPACE_BYTES;
use refusals::Refusal;
use table::{Rows, Setting, Table, checks};
use window::Row;

// R in the numbers that C is given of a refused begin.
pub const REFUSED_TICKS: u16 = 2;

// g in the numbers that C is given of a refused begin.
pub const REFUSED_GAP: u16 = 0;

// The numbers of a held table: R and g of its round, how many rows it has, and how many of them its plan hears.
#[derive(Clone, Copy, Debug, PartialEq, Eq)]
pub struct Numbers {
    pub ticks: u16,
    pub gap: u16,
    pub rows: usize,
    pub count: usize,
}

// A held table: its numbers and its rows. The labels of its plan are lent beside it, as to the planner.
#[derive(Drop)]
pub struct Held<'a> {
    pub numbers: Numbers,
    pub starts: &'a mut [u16],
    pub ends: &'a mut [u16],
    pub marks: &'a mut [u8],
}

impl Numbers {
    // The numbers of an empty table. R and g are not checked here.
    pub fn empty(ticks: u16, gap: u16) -> Numbers
        ensures { result ≡ numbers_of ticks gap 0 0 }
    {
        Numbers {
            ticks,
            gap,
            rows: 0,
            count: 0,
        }
    }
}

// BEGINS a held table of a round: refused 4, then 14. The table is empty whatever its lists hold: no place of them
// counts yet. An `Err` has no numbers. The definition `begun` gives it those of an empty table, R 2 and g 0, which C is
// handed by `hub_held_begin`.
#[tactic(auto, unfolding(crate::specs::Held::begun))]
pub fn begin(ticks: u16, gap: u16) -> Result<Numbers, Refusal>
    ensures { begun_as result ≡ begun ticks gap }
{
    checks::check_ticks(ticks)?;
    checks::check_gap(gap)?;
    Ok(Numbers::empty(ticks, gap))
}

// Each contract of a change says that the lists stay the same ones: no field can say that of before and after.
// Labels and working space are parameters, as they are of the planner, to which they are handed on.
impl<'a> Held<'a> {
    // Row i, or what its place holds.
    fn row(&self, i: usize) -> Row
        requires { RowIn self.now.starts.now self.now.ends.now self.now.marks.now i }
        ensures { result ≡ row_of self.now.starts.now self.now.ends.now self.now.marks.now i }
    {
        let rows = Rows {
            starts: self.starts,
            ends: self.ends,
            marks: self.marks,
        };
        rows.row(i)
    }

    // The first n rows, a table of the round.
    fn first(&self, n: usize) -> Table<'_>
        requires { FirstRows n self.now }
        ensures { lent result ≡ first_rows n self.now }
    {
        let rows = Rows {
            starts: &self.starts[..n],
            ends: &self.ends[..n],
            marks: &self.marks[..n],
        };
        let setting = Setting::round(self.numbers.ticks, self.numbers.gap);
        Table { setting, rows }
    }

    // Check 1: each of the four lists has 64 places. The list of labels has `labels` of them.
    #[tactic(auto, unfolding(crate::specs::Held::places_refusal))]
    fn check_places(&self, labels: usize) -> Result<(), Refusal>
        ensures { result ≡ places_refusal (length self.now.starts.now) (length self.now.ends.now) (length self.now.marks.now) labels }
    {
        if !basics::has_places(self.starts.len(), self.ends.len(), self.marks.len())
            || labels != MAX_ROWS
        {
            return Err(Refusal::Lists);
        }
        Ok(())
    }

    // Checks 1 and 2 of an addition: lists of 64 places, and a place for the row.
    #[tactic(auto, unfolding(crate::specs::Held::add_checked))]
    fn check_add(&self, labels: &[u8]) -> Result<(), Refusal>
        ensures { result ≡ add_first (held self.now labels.now) }
    {
        self.check_places(labels.len())?;
        if MAX_ROWS <= self.numbers.rows {
            return Err(Refusal::Rows);
        }
        Ok(())
    }

    // Checks 1, 3 and 15 of a withdrawal of row k; then 2, since numbers of more than 64 rows can be lent, too.
    #[tactic(auto, unfolding(crate::specs::Held::withdraw_checked, table::specs::Planned::space_refusal))]
    fn check_withdraw(&self, k: usize, labels: &[u8], space: usize) -> Result<(), Refusal>
        ensures { result ≡ withdraw_first (held self.now labels.now) k space }
    {
        self.check_places(labels.len())?;
        if space < SPACE_BYTES {
            return Err(Refusal::Space);
        }
        if self.numbers.rows <= k {
            return Err(Refusal::NoRow);
        }
        if MAX_ROWS < self.numbers.rows {
            return Err(Refusal::Rows);
        }
        Ok(())
    }

    // Plans the first n rows, and leaves the labels after theirs.
    fn plan_first(&self, n: usize, labels: &mut [u8], space: &mut [u8]) -> Result<usize, Refusal>
        requires rows { FirstRows n self.now }
        requires most { n ≤ length labels.old }
        ensures space_after { called (answer_of result) (take n labels.new) space.new ≡ plan_call (first_rows n self.now) (take n labels.old) space.old }
        ensures labels_unchanged { drop n labels.new ≡ drop n labels.old }
    {
        planner::plan(self.first(n), &mut labels[..n], space)
    }

    // Adds a row where there is a place for it.
    fn add_row(&mut self, row: Row, labels: &mut [u8], space: &mut [u8]) -> Result<usize, Refusal>
        requires { RoomFor (held self.old labels.old) }
        ensures same { Same self.old self.new }
        ensures planned { gave (answer_of result) (held self.new labels.new) space.new ≡ plan_rows (held self.old labels.old) (with_row (held_table (held self.old labels.old)) row) space.old }
    {
        let n = self.numbers.rows;
        let free = self.row(n);
        row_lists::set_row(self.starts, self.ends, self.marks, n, row);
        match self.plan_first(n + 1, labels, space) {
            Ok(count) => {
                self.numbers.rows = n + 1;
                self.numbers.count = count;
                Ok(count)
            }
            Err(refusal) => {
                row_lists::set_row(self.starts, self.ends, self.marks, n, free);
                Err(refusal)
            }
        }
    }

    // ADDS a row at the end. What a call gives, answer, numbers, lists and working space, is what the definition
    // `add_call` yields, on every input. Of a held table that came from these calls it is spelled out: the row is
    // refused 2, 3, 6, 7 or 8, in this order, and then table and plan stay as they were; else it is the last row, and
    // the held plan is the one that planning the whole table gives.
    pub fn add(&mut self, row: Row, labels: &mut [u8], space: &mut [u8]) -> Result<usize, Refusal>
        ensures same { Same self.old self.new }
        ensures added { gave (answer_of result) (held self.new labels.new) space.new ≡ add_call (held self.old labels.old) row space.old }
        ensures changed { Came (held self.old labels.old) → AddsRow (held self.old labels.old) row (length space.old) (change (answer_of result) (held self.new labels.new)) }
    {
        self.check_add(labels)?;
        self.add_row(row, labels, space)
    }

    // Withdraws a row that is held.
    fn withdraw_row(
        &mut self,
        k: usize,
        labels: &mut [u8],
        space: &mut [u8],
    ) -> Result<usize, Refusal>
        requires { RowHeld (held self.old labels.old) k }
        ensures same { Same self.old self.new }
        ensures planned { gave (answer_of result) (held self.new labels.new) space.new ≡ plan_rows (held self.old labels.old) (without_row (held_table (held self.old labels.old)) k) space.old }
    {
        let n = self.numbers.rows;
        let row = self.row(k);
        row_lists::move_up(self.starts, self.ends, self.marks, k, n);
        match self.plan_first(n - 1, labels, space) {
            Ok(count) => {
                self.numbers.rows = n - 1;
                self.numbers.count = count;
                Ok(count)
            }
            Err(refusal) => {
                row_lists::move_down(self.starts, self.ends, self.marks, k, n);
                row_lists::set_row(self.starts, self.ends, self.marks, k, row);
                Err(refusal)
            }
        }
    }

    // WITHDRAWS row k; later rows move up one. What a call gives, answer, numbers, lists and working space, is what the
    // definition `withdraw_call` yields, on every input. Of a held table that came from these calls it is spelled out:
    // it is refused 3 and then 15 and nothing else, so never 8, and the held plan is that of the whole table.
    pub fn withdraw(
        &mut self,
        k: usize,
        labels: &mut [u8],
        space: &mut [u8],
    ) -> Result<usize, Refusal>
        ensures same { Same self.old self.new }
        ensures withdrawn { gave (answer_of result) (held self.new labels.new) space.new ≡ withdraw_call (held self.old labels.old) k space.old }
        ensures changed { Came (held self.old labels.old) → WithdrawsRow (held self.old labels.old) k (length space.old) (change (answer_of result) (held self.new labels.new)) }
    {
        self.check_withdraw(k, labels, space.len())?;
        self.withdraw_row(k, labels, space)
    }
}
