// Which labels a row of a line has in some labels that hear the most.
#![tactic(auto)]

ghost use Rattle.std.specs.Prelude.{◌≡◌, ◌↔◌, ℕ, ◌+◌, ◌-◌, ◌<◌, ◌≤◌, true, length};
ghost use Rattle.basics.specs.Limits.{max_rows};
ghost use Rattle.basics.specs.Lists.{at};
ghost use Rattle.labels.specs.Permission.{permits};
ghost use Rattle.line.specs.Cells.{cell_at, core_bytes};
ghost use Rattle.line.specs.Filled.{Filled};
ghost use Rattle.line_labels.specs.Found.{LineFound};
ghost use Rattle.line_labels.specs.Added.{NotLeftOut, Added};

use labels::permission::{joined, may_have, only_label, restricted};
use line::space::{ACROSS, FOUND_FROM, HIGH_1_FROM, HIGH_2_FROM, NEXT_FROM};

// What a marked cell has more than its value: some labels that hear the most come by.
const MARK: u8 = 128;

// In the turn of a row: the labels that are found for it, and the largest stage of a marked cell.
// The stage of cell (x, y) is the smaller of x and y, the row in whose turn labels lead on from it.
#[derive(Clone, Copy)]
struct Reached {
    labels: u8,
    stage: usize,
}

// The turn of a row of the line: its permission, its next row, and the first row after it that may not be left out.
#[derive(Clone, Copy)]
struct Turn {
    perm: u8,
    row: usize,
    next: usize,
    must: usize,
    ghost rows: { (row < max_rows) × (next ≤ max_rows) },
}

impl Turn {
    ghost use Rattle.line_labels.specs.Marks.{InCells, IsMarked, More, Leads, Taken, AllTaken, RowMarked, ColumnMarked};

    // Whether the label of the row leads to cell (x, y), by which as many are heard as is needed. The cheapest test
    // comes first.
    fn leads(self, label: u8, needed: u8, x: usize, y: usize, space: &[u8]) -> bool
        requires { InCells x y space.now }
        ensures { (result ≡ true) ↔ Leads self label needed space.now x y }
    {
        if needed == 0 {
            return false;
        }
        if self.must < x.min(y) {
            return false;
        }
        if space[x * ACROSS + y] % MARK != needed {
            return false;
        }
        may_have(self.perm, label)
    }

    // Takes the label if it leads to cell (x, y): it is found, and the cell is marked.
    fn take(
        self,
        label: u8,
        needed: u8,
        x: usize,
        y: usize,
        reached: Reached,
        space: &mut [u8],
    ) -> Reached
        requires cells { InCells x y space.old }
        requires label { label ≤ 2 }
        ensures more { More space.old reached space.new result }
        ensures taken { Leads self label needed space.old x y → Taken label space.new result x y }
    {
        if self.leads(label, needed, x, y, space) {
            space[x * ACROSS + y] = needed + MARK;
            Reached {
                labels: joined(reached.labels, only_label(label)),
                stage: reached.stage.max(x.min(y)),
            }
        } else {
            reached
        }
    }

    // What a label of a receiver that is free from row `from` on leaves to be heard. A busy receiver has 0, which no
    // label leads to.
    fn left(self, from: usize, value: u8) -> u8
        requires { 0 < value }
        ensures { from ≡ self.row → result ≡ value - 1 }
    {
        if from == self.row { value - 1 } else { 0 }
    }

    // Takes the labels that lead from cell (x, y) to others, if it is marked.
    fn take_all(self, x: usize, y: usize, reached: Reached, space: &mut [u8]) -> Reached
        requires { InCells x y space.old }
        ensures more { More space.old reached space.new result }
        ensures taken { IsMarked (cell_at space.old x y) → AllTaken self space.old x y space.new result }
    {
        let marked = space[x * ACROSS + y];
        if marked <= MARK {
            return reached;
        }
        let value = marked - MARK;
        let one = self.left(x, value);
        let two = self.left(y, value);
        let x = x.max(self.row + 1);
        let y = y.max(self.row + 1);
        let with_out = self.take(0, value, x, y, reached, space);
        let with_one = self.take(1, one, self.next, y, with_out, space);
        self.take(2, two, x, self.next, with_one, space)
    }

    // Takes the labels that lead from the cells in which receiver 1 is free: (row, y) for y from `row` to `high`.
    fn take_row(self, high: usize, reached: Reached, space: &mut [u8]) -> Reached
        requires { InCells self.row high space.old }
        ensures { RowMarked self (high + 1) space.old reached space.new result }
    {
        let mut now = reached;
        for y in self.row..high + 1 {
            now = self.take_all(self.row, y, now, space);
        }
        now
    }

    // Takes those that lead from the other cells in which receiver 2 is free: (x, row) for x from `row + 1` to `high`.
    fn take_column(self, high: usize, reached: Reached, space: &mut [u8]) -> Reached
        requires { InCells high self.row space.old }
        ensures { ColumnMarked self (high + 1) space.old reached space.new result }
    {
        let mut now = reached;
        for x in self.row + 1..high + 1 {
            now = self.take_all(x, self.row, now, space);
        }
        now
    }

    // Takes the labels that lead from the cells of the turn. Receiver 1 is free from row `high_1` on at the latest,
    // receiver 2 from row `high_2` on.
    fn take_turn(self, high_1: usize, high_2: usize, reached: Reached, space: &mut [u8]) -> Reached
        requires { InCells high_1 high_2 space.old }
        ensures row { RowMarked self (high_2 + 1) space.old reached space.new result }
        ensures column { ColumnMarked self (high_1 + 1) space.old reached space.new result }
    {
        let with_row = self.take_row(high_2, reached, space);
        self.take_column(high_1, with_row, space)
    }
}

// From row `from` on the first row that may not be left out; how many rows there are, where each may.
fn first_must(perms: &[u8], from: usize) -> usize
    requires { from ≤ length perms.now }
    ensures { NotLeftOut perms.now from result }
{
    for k in from..perms.len() {
        if !may_have(perms[k], 0) {
            return k;
        }
    }
    perms.len()
}

// The first row after a row that may not be left out; `must` is such a row, if it is after it.
fn must_after(perms: &[u8], row: usize, must: usize) -> usize
    requires within { row < length perms.now }
    requires must { NotLeftOut perms.now 0 must }
    ensures { NotLeftOut perms.now (row + 1) result }
{
    if row < must {
        must
    } else {
        first_must(perms, row + 1)
    }
}

// The labels found for a row before its turn: 0, if a marked cell has a later stage. Both receivers are busy in the
// row's turn then.
#[tactic(auto, unfolding(labels::specs::Permission::only))]
fn passed(row: usize, stage: usize) -> u8
    ensures { row < stage → permits result 0 ≡ true }
{
    if row < stage { only_label(0) } else { 0 }
}

// Adds to the labels found for row r of the table those that its permission permits.
fn add_labels(perm: u8, labels: u8, r: usize, space: &mut [u8])
    requires { (r < max_rows) × (core_bytes ≤ length space.old) }
    ensures { Added perm labels r space.old space.new }
{
    let permitted = restricted(
        perm,
        may_have(labels, 0),
        may_have(labels, 1),
        may_have(labels, 2),
    );
    space[FOUND_FROM + r] = joined(space[FOUND_FROM + r], permitted);
}

// After `line::line_best`: adds to the labels found those that each row of the line has in some labels that hear the
// most. `order` has the row of the table for each row of the line. Not inlined: a plan takes 144 bytes of stack less,
// and 1 to 3 percent fewer instructions.
#[inline(never)]
pub fn find_line_labels(perms: &[u8], order: &[u8], space: &mut [u8])
    requires filled { Filled perms.now space.old }
    requires order_len { length order.now ≡ length perms.now }
    requires row { (k : ℕ) → k < length perms.now → at order.now k < max_rows }
    ensures { LineFound perms.now order.now space.old space.new }
{
    space[0] = space[0] % MARK + MARK;
    let mut stage = 0;
    let mut must = first_must(perms, 0);
    for row in 0..perms.len() {
        must = must_after(perms, row, must);
        let turn = Turn {
            perm: perms[row],
            row,
            next: usize::from(space[NEXT_FROM + row]),
            must,
        };
        let high_1 = usize::from(space[HIGH_1_FROM + row]);
        let high_2 = usize::from(space[HIGH_2_FROM + row]);
        let start = Reached {
            labels: passed(row, stage),
            stage,
        };
        let reached = turn.take_turn(high_1, high_2, start, space);
        stage = reached.stage;
        add_labels(perms[row], reached.labels, usize::from(order[row]), space);
    }
}
