// The line program: how many rows of a line two receivers can hear.
#![tactic(auto)]

ghost use Rattle.std.specs.Prelude.{◌≡◌, true, ℕ, ◌+◌, ◌<◌, ◌≤◌, ◌↔◌, max, length, drop, set};
ghost use Rattle.basics.specs.Limits.{max_rows};
ghost use Rattle.basics.specs.Lists.{at};
ghost use Rattle.line.specs.Line.{when, LineRows, best_from};
ghost use Rattle.line.specs.Cells.{cell_bytes, line_bytes, core_bytes};
ghost use Rattle.line.specs.Filled.{NextRows, Numbered, Filled, Highs, nexts_of};
ghost use Rattle.line.specs.declared.Receiver.{Receiver};
ghost use Rattle.line.specs.declared.Receiver.TheVariants.{One};
ghost use Rattle.line.specs.Turns.{label, place, gain_byte, last_heard, Ready, new_value, FirstMade, SideMade, SidesMade, TurnMade};

use basics::MAX_ROWS;
use labels::permission::may_have;
use space::{ACROSS, HIGH_1_FROM, HIGH_2_FROM, NEXT_FROM};

pub mod space;

// A receiver. Both are treated alike, each with the other one beside it.
#[derive(Clone, Copy)]
enum Receiver {
    One,
    Two,
}

impl Receiver {
    fn label(self) -> u8
        ensures { result ≡ label self }
    {
        match self {
            Receiver::One => 1,
            Receiver::Two => 2,
        }
    }

    // The index of the cell where this receiver is free from row a on and the other one from row b on.
    fn place(self, a: usize, b: usize) -> usize
        requires { (a ≤ max_rows) × (b ≤ max_rows) }
        ensures value { result ≡ place self a b }
        ensures bound { result < cell_bytes }
    {
        match self {
            Receiver::One => a * ACROSS + b,
            Receiver::Two => b * ACROSS + a,
        }
    }
}

// The value of leaving a row out, where it may be; 0 where it may not. A value is a byte with 0 for none, as a cell of
// the working space keeps it.
fn out_value(may: bool, v: u8) -> u8
    ensures { result ≡ when may v }
{
    if may { v } else { 0 }
}

// The value of hearing a row, where it may be. The sum wraps, so that nothing has to be known of cells that are not
// made.
#[tactic(auto, unfolding(crate::specs::Line::gain))]
fn heard_value(may: bool, v: u8) -> u8
    ensures { result ≡ when may (gain_byte v) }
{
    if may {
        if v == 0 { 0 } else { v.wrapping_add(1) }
    } else {
        0
    }
}

// The turn of row j: its permission, its next row, and the first row after it that may not be left out.
#[derive(Clone, Copy)]
struct Turn {
    perm: u8,
    j: usize,
    next: usize,
    must: usize,
    ghost few: { j < max_rows },
    ghost next_within: { (j < next) × (next ≤ max_rows) },
    ghost must_within: { must ≤ max_rows },
}

impl Turn {
    // The last row from which on the other receiver may be free where the row is heard on this one; 0 where it may not
    // be.
    #[tactic(auto, using(std::proofs::lemmas::Bool::Decides::nat_tests), unfolding(crate::specs::Turns::last_heard))]
    fn last_heard(&self, receiver: Receiver) -> u8
        ensures { result ≡ last_heard receiver self.now.perm self.now.next self.now.must }
    {
        if may_have(self.perm, receiver.label()) {
            if self.next <= self.must {
                MAX_ROWS as u8
            } else {
                self.must as u8
            }
        } else {
            0
        }
    }

    // Makes the cell where this receiver is free from row j on and the other one from a row after the next.
    fn fill_cell(&self, receiver: Receiver, last: u8, b: usize, space: &mut [u8])
        requires long { cell_bytes ≤ length space.old }
        requires b_within { b ≤ max_rows }
        ensures { space.new ≡ set space.old (place receiver self.now.j b) (new_value receiver self.now.perm self.now.j self.now.next last space.old b) }
    {
        let out = out_value(may_have(self.perm, 0), space[receiver.place(self.j + 1, b)]);
        let heard = heard_value(b as u8 <= last, space[receiver.place(self.next, b)]);
        space[receiver.place(self.j, b)] = heard.max(out);
    }

    // Makes such cells up to `high`, where they are few: a fixed number of tests, since a loop that makes several cells
    // at once takes longer to set up than so few to make.
    #[tactic(auto, using(crate::proofs::Turns::side_none, crate::proofs::Turns::side_less))]
    fn fill_few(&self, receiver: Receiver, last: u8, high: usize, space: &mut [u8])
        requires long { cell_bytes ≤ length space.old }
        requires high { (high < self.now.j + 5) × (high ≤ max_rows) }
        ensures { SideMade receiver self.now.perm self.now.j self.now.next last (high + 1) space.old space.new }
    {
        for b in self.j + 2..self.j + 5 {
            if high < b {
                return;
            }
            self.fill_cell(receiver, last, b, space);
        }
    }

    // Makes such cells up to `high`. The compiler makes 16 at once for receiver 1. The turn is copied, since its fields
    // would be read anew after each byte that is written: that takes 1.3 times as many instructions of both sides where
    // 16 rows meet.
    #[inline(never)]
    #[tactic(auto, using(crate::proofs::Turns::side_none, crate::proofs::Turns::side_less))]
    fn fill_many(&self, receiver: Receiver, last: u8, high: usize, space: &mut [u8])
        requires long { cell_bytes ≤ length space.old }
        requires high { high ≤ max_rows }
        ensures { SideMade receiver self.now.perm self.now.j self.now.next last (high + 1) space.old space.new }
    {
        let turn = *self;
        for b in turn.j + 2..high + 1 {
            turn.fill_cell(receiver, last, b, space);
        }
    }

    // Makes the cells where this receiver is free from row j on, and the other one from a row after the next up to
    // `high`.
    fn fill_side(&self, receiver: Receiver, high: usize, space: &mut [u8])
        requires long { cell_bytes ≤ length space.old }
        requires high { high ≤ max_rows }
        ensures { SideMade receiver self.now.perm self.now.j self.now.next (last_heard receiver self.now.perm self.now.next self.now.must) (high + 1) space.old space.new }
    {
        let last = self.last_heard(receiver);
        if high < self.j + 5 {
            self.fill_few(receiver, last, high, space);
        } else {
            self.fill_many(receiver, last, high, space);
        }
    }

    // Makes them for both receivers. Not inlined, since most turns have none where one or two rows meet: those turns
    // need no `Turn` in memory then.
    #[inline(never)]
    fn fill_sides(&self, high_1: usize, high_2: usize, space: &mut [u8])
        requires long { cell_bytes ≤ length space.old }
        requires high { (high_1 ≤ max_rows) × (high_2 ≤ max_rows) }
        ensures { SidesMade self.now.perm self.now.j self.now.next self.now.must high_1 high_2 space.old space.new }
    {
        self.fill_side(Receiver::One, high_2, space);
        self.fill_side(Receiver::Two, high_1, space);
    }
}

// Makes the cells where each receiver is free from row j or the row after it on, and one of them from row j on: the
// three are made from the same cells. Two of them may be cells that nothing reads, which costs less than to ask.
fn fill_first(perm: u8, j: usize, next: usize, space: &mut [u8])
    requires long { cell_bytes ≤ length space.old }
    requires within { (j < max_rows) × (next ≤ max_rows) }
    ensures { FirstMade perm j next space.old space.new }
{
    let i = j + 1;
    let out = out_value(may_have(perm, 0), space[i * ACROSS + i]);
    let one = heard_value(may_have(perm, 1), space[next * ACROSS + i]);
    let two = heard_value(may_have(perm, 2), space[i * ACROSS + next]);
    let out_one = one.max(out);
    space[j * ACROSS + j] = two.max(out_one);
    space[j * ACROSS + i] = out_one;
    space[i * ACROSS + j] = two.max(out);
}

// Makes the cells of row j's turn, where `must` is the first row after it that may not be left out.
fn fill_turn(perm: u8, j: usize, must: usize, space: &mut [u8])
    requires ready { Ready space.old j }
    requires must_within { (j < must) × (must ≤ max_rows) }
    ensures { TurnMade perm j must space.old space.new }
{
    let next = usize::from(space[NEXT_FROM + j]);
    let high_1 = usize::from(space[HIGH_1_FROM + j]);
    let high_2 = usize::from(space[HIGH_2_FROM + j]);
    fill_first(perm, j, next, space);
    if j + 1 < high_1.max(high_2) {
        let turn = Turn {
            perm,
            j,
            next,
            must,
        };
        turn.fill_sides(high_1, high_2, space);
    }
}

// The last row from which on a receiver can be free after a row that may have it, or may not, and whose next row is
// `next`.
fn high_after(may: bool, high: u8, next: u8) -> u8
    ensures rising { high ≤ result }
    ensures bound { result ≤ max high next }
    ensures next { may ≡ true → next ≤ result }
{
    if may { high.max(next) } else { high }
}

// Writes for each row of the line and each receiver the last row from which on the receiver can be free in the row's
// turn.
fn set_highs(perms: &[u8], space: &mut [u8])
    requires { Numbered perms.now space.old }
    ensures highs { (x : Receiver) → Highs perms.now space.new (label x) }
    ensures rest { drop line_bytes space.new ≡ drop line_bytes space.old }
{
    let mut high_1: u8 = 0;
    let mut high_2: u8 = 0;
    for (j, perm) in perms.iter().enumerate() {
        let next = space[NEXT_FROM + j];
        space[HIGH_1_FROM + j] = high_1.max(j as u8);
        space[HIGH_2_FROM + j] = high_2.max(j as u8);
        high_1 = high_after(may_have(*perm, 1), high_1, next);
        high_2 = high_after(may_have(*perm, 2), high_2, next);
    }
}

// 0 where the rows of a line cannot all be settled, else one more than the most that can be heard. The rows are known
// by number: their next rows stand in the working space.
pub fn line_best(perms: &[u8], space: &mut [u8]) -> u8
    requires { Numbered perms.now space.old }
    ensures value { result ≡ best_from (nexts_of space.new (length perms.now)) perms.now 0 0 0 }
    ensures filled { Filled perms.now space.new }
    ensures space_unchanged { drop line_bytes space.new ≡ drop line_bytes space.old }
{
    set_highs(perms, space);
    let mut must = perms.len();
    space[must * ACROSS + must] = 1;
    for j in (0..perms.len()).rev() {
        fill_turn(perms[j], j, must, space);
        if !may_have(perms[j], 0) {
            must = j;
        }
    }
    space[0]
}

// The first row after row j that starts when row j, which ends at `end`, is over; how many rows there are where none
// does. They come in order of their starts.
fn next_row(starts: &[u16], end: u16, j: usize) -> u8
    requires within { j < length starts.now }
    requires few { length starts.now ≤ max_rows }
    requires order { (i k : ℕ) → i < k → k < length starts.now → at starts.now i ≤ at starts.now k }
    ensures later { j < result }
    ensures bound { result ≤ length starts.now }
    ensures over { (k : ℕ) → j < k → k < length starts.now → (end ≤ at starts.now k) ↔ (result ≤ k) }
{
    let mut next = j + 1;
    while next < starts.len() && starts[next] < end {
        next += 1;
    }
    next as u8
}

// Writes for each row of a line its next row, the first that starts when it is over.
pub fn set_nexts(starts: &[u16], ends: &[u16], space: &mut [u8])
    requires line { LineRows starts.now ends.now }
    requires long { core_bytes ≤ length space.old }
    ensures next_rows { NextRows starts.now ends.now space.new }
    ensures space_unchanged { drop core_bytes space.new ≡ drop core_bytes space.old }
{
    for (j, end) in ends.iter().enumerate() {
        space[NEXT_FROM + j] = next_row(starts, *end, j);
    }
}
