// Pairs of crossing rows: how many rows of a circle two receivers can hear.
#![tactic(auto)]

mod found;

ghost use Rattle.std.specs.Prelude.{◌≡◌, ℕ, cond, ◌+◌, ◌≤◌, ◌<◌, eqb, length, drop};
ghost use Rattle.basics.specs.Limits.{max_rows};
ghost use Rattle.line.specs.Cells.{line_bytes, found_from, core_bytes, worth_at};
ghost use Rattle.pairs.specs.Pairs.{gathered, Cleared, beside, LeftAll, Leaving, twice, one, with_pair};
ghost use Rattle.pairs.specs.Ready.{Most, Rows, Ready};
ghost use Rattle.pairs.specs.Bounds.{hearable, max_worth, WithRow, Worth, bound_of, PairValue};

use labels::permission::{may_have, restricted, restricted_to};
use line::space::WORTH_FROM;

// Rows in order, the first m of which cross the cut: where each begins and ends, and the row of the table at each
// place.
#[derive(Clone, Copy)]
pub struct OrderedRows<'a> {
    pub positions: &'a [u16],
    pub ends: &'a [u16],
    pub order: &'a [u8],
    pub m: usize,
    ghost each_end: { length ends.now ≡ length positions.now },
    ghost within: { m ≤ length positions.now },
}

// The crossing row that each receiver hears, m where it hears none: the search counts down from m, and tries none
// first.
#[derive(Clone, Copy)]
struct Pair {
    w1: usize,
    w2: usize,
}

// 1 for a crossing row, 0 for none.
fn one_heard(m: usize, w: usize) -> u8
    ensures { result ≡ one m w }
{
    u8::from(w < m)
}

impl Pair {
    // The label that the pair gives a crossing row.
    fn given_label(self, k: usize) -> u8
        ensures value { result ≡ cond (eqb k self.w1) 1 (cond (eqb k self.w2) 2 0) }
        ensures label { result ≤ 2 }
    {
        if k == self.w1 {
            1
        } else if k == self.w2 {
            2
        } else {
            0
        }
    }

    // Whether the pair has one crossing row twice.
    fn is_twice(self, m: usize) -> bool
        ensures { result ≡ twice m self.w1 self.w2 }
    {
        self.w1 < m && self.w1 == self.w2
    }

    // The value of the pair from the value v of the line: 0 stays 0, and the pair's own rows are heard besides.
    #[tactic(auto, unfolding(crate::specs::Pairs::with_pair))]
    fn value(self, m: usize, v: u8) -> u8
        requires { v ≤ max_rows + 1 }
        ensures { result ≡ with_pair m self.w1 self.w2 v }
    {
        if v == 0 {
            return 0;
        }
        v + one_heard(m, self.w1) + one_heard(m, self.w2)
    }

    // What no labels of the pair pass, from what each receiver could hear alone with its crossing row; 0 where there
    // are none.
    fn bound(self, m: usize, one: u8, two: u8) -> u8
        requires { (one ≤ max_worth) × (two ≤ max_worth) }
        ensures { result ≡ bound_of m self.w1 self.w2 one two }
    {
        if one == 0 || two == 0 || self.is_twice(m) {
            0
        } else {
            one + two - 1
        }
    }
}

// What one receiver could hear of the first rows: one more than how many rows, and the end of the last of them, as
// early as it can be.
#[derive(Clone, Copy)]
struct Schedule {
    count: u8,
    end: u16,
}

impl Schedule {
    // With one row more: if it overlaps the last one, then in place of it where it ends first.
    fn with_row(self, start: u16, end: u16) -> Schedule
        requires { self.count < 255 }
        ensures { WithRow self.count self.end start end result.count result.end }
    {
        if self.end <= start {
            Schedule {
                count: self.count + 1,
                end,
            }
        } else {
            Schedule {
                count: self.count,
                end: self.end.min(end),
            }
        }
    }
}

impl<'a> OrderedRows<'a> {
    // Whether row k lies between the end and the position of the crossing row w; w = m is no row.
    fn is_beside(self, w: usize, k: usize) -> bool
        requires { k < length self.positions.now }
        ensures { result ≡ beside self.entry.positions.now self.entry.ends.now self.entry.m w k }
    {
        self.m <= w || (self.ends[w] <= self.positions[k] && self.ends[k] <= self.positions[w])
    }

    // What the pair leaves of the crossing rows' permissions; false at once where it leaves one no label.
    fn leave_crossing(self, perms: &[u8], pair: Pair, left: &mut [u8]) -> bool
        requires rows { Rows self.positions.now self.ends.now self.order.now perms.now self.m }
        requires each_left { length left.old ≡ length self.positions.now }
        ensures { Leaving self.entry.positions.now self.entry.ends.now (gathered self.entry.order.now perms.now) self.entry.m pair.w1 pair.w2 self.entry.m left.new result }
    {
        for k in 0..self.m {
            let kept = restricted_to(perms[usize::from(self.order[k])], pair.given_label(k));
            if kept == 0 {
                return false;
            }
            left[k] = kept;
        }
        true
    }

    // The same of the other rows' permissions, after that of the crossing rows'.
    fn leave_line(self, perms: &[u8], pair: Pair, left: &mut [u8]) -> bool
        requires rows { Rows self.positions.now self.ends.now self.order.now perms.now self.m }
        requires each_left { length left.old ≡ length self.positions.now }
        requires crossing { LeftAll self.positions.now self.ends.now (gathered self.order.now perms.now) self.m pair.w1 pair.w2 self.m left.old }
        ensures { Leaving self.entry.positions.now self.entry.ends.now (gathered self.entry.order.now perms.now) self.entry.m pair.w1 pair.w2 (length self.entry.positions.now) left.new result }
    {
        for k in self.m..self.positions.len() {
            let one = self.is_beside(pair.w1, k);
            let two = self.is_beside(pair.w2, k);
            let kept = restricted(perms[usize::from(self.order[k])], true, one, two);
            if kept == 0 {
                return false;
            }
            left[k] = kept;
        }
        true
    }

    // What the pair leaves of each permission; false at once where it leaves a row no label. Crossing rows come first:
    // most pairs that cannot be fail there.
    fn leave(self, perms: &[u8], pair: Pair, left: &mut [u8]) -> bool
        requires rows { Rows self.positions.now self.ends.now self.order.now perms.now self.m }
        requires each_left { length left.old ≡ length self.positions.now }
        ensures { Leaving self.entry.positions.now self.entry.ends.now (gathered self.entry.order.now perms.now) self.entry.m pair.w1 pair.w2 (length self.entry.positions.now) left.new result }
    {
        if !self.leave_crossing(perms, pair, left) {
            return false;
        }
        self.leave_line(perms, pair, left)
    }

    // The most that labels of the pair hear, and one more; 0 where there are none: a cell of the line's working space
    // has one byte for either.
    fn pair_best(self, perms: &[u8], pair: Pair, left: &mut [u8], space: &mut [u8]) -> u8
        requires { Ready self.positions.now self.ends.now self.order.now perms.now self.m left.old space.old }
        ensures value { PairValue self.entry.positions.now self.entry.ends.now (gathered self.entry.order.now perms.now) self.entry.m pair.w1 pair.w2 left.new space.new result }
        ensures space_unchanged { drop line_bytes space.new ≡ drop line_bytes space.old }
    {
        if pair.is_twice(self.m) {
            return 0;
        }
        if !self.leave(perms, pair, left) {
            return 0;
        }
        let rest = line::line_best(&left[self.m..], space);
        pair.value(self.m, rest)
    }

    // Whether row k of those that do not cross may be heard by the receiver with w.
    fn may_hear(self, perms: &[u8], label: u8, w: usize, k: usize) -> bool
        requires rows { Rows self.positions.now self.ends.now self.order.now perms.now self.m }
        requires k_in_bounds { k < length self.positions.now }
        ensures { result ≡ hearable self.entry.positions.now self.entry.ends.now (gathered self.entry.order.now perms.now) self.entry.m label w k }
    {
        may_have(perms[usize::from(self.order[k])], label) && self.is_beside(w, k)
    }

    // One more than what the receiver could hear alone with the crossing row w, or with none, whatever the other one
    // does; 0 where w may not have it. The rows come in order of their starts, so of those that cannot all be heard the
    // one that ends first is kept.
    fn worth(self, perms: &[u8], label: u8, w: usize) -> u8
        requires rows { Rows self.positions.now self.ends.now self.order.now perms.now self.m }
        requires w_within { w ≤ self.m }
        ensures worth { Worth self.entry.positions.now self.entry.ends.now (gathered self.entry.order.now perms.now) self.entry.m label w result }
        ensures small { result ≤ max_worth }
    {
        if w < self.m && !may_have(perms[usize::from(self.order[w])], label) {
            return 0;
        }
        let mut schedule = Schedule {
            count: 1 + one_heard(self.m, w),
            end: 0,
        };
        for k in self.m..self.positions.len() {
            if self.may_hear(perms, label, w, k) {
                schedule = schedule.with_row(self.positions[k], self.ends[k]);
            }
        }
        schedule.count
    }

    // Writes what receiver 2 could hear with each crossing row, and with none.
    fn set_worths(self, perms: &[u8], space: &mut [u8])
        requires rows { Rows self.positions.now self.ends.now self.order.now perms.now self.m }
        requires long { core_bytes ≤ length space.old }
        ensures worths { (w : ℕ) → w ≤ self.entry.m → Worth self.entry.positions.now self.entry.ends.now (gathered self.entry.order.now perms.now) self.entry.m 2 w (worth_at space.new w) }
        ensures small { (w : ℕ) → w ≤ self.entry.m → worth_at space.new w ≤ max_worth }
        ensures space_unchanged { drop found_from space.new ≡ drop found_from space.old }
    {
        for w in 0..self.m + 1 {
            space[WORTH_FROM + w] = self.worth(perms, 2, w);
        }
    }

    // The most that labels hear which obey every permission and leave no two meeting arcs on one receiver, and one
    // more; 0 where there are none. A pair whose bound is not over the best so far is passed over.
    pub fn best(self, perms: &[u8], left: &mut [u8], space: &mut [u8]) -> u8
        requires { Ready self.positions.now self.ends.now self.order.now perms.now self.m left.old space.old }
        ensures most { Most (Cleared self.entry.positions.now self.entry.ends.now (gathered self.entry.order.now perms.now)) result }
        ensures space_unchanged { drop found_from space.new ≡ drop found_from space.old }
    {
        self.set_worths(perms, space);
        let mut best: u8 = 0;
        for w1 in (0..self.m + 1).rev() {
            let one = self.worth(perms, 1, w1);
            for w2 in (0..self.m + 1).rev() {
                let pair = Pair { w1, w2 };
                if best < pair.bound(self.m, one, space[WORTH_FROM + w2]) {
                    best = best.max(self.pair_best(perms, pair, left, space));
                }
            }
        }
        best
    }
}
