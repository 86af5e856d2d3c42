// Which labels rows have in some assignment that hears as many as can be heard.
#![tactic(auto)]

ghost use Rattle.std.specs.Prelude.{◌≡◌, List, ℕ, suc, ◌≤◌, ◌<◌, length, drop};
ghost use Rattle.basics.specs.Limits.{max_rows};
ghost use Rattle.basics.specs.Lists.{at};
ghost use Rattle.labels.specs.Labels.{heard};
ghost use Rattle.line.specs.Cells.{line_bytes, next_from, core_bytes, worth_at};
ghost use Rattle.line.specs.Filled.{Filled};
ghost use Rattle.pairs.specs.Pairs.{gathered, Cleared};
ghost use Rattle.pairs.specs.Bounds.{max_worth, Worth};
ghost use Rattle.pairs.specs.Ready.{Ready};
ghost use Rattle.pairs.specs.Found.{Found};
ghost use Rattle.pairs.specs.Finding.{Reaching, Begun, Added, PairAdded};

use crate::{OrderedRows, Pair};
use basics::MAX_ROWS;
use labels::permission::joined;
use line::space::{FOUND_FROM, WORTH_FROM};

impl OrderedRows<'_> {
    // Whether an assignment reaches the cap, which none passes. If one does, the labels found are those that the rows
    // have in such assignments; else they are as they were.
    pub fn find_labels(self, perms: &[u8], cap: u8, left: &mut [u8], space: &mut [u8]) -> bool
        requires ready { Ready self.positions.now self.ends.now self.order.now perms.now self.m left.old space.old }
        requires cap_most { (l : List ℕ) → Cleared self.positions.now self.ends.now (gathered self.order.now perms.now) l → suc (heard l) ≤ cap }
        requires cap_some { 1 ≤ cap }
        ensures found { Found self.entry.order.now perms.now (length self.entry.positions.now) cap (Cleared self.entry.positions.now self.entry.ends.now (gathered self.entry.order.now perms.now)) space.old space.new result }
        ensures space_unchanged { drop next_from space.new ≡ drop next_from space.old }
    {
        self.set_worths(perms, space);
        let mut reached = false;
        for w1 in (0..self.m + 1).rev() {
            let one = self.worth(perms, 1, w1);
            for w2 in (0..self.m + 1).rev() {
                if !self.reaches(perms, Pair { w1, w2 }, one, cap, left, space) {
                    continue;
                }
                clear_found(reached, space);
                self.add_found(left, space);
                reached = true;
            }
        }
        reached
    }

    // Whether labels of the pair reach the cap, from what receiver 1 could hear with its crossing row. A pair whose
    // bound does not reach the cap is passed over.
    fn reaches(
        self,
        perms: &[u8],
        pair: Pair,
        one: u8,
        cap: u8,
        left: &mut [u8],
        space: &mut [u8],
    ) -> bool
        requires ready { Ready self.positions.now self.ends.now self.order.now perms.now self.m left.old space.old }
        requires cap_most { (l : List ℕ) → Cleared self.positions.now self.ends.now (gathered self.order.now perms.now) l → suc (heard l) ≤ cap }
        requires cap_some { 1 ≤ cap }
        requires within { (pair.w1 ≤ self.m) × (pair.w2 ≤ self.m) }
        requires worth_1 { Worth self.positions.now self.ends.now (gathered self.order.now perms.now) self.m 1 pair.w1 one }
        requires worth_2 { Worth self.positions.now self.ends.now (gathered self.order.now perms.now) self.m 2 pair.w2 (worth_at space.old pair.w2) }
        requires small { (one ≤ max_worth) × (worth_at space.old pair.w2 ≤ max_worth) }
        ensures reaching { Reaching self.entry.positions.now self.entry.ends.now (gathered self.entry.order.now perms.now) self.entry.m pair.w1 pair.w2 cap left.new space.new result }
        ensures space_unchanged { drop line_bytes space.new ≡ drop line_bytes space.old }
    {
        if pair.bound(self.m, one, space[WORTH_FROM + pair.w2]) < cap {
            return false;
        }
        cap <= self.pair_best(perms, pair, left, space)
    }

    // Adds the labels that the pair leaves its crossing rows, and those that the rows of its line have in labels that
    // hear the most.
    fn add_found(self, left: &[u8], space: &mut [u8])
        requires each_left { length left.now ≡ length self.positions.now }
        requires each_order { length self.order.now ≡ length self.positions.now }
        requires row { (k : ℕ) → k < length self.positions.now → at self.order.now k < max_rows }
        requires filled { Filled (drop self.m left.now) space.old }
        ensures { PairAdded self.entry.order.now left.now self.entry.m space.old space.new }
    {
        self.add_crossing(left, space);
        line_labels::find_line_labels(&left[self.m..], &self.order[self.m..], space);
    }

    // Adds the labels that `left` permits the crossing rows.
    #[tactic(auto, using(crate::proofs::Adding::added_begun))]
    fn add_crossing(self, left: &[u8], space: &mut [u8])
        requires each_left { length left.now ≡ length self.positions.now }
        requires each_order { length self.order.now ≡ length self.positions.now }
        requires row { (k : ℕ) → k < length self.positions.now → at self.order.now k < max_rows }
        requires long { core_bytes ≤ length space.old }
        ensures { Added self.entry.order.now left.now self.entry.m space.old space.new }
    {
        for k in 0..self.m {
            let place = FOUND_FROM + usize::from(self.order[k]);
            space[place] = joined(space[place], left[k]);
        }
    }
}

// No label is found yet, if no pair has reached the cap; else those that are found stay.
#[tactic(auto, using(crate::proofs::Adding::none_begun))]
fn clear_found(reached: bool, space: &mut [u8])
    requires { core_bytes ≤ length space.old }
    ensures { Begun reached space.old space.new }
{
    if reached {
        return;
    }
    for r in 0..MAX_ROWS {
        space[FOUND_FROM + r] = 0;
    }
}
