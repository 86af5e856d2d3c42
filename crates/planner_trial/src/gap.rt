// In how many tables the gap decides the answer: what the brute force finds is another answer with another gap, or
// where it is counted otherwise.
use crate::drawn::Table;
use brute_force::plans::{Found, changed};
use brute_force::windows::{Day, Kind};
use trial_report::more;

#[derive(Clone, Copy, Default)]
pub struct Gaps {
    // g is R or more
    pub long: u32,
    // another answer with a gap of 0, and a plan with it where there is none
    pub not_0: u32,
    pub no_plan: u32,
    // another answer with one tick more: fewer than g are too close, and not g
    pub not_more: u32,
    // another answer where a round is counted like a run, which has one side only, and a run like a round, over the end
    // of the day
    pub not_other: u32,
}

// What the brute force finds where the gap is counted as in the other kind of day.
fn found_otherwise(t: Table) -> Found {
    let kind = match t.day.kind {
        Kind::Round => Kind::Run,
        Kind::Run => Kind::Round,
    };
    t.found_by(&t.sets(), Day { kind, ..t.day })
}

impl Gaps {
    // One table more.
    pub fn with_table(self, t: Table, right: Found) -> Gaps {
        let without = t.with_gap(0).found();
        let longer = t.with_gap(t.day.gap.wrapping_add(1)).found();
        let only_without = right.plan.is_none() && without.plan.is_some();
        Gaps {
            long: more(self.long, t.day.ticks <= t.day.gap),
            not_0: more(self.not_0, changed(right, without)),
            no_plan: more(self.no_plan, only_without),
            not_more: more(self.not_more, changed(right, longer)),
            not_other: more(self.not_other, changed(right, found_otherwise(t))),
        }
    }
}
