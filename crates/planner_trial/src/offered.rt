// Labels offered to the plan tape writer with no room for a tape: it gives 10 where the brute force says that they are
// a plan, and 9 where it says that they are not.
use crate::drawn::Table;
use brute_force::plans;
use brute_force::plans::Found;
use trial_calls::{first, is_taped};
use trial_report::more;

// How many lists of labels were offered, how many of them are a plan, are one with a gap of 0 alone, are none with any
// gap, and how many answers differ.
#[derive(Clone, Copy, Default)]
pub struct Offered {
    pub lists: u32,
    pub plans: u32,
    pub too_close: u32,
    pub others: u32,
    pub differ: u32,
}

// The labels of an answer; where there is none, the first list of all.
fn labels_of(t: Table, found: Found) -> [u8; 8] {
    found
        .plan
        .map_or(plans::labels(t.count, 0), |plan| plan.labels)
}

impl Offered {
    // One list more.
    fn with_list(self, t: Table, list: [u8; 8]) -> Offered {
        let labels = first(&list, t.count);
        let plan = t.is_plan(labels);
        let without = t.with_gap(0).is_plan(labels);
        let number = if plan { 10 } else { 9 };
        let right = is_taped(t.lent().table(), labels, 0, Err(number));
        Offered {
            lists: more(self.lists, true),
            plans: more(self.plans, plan),
            too_close: more(self.too_close, without != plan),
            others: more(self.others, !without),
            differ: more(self.differ, !right),
        }
    }

    // The labels of the right answer, those that are right with a gap of 0, and a list that was drawn.
    pub fn with_table(self, t: Table, right: Found) -> Offered {
        let without = t.with_gap(0).found();
        let drawn = t.labels;
        let mut offered = self;
        for list in [labels_of(t, right), labels_of(t, without), drawn] {
            offered = offered.with_list(t, list);
        }
        offered
    }
}
