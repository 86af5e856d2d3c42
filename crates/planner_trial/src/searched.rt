// What the brute force finds of a table that was drawn.
use crate::drawn::Table;
use brute_force::plans::{Found, Rules};
use brute_force::windows::Day;
use brute_force::{clashes, plans, windows};

impl Table {
    // The same table with another gap.
    pub fn with_gap(self, gap: u16) -> Table {
        Table {
            day: Day { gap, ..self.day },
            ..self
        }
    }

    pub fn found(self) -> Found {
        brute_force::best_plan(self.day, self.count, &self.rows, self.hours)
    }

    // The ticks that its windows cover.
    pub fn sets(self) -> [u64; 8] {
        self.day.sets_of(&self.rows)
    }

    // What the rules say of each row where windows cover these sets of ticks and the gap is counted as on a day.
    // Neither need be the table's.
    fn rules(self, sets: &[u64; 8], day: Day) -> [Rules; 8] {
        let clashes = clashes::with_gap(&clashes::overlaps(sets), day, &self.rows);
        let permissions = windows::permissions(self.day.kind, &self.rows, self.hours);
        plans::rules_of(&clashes, &permissions)
    }

    // What the brute force finds by such rules.
    pub fn found_by(self, sets: &[u64; 8], day: Day) -> Found {
        plans::search(self.count, &self.rules(sets, day))
    }

    // Whether labels are a plan.
    pub fn is_plan(self, labels: &[u8]) -> bool {
        plans::judge(labels, &self.rules(&self.sets(), self.day)).is_some()
    }
}
