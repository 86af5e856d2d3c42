// The brute force: the best plan of a table of at most 7 rows on at most 64 ticks, by walking ticks and trying every
// label list. It is what the planner is compared with, so it is written from the rules alone (docs/RULES.md, What the
// planner promises) and uses no other crate of the product.
#![tactic(auto)]

pub mod clashes;
pub mod days;
pub mod plans;
pub mod random;
pub mod windows;

use plans::Found;
use windows::{Day, Row};

// The best plan of the first `count` of these rows.
pub fn best_plan(day: Day, count: usize, rows: &[Row; 8], hours: [[u16; 2]; 2]) -> Found {
    let overlaps = clashes::overlaps(&day.sets_of(rows));
    let clashes = clashes::with_gap(&overlaps, day, rows);
    let permissions = windows::permissions(day.kind, rows, hours);
    plans::search(count, &plans::rules_of(&clashes, &permissions))
}
