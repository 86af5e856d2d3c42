// Every label list of a table of at most 7 rows is tried, in the order of plans, and the first plan that hears most is
// kept.
ghost use Rattle.std.specs.Prelude.{◌≡◌, false, ◌↔◌};

use crate::clashes::one;
use std::cmp::Ordering;

// How many rows are heard, and the labels, which are 0 after the last row.
#[derive(Clone, Copy, PartialEq, Eq)]
pub struct Plan {
    pub heard: u8,
    pub labels: [u8; 8],
}

// What the search found: the first of the plans that hear most, if there is a plan; how many plans there are, and how
// many of them hear most.
#[derive(Clone, Copy, Default)]
pub struct Found {
    pub plan: Option<Plan>,
    pub plans: u32,
    pub best: u32,
}

impl Found {
    // The plan's labels; all 0 where there is none.
    pub fn labels(&self) -> [u8; 8] {
        self.plan.map_or([0; 8], |plan| plan.labels)
    }

    // One plan more, the list of a number, which hears so many rows. It takes the place of the first best only if it
    // hears more.
    fn with_plan(self, rows: usize, number: u16, heard: u8) -> Found {
        let plans = self.plans.wrapping_add(1);
        match self.plan.map(|best| best.heard).cmp(&Some(heard)) {
            Ordering::Less => Found {
                plan: Some(Plan {
                    heard,
                    labels: labels(rows, number),
                }),
                plans,
                best: 1,
            },
            Ordering::Equal => Found {
                plans,
                best: self.best.wrapping_add(1),
                ..self
            },
            Ordering::Greater => Found { plans, ..self },
        }
    }
}

// Rows that have been given labels by the rules: how many are heard, and the set of rows of each receiver.
#[derive(Clone, Copy, Default)]
struct Receivers {
    heard: u8,
    rows1: u8,
    rows2: u8,
}

// What the rules say of a row: which rows clash with it, and which labels it may have, both as sets.
#[derive(Clone, Copy)]
pub struct Rules {
    clashes: u8,
    permission: u8,
}

pub fn rules_of(clashes: &[u8; 8], permissions: &[u8; 8]) -> [Rules; 8] {
    std::array::from_fn(|i| Rules {
        clashes: clashes[i],
        permission: permissions[i],
    })
}

impl Rules {
    // The row may be heard by a receiver if its permission has the receiver's bit and it clashes with none of the
    // receiver's rows.
    fn allow(self, receiver: u8, rows: u8) -> bool {
        self.permission & receiver != 0 && rows & self.clashes == 0
    }
}

impl Receivers {
    // One row more, as the set `row`, with a label; None if it is against the rules.
    fn with_row(self, row: u8, rules: Rules, label: u8) -> Option<Receivers> {
        match label {
            1 if rules.allow(2, self.rows1) => Some(Receivers {
                heard: self.heard.wrapping_add(1),
                rows1: self.rows1 | row,
                ..self
            }),
            2 if rules.allow(4, self.rows2) => Some(Receivers {
                heard: self.heard.wrapping_add(1),
                rows2: self.rows2 | row,
                ..self
            }),
            0 if rules.permission & 1 != 0 => Some(self),
            _ => None,
        }
    }
}

// How many label lists there are of so many rows: 3 to that power.
pub const LISTS: [u16; 8] = [1, 3, 9, 27, 81, 243, 729, 2187];

// The labels in their order.
const ORDER: [u8; 3] = [1, 2, 0];

// The label list of a number: its digits to base 3 are the places of the labels in the order, the last row's digit the
// lowest. So the numbers rise as the lists come in the order of plans.
pub fn labels(rows: usize, number: u16) -> [u8; 8] {
    let mut list = [0; 8];
    let mut rest = number;
    for row in (0..rows.min(8)).rev() {
        list[row] = ORDER[usize::from(rest % 3)];
        rest /= 3;
    }
    list
}

// How many rows the labels, at most 8, hear, if they are a plan of as many rows.
pub fn judge(labels: &[u8], rules: &[Rules; 8]) -> Option<u8> {
    let mut receivers = Receivers::default();
    for (row, (label, rules)) in labels.iter().zip(rules).enumerate() {
        receivers = receivers.with_row(one(row), *rules, *label)?;
    }
    Some(receivers.heard)
}

// How many rows the list of a number hears, if it is a plan: as `judge` says of its labels, which are not made. It goes
// from the last row on, as the digits come: clashes go both ways, so it makes no difference.
fn judge_list(rows: usize, number: u16, rules: &[Rules; 8]) -> Option<u8> {
    let mut receivers = Receivers::default();
    let mut rest = number;
    for row in (0..rows.min(8)).rev() {
        let label = ORDER[usize::from(rest % 3)];
        receivers = receivers.with_row(one(row), rules[row], label)?;
        rest /= 3;
    }
    Some(receivers.heard)
}

// Tries every label list of the first `rows` rows, at most 7.
pub fn search(rows: usize, rules: &[Rules; 8]) -> Found {
    let count = rows.min(7);
    let mut found = Found::default();
    for number in 0..LISTS[count] {
        if let Some(heard) = judge_list(count, number, rules) {
            found = found.with_plan(count, number, heard);
        }
    }
    found
}

// Two plans, or a plan and none, are not the same.
pub fn other(plan: Option<Plan>, plan2: Option<Plan>) -> bool
    ensures { (result ≡ false) ↔ (plan ≡ plan2) }
{
    plan != plan2
}

// Two searches find different answers.
pub fn changed(found: Found, found2: Found) -> bool
    ensures { (result ≡ false) ↔ (found.plan ≡ found2.plan) }
{
    other(found.plan, found2.plan)
}
