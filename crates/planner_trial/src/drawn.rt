// Small tables drawn from a pseudo-random sequence: short days, so that much overlaps, touches and is equal.
use brute_force::days::{Days, kind_by};
use brute_force::random::{below_any, eight_after, from};
use brute_force::windows::{Day, Row};
use brute_force::{plans, random};

// A table of the brute force's types. Only the first `count` rows count; the array has a place for each that there may
// be, since nothing is allocated.
#[derive(Clone, Copy)]
pub struct Table {
    pub day: Day,
    pub hours: [[u16; 2]; 2],
    pub count: usize,
    pub rows: [Row; 8],
    // labels that are offered to the plan tape writer
    pub labels: [u8; 8],
    // the sequence's state after the table
    pub state: u64,
}

// Half of the rows have mark 0, the others a mark from 1 to 5.
fn mark(state: u64) -> u8 {
    match below_any(state, 10) {
        n @ 5..=9 => (n - 4) as u8,
        _ => 0,
    }
}

// Eight rows, and the state after them. The sequence gives the starts first, then the lengths, then the marks.
fn draw_rows(days: Days, state: u64) -> ([Row; 8], u64) {
    let a = eight_after(state);
    let b = eight_after(a[7]);
    let c = eight_after(b[7]);
    let rows = std::array::from_fn(|i| Row {
        window: days.window(below_any(a[i], days.ticks), days.length(b[i])),
        mark: mark(c[i]),
    });
    (rows, c[7])
}

// A receiver opens in the first part of the day and closes up to as much before the day's end, or at once for one
// receiver in 16.
fn hours_of(ticks: u16, a: u64, b: u64) -> [u16; 2] {
    let part = ticks / 3 + 1;
    let opening = below_any(a, part);
    if below_any(random::next(b), 16) == 0 {
        return [opening, opening];
    }
    [opening, ticks.wrapping_sub(below_any(b, part))]
}

fn draw_hours(ticks: u16, state: u64) -> [[u16; 2]; 2] {
    let [a, b, c, d, ..] = eight_after(state);
    [hours_of(ticks, a, c), hours_of(ticks, b, d)]
}

// The gap: 0 for one table in four, R or more for one in eight, and for the others from 1 to a third of R and 1. Which
// of these it is lies in the lower half of the state.
fn gap(ticks: u16, state: u64) -> u16 {
    match state % 8 {
        0..=1 => 0,
        2 => from(state, ticks, 8),
        _ => from(state, 1, ticks / 3 + 1),
    }
}

// A table of at most 7 rows on 2 to 24 ticks, a run one time in three, the longest of its windows drawn first, so that
// windows of all lengths come up.
pub fn draw(state: u64) -> Table {
    let [a, b, c, d, ..] = eight_after(state);
    let kind = kind_by(below_any(a, 3));
    let ticks = from(b, 2, 23);
    let days = Days {
        kind,
        ticks,
        longest: from(d, 1, ticks.wrapping_sub(1)),
    };
    let (rows, e) = draw_rows(days, d);
    let [f, g, after, ..] = eight_after(e);
    let count = usize::from(below_any(c, 8));
    Table {
        day: Day {
            kind,
            ticks,
            gap: gap(ticks, f),
        },
        hours: draw_hours(ticks, g),
        count,
        rows,
        labels: plans::labels(count, below_any(g, 2187)),
        state: after,
    }
}
