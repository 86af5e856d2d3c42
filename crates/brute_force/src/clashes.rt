// Which rows one receiver cannot hear both (docs/RULES.md, Gap): their windows overlap or have fewer than g ticks
// between them. A set of rows is a number whose bit i says that row i, below 8, is in it.
use crate::windows::{Day, Kind, Row, Window, after};

// The set of one row. A set of rows takes 8 bits and a set of ticks 64 (`windows`), and a shift has no trait that one
// function of both could ask for.
pub fn one(row: usize) -> u8 {
    1 << (row % 8)
}

// The set of the rows whose entry in a list meets a test.
fn rows_where<T, F: Fn(&T) -> bool>(list: &[T; 8], test: F) -> u8
    requires { F.IsAlwaysCallable test }
{
    let mut rows = 0;
    for (i, entry) in list.iter().enumerate() {
        if test(entry) {
            rows |= one(i);
        }
    }
    rows
}

// For each row the rows that overlap it: some tick lies in both.
pub fn overlaps(sets: &[u64; 8]) -> [u8; 8] {
    sets.map(|set| rows_where(sets, |other| other & set != 0))
}

// The tick after `tick` on a walk, which in a run ends at R: no window starts there.
fn step(day: Day, tick: u16) -> u16 {
    match day.kind {
        Kind::Round => after(day.ticks, tick),
        Kind::Run => day.ticks.min(tick.wrapping_add(1)),
    }
}

// How many ticks lie between the end of a window and the start of another: the steps of the walk from that end on to
// that start, in a round over the end of the day too. In a run the walk may not come there.
fn between(day: Day, end: u16, start: u16) -> Option<u16> {
    let mut tick = end;
    for steps in 0..day.ticks {
        if tick == start {
            return Some(steps);
        }
        tick = step(day, tick);
    }
    None
}

// Whether fewer than g ticks lie between two windows, on one side or the other.
fn is_near(day: Day, w: Window, w2: Window) -> bool {
    between(day, w.end, w2.start).is_some_and(|n| n < day.gap)
        || between(day, w2.end, w.start).is_some_and(|n| n < day.gap)
}

// The rows with fewer than g ticks between them and a window.
fn near(day: Day, rows: &[Row; 8], w: Window) -> u8 {
    rows_where(rows, |row| is_near(day, w, row.window))
}

// For each row the rows that overlap it, which are given, and those with fewer than g ticks between. Each row is placed
// once, so that its own bit is not asked for: a window is not too close to itself.
pub fn with_gap(overlaps: &[u8; 8], day: Day, rows: &[Row; 8]) -> [u8; 8] {
    std::array::from_fn(|i| overlaps[i] | near(day, rows, rows[i].window))
}
