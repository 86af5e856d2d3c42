// The gap (docs/RULES.md, Gap): a receiver needs g ticks between two different windows, in a round on both sides, over
// the end of the day too.
use crate::tables;
use crate::tape_edges::labels;
use std::array::from_fn;
use table::{Setting, Table};
use trial_calls::{is_planned, is_taped, open_all, table_of};
use trial_report::Group;
use window::Kind;

// ---- two windows

// Two rows of a round or of a run of 10 ticks, which is open all the time: as the lists that a call is lent.
#[derive(Clone, Copy)]
struct Pair {
    kind: Kind,
    starts: [u16; 2],
    ends: [u16; 2],
}

impl Pair {
    // Each row from its start to its end.
    fn new(kind: Kind, [start, end]: [u16; 2], [start2, end2]: [u16; 2]) -> Pair {
        Pair {
            kind,
            starts: [start, start2],
            ends: [end, end2],
        }
    }

    fn table<'a>(&'a self, gap: u16, marks: &'a [u8]) -> Table<'a> {
        table_of(
            open_all(self.kind, 10, gap),
            &self.starts,
            &self.ends,
            marks,
        )
    }

    // The planner's answer, where the rows have these marks.
    fn is_heard(&self, gap: u16, marks: &[u8], expected: Result<&[u8], u8>) -> bool {
        is_planned(self.table(gap, marks), expected)
    }

    // The plan tape writer's answer for these labels, with so many bytes for the tape.
    fn is_put(&self, gap: u16, labels: &[u8], bytes: usize, expected: Result<&[u8], u8>) -> bool {
        is_taped(self.table(gap, &[0, 0]), labels, bytes, expected)
    }
}

// With this gap receiver 1 hears both; with no room for the tape the writer gives 10.
fn apart(group: Group, p: Pair, gap: u16) -> Group {
    group.with_cases(&[
        p.is_heard(gap, &[0, 0], Ok(&[1, 1])),
        p.is_put(gap, &[1, 1], 0, Err(10)),
    ])
}

// With this gap each has a receiver of its own, and where receiver 1 must hear both there is no plan; both on receiver
// 1 give 9.
fn close(group: Group, p: Pair, gap: u16) -> Group {
    group.with_cases(&[
        p.is_heard(gap, &[0, 0], Ok(&[1, 2])),
        p.is_heard(gap, &[3, 3], Err(8)),
        p.is_put(gap, &[1, 1], 0, Err(9)),
    ])
}

// They have so many ticks between them: a gap of as many is kept, one more is not.
fn between(group: Group, p: Pair, ticks: u16) -> Group {
    close(apart(group, p, ticks), p, ticks.wrapping_add(1))
}

fn in_rounds(group: Group) -> Group {
    let mut g = group;
    for (window, window2, ticks) in [
        // touching windows; 8–0 and 0–2 touch over the end of the day, 8–2 and 2–8 on both sides
        ([0, 4], [4, 8], 0),
        ([8, 0], [0, 2], 0),
        ([8, 2], [2, 8], 0),
        // the lesser of both sides counts: 0–3 and 5–8 have 2 ticks on each, 0–3 and 6–8 have 3 within the day and 2
        // over its end, 0–3 and 5–7 the other way round, and 4–6 and 8–1, which goes over the end of the day, 2 before
        // it and 3 after it
        ([0, 3], [5, 8], 2),
        ([0, 3], [6, 8], 2),
        ([6, 8], [0, 3], 2),
        ([0, 3], [5, 7], 2),
        ([4, 6], [8, 1], 2),
        ([8, 1], [4, 6], 2),
        // the most that two windows have between them, on each side
        ([0, 1], [5, 6], 4),
    ] {
        g = between(g, Pair::new(Kind::Round, window, window2), ticks);
    }
    // g of R or more
    for gap in [10, 11, 600] {
        g = close(g, Pair::new(Kind::Round, [0, 1], [5, 6]), gap);
    }
    g
}

// In a run nothing is counted over the end: the first window and the last, 0–2 and 8–10, have 6 ticks between them.
fn in_runs(group: Group) -> Group {
    let mut g = group;
    for (window, window2, ticks) in [
        ([0, 4], [4, 8], 0),
        ([0, 3], [6, 9], 3),
        ([6, 9], [0, 3], 3),
        ([0, 2], [8, 10], 6),
        ([8, 10], [0, 2], 6),
        // the most that two windows have between them
        ([0, 1], [9, 10], 8),
    ] {
        g = between(g, Pair::new(Kind::Run, window, window2), ticks);
    }
    // g of R or more
    for gap in [10, 600] {
        g = close(g, Pair::new(Kind::Run, [0, 1], [9, 10]), gap);
    }
    g
}

// Marks 2 to 5: 0–4 and 4–8, which touch, with a gap of 1. Between the receivers nothing is owed: with the longest gap
// both must be heard, and so must 4–5 twice.
fn marks(group: Group) -> Group {
    let p = Pair::new(Kind::Round, [0, 4], [4, 8]);
    let twice = Pair::new(Kind::Round, [4, 5], [4, 5]);
    group.with_cases(&[
        p.is_heard(1, &[2, 2], Ok(&[1, 0])),
        p.is_heard(1, &[4, 4], Ok(&[2, 0])),
        p.is_heard(1, &[2, 3], Ok(&[0, 1])),
        p.is_heard(1, &[4, 5], Ok(&[0, 2])),
        p.is_heard(1, &[5, 5], Err(8)),
        p.is_heard(1, &[0, 3], Ok(&[2, 1])),
        p.is_heard(600, &[3, 5], Ok(&[1, 2])),
        twice.is_heard(600, &[1, 1], Ok(&[1, 2])),
    ])
}

// Labels that break the gap are refused 9; a tape has no gap on it. In a round 0–3 and 6–8 have 2 ticks over the end of
// the day, in a run 0–3 and 6–10 have 3 between them.
fn tapes(group: Group) -> Group {
    let p = Pair::new(Kind::Round, [0, 3], [6, 8]);
    let one = b"\x10\x00\x0a\x20\x01\x30\x00\x00\x00\x00\x03\x30\x01\x00\x06\x00\x08\x20\x02\x7f";
    let two = b"\x10\x00\x0a\x20\x01\x30\x00\x00\x00\x00\x03\x20\x02\x30\x01\x00\x06\x00\x08\x7f";
    let first = b"\x10\x00\x0a\x20\x01\x30\x00\x00\x00\x00\x03\x20\x02\x7f";
    let q = Pair::new(Kind::Run, [0, 3], [6, 10]);
    let both = b"\x11\x00\x0a\x20\x01\x30\x00\x00\x00\x00\x03\x30\x01\x00\x06\x00\x0a\x20\x02\x7f";
    group.with_cases(&[
        p.is_put(2, &[1, 1], 400, Ok(one)),
        p.is_put(3, &[1, 1], 400, Err(9)),
        p.is_put(600, &[1, 2], 400, Ok(two)),
        p.is_put(600, &[1, 0], 400, Ok(first)),
        p.is_put(601, &[1, 0], 400, Err(14)),
        q.is_put(3, &[1, 1], 400, Ok(both)),
        q.is_put(4, &[1, 1], 400, Err(9)),
    ])
}

// ---- one window

// A row that must be heard, in a round or a run of 10 ticks. In the run receiver 1 is open for its window and no
// longer, and receiver 2 is closed.
fn alone(kind: Kind, gap: u16, start: u16, end: u16) -> bool {
    let setting = Setting {
        hours: [[start, end], [0, 0]],
        ..open_all(kind, 10, gap)
    };
    is_planned(table_of(setting, &[start], &[end], &[1]), Ok(&[1]))
}

// A window is not too close to itself, also where R less its length is below g. In a run nothing is owed to tick 0, to
// R or to the hours.
fn one_window(group: Group) -> Group {
    group.with_cases(&[
        alone(Kind::Round, 2, 0, 8),
        alone(Kind::Round, 3, 0, 8),
        alone(Kind::Round, 600, 9, 8),
        alone(Kind::Round, 600, 4, 5),
        alone(Kind::Round, 1, 4, 4),
        alone(Kind::Round, 600, 4, 4),
        alone(Kind::Run, 600, 0, 1),
        alone(Kind::Run, 600, 9, 10),
        alone(Kind::Run, 600, 3, 7),
        alone(Kind::Run, 600, 0, 10),
    ])
}

// ---- more rows

// P2, 10–30, 20–40, 25–50, 90–10. Row 3 touches row 0, and has 10 ticks before row 1 and 15 before row 2.
fn p2(gap: u16, labels: &[u8]) -> bool {
    is_planned(tables::p2(gap, &[0, 0, 0, 0]), Ok(labels))
}

// 4–4, which sends all day, 0–2 and 6–8 in a round of 10 ticks. The last two have 4 ticks between them within the day
// and 2 over its end.
fn all_day(gap: u16, mark: u8, labels: &[u8]) -> bool {
    is_planned(
        table_of(
            Setting::round(10, gap),
            &[4, 0, 6],
            &[4, 2, 8],
            &[mark, 0, 0],
        ),
        Ok(labels),
    )
}

// 0–2, 5–7 and 10 to `end` with this mark, in a round or a run of 12 ticks that is open all the time. There are 3 ticks
// before the second and before the third.
pub fn spaced(kind: Kind, end: u16, gap: u16, mark: u8, expected: Result<&[u8], u8>) -> bool {
    is_planned(
        table_of(
            open_all(kind, 12, gap),
            &[0, 5, 10],
            &[2, 7, end],
            &[mark; 3],
        ),
        expected,
    )
}

fn rows(group: Group) -> Group {
    group.with_cases(&[
        p2(0, &[1, 2, 0, 1]),
        p2(1, &[1, 2, 0, 2]),
        p2(10, &[1, 2, 0, 2]),
        p2(11, &[1, 0, 2, 2]),
        p2(15, &[1, 0, 2, 2]),
        p2(16, &[1, 2, 0, 0]),
        // one receiver is left for the others, and the gap holds on it
        all_day(2, 0, &[1, 2, 2]),
        all_day(3, 0, &[1, 2, 0]),
        all_day(2, 5, &[2, 1, 1]),
        all_day(3, 5, &[2, 1, 0]),
        // g of R and more: one window for each receiver
        spaced(Kind::Round, 11, 12, 0, Ok(&[1, 2, 0])),
        spaced(Kind::Round, 11, 12, 1, Err(8)),
        spaced(Kind::Run, 12, 12, 0, Ok(&[1, 2, 0])),
        spaced(Kind::Run, 12, 600, 1, Err(8)),
    ])
}

// 64 ticks, each 675 after the one before it.
fn ticks_from(first: u16) -> [u16; 64] {
    from_fn(|row| ((row * 675) as u16).wrapping_add(first))
}

// 64 rows of so many ticks each, with the longest gap in the longest day.
fn rows_64(kind: Kind, ticks: u16, labels: &[u8]) -> bool {
    is_planned(
        table_of(
            open_all(kind, 43200, 600),
            &ticks_from(0),
            &ticks_from(ticks),
            &[0; 64],
        ),
        Ok(labels),
    )
}

// With 75 ticks each row has 600 between it and the next, in a round also over the end of the day, so that receiver 1
// hears all. With 76 it has 599, and the receivers take turns.
fn longest(group: Group) -> Group {
    let turns = labels();
    group.with_cases(&[
        rows_64(Kind::Round, 75, &[1; 64]),
        rows_64(Kind::Round, 76, &turns),
        rows_64(Kind::Run, 75, &[1; 64]),
        rows_64(Kind::Run, 76, &turns),
    ])
}

pub fn all() -> Group {
    let mut g = in_rounds(Group::default());
    g = in_runs(g);
    g = marks(g);
    g = tapes(g);
    g = one_window(g);
    g = rows(g);
    longest(g)
}
