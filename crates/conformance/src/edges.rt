// Both sides of each limit: R, the gap, rows, working space, windows, marks, hours, lists of unequal lengths.
use std::array::from_fn;
use table::Setting;
use trial_calls::{LENT_BYTES, first, is_planned, is_planned_in, open_all, run, table_of};
use trial_report::Group;
use window::Kind;

// ---- R and the gap

// A table of no rows: with any labels none is written.
fn no_rows(setting: Setting, expected: Result<(), u8>) -> bool {
    is_planned(table_of(setting, &[], &[], &[]), expected.map(|_| &[][..]))
}

// In a round, and in a run that is open all the time.
fn in_both(group: Group, ticks: u16, gap: u16, expected: Result<(), u8>) -> Group {
    group.with_cases(&[
        no_rows(Setting::round(ticks, gap), expected),
        no_rows(open_all(Kind::Run, ticks, gap), expected),
    ])
}

// The last tick of the longest day, and the rest of it: touching. With tick 0 in the first, they overlap.
fn longest_round(end: u16, labels: &[u8]) -> bool {
    is_planned(
        table_of(
            Setting::round(43200, 0),
            &[43199, 0],
            &[end, 43199],
            &[0, 0],
        ),
        Ok(labels),
    )
}

// The whole of the longest run, and its last tick.
fn longest_run() -> bool {
    is_planned(
        table_of(
            open_all(Kind::Run, 43200, 0),
            &[0, 43199],
            &[43200, 43200],
            &[0, 0],
        ),
        Ok(&[1, 2]),
    )
}

fn ticks(group: Group) -> Group {
    let mut g = group;
    for (ticks, expected) in [
        (0, Err(4)),
        (1, Err(4)),
        (2, Ok(())),
        (43200, Ok(())),
        (43201, Err(4)),
        (65535, Err(4)),
    ] {
        g = in_both(g, ticks, 0, expected);
    }
    g.with_cases(&[
        longest_round(0, &[1, 1]),
        longest_round(1, &[1, 2]),
        longest_run(),
    ])
}

// 14 for a gap above 600; an R that is refused comes before it.
fn gaps(group: Group) -> Group {
    let mut g = group;
    for (ticks, gap, expected) in [
        (2, 600, Ok(())),
        (43200, 600, Ok(())),
        (43200, 601, Err(14)),
        (100, 601, Err(14)),
        (100, 65535, Err(14)),
        (1, 601, Err(4)),
    ] {
        g = in_both(g, ticks, gap, expected);
    }
    g
}

// ---- windows and marks

// One row, by its start, end and mark.
fn row(setting: Setting, start: u16, end: u16, mark: u8, expected: Result<&[u8], u8>) -> bool {
    is_planned(table_of(setting, &[start], &[end], &[mark]), expected)
}

// In a round of 100 ticks.
pub fn round_row(start: u16, end: u16, mark: u8, expected: Result<&[u8], u8>) -> bool {
    row(Setting::round(100, 0), start, end, mark, expected)
}

// In a run of 100 ticks, open all the time.
pub fn run_row(start: u16, end: u16, mark: u8, expected: Result<&[u8], u8>) -> bool {
    row(open_all(Kind::Run, 100, 0), start, end, mark, expected)
}

// In a round start and end are below R; where they are equal see `all_day`. End 0 means through tick R-1.
fn round_windows(group: Group) -> Group {
    group.with_cases(&[
        round_row(90, 100, 0, Err(6)),
        round_row(90, 0, 0, Ok(&[1])),
        round_row(90, 10, 0, Ok(&[1])),
        round_row(100, 10, 0, Err(6)),
        round_row(99, 98, 1, Ok(&[1])),
        round_row(65535, 3, 0, Err(6)),
        round_row(3, 65535, 0, Err(6)),
    ])
}

// In a run the start is below the end, and the end at most R.
fn run_windows(group: Group) -> Group {
    group.with_cases(&[
        run_row(90, 100, 0, Ok(&[1])),
        run_row(0, 100, 1, Ok(&[1])),
        run_row(90, 101, 0, Err(6)),
        run_row(100, 101, 0, Err(6)),
        run_row(90, 10, 0, Err(6)),
        run_row(90, 0, 0, Err(6)),
        run_row(3, 3, 0, Err(6)),
        run_row(99, 65535, 0, Err(6)),
    ])
}

// Marks 0 to 5 are taken; 7 from mark 6 on.
fn marks(group: Group) -> Group {
    group.with_cases(&[
        round_row(10, 20, 1, Ok(&[1])),
        round_row(10, 20, 5, Ok(&[2])),
        round_row(10, 20, 6, Err(7)),
        round_row(10, 20, 255, Err(7)),
        run_row(10, 20, 5, Ok(&[2])),
        run_row(10, 20, 6, Err(7)),
        run_row(10, 20, 255, Err(7)),
    ])
}

// ---- hours

// Two rows that overlap, 10–20 and 15–25, in a run of 100 ticks with the receivers' hours.
fn in_hours(hours: [[u16; 2]; 2], expected: Result<&[u8], u8>) -> bool {
    is_planned(
        table_of(run(100, 0, hours), &[10, 15], &[20, 25], &[0, 0]),
        expected,
    )
}

// A receiver is open from p to q: p is at most q, and q at most R.
fn wrong_hours(group: Group) -> Group {
    group.with_cases(&[
        in_hours([[51, 50], [0, 100]], Err(5)),
        in_hours([[0, 100], [51, 50]], Err(5)),
        in_hours([[0, 101], [0, 100]], Err(5)),
        in_hours([[0, 100], [0, 101]], Err(5)),
        in_hours([[0, 100], [65535, 65535]], Err(5)),
    ])
}

// A receiver takes a window from p on that ends by q; where p is q it is closed.
fn open_hours(group: Group) -> Group {
    group.with_cases(&[
        in_hours([[10, 20], [15, 25]], Ok(&[1, 2])),
        in_hours([[11, 20], [15, 25]], Ok(&[0, 2])),
        in_hours([[10, 19], [15, 25]], Ok(&[0, 2])),
        in_hours([[10, 20], [15, 24]], Ok(&[1, 0])),
        in_hours([[50, 50], [0, 100]], Ok(&[2, 0])),
        in_hours([[0, 100], [100, 100]], Ok(&[1, 0])),
        in_hours([[15, 15], [0, 0]], Ok(&[0, 0])),
    ])
}

// A must row and both receivers closed: no plan. In a round the hours are neither checked nor used.
fn closed_hours(group: Group) -> Group {
    let unused = Setting {
        hours: [[9, 8], [200, 300]],
        ..Setting::round(100, 0)
    };
    group.with_cases(&[
        row(run(100, 0, [[0, 0], [0, 0]]), 10, 20, 1, Err(8)),
        row(unused, 10, 20, 1, Ok(&[1])),
    ])
}

// ---- rows and working space

// A third of each place's number, and `least` more.
fn thirds(least: u16) -> [u16; 65] {
    from_fn(|i| least.wrapping_add((i / 3) as u16))
}

// So many rows, each window three times, and so many ends, with a place for each row's label; of a plan the labels are
// 1 2 0 over and over.
fn many_rows(rows: usize, ends: usize, bytes: usize, expected: Result<(), u8>) -> bool {
    let labels: [u8; 65] = from_fn(|i| [1, 2, 0][i % 3]);
    is_planned_in(
        table_of(
            Setting::round(43200, 0),
            first(&thirds(0), rows),
            first(&thirds(1), ends),
            first(&[0; 65], rows),
        ),
        rows,
        bytes,
        expected.map(|_| first(&labels, rows)),
    )
}

// The table of 64 rows is planned, from 4,608 bytes as from any more; with 65 it is refused, and with unequal lists
// before that.
fn rows(group: Group) -> Group {
    group.with_cases(&[
        many_rows(64, 64, LENT_BYTES, Ok(())),
        many_rows(63, 63, LENT_BYTES, Ok(())),
        many_rows(65, 65, LENT_BYTES, Err(2)),
        many_rows(64, 64, 4608, Ok(())),
        many_rows(64, 64, 4609, Ok(())),
        many_rows(64, 64, 16383, Ok(())),
        many_rows(64, 64, 16384, Ok(())),
        many_rows(64, 64, 4607, Err(3)),
        many_rows(0, 0, 4607, Err(3)),
        many_rows(0, 0, 0, Err(3)),
        many_rows(65, 65, 4607, Err(2)),
        many_rows(65, 64, 4607, Err(1)),
    ])
}

// ---- lists of unequal lengths

// A table with two starts, other lists of its own, and so many places for labels, is refused 1.
fn unequal(ends: &[u16], marks: &[u8], places: usize) -> bool {
    is_planned_in(
        table_of(Setting::round(100, 0), &[10, 15], ends, marks),
        places,
        LENT_BYTES,
        Err(1),
    )
}

fn unequal_lists(group: Group) -> Group {
    group.with_cases(&[
        unequal(&[20], &[0, 0], 2),
        unequal(&[20, 25, 30], &[0, 0], 2),
        unequal(&[20, 25], &[0], 2),
        unequal(&[20, 25], &[0, 0, 0], 2),
        unequal(&[20, 25], &[0, 0], 1),
        unequal(&[20, 25], &[0, 0], 3),
        unequal(&[], &[], 0),
    ])
}

pub fn all() -> Group {
    let mut g = Group::default();
    g = ticks(g);
    g = gaps(g);
    g = round_windows(g);
    g = run_windows(g);
    g = marks(g);
    g = wrong_hours(g);
    g = open_hours(g);
    g = closed_hours(g);
    g = rows(g);
    unequal_lists(g)
}
