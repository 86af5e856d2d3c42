// Rows that send all day (docs/RULES.md, Ticks and windows): in a round start equal to end covers every tick, so that
// the window overlaps every other; in a run it is refused.
use crate::edges::{round_row, run_row};
use crate::tables;
use table::Setting;
use trial_calls::{is_planned, is_taped, open_all, table_of};
use trial_report::Group;
use window::Kind;

// ---- rows that send all day alone

// Rows of a round of so many ticks, each of which sends all day from its start on.
fn alone(ticks: u16, starts: &[u16], marks: &[u8], expected: Result<&[u8], u8>) -> bool {
    is_planned(
        table_of(Setting::round(ticks, 0), starts, starts, marks),
        expected,
    )
}

// Three of them, each starting at another tick or all at one.
fn three_at(ticks: u16, starts: &[u16]) -> bool {
    alone(ticks, starts, &[0, 0, 0], Ok(&[1, 2, 0]))
}

// Three of them in a round of 10 ticks, with these marks.
fn three(marks: &[u8], expected: Result<&[u8], u8>) -> bool {
    alone(10, &[0, 4, 9], marks, expected)
}

// Of three alone each receiver hears one.
fn three_alone(group: Group) -> Group {
    group.with_cases(&[
        three_at(10, &[0, 4, 9]),
        three_at(10, &[4, 4, 4]),
        three_at(2, &[0, 1, 0]),
        three_at(43200, &[43199, 0, 600]),
        three(&[0, 0, 1], Ok(&[1, 0, 2])),
        three(&[0, 1, 1], Ok(&[0, 1, 2])),
        three(&[2, 2, 0], Ok(&[1, 0, 2])),
        three(&[4, 0, 4], Ok(&[2, 1, 0])),
        three(&[2, 2, 2], Ok(&[1, 0, 0])),
        three(&[0, 5, 3], Ok(&[0, 2, 1])),
        three(&[3, 3, 0], Err(8)),
        three(&[1, 1, 1], Err(8)),
    ])
}

// ---- beside other windows

// round 10: 4–4, 0–2, 6–8; the last two do not overlap
fn beside_two(marks: &[u8], expected: Result<&[u8], u8>) -> bool {
    tables::three(&[4, 0, 6], &[4, 2, 8], marks, expected)
}

// round 10: 4–4, 0–3, 2–5, 4–7, 6–9; of the last four each overlaps the next, so that they need both receivers
fn beside_four(mark: u8, labels: &[u8]) -> bool {
    is_planned(
        table_of(
            Setting::round(10, 0),
            &[4, 0, 2, 4, 6],
            &[4, 3, 5, 7, 9],
            &[mark, 0, 0, 0, 0],
        ),
        Ok(labels),
    )
}

// round 2: 0–0, 0–1, 1–0
fn beside_each_tick() -> bool {
    is_planned(
        table_of(Setting::round(2, 0), &[0, 0, 1], &[0, 1, 0], &[0, 0, 0]),
        Ok(&[1, 2, 2]),
    )
}

// It takes a receiver of its own, and is left out where that hears more.
fn beside_others(group: Group) -> Group {
    group.with_cases(&[
        beside_two(&[1, 0, 0], Ok(&[1, 2, 2])),
        beside_two(&[0, 0, 0], Ok(&[1, 2, 2])),
        beside_two(&[4, 0, 0], Ok(&[2, 1, 1])),
        beside_two(&[0, 3, 4], Ok(&[2, 1, 0])),
        beside_two(&[1, 3, 5], Err(8)),
        beside_four(0, &[0, 1, 2, 1, 2]),
        beside_four(1, &[1, 2, 0, 2, 0]),
        beside_each_tick(),
    ])
}

// Two must rows that send all day, 4–4 and 7–7 in a round of 10 ticks, and a third row with a mark: its start, end and
// mark as in `edges::row`.
fn third(start: u16, end: u16, mark: u8, expected: Result<&[u8], u8>) -> bool {
    tables::three(&[4, 7, start], &[4, 7, end], &[1, 1, mark], expected)
}

// A third row that is one tick: before, at and after the others' starts; that is all ticks but one; that sends all day.
// It is not heard, and where it must be there is no plan.
fn thirds(group: Group) -> Group {
    let mut g = group;
    for (start, end) in [(3, 4), (4, 5), (7, 8), (9, 0), (5, 4), (8, 7), (0, 0)] {
        g = g.with_cases(&[
            third(start, end, 0, Ok(&[1, 2, 0])),
            third(start, end, 1, Err(8)),
        ]);
    }
    g
}

// ---- which are taken

// Start and end are below R.
fn below_ticks(group: Group) -> Group {
    group.with_cases(&[
        round_row(0, 0, 0, Ok(&[1])),
        round_row(99, 99, 0, Ok(&[1])),
        round_row(99, 99, 5, Ok(&[2])),
        round_row(100, 100, 0, Err(6)),
        round_row(100, 100, 1, Err(6)),
        round_row(65535, 65535, 0, Err(6)),
        alone(2, &[2], &[0], Err(6)),
        alone(43200, &[43200], &[0], Err(6)),
    ])
}

// A run refuses such a row.
fn in_runs(group: Group) -> Group {
    group.with_cases(&[
        run_row(0, 0, 0, Err(6)),
        run_row(50, 50, 0, Err(6)),
        run_row(50, 50, 1, Err(6)),
        run_row(99, 99, 0, Err(6)),
        run_row(100, 100, 0, Err(6)),
        run_row(65535, 65535, 0, Err(6)),
    ])
}

// Rows are looked at from 0 on, each for 6 and then for 7: a mark above 5 with a window of this kind that is refused,
// and with one that is taken; two rows.
fn in_order(group: Group) -> Group {
    group.with_cases(&[
        round_row(100, 100, 6, Err(6)),
        round_row(99, 99, 6, Err(7)),
        round_row(0, 0, 255, Err(7)),
        run_row(50, 50, 6, Err(6)),
        alone(10, &[4, 10], &[0, 0], Err(6)),
        alone(10, &[4, 10], &[6, 0], Err(7)),
        alone(10, &[10, 4], &[0, 6], Err(6)),
    ])
}

// ---- the plan tape writer

// Three rows of a round of 10 ticks: 4–4, 6 to `end`, and 9–9.
fn taped(end: u16, labels: &[u8], bytes: usize, expected: Result<&[u8], u8>) -> bool {
    is_taped(
        table_of(Setting::round(10, 0), &[4, 6, 9], &[4, end, 9], &[0, 0, 0]),
        labels,
        bytes,
        expected,
    )
}

// A LISTEN's end is its start: 4–4 alone, beside 6–8, and beside 9–9 on the other receiver.
fn written(group: Group) -> Group {
    let one = b"\x10\x00\x0a\x20\x01\x20\x02\x30\x00\x00\x04\x00\x04\x7f";
    let beside =
        b"\x10\x00\x0a\x20\x01\x30\x00\x00\x04\x00\x04\x20\x02\x30\x01\x00\x06\x00\x08\x7f";
    let both = b"\x10\x00\x0a\x20\x01\x30\x02\x00\x09\x00\x09\x20\x02\x30\x00\x00\x04\x00\x04\x7f";
    group.with_cases(&[
        taped(8, &[2, 0, 0], 14, Ok(one)),
        taped(8, &[1, 2, 0], 20, Ok(beside)),
        taped(8, &[2, 0, 1], 20, Ok(both)),
        taped(6, &[2, 0, 1], 400, Ok(both)),
        taped(8, &[2, 0, 1], 19, Err(10)),
    ])
}

// Two of them on one receiver, and one beside any other window.
fn not_a_plan(group: Group) -> Group {
    group.with_cases(&[
        taped(8, &[1, 0, 1], 400, Err(9)),
        taped(8, &[2, 0, 2], 400, Err(9)),
        taped(7, &[1, 1, 0], 400, Err(9)),
        taped(4, &[1, 1, 0], 400, Err(9)),
        taped(5, &[0, 2, 2], 400, Err(9)),
        taped(9, &[0, 2, 2], 400, Err(9)),
        taped(6, &[1, 2, 2], 400, Err(9)),
    ])
}

// Row s–s, which receiver 1 hears, with no room for the tape.
fn offered(kind: Kind, start: u16, mark: u8, number: u8) -> bool {
    is_taped(
        table_of(open_all(kind, 10, 0), &[start], &[start], &[mark]),
        &[1],
        0,
        Err(number),
    )
}

// 6 and 7 as the planner gives them, then 9 for the wrong receiver and 10.
fn not_written(group: Group) -> Group {
    group.with_cases(&[
        offered(Kind::Round, 9, 0, 10),
        offered(Kind::Round, 10, 6, 6),
        offered(Kind::Round, 9, 6, 7),
        offered(Kind::Round, 9, 4, 9),
        offered(Kind::Run, 0, 0, 6),
        offered(Kind::Run, 9, 6, 6),
        offered(Kind::Run, 10, 0, 6),
    ])
}

pub fn all() -> Group {
    let mut g = three_alone(Group::default());
    g = beside_others(g);
    g = thirds(g);
    g = below_ticks(g);
    g = in_runs(g);
    g = in_order(g);
    g = written(g);
    g = not_a_plan(g);
    not_written(g)
}
