// Plausible and wrong methods: for each a case that the method fails, with the right answer, which is compared. Told
// apart elsewhere: a gap of 601 that is taken (`edges`), refusal 14 out of its place (`order`), a long window that is
// too close to itself and a writer that does not look at the gap (`gap`).
use crate::gap::spaced;
use crate::tables::{self, three};
use table::Setting;
use trial_calls::{is_planned, open_all, run, table_of};
use trial_report::Group;
use window::Kind;

// Hearing all if no tick is in three windows: none is in all of 0–4, 3–8, 7–1, so that method hears all three rows, and
// finds a plan where all are must.
fn two_over_each_tick(group: Group) -> Group {
    group.with_cases(&[
        three(&[0, 3, 7], &[4, 8, 1], &[0, 0, 0], Ok(&[1, 2, 0])),
        three(&[0, 3, 7], &[4, 8, 1], &[1, 1, 1], Err(8)),
    ])
}

// P2, where row 3 has a mark.
fn p2(mark: u8) -> bool {
    is_planned(tables::p2(0, &[0, 0, 0, mark]), Ok(&[1, 2, 0, 1]))
}

// A round planned as a run, without the rows that go over the end of the day: of P2 that method gives 1 2 0 0, and no
// plan where row 3 is must.
fn dropped_at_tick_0(group: Group) -> Group {
    group.with_cases(&[p2(0), p2(1)])
}

// 10–20, 15–45, 40–60 in a run of 100 ticks: only the receiver that is open until 100 can take the last row, so the
// second row belongs on the other one, and the first on the one that is open until 100.
fn uneven(hours: [[u16; 2]; 2], marks: &[u8], labels: &[u8]) -> bool {
    is_planned(
        table_of(run(100, 0, hours), &[10, 15, 40], &[20, 45, 60], marks),
        Ok(labels),
    )
}

// Each row on the receiver with the shorter hours, if it can take it: the one that opens at 10 and closes at 50. That
// method puts the first row there and so the second on the other receiver: 1 2 0, or 2 1 0 where receiver 2 has the
// shorter hours. Where all are must it finds no plan.
fn tighter_receiver(group: Group) -> Group {
    group.with_cases(&[
        uneven([[10, 50], [0, 100]], &[0, 0, 0], &[2, 1, 2]),
        uneven([[10, 50], [0, 100]], &[1, 1, 1], &[2, 1, 2]),
        uneven([[0, 100], [10, 50]], &[0, 0, 0], &[1, 2, 1]),
        uneven([[0, 100], [10, 50]], &[1, 1, 1], &[1, 2, 1]),
    ])
}

// 0–10, 20–30, 5–15, 12–22: all are heard if the first two rows are on different receivers.
fn four_rows(setting: Setting, marks: &[u8]) -> bool {
    is_planned(
        table_of(setting, &[0, 20, 5, 12], &[10, 30, 15, 22], marks),
        Ok(&[1, 2, 2, 1]),
    )
}

// First the must rows in the order of the table, then the others: rows 0 and 1 do not overlap, so that method puts both
// on receiver 1, row 2 on receiver 2, and finds no place for row 3: 1 1 2 0.
fn must_rows_first(group: Group) -> Group {
    group.with_cases(&[
        four_rows(Setting::round(100, 0), &[1, 1, 0, 0]),
        four_rows(open_all(Kind::Run, 100, 0), &[1, 1, 0, 0]),
    ])
}

// No plan (8) where a must row finds both receivers taken by rows placed before it, in the order of the table where a
// receiver is free: rows 0 and 1 of the three equal ones take both receivers before the must row 2. In the four rows,
// all must, row 3 is blocked by rows 1 and 2.
fn blocked_must_row(group: Group) -> Group {
    group.with_cases(&[
        three(&[4, 4, 4], &[5, 5, 5], &[0, 0, 1], Ok(&[1, 0, 2])),
        four_rows(Setting::round(100, 0), &[1, 1, 1, 1]),
        four_rows(open_all(Kind::Run, 100, 0), &[1, 1, 1, 1]),
    ])
}

// Start equal to end covers no tick: in a round of 10 ticks 4–4 overlaps neither 2–4 nor 4–6, so that method hears all
// on receiver 1, 1 1 1. Where the last two are 3–5 and 4–6 and all are must, it finds the plan 1 1 2.
fn taken_as_empty(group: Group) -> Group {
    group.with_cases(&[
        three(&[4, 2, 4], &[4, 4, 6], &[0, 0, 0], Ok(&[1, 2, 2])),
        three(&[4, 3, 4], &[4, 5, 6], &[1, 1, 1], Err(8)),
    ])
}

// All ticks but the start: 4–4 does not overlap 4–5 then, so that method hears all of 4–4, 4–5 and 4–5, 1 1 2, and
// finds that plan where all are must.
fn start_left_out(group: Group) -> Group {
    group.with_cases(&[
        three(&[4, 4, 4], &[4, 5, 5], &[0, 0, 0], Ok(&[1, 2, 0])),
        three(&[4, 4, 4], &[4, 5, 5], &[1, 1, 1], Err(8)),
    ])
}

// Wrong meanings of the gap, on 0–2, 5–7 and 10–11 in a round and 10–12 in a run (`spaced`).
fn gaps(group: Group) -> Group {
    group.with_cases(&[
        // counted within the day alone: 1 1 1, and a plan where receiver 1 must hear all; but 10–11 has one tick before
        // 0–2
        spaced(Kind::Round, 11, 3, 0, Ok(&[1, 1, 2])),
        spaced(Kind::Round, 11, 3, 3, Err(8)),
        // g ticks are too few, and not only fewer than g: 1 1 2
        spaced(Kind::Round, 11, 1, 0, Ok(&[1, 1, 1])),
        // a run that wraps, in which 10–12 and 0–2 touch: 1 1 2
        spaced(Kind::Run, 12, 3, 0, Ok(&[1, 1, 1])),
        // the gap is not kept: 1 1 1; it is owed between the receivers too: 1 0 0, and in a run 1 0 1
        spaced(Kind::Round, 11, 4, 0, Ok(&[1, 2, 0])),
        spaced(Kind::Run, 12, 4, 0, Ok(&[1, 2, 1])),
    ])
}

pub fn all() -> Group {
    let mut g = two_over_each_tick(Group::default());
    g = dropped_at_tick_0(g);
    g = tighter_receiver(g);
    g = must_rows_first(g);
    g = blocked_must_row(g);
    g = taken_as_empty(g);
    g = start_left_out(g);
    gaps(g)
}
