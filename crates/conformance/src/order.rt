// Which of several faults of a call is reported: the order of refusals of the planner and of the plan tape writer.
use table::Setting;
use trial_calls::{LENT_BYTES, first, is_planned, is_planned_in, is_taped, run, table_of};
use trial_report::Group;

// A run with the hours p–10 and 0–10 and a gap; its row has start and end 3 and mark 9.
fn faulty_run(ticks: u16, p: u16, gap: u16) -> Setting {
    run(ticks, gap, [[p, 10], [0, 10]])
}

fn faulty(setting: Setting, bytes: usize, number: u8) -> bool {
    is_planned_in(table_of(setting, &[3], &[3], &[9]), 1, bytes, Err(number))
}

// The same table handed to the plan tape writer, with a label 3 and no room.
fn faulty_taped(setting: Setting, number: u8) -> bool {
    is_taped(table_of(setting, &[3], &[3], &[9]), &[3], 0, Err(number))
}

// Four rows of a round of 10 ticks with a gap, three of which have no plan; the last is 3 to `end` with a mark.
fn rows_faulty(gap: u16, end: u16, mark: u8, number: u8) -> bool {
    is_planned(
        table_of(
            Setting::round(10, gap),
            &[4, 4, 4, 3],
            &[5, 5, 5, end],
            &[1, 1, 1, mark],
        ),
        Err(number),
    )
}

// Row 0 has a mark above 5, row 1 an end at R.
fn mark_first(gap: u16, number: u8) -> bool {
    is_planned(
        table_of(Setting::round(10, gap), &[1, 3], &[2, 10], &[9, 0]),
        Err(number),
    )
}

// The other way round.
fn window_first(gap: u16, number: u8) -> bool {
    is_planned(
        table_of(Setting::round(10, gap), &[3, 1], &[10, 2], &[0, 9]),
        Err(number),
    )
}

// The planner's order: 1, 2, 3, 4, 5, 14, then rows from 0 on, each for 6 and then for 7, then 8. A fault each, and the
// later ones with it.
fn planner_order(group: Group) -> Group {
    group.with_cases(&[
        faulty(faulty_run(1, 11, 601), 4607, 3),
        faulty(faulty_run(1, 11, 601), LENT_BYTES, 4),
        faulty(faulty_run(10, 11, 601), LENT_BYTES, 5),
        faulty(faulty_run(10, 0, 601), LENT_BYTES, 14),
        faulty(faulty_run(10, 0, 600), LENT_BYTES, 6),
        mark_first(601, 14),
        window_first(601, 14),
        mark_first(600, 7),
        window_first(600, 6),
        rows_faulty(601, 4, 0, 14),
        rows_faulty(600, 10, 9, 6),
        rows_faulty(600, 4, 6, 7),
        rows_faulty(0, 4, 0, 8),
    ])
}

// Rows 4–5 and 4 to `end` in a round of 10 ticks with a gap and these labels, handed to the writer with no room.
fn taped(gap: u16, end: u16, mark: u8, labels: &[u8], number: u8) -> bool {
    is_taped(
        table_of(Setting::round(10, gap), &[4, 4], &[5, end], &[0, mark]),
        labels,
        0,
        Err(number),
    )
}

// The writer's order: 1, 2, 4, 5, 14, rows for 6 and 7, 9, 10.
fn writer_order(group: Group) -> Group {
    group.with_cases(&[
        faulty_taped(faulty_run(1, 11, 601), 4),
        faulty_taped(faulty_run(10, 11, 601), 5),
        faulty_taped(faulty_run(10, 0, 601), 14),
        faulty_taped(faulty_run(10, 0, 600), 6),
        taped(601, 10, 6, &[1], 1),
        taped(601, 10, 6, &[1, 1], 14),
        taped(600, 10, 6, &[1, 1], 6),
        taped(601, 5, 6, &[1, 1], 14),
        taped(600, 5, 6, &[1, 1], 7),
        taped(601, 5, 0, &[1, 1], 14),
        taped(0, 5, 0, &[1, 1], 9),
        taped(0, 5, 3, &[1, 2], 9),
        taped(601, 5, 0, &[1, 2], 14),
        taped(600, 5, 0, &[1, 2], 10),
    ])
}

// 65 rows, and with fewer ends: a gap of 601 besides, R 1, label 3, no working space and no room for a tape.
fn many(group: Group, ends: usize, number: u8) -> Group {
    let ticks = [3; 65];
    let marks = [9; 65];
    let table = table_of(Setting::round(1, 601), &ticks, first(&ticks, ends), &marks);
    group.with_cases(&[
        is_planned_in(table, 65, 0, Err(number)),
        is_taped(table, &[3; 65], 0, Err(number)),
    ])
}

pub fn all() -> Group {
    let mut g = planner_order(Group::default());
    g = writer_order(g);
    g = many(g, 64, 1);
    many(g, 65, 2)
}
