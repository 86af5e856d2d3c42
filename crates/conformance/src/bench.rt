// Twelve worked examples, P1 to P12: what is easily got wrong in a table of a few rows.
use crate::tables::{self, equal, three};
use table::Setting;
use trial_calls::{is_planned, run, table_of};
use trial_report::Group;

// round 100, no rows: count 0
fn p1() -> bool {
    is_planned(table_of(Setting::round(100, 0), &[], &[], &[]), Ok(&[]))
}

// round 100: 10–30, 20–40, 25–50, 90–10: labels 1 2 0 1
fn p2(marks: &[u8], expected: Result<&[u8], u8>) -> bool {
    is_planned(tables::p2(0, marks), expected)
}

// round 10: 0–4, 3–8, 7–1: 1 2 0
fn p5(marks: &[u8], expected: Result<&[u8], u8>) -> bool {
    three(&[0, 3, 7], &[4, 8, 1], marks, expected)
}

// round 10: 8–2, 2–8: 1 1
fn p7() -> bool {
    is_planned(
        table_of(Setting::round(10, 0), &[8, 2], &[2, 8], &[0, 0]),
        Ok(&[1, 1]),
    )
}

// round 10: 4–5 three times: 1 2 0
fn p8() -> bool {
    equal(&[0, 0, 0], Ok(&[1, 2, 0]))
}

// run 100, hours 0–50 and 40–100: 45–60, 50–60, 0–50: 2 0 1
fn p9(marks: &[u8], labels: &[u8]) -> bool {
    is_planned(
        table_of(
            run(100, 0, [[0, 50], [40, 100]]),
            &[45, 50, 0],
            &[60, 60, 50],
            marks,
        ),
        Ok(labels),
    )
}

// round 2: 0–1, 1–0: 1 1
fn p11() -> bool {
    is_planned(
        table_of(Setting::round(2, 0), &[0, 1], &[1, 0], &[0, 0]),
        Ok(&[1, 1]),
    )
}

// round 10: row 0 is 1–2 with mark 9, row 1 is 3–3: 7
fn p12() -> bool {
    is_planned(
        table_of(Setting::round(10, 0), &[1, 3], &[2, 3], &[9, 0]),
        Err(7),
    )
}

pub fn all() -> Group {
    Group::default().with_cases(&[
        p1(),
        p2(&[0, 0, 0, 0], Ok(&[1, 2, 0, 1])),
        p2(&[0, 0, 1, 0], Ok(&[1, 0, 2, 1])),
        p2(&[1, 1, 1, 0], Err(8)),
        p5(&[0, 0, 0], Ok(&[1, 2, 0])),
        p5(&[1, 1, 1], Err(8)),
        p7(),
        p8(),
        p9(&[0, 0, 0], &[2, 0, 1]),
        p9(&[0, 1, 0], &[0, 2, 1]),
        p11(),
        p12(),
    ])
}
