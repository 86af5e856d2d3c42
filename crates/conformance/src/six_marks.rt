// Marks 0 to 5 (docs/RULES.md, Marks): examples of three rows, each mark on a row alone in rounds and runs, and labels
// offered to the plan tape writer.
use crate::tables::{equal, three};
use table::Setting;
use trial_calls::{is_planned, is_taped, run, table_of};
use trial_report::Group;

// ---- the examples

// round 10: 0–2, 1–4, 3–6; the middle row overlaps both others
fn middle(marks: &[u8], labels: &[u8]) -> bool {
    three(&[0, 1, 3], &[2, 4, 6], marks, Ok(labels))
}

// round 10: 0–2, 4–6, 1–5; the last row overlaps both others
fn last(marks: &[u8], expected: Result<&[u8], u8>) -> bool {
    three(&[0, 4, 1], &[2, 6, 5], marks, expected)
}

fn examples(group: Group) -> Group {
    group.with_cases(&[
        middle(&[0, 0, 0], &[1, 2, 1]),
        middle(&[0, 2, 0], &[2, 1, 2]),
        middle(&[4, 0, 0], &[2, 1, 2]),
        middle(&[0, 0, 5], &[2, 1, 2]),
        middle(&[0, 2, 3], &[1, 0, 1]),
        middle(&[2, 2, 0], &[1, 0, 1]),
        last(&[1, 1, 1], Ok(&[1, 1, 2])),
        last(&[3, 5, 1], Err(8)),
        equal(&[0, 5, 3], Ok(&[0, 2, 1])),
        equal(&[0, 4, 4], Ok(&[1, 2, 0])),
        equal(&[3, 0, 3], Err(8)),
        equal(&[2, 4, 6], Err(7)),
    ])
}

// ---- a row alone

// Row 10–20 with a mark.
fn alone(setting: Setting, mark: u8, expected: Result<&[u8], u8>) -> bool {
    is_planned(table_of(setting, &[10], &[20], &[mark]), expected)
}

// In a run of 100 ticks with the hours 0–q1 and 0–q2.
fn in_run(q1: u16, q2: u16) -> Setting {
    run(100, 0, [[0, q1], [0, q2]])
}

// A label for each mark, where both receivers are open, in a run and in a round.
fn both_open(group: Group) -> Group {
    let mut g = group;
    for (mark, label) in [(0, 1), (1, 1), (2, 1), (3, 1), (4, 2), (5, 2)] {
        g = g.with_cases(&[
            alone(Setting::round(100, 0), mark, Ok(&[label])),
            alone(in_run(100, 100), mark, Ok(&[label])),
        ]);
    }
    g
}

// A row that may be heard by the closed receiver alone is left out; one that must be has no plan.
fn receiver_1_closed(group: Group) -> Group {
    let run = in_run(0, 100);
    group.with_cases(&[
        alone(run, 0, Ok(&[2])),
        alone(run, 1, Ok(&[2])),
        alone(run, 2, Ok(&[0])),
        alone(run, 3, Err(8)),
        alone(run, 4, Ok(&[2])),
        alone(run, 5, Ok(&[2])),
    ])
}

fn receiver_2_closed(group: Group) -> Group {
    let run = in_run(100, 0);
    group.with_cases(&[
        alone(run, 0, Ok(&[1])),
        alone(run, 1, Ok(&[1])),
        alone(run, 2, Ok(&[1])),
        alone(run, 3, Ok(&[1])),
        alone(run, 4, Ok(&[0])),
        alone(run, 5, Err(8)),
    ])
}

// ---- the writer: labels that use the wrong receiver are no plan

// Row 3–4 of a round of 10 ticks with a mark and a label.
fn offered(mark: u8, label: u8, expected: Result<&[u8], u8>) -> bool {
    is_taped(
        table_of(Setting::round(10, 0), &[3], &[4], &[mark]),
        &[label],
        400,
        expected,
    )
}

// A mark, and the labels that it allows. Where one is taken, the tape is that of any mark. Label 3 is no label of any
// mark; before labels are looked at, a mark above 5 is refused.
fn labels(group: Group, mark: u8, allowed: &[u8]) -> Group {
    let none = [0x10, 0, 10, 0x20, 1, 0x20, 2, 0x7F];
    let first = [0x10, 0, 10, 0x20, 1, 0x30, 0, 0, 3, 0, 4, 0x20, 2, 0x7F];
    let second = [0x10, 0, 10, 0x20, 1, 0x20, 2, 0x30, 0, 0, 3, 0, 4, 0x7F];
    let refusal = if 5 < mark { 7 } else { 9 };
    let mut g = group;
    for (label, tape) in [(0, &none[..]), (1, &first[..]), (2, &second[..])] {
        let expected = if allowed.contains(&label) {
            Ok(tape)
        } else {
            Err(refusal)
        };
        g = g.with_case(offered(mark, label, expected));
    }
    g.with_case(offered(mark, 3, Err(refusal)))
}

fn written(group: Group) -> Group {
    let mut g = labels(group, 0, &[0, 1, 2]);
    g = labels(g, 1, &[1, 2]);
    g = labels(g, 2, &[0, 1]);
    g = labels(g, 3, &[1]);
    g = labels(g, 4, &[0, 2]);
    g = labels(g, 5, &[2]);
    g = labels(g, 6, &[]);
    labels(g, 255, &[])
}

pub fn all() -> Group {
    let mut g = examples(Group::default());
    g = both_open(g);
    g = receiver_1_closed(g);
    g = receiver_2_closed(g);
    written(g)
}
