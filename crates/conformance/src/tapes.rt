// Plan tapes (docs/RULES.md, Plan tapes): the session's, labels that the writer refuses and accepts, and its edges.
use crate::tables;
use crate::tape_edges::with_edges;
use trial_calls::{is_taped, run, table_of};
use trial_report::Group;

// The session's table, P2, with labels and so many bytes for the tape.
fn p2(marks: &[u8], labels: &[u8], bytes: usize, expected: Result<&[u8], u8>) -> bool {
    is_taped(tables::p2(0, marks), labels, bytes, expected)
}

// The session's labels and tape. It fits 26 bytes, and bytes after them are untouched; a buffer of 25 gives 10.
fn session(group: Group) -> Group {
    let tape = [
        0x10, 0x00, 0x64, 0x20, 0x01, 0x30, 0x00, 0x00, 0x0A, 0x00, 0x1E, 0x30, 0x03, 0x00, 0x5A,
        0x00, 0x0A, 0x20, 0x02, 0x30, 0x01, 0x00, 0x14, 0x00, 0x28, 0x7F,
    ];
    let mut g = group;
    for (bytes, expected) in [
        (26, Ok(&tape[..])),
        (27, Ok(&tape[..])),
        (400, Ok(&tape[..])),
        (25, Err(10)),
        (0, Err(10)),
    ] {
        g = g.with_case(p2(&[0, 0, 0, 0], &[1, 2, 0, 1], bytes, expected));
    }
    g
}

// Labels of P2 that are not a plan: a 3 in them, two rows that overlap on one receiver, also over the end of the day, a
// must row left out.
fn not_a_plan(group: Group) -> Group {
    group.with_cases(&[
        p2(&[0, 0, 0, 0], &[1, 2, 3, 1], 400, Err(9)),
        p2(&[0, 0, 0, 0], &[3, 2, 0, 1], 400, Err(9)),
        p2(&[0, 0, 0, 0], &[1, 2, 0, 255], 400, Err(9)),
        p2(&[0, 0, 0, 0], &[1, 1, 0, 2], 400, Err(9)),
        p2(&[0, 0, 0, 0], &[0, 2, 2, 1], 400, Err(9)),
        p2(&[0, 0, 1, 0], &[1, 2, 0, 1], 400, Err(9)),
    ])
}

// The writer accepts every plan, not the planner's alone: none heard, and one row heard on receiver 2.
fn other_plans(group: Group) -> Group {
    let none = [0x10, 0x00, 0x64, 0x20, 0x01, 0x20, 0x02, 0x7F];
    let one = [
        0x10, 0x00, 0x64, 0x20, 0x01, 0x20, 0x02, 0x30, 0x03, 0x00, 0x5A, 0x00, 0x0A, 0x7F,
    ];
    group.with_cases(&[
        p2(&[0, 0, 0, 0], &[0, 0, 0, 0], 8, Ok(&none)),
        p2(&[0, 0, 0, 1], &[0, 0, 0, 2], 14, Ok(&one)),
    ])
}

// The session's first three rows as a run of 100 ticks, with the first receiver's closing hour.
fn as_run(close: u16, expected: Result<&[u8], u8>) -> bool {
    is_taped(
        table_of(
            run(100, 0, [[0, close], [0, 100]]),
            &[10, 20, 25],
            &[30, 40, 50],
            &[0, 0, 0],
        ),
        &[1, 2, 0],
        400,
        expected,
    )
}

// Hours are no part of a tape: a row that ends after its receiver's hours is no plan, and wrong hours are refused.
fn hours(group: Group) -> Group {
    let tape = b"\x11\x00\x64\x20\x01\x30\x00\x00\x0a\x00\x1e\x20\x02\x30\x01\x00\x14\x00\x28\x7f";
    group.with_cases(&[
        as_run(30, Ok(tape)),
        as_run(29, Err(9)),
        as_run(101, Err(5)),
    ])
}

pub fn all() -> Group {
    let mut g = session(Group::default());
    g = not_a_plan(g);
    g = other_plans(g);
    g = hours(g);
    with_edges(g)
}
