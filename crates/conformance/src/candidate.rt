// Candidates (docs/RULES.md, Candidates): calls with the answer to each candidate, or the number of the refusal and the
// rows looked at. Each is judged whole: the report, every place of both lists of answers and every byte of the working
// space.
use table::{Rows, Setting, Table};
use trial_calls::{BEFORE, LENT_BYTES, first, is_left, is_written, row, rows_of, run};
use trial_report::Group;
use window::{Kind, Row};

// A candidate's answer: how many a plan hears that hears it too, or the number of its refusal.
type Answer = Result<u8, u8>;

// What a call gives: an answer to each candidate, or the number of its refusal, which writes none; and the rows looked at.
#[derive(Clone, Copy)]
struct Given<'a> {
    answers: Result<&'a [Answer], u8>,
    rows: usize,
}

// The places of the table's starts, ends and marks that a call is lent, of the candidates', and of the two lists of
// answers; and the bytes of working space.
#[derive(Clone, Copy)]
struct Lent {
    table: [usize; 3],
    candidates: [usize; 3],
    answers: [usize; 2],
    bytes: usize,
}

fn equally_long(rows: usize, candidates: usize) -> Lent {
    Lent {
        table: [rows; 3],
        candidates: [candidates; 3],
        answers: [candidates; 2],
        bytes: LENT_BYTES,
    }
}

// ---- a call

// A row that may be heard.
const FREE: Row = Row {
    start: 0,
    end: 1,
    mark: 0,
};

// Rows as three lists, with free rows after them.
#[derive(Clone, Copy)]
struct Lists {
    starts: [u16; 66],
    ends: [u16; 66],
    marks: [u8; 66],
}

impl Lists {
    fn of(rows: &[Row]) -> Lists {
        let all: [Row; 66] = std::array::from_fn(|i| rows.get(i).copied().unwrap_or(FREE));
        Lists {
            starts: all.map(|row| row.start),
            ends: all.map(|row| row.end),
            marks: all.map(|row| row.mark),
        }
    }

    fn first(&self, [starts, ends, marks]: [usize; 3]) -> Rows<'_> {
        rows_of(
            first(&self.starts, starts),
            first(&self.ends, ends),
            first(&self.marks, marks),
        )
    }
}

// Whether a call gives what is expected. Each list of answers has more places than a call is lent, so that a step
// beyond is seen.
fn gives(setting: Setting, rows: &[Row], candidates: &[Row], lent: Lent, given: Given) -> bool {
    let mut numbers = [BEFORE; 67];
    let mut counts = [BEFORE; 67];
    let mut space = [BEFORE; LENT_BYTES];
    let [m, n] = lent.answers;
    let looked = candidates::try_each(
        Table {
            setting,
            rows: Lists::of(rows).first(lent.table),
        },
        Lists::of(candidates).first(lent.candidates),
        &mut numbers[..m.min(67)],
        &mut counts[..n.min(67)],
        &mut space[..lent.bytes.min(LENT_BYTES)],
    );
    let answers = given.answers.unwrap_or(&[]);
    let right_numbers: [u8; 64] = std::array::from_fn(|i| answers
        .get(i)
        .map_or(0, |answer| answer.err().unwrap_or(0)));
    let right_counts: [u8; 64] = std::array::from_fn(|i| answers
        .get(i)
        .map_or(0, |answer| answer.unwrap_or(0)));
    looked.refusal.map_err(u8::from) == given.answers.map(|_| ())
        && looked.rows == given.rows
        && is_written(&numbers, first(&right_numbers, answers.len()))
        && is_written(&counts, first(&right_counts, answers.len()))
        && is_left(&space, given.answers.err())
}

// An accepted call: the setting, the rows, and the candidates with their answers.
type Accepted<'a> = (Setting, &'a [Row], &'a [(Row, Answer)]);

// Whether the call is accepted with these answers, and all rows and candidates are looked at.
fn accepts((setting, rows, tried): Accepted) -> bool {
    let candidates: [Row; 64] = std::array::from_fn(|j| tried.get(j).map_or(FREE, |(row, _)| *row));
    let answers: [Answer; 64] = std::array::from_fn(|j| tried
        .get(j)
        .map_or(Ok(0), |(_, answer)| *answer));
    let n = tried.len();
    let given = Given {
        answers: Ok(first(&answers, n)),
        rows: rows.len().wrapping_add(n),
    };
    gives(
        setting,
        rows,
        first(&candidates, n),
        equally_long(rows.len(), n),
        given,
    )
}

fn accepted(group: Group, cases: &[Accepted]) -> Group {
    cases
        .iter()
        .fold(group, |all, case| all.with_case(accepts(*case)))
}

// A refused call with a candidate that may be heard: the setting, the rows, the number and the rows looked at.
type Refused<'a> = (Setting, &'a [Row], u8, usize);

fn refuses((setting, rows, number, looked): Refused) -> bool {
    let given = Given {
        answers: Err(number),
        rows: looked,
    };
    gives(setting, rows, &[FREE], equally_long(rows.len(), 1), given)
}

fn refused(group: Group, cases: &[Refused]) -> Group {
    cases
        .iter()
        .fold(group, |all, case| all.with_case(refuses(*case)))
}

// A run whose receivers are open all the time.
fn open_run(ticks: u16, gap: u16) -> Setting {
    trial_calls::open_all(Kind::Run, ticks, gap)
}

// ---- examples

// A candidate that must be heard beside three rows that share tick 25 leaves one of them; one that sends all day leaves
// a receiver to the others, which hears 2 of them.
fn session(group: Group) -> Group {
    accepted(
        group,
        &[
            (
                Setting::round(100, 0),
                &[
                    row(10, 30, 0),
                    row(20, 40, 0),
                    row(25, 50, 0),
                    row(90, 10, 0),
                ],
                &[
                    (row(50, 60, 0), Ok(4)),
                    (row(25, 50, 1), Ok(3)),
                    (row(95, 20, 0), Ok(4)),
                    (row(28, 29, 2), Ok(3)),
                    (row(0, 0, 0), Ok(3)),
                    (row(100, 0, 0), Err(6)),
                    (row(50, 60, 6), Err(7)),
                    (row(100, 0, 6), Err(6)),
                ],
            ),
            (
                run(100, 0, [[0, 50], [40, 100]]),
                &[row(45, 60, 0), row(50, 60, 0), row(0, 50, 0)],
                &[
                    (row(60, 70, 0), Ok(3)),
                    (row(50, 60, 0), Ok(2)),
                    (row(0, 100, 0), Err(8)),
                    (row(10, 20, 0), Ok(2)),
                    (row(10, 20, 4), Err(8)),
                    (row(60, 60, 0), Err(6)),
                    (row(60, 101, 0), Err(6)),
                    (row(99, 100, 1), Ok(3)),
                ],
            ),
        ],
    )
}

// A candidate 4–5 with each mark from 0 to 5, beside rows at 4–5 with these marks. Where marks are not raised, 0 is
// answered in place of 8, with the count of the table alone. A raised mark keeps its receiver.
fn raised(group: Group) -> Group {
    let cases: [(&[u8], [Answer; 6]); 9] = [
        (&[], [Ok(1); 6]),
        (&[0], [Ok(2); 6]),
        (&[1], [Ok(2); 6]),
        (&[2], [Ok(2), Ok(2), Ok(1), Ok(1), Ok(2), Ok(2)]),
        (&[3], [Ok(2), Ok(2), Err(8), Err(8), Ok(2), Ok(2)]),
        (&[4], [Ok(2), Ok(2), Ok(2), Ok(2), Ok(1), Ok(1)]),
        (&[5], [Ok(2), Ok(2), Ok(2), Ok(2), Err(8), Err(8)]),
        (&[0, 1], [Ok(2); 6]),
        (&[1, 1], [Err(8); 6]),
    ];
    let mut all = group;
    for (marks, answers) in cases {
        let rows: [Row; 2] = std::array::from_fn(|i| row(4, 5, marks.get(i).copied().unwrap_or(0)));
        let tried: [(Row, Answer); 6] = std::array::from_fn(|j| (row(4, 5, j as u8), answers[j]));
        all = accepted(
            all,
            &[(Setting::round(10, 0), first(&rows, marks.len()), &tried)],
        );
    }
    all
}

// Each candidate is tried alone: two of the first fit beside 4–5 in no plan. The count may be more than the table's 3,
// the same, or less.
fn alone(group: Group) -> Group {
    let round = Setting::round(10, 0);
    accepted(
        group,
        &[
            (
                round,
                &[row(4, 5, 1)],
                &[
                    (row(4, 5, 1), Ok(2)),
                    (row(4, 5, 0), Ok(2)),
                    (row(10, 0, 0), Err(6)),
                    (row(7, 7, 1), Ok(2)),
                    (row(4, 5, 6), Err(7)),
                    (row(6, 7, 2), Ok(2)),
                    (row(4, 5, 4), Ok(2)),
                    (row(7, 7, 1), Ok(2)),
                ],
            ),
            (
                round,
                &[row(0, 0, 1), row(0, 3, 0), row(3, 6, 0)],
                &[
                    (row(5, 5, 0), Ok(2)),
                    (row(1, 2, 0), Ok(3)),
                    (row(7, 8, 0), Ok(4)),
                    (row(2, 4, 0), Ok(2)),
                    (row(6, 0, 0), Ok(4)),
                ],
            ),
            // the rows have the plan 1 1 2, which blocks 12–22; with 1 2 2 it is heard
            (
                Setting::round(100, 0),
                &[row(0, 10, 0), row(20, 30, 0), row(5, 15, 0)],
                &[(row(12, 22, 0), Ok(4))],
            ),
            // no tick is in all of 0–4, 3–8 and 7–1, but each overlaps the others
            (
                round,
                &[row(0, 4, 0), row(3, 8, 0)],
                &[(row(7, 1, 0), Ok(2))],
            ),
            (
                round,
                &[row(0, 4, 1), row(3, 8, 1)],
                &[(row(7, 1, 0), Err(8))],
            ),
        ],
    )
}

// A gap of 3 beside 0–2 on receiver 1, in 12 ticks. In a run there is no gap over its end.
fn gaps(group: Group) -> Group {
    accepted(
        group,
        &[
            (
                Setting::round(12, 3),
                &[row(0, 2, 3)],
                &[
                    (row(5, 9, 2), Ok(2)),
                    (row(5, 10, 2), Err(8)),
                    (row(4, 9, 2), Err(8)),
                    (row(4, 9, 4), Ok(2)),
                    (row(9, 9, 2), Err(8)),
                    (row(9, 9, 0), Ok(2)),
                ],
            ),
            (
                open_run(12, 3),
                &[row(0, 2, 3)],
                &[
                    (row(5, 9, 2), Ok(2)),
                    (row(5, 12, 2), Ok(2)),
                    (row(4, 9, 2), Err(8)),
                    (row(4, 9, 4), Ok(2)),
                    (row(5, 13, 2), Err(6)),
                ],
            ),
        ],
    )
}

// ---- edges

// Beside 4–5 and 4–5, which must be heard, and 8–9, in 10 ticks: a candidate that can be placed makes 4. Then hours
// that a candidate just lies in, and just does not.
fn edges(group: Group) -> Group {
    let rows = [row(4, 5, 1), row(4, 5, 1), row(8, 9, 0)];
    accepted(
        group,
        &[
            (
                Setting::round(10, 0),
                &rows,
                &[
                    (row(9, 0, 0), Ok(4)),
                    (row(10, 0, 0), Err(6)),
                    (row(65535, 0, 0), Err(6)),
                    (row(5, 9, 0), Ok(4)),
                    (row(5, 10, 0), Err(6)),
                    (row(5, 65535, 0), Err(6)),
                    (row(5, 4, 0), Ok(4)),
                    (row(5, 5, 0), Err(8)),
                    (row(0, 5, 0), Err(8)),
                    (row(10, 10, 0), Err(6)),
                    (row(5, 6, 5), Ok(4)),
                    (row(5, 6, 6), Err(7)),
                    (row(5, 6, 255), Err(7)),
                ],
            ),
            (
                open_run(10, 0),
                &rows,
                &[
                    (row(9, 10, 0), Ok(4)),
                    (row(9, 11, 0), Err(6)),
                    (row(10, 11, 0), Err(6)),
                    (row(9, 65535, 0), Err(6)),
                    (row(9, 9, 0), Err(6)),
                    (row(9, 8, 0), Err(6)),
                    (row(9, 0, 0), Err(6)),
                    (row(0, 4, 0), Ok(4)),
                    (row(0, 5, 0), Err(8)),
                    (row(5, 6, 5), Ok(4)),
                    (row(5, 6, 6), Err(7)),
                ],
            ),
            (
                run(100, 0, [[10, 20], [15, 25]]),
                &[],
                &[
                    (row(10, 20, 0), Ok(1)),
                    (row(9, 20, 0), Err(8)),
                    (row(10, 21, 0), Err(8)),
                    (row(15, 25, 0), Ok(1)),
                    (row(14, 25, 0), Err(8)),
                    (row(15, 26, 0), Err(8)),
                    (row(10, 20, 4), Err(8)),
                    (row(15, 25, 2), Err(8)),
                ],
            ),
        ],
    )
}

// R, the gap and the hours on both sides of their limits. A round's hours are not looked at.
fn settings(group: Group) -> Group {
    let unused = Setting {
        hours: [[51, 50], [0, 101]],
        ..Setting::round(100, 0)
    };
    let one: &[(Row, Answer)] = &[(FREE, Ok(1))];
    let mut all = accepted(
        group,
        &[
            (Setting::round(2, 600), &[], one),
            (Setting::round(43200, 600), &[], one),
            (open_run(2, 600), &[], one),
            (open_run(43200, 600), &[], one),
            (unused, &[], one),
            (run(100, 0, [[0, 1], [100, 100]]), &[], one),
        ],
    );
    for ticks in [0, 1, 43201, 65535] {
        all = refused(
            all,
            &[
                (Setting::round(ticks, 0), &[], 4, 0),
                (open_run(ticks, 0), &[], 4, 0),
            ],
        );
    }
    refused(
        all,
        &[
            (Setting::round(100, 601), &[], 14, 0),
            (open_run(100, 65535), &[], 14, 0),
            (run(100, 0, [[51, 50], [0, 100]]), &[], 5, 0),
            (run(100, 0, [[0, 100], [51, 50]]), &[], 5, 0),
            (run(100, 0, [[0, 101], [0, 100]]), &[], 5, 0),
            (run(100, 0, [[0, 100], [0, 101]]), &[], 5, 0),
        ],
    )
}

// A row that stops the table, first, between and last; and tables without a plan.
fn stops(group: Group) -> Group {
    let round = Setting::round(10, 0);
    let (a, b, must) = (row(0, 1, 0), row(2, 3, 0), row(7, 8, 1));
    let mut all = group;
    for (setting, wrong, number) in [
        (round, row(10, 0, 0), 6),
        (round, row(9, 10, 0), 6),
        (open_run(10, 0), row(9, 11, 0), 6),
        (open_run(10, 0), row(9, 9, 0), 6),
        (round, row(7, 8, 6), 7),
        (open_run(10, 0), row(7, 8, 255), 7),
        (round, row(10, 0, 6), 6),
    ] {
        all = refused(
            all,
            &[
                (setting, &[wrong, a, b], number, 1),
                (setting, &[a, wrong, b], number, 2),
                (setting, &[a, b, wrong], number, 3),
            ],
        );
    }
    refused(
        all,
        &[
            (round, &[row(1, 2, 6), row(3, 10, 0)], 7, 1),
            (round, &[row(3, 10, 0), row(1, 2, 6)], 6, 1),
            (round, &[must, must, must], 8, 3),
            (round, &[must, must, must, a], 8, 4),
            (open_run(10, 0), &[row(7, 8, 5), row(7, 8, 5)], 8, 2),
            (run(10, 0, [[0, 0], [10, 10]]), &[must], 8, 1),
        ],
    )
}

// ---- what is lent

// A call of rows 0–1, 1–2 and so on with candidates 64–65, lent as it says, in a round of 100 ticks.
fn gives_lent(rows: usize, lent: Lent, given: Given) -> bool {
    let list: [Row; 66] = std::array::from_fn(|i| row(i as u16, (i as u16).wrapping_add(1), 0));
    let candidates = [row(64, 65, 0); 66];
    gives(
        Setting::round(100, 0),
        first(&list, rows),
        &candidates,
        lent,
        given,
    )
}

fn refuses_lent(rows: usize, lent: Lent, number: u8) -> bool {
    let given = Given {
        answers: Err(number),
        rows: 0,
    };
    gives_lent(rows, lent, given)
}

// 62 to 65 rows, each with 0, 1, 64 and 65 candidates. Beside a full table no candidate is read.
fn counts(group: Group) -> Group {
    let mut all = group;
    for candidates in [0usize, 1, 64] {
        for (rows, answer, looked) in [
            (62, Ok(63), candidates.wrapping_add(62)),
            (63, Ok(64), candidates.wrapping_add(63)),
            (64, Err(2), 64),
        ] {
            let answers = [answer; 64];
            let given = Given {
                answers: Ok(first(&answers, candidates)),
                rows: looked,
            };
            all = all.with_case(gives_lent(rows, equally_long(rows, candidates), given));
        }
    }
    for (rows, candidates, number) in [(62, 65, 16), (64, 65, 16), (65, 1, 2), (65, 65, 2)] {
        all = all.with_case(refuses_lent(rows, equally_long(rows, candidates), number));
    }
    all
}

// Each list of candidates and of answers with a place less and a place more than the others, each list of the table
// likewise, and bytes of working space.
fn places(group: Group) -> Group {
    let mut all = group;
    for (n, m) in [(0, 1), (1, 0), (2, 3), (64, 63), (64, 65), (65, 64)] {
        let lent = equally_long(3, n);
        for list in 0..3 {
            let candidates = std::array::from_fn(|i| if i == list { m } else { n });
            let table = std::array::from_fn(|i| if i == list { m } else { n });
            all = all.with_cases(&[
                refuses_lent(3, Lent { candidates, ..lent }, 16),
                refuses_lent(66, Lent { table, ..lent }, 1),
            ]);
        }
        for answers in [[m, n], [n, m]] {
            all = all.with_case(refuses_lent(3, Lent { answers, ..lent }, 16));
        }
    }
    for bytes in [0, 4607] {
        all = all.with_case(refuses_lent(
            3,
            Lent {
                bytes,
                ..equally_long(3, 1)
            },
            3,
        ));
    }
    for bytes in [4608, 4609, 16384] {
        let given = Given {
            answers: Ok(&[Ok(4)]),
            rows: 4,
        };
        all = all.with_case(gives_lent(
            3,
            Lent {
                bytes,
                ..equally_long(3, 1)
            },
            given,
        ));
    }
    all
}

// A run of R ticks with the hours p–10 and 0–10.
fn opening(ticks: u16, p: u16, gap: u16) -> Setting {
    run(ticks, gap, [[p, 10], [0, 10]])
}

// A fault each, and all later ones with it. A case is the places of the table's starts and of the counts, the bytes of
// working space, a run, the last row, and the number. Before the last row come three that must be heard at 4–5, which
// have no plan.
fn order(group: Group) -> Group {
    let mut all = group;
    for (starts, counts, bytes, setting, last, number) in [
        (5, 1, 4607, opening(1, 11, 601), row(3, 3, 9), 1),
        (4, 1, 4607, opening(1, 11, 601), row(3, 3, 9), 3),
        (4, 1, 4608, opening(1, 11, 601), row(3, 3, 9), 16),
        (4, 2, 4608, opening(1, 11, 601), row(3, 3, 9), 4),
        (4, 2, 4608, opening(10, 11, 601), row(3, 3, 9), 5),
        (4, 2, 4608, opening(10, 0, 601), row(3, 3, 9), 14),
        (4, 2, 4608, opening(10, 0, 600), row(3, 3, 9), 6),
        (4, 2, 4608, opening(10, 0, 0), row(3, 4, 9), 7),
        (4, 2, 4608, opening(10, 0, 0), row(3, 4, 0), 8),
    ] {
        let rows = [row(4, 5, 1), row(4, 5, 1), row(4, 5, 1), last];
        let lent = Lent {
            table: [starts, 4, 4],
            candidates: [2; 3],
            answers: [2, counts],
            bytes,
        };
        let given = Given {
            answers: Err(number),
            rows: if matches!(number, 6..=8) { 4 } else { 0 },
        };
        all = all.with_case(gives(setting, &rows, &[row(3, 3, 9), FREE], lent, given));
    }
    all
}

pub fn all() -> Group {
    let mut all = session(Group::default());
    all = raised(all);
    all = alone(all);
    all = gaps(all);
    all = edges(all);
    all = settings(all);
    all = stops(all);
    all = counts(all);
    all = places(all);
    order(all)
}
