// Labels, marks and windows as words of bits (docs/RULES.md, Words): calls with what they give, or the number of their
// refusal. Each is judged whole: the words, the count, and every place of the list that is written.
use bit_words::{LabelWords, clashes, labels_of, must_of, words_of};
use std::array::from_fn;
use table::Setting;
use trial_calls::{BEFORE, are_written, first, heard, is_answer, is_written, run};
use trial_report::Group;

// ---- calls. Each list has more places than a call is lent, so that a step beyond is seen.

// Labels give a heard and a receiver word, and the number heard.
fn gives_words(labels: &[u8], expected: Result<(u64, u64), u8>) -> bool {
    let words = words_of(labels).map_err(u8::from);
    words.map(|words| (words.heard, words.receiver)) == expected
        && words.map_or(0, |words| words.count()) == expected.map_or(0, |_| heard(labels))
}

// The two words give labels for so many rows.
fn gives_labels((heard, receiver): (u64, u64), rows: usize, expected: Result<&[u8], u8>) -> bool {
    let mut list = [BEFORE; 68];
    let answer = labels_of(LabelWords { heard, receiver }, &mut list[..rows.min(68)]);
    is_answer(answer, expected.map(trial_calls::heard))
        && is_written(&list, expected.unwrap_or(&[]))
}

fn gives_must(marks: &[u8], expected: Result<u64, u8>) -> bool {
    must_of(marks).map_err(u8::from) == expected
}

// Starts and ends give a word for each row, in so many places.
fn gives_clashes(
    setting: Setting,
    starts: &[u16],
    ends: &[u16],
    places: usize,
    expected: Result<&[u64], u8>,
) -> bool {
    let before = u64::from(BEFORE);
    let mut list = [before; 68];
    let answer = clashes::clash_words(setting, starts, ends, &mut list[..places.min(68)]);
    answer.map_err(u8::from) == expected.map(|_| ())
        && are_written(&list, expected.unwrap_or(&[]), before)
}

// ---- labels

// Labels and their words, either way.
fn carried(group: Group) -> Group {
    let cases: [(&[u8], (u64, u64)); 11] = [
        (&[], (0, 0)),
        (&[0], (0, 0)),
        (&[1], (1, 0)),
        (&[2], (1, 1)),
        (&[1, 2, 0, 1], (0b1011, 0b0010)),
        (&[0, 2, 1, 0, 0], (0b110, 0b010)),
        (&[2, 2, 0, 0, 0, 0, 0, 0, 1], (0x103, 3)),
        (&[1; 63], (u64::MAX / 2, 0)),
        (&[0; 64], (0, 0)),
        (&[1; 64], (u64::MAX, 0)),
        (&[2; 64], (u64::MAX, u64::MAX)),
    ];
    let mut all = group;
    for (labels, words) in cases {
        all = all.with_cases(&[
            gives_words(labels, Ok(words)),
            gives_labels(words, labels.len(), Ok(labels)),
        ]);
    }
    all
}

// A label above 2 is refused by 9, more than 64 labels by 2; so are a receiver bit of a row not heard, a one from the
// row count up, and more than 64 rows.
fn not_carried(group: Group) -> Group {
    let all = u64::MAX;
    let last: [u8; 64] = from_fn(|i| if i == 63 { 255 } else { 1 });
    let mut cases = group.with_cases(&[
        gives_words(&[3], Err(9)),
        gives_words(&[3, 1], Err(9)),
        gives_words(&[1, 255], Err(9)),
        gives_words(&last, Err(9)),
        gives_words(&[1; 65], Err(2)),
        gives_words(&[3; 65], Err(2)),
    ]);
    for (words, rows, number) in [
        ((0, 1), 1, 9),
        ((0b101, 0b010), 3, 9),
        ((all / 2, all), 64, 9),
        ((1, 0), 0, 9),
        ((0b1000, 0), 3, 9),
        ((0b1000, 0b1000), 3, 9),
        ((0b0111, 0b1000), 3, 9),
        ((all, 0), 63, 9),
        ((all / 2, all - all / 2), 63, 9),
        ((0, 0), 65, 2),
        ((0, 1), 65, 2),
        ((all, all), 66, 2),
    ] {
        cases = cases.with_case(gives_labels(words, rows, Err(number)));
    }
    cases
}

// ---- marks

fn musts(group: Group) -> Group {
    let last: [u8; 64] = from_fn(|i| if i == 63 { 5 } else { 4 });
    group.with_cases(&[
        gives_must(&[], Ok(0)),
        gives_must(&[0, 1, 2, 3, 4, 5, 6, 7], Ok(0b10_1010)),
        gives_must(&[5, 4, 3, 2, 1, 0, 255, 129], Ok(0b1_0101)),
        gives_must(&[1; 64], Ok(u64::MAX)),
        gives_must(&[2; 64], Ok(0)),
        gives_must(&last, Ok(u64::MAX - u64::MAX / 2)),
        gives_must(&[1; 65], Err(2)),
        gives_must(&[7; 65], Err(2)),
    ])
}

// ---- two windows

// A setting, two windows, each a start and an end, and what they give.
type Case<'a> = (Setting, [u16; 2], [u16; 2], Result<&'a [u64], u8>);

// Bit 1 of row 0's word, and bit 0 of row 1's.
const CLASH: Result<&[u64], u8> = Ok(&[2, 1]);

const APART: Result<&[u64], u8> = Ok(&[0, 0]);

fn gives((setting, [start, end], [start2, end2], expected): Case) -> bool {
    gives_clashes(setting, &[start, start2], &[end, end2], 2, expected)
}

fn two(group: Group, cases: &[Case]) -> Group {
    cases
        .iter()
        .fold(group, |all, case| all.with_case(gives(*case)))
}

// A run with no open hours.
fn closed(ticks: u16, gap: u16) -> Setting {
    run(ticks, gap, [[0, 0], [0, 0]])
}

// Windows that touch, are equal, lie in one another, and send all day, and the shortest days.
fn overlaps(group: Group) -> Group {
    let round = Setting::round(10, 0);
    let run = closed(10, 0);
    two(
        group,
        &[
            (round, [8, 2], [2, 8], APART),
            (run, [0, 5], [5, 10], APART),
            (round, [4, 5], [4, 5], CLASH),
            (run, [4, 5], [4, 5], CLASH),
            (round, [7, 3], [1, 2], CLASH),
            (run, [1, 9], [4, 5], CLASH),
            (round, [3, 3], [3, 3], CLASH),
            (round, [3, 3], [9, 0], CLASH),
            (round, [2, 3], [5, 5], CLASH),
            (Setting::round(2, 0), [0, 1], [1, 0], APART),
            (Setting::round(2, 1), [0, 1], [1, 0], CLASH),
            (Setting::round(2, 0), [0, 0], [1, 0], CLASH),
            (closed(2, 0), [0, 1], [1, 2], APART),
            (closed(2, 1), [0, 1], [1, 2], CLASH),
            (closed(2, 0), [0, 2], [1, 2], CLASH),
        ],
    )
}

// 599 and 600 ticks between windows, on the longest day and over its end. In a run nothing goes over the end.
fn gaps(group: Group) -> Group {
    let round = Setting::round(43200, 600);
    let run = closed(43200, 600);
    two(
        group,
        &[
            (round, [100, 200], [800, 900], APART),
            (round, [100, 200], [799, 900], CLASH),
            (Setting::round(43200, 599), [100, 200], [799, 900], APART),
            (round, [42800, 43100], [500, 900], APART),
            (round, [42800, 43100], [499, 900], CLASH),
            (round, [499, 900], [42800, 43100], CLASH),
            (run, [42800, 43100], [499, 900], APART),
            (run, [0, 41999], [42599, 43200], APART),
            (run, [0, 41999], [42598, 43200], CLASH),
            (Setting::round(1200, 600), [0, 1], [600, 601], CLASH),
            (Setting::round(1202, 600), [0, 1], [601, 602], APART),
        ],
    )
}

// R, the gap and windows on both sides of their limits, in a round and in a run.
fn limits(group: Group) -> Group {
    let (start, end) = ([0, 1], [1, 0]);
    let mut all = group;
    for (ticks, gap, number) in [
        (0, 0, 4),
        (1, 601, 4),
        (43201, 0, 4),
        (65535, 0, 4),
        (2, 601, 14),
        (43200, 65535, 14),
    ] {
        all = two(
            all,
            &[
                (Setting::round(ticks, gap), start, end, Err(number)),
                (closed(ticks, gap), start, start, Err(number)),
            ],
        );
    }
    let round = Setting::round(10, 0);
    for wrong in [[0, 10], [10, 0], [10, 10], [9, 65535], [65535, 9]] {
        all = two(
            all,
            &[
                (round, wrong, [1, 2], Err(6)),
                (round, [1, 2], wrong, Err(6)),
            ],
        );
    }
    let run = closed(10, 0);
    for wrong in [[3, 3], [0, 0], [4, 3], [0, 11], [10, 11], [9, 65535]] {
        all = two(
            all,
            &[(run, wrong, [1, 2], Err(6)), (run, [1, 2], wrong, Err(6))],
        );
    }
    two(
        all,
        &[
            (round, [0, 9], [9, 1], CLASH),
            (round, [9, 0], [1, 2], APART),
            (run, [0, 10], [9, 10], CLASH),
        ],
    )
}

// Hours make no difference, even those that a planner refuses.
fn hours(group: Group) -> Group {
    let mut all = group;
    for hours in [
        [[0, 100], [0, 100]],
        [[51, 50], [0, 101]],
        [[65535, 0], [65535, 65535]],
    ] {
        let round = Setting {
            hours,
            ..Setting::round(100, 0)
        };
        for setting in [round, run(100, 0, hours)] {
            all = two(
                all,
                &[
                    (setting, [0, 60], [50, 70], CLASH),
                    (setting, [0, 50], [50, 70], APART),
                ],
            );
        }
    }
    all
}

// ---- several windows

// 10–30, 20–40, 25–50 and 90–10; in a run the last ends at 100.
fn four(group: Group) -> Group {
    let mut all = group;
    for (setting, end, words) in [
        (Setting::round(100, 0), 10, [6, 5, 3, 0]),
        (Setting::round(100, 10), 10, [14, 5, 3, 1]),
        (Setting::round(100, 11), 10, [14, 13, 3, 3]),
        (Setting::round(100, 15), 10, [14, 13, 3, 3]),
        (Setting::round(100, 16), 10, [14, 13, 11, 7]),
        (closed(100, 40), 100, [6, 5, 3, 0]),
        (closed(100, 41), 100, [6, 5, 11, 4]),
        (closed(100, 51), 100, [6, 13, 11, 6]),
        (closed(100, 61), 100, [14, 13, 11, 7]),
    ] {
        all = all.with_case(gives_clashes(
            setting,
            &[10, 20, 25, 90],
            &[30, 40, 50, end],
            4,
            Ok(&words),
        ));
    }
    all
}

// Windows 0–1, 1–2 and so on in a round, of which the first may start elsewhere: so many starts and ends.
fn many(
    setting: Setting,
    start: u16,
    [starts, ends]: [usize; 2],
    places: usize,
    expected: Result<&[u64], u8>,
) -> bool {
    let all_starts: [u16; 66] = from_fn(|i| if i == 0 { start } else { i as u16 });
    let all_ends: [u16; 66] = from_fn(|i| (i as u16).wrapping_add(1));
    gives_clashes(
        setting,
        first(&all_starts, starts),
        first(&all_ends, ends),
        places,
        expected,
    )
}

// No rows, and 63 and 64; each list with a place less and a place more than the others.
fn places(group: Group) -> Group {
    let round = Setting::round(100, 0);
    let mut all = group;
    for n in [0, 63, 64] {
        all = all.with_case(many(round, 0, [n; 2], n, Ok(first(&[0; 64], n))));
    }
    for (n, m) in [(0, 1), (1, 0), (2, 3), (64, 63), (64, 65), (65, 64)] {
        all = all.with_cases(&[
            many(round, 0, [m, n], n, Err(1)),
            many(round, 0, [n, m], n, Err(1)),
            many(round, 0, [n, n], m, Err(1)),
        ]);
    }
    all
}

// A fault each, and all later ones with it. A case is the rows, the places for words, R and g, the start of row 0, and
// the number.
fn order(group: Group) -> Group {
    let mut all = group;
    for (rows, places, ticks, gap, start, number) in [
        (65, 66, 1, 601, 100, 1),
        (65, 65, 43201, 601, 100, 2),
        (64, 64, 1, 601, 100, 4),
        (64, 64, 100, 601, 100, 14),
        (64, 64, 100, 600, 100, 6),
    ] {
        let setting = Setting::round(ticks, gap);
        all = all.with_case(many(setting, start, [rows; 2], places, Err(number)));
    }
    all
}

pub fn all() -> Group {
    let mut all = carried(Group::default());
    all = not_carried(all);
    all = musts(all);
    all = overlaps(all);
    all = gaps(all);
    all = limits(all);
    all = hours(all);
    all = four(all);
    all = places(all);
    order(all)
}
