// Held tables (docs/RULES.md, Held table): changes with the labels that they give or the number of their refusal. Each
// is judged whole: the answer, the numbers, every place of the four lists and every byte of the working space.
use held_table::{Held, Numbers};
use refusals::Refusal;
use trial_calls::{BEFORE, LENT_BYTES, heard, is_answer, is_left, row};
use trial_report::Group;
use window::Row;

// What is called.
#[derive(Clone, Copy)]
enum Change {
    Add(Row),
    Withdraw(usize),
}

// A change, and the labels that are held after it or the number of its refusal, which leaves all.
type Case<'a> = (Change, Result<&'a [u8], u8>);

use Change::Withdraw;

fn add(start: u16, end: u16, mark: u8) -> Change {
    Change::Add(row(start, end, mark))
}

// ---- a table, kept once more

// A call is lent the first places of each list, at most 64: the two more show a step beyond.
#[derive(Clone, Copy, PartialEq, Eq)]
struct Kept {
    numbers: Numbers,
    starts: [u16; 66],
    ends: [u16; 66],
    marks: [u8; 66],
    labels: [u8; 66],
}

// The places of the starts, ends, marks and labels that a call is lent, and the bytes of working space.
#[derive(Clone, Copy)]
struct Lent {
    places: [usize; 4],
    bytes: usize,
}

fn with_bytes(bytes: usize) -> Lent {
    Lent {
        places: [64; 4],
        bytes,
    }
}

// A list without place k, of so many that count: the later ones move up, and the places from the last on stay.
fn without<T: Copy>(list: &[T; 66], k: usize, rows: usize) -> [T; 66] {
    let mut moved = *list;
    let end = rows.min(66);
    if k < end {
        moved.copy_within(k + 1..end, k);
    }
    moved
}

impl Kept {
    // An empty table. Its lists have another number at each place, so that one that is moved is seen.
    fn empty(ticks: u16, gap: u16) -> Kept {
        Kept {
            numbers: Numbers {
                ticks,
                gap,
                rows: 0,
                count: 0,
            },
            starts: std::array::from_fn(|i| 50000u16.wrapping_add(i as u16)),
            ends: std::array::from_fn(|i| 60000u16.wrapping_add(i as u16)),
            marks: std::array::from_fn(|i| 100u8.wrapping_add(i as u8)),
            labels: std::array::from_fn(|i| 180u8.wrapping_add(i as u8)),
        }
    }

    // With a row at a place.
    fn with_row_at(mut self, i: usize, row: Row) -> Kept {
        if i < 66 {
            self.starts[i] = row.start;
            self.ends[i] = row.end;
            self.marks[i] = row.mark;
        }
        self
    }

    // With another number of rows that count.
    fn with_rows(mut self, rows: usize) -> Kept {
        self.numbers.rows = rows;
        self
    }

    // With other R and g.
    fn with_setting(mut self, ticks: u16, gap: u16) -> Kept {
        self.numbers.ticks = ticks;
        self.numbers.gap = gap;
        self
    }

    // With these labels, and as count how many of them are 1 or 2.
    fn with_labels(mut self, labels: &[u8]) -> Kept {
        let n = labels.len().min(66);
        self.labels[..n].copy_from_slice(&labels[..n]);
        self.numbers.count = heard(labels);
        self
    }

    fn without_row(self, k: usize) -> Kept {
        let rows = self.numbers.rows;
        Kept {
            starts: without(&self.starts, k, rows),
            ends: without(&self.ends, k, rows),
            marks: without(&self.marks, k, rows),
            ..self
        }
    }

    // The changed table with these labels.
    fn changed(self, change: Change, labels: &[u8]) -> Kept {
        let rows = self.numbers.rows;
        let changed = match change {
            Change::Add(row) => self.with_row_at(rows, row),
            Change::Withdraw(k) => self.without_row(k),
        };
        changed.with_rows(labels.len()).with_labels(labels)
    }

    // What a call answers, and what is held after it.
    fn call(
        mut self,
        change: Change,
        lent: Lent,
        space: &mut [u8],
    ) -> (Result<usize, Refusal>, Kept) {
        let [starts, ends, marks, labels] = lent.places;
        let mut held = Held {
            numbers: self.numbers,
            starts: &mut self.starts[..starts.min(66)],
            ends: &mut self.ends[..ends.min(66)],
            marks: &mut self.marks[..marks.min(66)],
        };
        let labels = &mut self.labels[..labels.min(66)];
        let bytes = lent.bytes.min(space.len());
        let answer = match change {
            Change::Add(row) => held.add(row, labels, &mut space[..bytes]),
            Change::Withdraw(k) => held.withdraw(k, labels, &mut space[..bytes]),
        };
        self.numbers = held.numbers;
        (answer, self)
    }

    // Whether a change gives what is expected.
    fn gives(self, lent: Lent, (change, expected): Case) -> bool {
        let mut space = [BEFORE; LENT_BYTES];
        let (answer, held) = self.call(change, lent, &mut space);
        is_answer(answer, expected.map(heard))
            && is_left(&space, expected.err())
            && held == expected.map_or(self, |labels| self.changed(change, labels))
    }
}

// Changes of one table, each of the table as it is.
fn tried_in(group: Group, kept: Kept, lent: Lent, cases: &[Case]) -> Group {
    cases
        .iter()
        .fold(group, |all, case| all.with_case(kept.gives(lent, *case)))
}

fn tried(group: Group, kept: Kept, cases: &[Case]) -> Group {
    tried_in(group, kept, with_bytes(LENT_BYTES), cases)
}

// Changes one after the other, from an empty table on.
fn in_turn(group: Group, ticks: u16, gap: u16, cases: &[Case]) -> Group {
    let mut all = group;
    let mut kept = Kept::empty(ticks, gap);
    for case in cases {
        all = tried(all, kept, &[*case]);
        let (change, expected) = *case;
        kept = expected.map_or(kept, |labels| kept.changed(change, labels));
    }
    all
}

// ---- begin

fn is_begun(ticks: u16, gap: u16, expected: Result<(), u8>) -> bool {
    let begun = expected.map(|()| Kept::empty(ticks, gap).numbers);
    held_table::begin(ticks, gap).map_err(u8::from) == begun
}

fn begins(group: Group) -> Group {
    let mut all = group;
    for (ticks, gap, expected) in [
        (2, 0, Ok(())),
        (43200, 600, Ok(())),
        (0, 0, Err(4)),
        (1, 0, Err(4)),
        (43201, 0, Err(4)),
        (65535, 0, Err(4)),
        (2, 601, Err(14)),
        (43200, 65535, Err(14)),
        (1, 601, Err(4)),
        (43201, 601, Err(4)),
    ] {
        all = all.with_case(is_begun(ticks, gap, expected));
    }
    all
}

// ---- examples

// Where row 0 is withdrawn from four, a plan that is only shortened would be 2 0 1; with rows that do not move up, so
// that the last is lost, it would be 1 2 0; and with the last row in the place of row 0, 1 1 2.
fn session(group: Group) -> Group {
    in_turn(
        group,
        100,
        0,
        &[
            (add(10, 30, 0), Ok(&[1])),
            (add(20, 40, 0), Ok(&[1, 2])),
            (add(25, 50, 0), Ok(&[1, 2, 0])),
            (add(90, 10, 0), Ok(&[1, 2, 0, 1])),
            (Withdraw(0), Ok(&[1, 2, 1])),
            (Withdraw(2), Ok(&[1, 2])),
            (Withdraw(0), Ok(&[1])),
            (Withdraw(0), Ok(&[])),
        ],
    )
}

// If marks moved up but not ends, 0–5 and 10–50 would be left, 1 1.
fn moved(group: Group) -> Group {
    in_turn(
        group,
        100,
        0,
        &[
            (add(0, 5, 0), Ok(&[1])),
            (add(0, 50, 0), Ok(&[1, 2])),
            (add(10, 20, 3), Ok(&[1, 2, 1])),
            (Withdraw(0), Ok(&[2, 1])),
        ],
    )
}

// 3 ticks lie between the first two and the last two, and 1 over the end of the day.
fn gaps(group: Group) -> Group {
    in_turn(
        group,
        12,
        3,
        &[
            (add(0, 2, 0), Ok(&[1])),
            (add(5, 7, 0), Ok(&[1, 1])),
            (add(10, 11, 0), Ok(&[1, 1, 2])),
            (Withdraw(0), Ok(&[1, 1])),
        ],
    )
}

// Rows that must be heard take the receivers from earlier rows: with the labels of these left as they are, 8 would be
// given. A row that is refused by 8 and left in would be planned with the next change. 7–7 sends all day.
fn marks(group: Group) -> Group {
    in_turn(
        group,
        10,
        0,
        &[
            (add(4, 5, 0), Ok(&[1])),
            (add(4, 5, 2), Ok(&[2, 1])),
            (add(4, 5, 4), Ok(&[1, 0, 2])),
            (add(4, 5, 1), Ok(&[1, 0, 0, 2])),
            (add(4, 5, 3), Ok(&[0, 0, 0, 2, 1])),
            (add(4, 5, 5), Err(8)),
            (add(7, 7, 0), Ok(&[0, 0, 0, 2, 1, 0])),
            (Withdraw(3), Ok(&[2, 0, 0, 1, 0])),
            (add(4, 5, 5), Ok(&[0, 0, 0, 1, 0, 2])),
            (Withdraw(3), Ok(&[1, 0, 0, 0, 2])),
        ],
    )
}

// ---- edges

// In a round of 10 ticks: 4–5 and 4–5, which must be heard, and 8–9.
fn three_rows() -> Kept {
    Kept::empty(10, 0)
        .with_row_at(0, row(4, 5, 1))
        .with_row_at(1, row(4, 5, 1))
        .with_row_at(2, row(8, 9, 0))
        .with_rows(3)
        .with_labels(&[1, 2, 1])
}

// In a round of 100 ticks: 0–1, 1–2 and so on to 63–64.
fn full() -> Kept {
    (0..64)
        .fold(
            Kept::empty(100, 0),
            |kept, i| kept.with_row_at(usize::from(i), row(i, i + 1, 0)),
        )
        .with_rows(64)
        .with_labels(&[1; 64])
}

// Starts, ends and marks on both sides of their limits; a row that finds no receiver; the rows that there are and those
// that there are not.
fn rows(group: Group) -> Group {
    tried(
        group,
        three_rows(),
        &[
            (add(9, 0, 0), Ok(&[1, 2, 1, 1])),
            (add(10, 0, 0), Err(6)),
            (add(65535, 0, 0), Err(6)),
            (add(0, 9, 0), Ok(&[1, 2, 1, 0])),
            (add(0, 10, 0), Err(6)),
            (add(0, 65535, 0), Err(6)),
            (add(9, 9, 0), Ok(&[1, 2, 1, 0])),
            (add(10, 10, 0), Err(6)),
            (add(0, 2, 5), Ok(&[1, 2, 1, 2])),
            (add(0, 2, 6), Err(7)),
            (add(0, 2, 255), Err(7)),
            (add(4, 5, 0), Ok(&[1, 2, 1, 0])),
            (add(4, 5, 1), Err(8)),
            (Withdraw(0), Ok(&[1, 1])),
            (Withdraw(2), Ok(&[1, 2])),
            (Withdraw(3), Err(15)),
            (Withdraw(64), Err(15)),
            (Withdraw(usize::MAX), Err(15)),
        ],
    )
}

// The least R, no rows, and the 64th row and the 65th.
fn row_counts(group: Group) -> Group {
    let least = Kept::empty(2, 0);
    let less = full().with_rows(63).with_labels(&[1; 63]);
    let mut all = tried(
        group,
        least,
        &[
            (add(1, 0, 0), Ok(&[1])),
            (add(1, 2, 0), Err(6)),
            (Withdraw(0), Err(15)),
        ],
    );
    all = tried(
        all,
        less,
        &[(add(64, 65, 0), Ok(&[1; 64])), (Withdraw(63), Err(15))],
    );
    tried(
        all,
        full(),
        &[
            (add(64, 65, 0), Err(2)),
            (Withdraw(0), Ok(&[1; 63])),
            (Withdraw(63), Ok(&[1; 63])),
            (Withdraw(64), Err(15)),
        ],
    )
}

// Working space on both sides of 4,608 bytes, and each list with a place less and a place more than 64.
fn places_and_bytes(group: Group) -> Group {
    let kept = three_rows();
    let mut all = group;
    for bytes in [0, 4607] {
        let cases: [Case; 2] = [(add(0, 2, 0), Err(3)), (Withdraw(0), Err(3))];
        all = tried_in(all, kept, with_bytes(bytes), &cases);
    }
    for bytes in [4608, 4609, 16384] {
        let cases: [Case; 2] = [
            (add(0, 2, 0), Ok(&[1, 2, 1, 1])),
            (Withdraw(0), Ok(&[1, 1])),
        ];
        all = tried_in(all, kept, with_bytes(bytes), &cases);
    }
    for list in 0..4 {
        for n in [0, 63, 65] {
            let lent = Lent {
                places: std::array::from_fn(|i| if i == list { n } else { 64 }),
                bytes: LENT_BYTES,
            };
            let cases: [Case; 2] = [(add(0, 2, 0), Err(1)), (Withdraw(0), Err(1))];
            all = tried_in(all, kept, lent, &cases);
        }
    }
    all
}

// A fault each, and the later ones with it. A case is the table, the places for labels, the bytes of working space, the
// change and the number.
fn order(group: Group) -> Group {
    let mut all = group;
    for (kept, labels, bytes, change, number) in [
        (full(), 63, 4607, add(4, 100, 7), 1),
        (full(), 64, 4607, add(4, 100, 7), 2),
        (full(), 64, 4608, add(4, 5, 7), 2),
        (three_rows(), 63, 4607, add(4, 10, 7), 1),
        (three_rows(), 64, 4607, add(4, 10, 7), 3),
        (three_rows(), 64, 4608, add(4, 10, 7), 6),
        (three_rows(), 64, 4608, add(4, 5, 7), 7),
        (three_rows(), 64, 4608, add(4, 5, 1), 8),
        (three_rows(), 63, 4607, Withdraw(3), 1),
        (three_rows(), 64, 4607, Withdraw(3), 3),
        (three_rows(), 64, 4608, Withdraw(3), 15),
    ] {
        let lent = Lent {
            places: [64, 64, 64, labels],
            bytes,
        };
        all = tried_in(all, kept, lent, &[(change, Err(number))]);
    }
    all
}

// ---- tables that came from no calls

// What the planner looks at comes after 1, 2, 3 and 15, and before the added row. A withdrawn row is not looked at.
fn damaged(group: Group) -> Group {
    let kept = three_rows();
    let wrong = kept.with_row_at(1, row(4, 10, 6));
    let mut all = group;
    for (damaged, change, expected) in [
        (kept.with_rows(65), add(6, 7, 0), Err(2)),
        (kept.with_rows(65), Withdraw(64), Err(2)),
        (kept.with_rows(65), Withdraw(65), Err(15)),
        (kept.with_rows(usize::MAX), Withdraw(0), Err(2)),
        (kept.with_setting(1, 601), add(10, 0, 6), Err(4)),
        (kept.with_setting(1, 601), Withdraw(3), Err(15)),
        (kept.with_setting(8, 601), Withdraw(0), Err(14)),
        (kept.with_setting(8, 0), add(6, 7, 0), Err(6)),
        (kept.with_setting(8, 0), Withdraw(2), Ok(&[1, 2][..])),
        (wrong, add(4, 5, 6), Err(6)),
        (wrong, Withdraw(0), Err(6)),
        (wrong, Withdraw(1), Ok(&[1, 1])),
        (kept.with_rows(4), add(6, 7, 0), Err(6)),
        (kept.with_rows(4), Withdraw(3), Ok(&[1, 2, 1])),
        (kept.with_row_at(2, row(4, 5, 1)), add(6, 7, 0), Err(8)),
        (kept.with_row_at(2, row(4, 5, 1)), Withdraw(0), Ok(&[1, 2])),
        (kept.with_labels(&[9, 0, 255]), Withdraw(3), Err(15)),
        (kept.with_labels(&[9, 0, 255]), Withdraw(0), Ok(&[1, 1])),
    ] {
        all = tried(all, damaged, &[(change, expected)]);
    }
    all
}

pub fn all() -> Group {
    let mut all = begins(Group::default());
    all = session(all);
    all = moved(all);
    all = gaps(all);
    all = marks(all);
    all = rows(all);
    all = row_counts(all);
    all = places_and_bytes(all);
    all = order(all);
    damaged(all)
}
