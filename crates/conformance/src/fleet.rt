// Fleet tapes (docs/RULES.md, Fleet tapes): what each states, or the number of its refusal. A call is judged whole:
// what it reports, and every place of the three lists.
use fleet_tape::{Report, read_fleet};
use table::Rows;
use trial_calls::{BEFORE, are_written, first, is_written, rows_of};
use trial_report::Group;
use window::Kind;

// ---- judged

// What a tape states.
#[derive(Clone, Copy)]
struct Stated<'a> {
    report: Report,
    rows: Rows<'a>,
}

// Whether a tape, read into lists of so many places, states this, or is refused by the number.
fn is_read_into(tape: &[u8], places: [usize; 3], expected: Result<Stated<'_>, u8>) -> bool {
    let before = u16::from(BEFORE);
    let mut starts = [before; 66];
    let mut ends = [before; 66];
    let mut marks = [BEFORE; 66];
    let read = read_fleet(
        tape,
        &mut starts[..places[0].min(66)],
        &mut ends[..places[1].min(66)],
        &mut marks[..places[2].min(66)],
    );
    let rows = match expected {
        Ok(stated) => stated.rows,
        Err(_) => rows_of(&[], &[], &[]),
    };
    read.map_err(u8::from) == expected.map(|stated| stated.report)
        && are_written(&starts, rows.starts, before)
        && are_written(&ends, rows.ends, before)
        && is_written(&marks, rows.marks)
}

// The same with the 64 places of each list that the reader asks for.
fn is_read(tape: &[u8], expected: Result<Stated<'_>, u8>) -> bool {
    is_read_into(tape, [64; 3], expected)
}

// A tape is of a round of so many ticks, which has no hours, and of these rows.
fn round_of<'a>(ticks: u16, starts: &'a [u16], ends: &'a [u16], marks: &'a [u8]) -> Stated<'a> {
    Stated {
        report: Report {
            kind: Kind::Round,
            ticks,
            hours: [[0, 0], [0, 0]],
            rows: starts.len(),
        },
        rows: rows_of(starts, ends, marks),
    }
}

// The same of a run with these hours.
fn run_of<'a>(
    ticks: u16,
    hours: [[u16; 2]; 2],
    starts: &'a [u16],
    ends: &'a [u16],
    marks: &'a [u8],
) -> Stated<'a> {
    Stated {
        report: Report {
            kind: Kind::Run,
            ticks,
            hours,
            rows: starts.len(),
        },
        rows: rows_of(starts, ends, marks),
    }
}

// ---- tapes of the form

// The session's round; no rows; a run with hours; a row of each mark. The form alone is judged: R, hours, starts and
// ends may be any numbers.
fn taken(group: Group) -> Group {
    let session =
        b"\x10\x00\x64\x40\x00\x0a\x00\x1e\x40\x00\x14\x00\x28\x40\x00\x19\x00\x32\x40\x00\x5a\x00\x0a\x7f";
    let run =
        b"\x11\x00\x64\x50\x00\x00\x00\x32\x00\x28\x00\x64\x40\x00\x2d\x00\x3c\x41\x00\x32\x00\x3c\x7f";
    let marks = [
        0x10, 0, 10, 0x40, 0, 1, 0, 2, 0x41, 0, 3, 0, 4, 0x42, 0, 5, 0, 6, 0x43, 0, 7, 0, 8, 0x44,
        0, 9, 0, 0, 0x45, 0, 0, 0, 0, 0x7F,
    ];
    let any = b"\x11\x00\x00\x50\xff\xff\x00\x00\x01\x02\x03\x04\x45\xff\xff\xff\xff\x7f";
    let hours = [[0, 50], [40, 100]];
    group.with_cases(&[
        is_read(
            session,
            Ok(round_of(100, &[10, 20, 25, 90], &[30, 40, 50, 10], &[0; 4])),
        ),
        is_read(b"\x10\xa8\xc1\x7f", Ok(round_of(43201, &[], &[], &[]))),
        is_read(run, Ok(run_of(100, hours, &[45, 50], &[60, 60], &[0, 1]))),
        is_read(
            &marks,
            Ok(round_of(
                10,
                &[1, 3, 5, 7, 9, 0],
                &[2, 4, 6, 8, 0, 0],
                &[0, 1, 2, 3, 4, 5],
            )),
        ),
        is_read(
            any,
            Ok(run_of(0, [[65535, 0], [258, 772]], &[65535], &[65535], &[5])),
        ),
    ])
}

// ---- tapes not of the form

// A tape is refused 11.
fn broken(tape: &[u8]) -> bool {
    is_read(tape, Err(11))
}

// No byte; STOP alone; no STOP; a byte after STOP; no operand, and one cut short; RUN without HOURS; ROUND with HOURS;
// a command of plan tapes; the commands beside those of rows.
fn not_of_the_form(group: Group) -> Group {
    group.with_cases(&[
        broken(b""),
        broken(b"\x7f"),
        broken(b"\x10\x00\x64"),
        broken(b"\x10\x00\x64\x7f\x00"),
        broken(b"\x10\x00\x64\x40\x7f"),
        broken(b"\x10\x00\x64\x40\x00\x0a\x00\x7f"),
        broken(b"\x11\x00\x64\x7f"),
        broken(b"\x10\x00\x64\x50\x00\x00\x00\x32\x00\x28\x00\x64\x7f"),
        broken(b"\x10\x00\x64\x20\x01\x7f"),
        broken(b"\x10\x00\x64\x3f\x00\x0a\x00\x1e\x7f"),
        broken(b"\x10\x00\x64\x46\x00\x0a\x00\x1e\x7f"),
    ])
}

// ---- lists and rows

// Lists of other than 64 places are refused 1, also for a tape that is not of the form.
fn other_places(group: Group) -> Group {
    let tape = b"\x10\x00\x64\x40\x00\x0a\x00\x1e\x7f";
    let mut g = group;
    for places in [[63, 64, 64], [64, 65, 64], [64, 64, 63], [65, 65, 65]] {
        g = g.with_cases(&[
            is_read_into(tape, places, Err(1)),
            is_read_into(b"", places, Err(1)),
        ]);
    }
    g
}

// A round with so many times the row 10–30 of mark 1, and STOP or another byte after them.
fn rows(rows: usize, stop: u8, expected: Result<Stated<'_>, u8>) -> bool {
    let bytes: [u8; 329] = std::array::from_fn(|i| match i {
        0 => 0x10,
        1 => 0,
        2 => 100,
        _ if (i - 3) / 5 < rows => [0x41, 0, 10, 0, 30][(i - 3) % 5],
        _ => stop,
    });
    is_read(first(&bytes, 4 + 5 * rows.min(65)), expected)
}

// 64 rows are read; 65 are refused 2, but 11 comes before that.
fn many_rows(group: Group) -> Group {
    let stated = round_of(100, &[10; 64], &[30; 64], &[1; 64]);
    group.with_cases(&[
        rows(64, 0x7F, Ok(stated)),
        rows(64, 0x30, Err(11)),
        rows(65, 0x7F, Err(2)),
        rows(65, 0x30, Err(11)),
    ])
}

pub fn all() -> Group {
    let mut g = taken(Group::default());
    g = not_of_the_form(g);
    g = other_places(g);
    many_rows(g)
}
