// Replies to fleet tapes (docs/RULES.md, The program): the session, rows for one receiver only, rows that send all day,
// touching rows, refusals, and tapes of up to 400 bytes and of more. Text, output and working space are judged.
use std::array::from_fn;
use trial_calls::{BEFORE, LENT_BYTES, first, is_left, is_written};
use trial_report::Group;

// The length of the reply if it is lent so many of the bytes of working space.
fn reply_in(tape: &[u8], out: &mut [u8], space: &mut [u8], bytes: usize) -> usize {
    let m = bytes.min(space.len());
    reply::reply(tape, out, &mut space[..m])
}

// The text for a refusal of this number, written out.
fn refused(number: u8) -> &'static [u8] {
    match number {
        2 => b"refused 2\n",
        3 => b"refused 3\n",
        4 => b"refused 4\n",
        5 => b"refused 5\n",
        6 => b"refused 6\n",
        8 => b"refused 8\n",
        11 => b"refused 11\n",
        _ => b"",
    }
}

// Whether the reply to a fleet tape, lent so many bytes of working space, is the text, or says the refusal of this
// number, and the working space is left as by the planner.
fn is_replied_in(tape: &[u8], bytes: usize, expected: Result<&[u8], u8>) -> bool {
    let text = match expected {
        Ok(text) => text,
        Err(number) => refused(number),
    };
    let mut out = [BEFORE; 410];
    let mut space = [BEFORE; LENT_BYTES];
    let n = reply_in(tape, &mut out, &mut space, bytes);
    n == text.len() && is_written(&out, text) && is_left(&space, expected.err())
}

// The same with all of it.
fn is_replied(tape: &[u8], expected: Result<&[u8], u8>) -> bool {
    is_replied_in(tape, LENT_BYTES, expected)
}

// The session's windows, 10–30, 20–40, 25–50 and 90–10 in a round of 100 ticks, with these commands. The first three
// overlap each other, and the last overlaps none.
fn session_tape([a, b, c, d]: [u8; 4], expected: Result<&[u8], u8>) -> bool {
    let tape = [
        0x10, 0x00, 0x64, a, 0x00, 0x0A, 0x00, 0x1E, b, 0x00, 0x14, 0x00, 0x28, c, 0x00, 0x19,
        0x00, 0x32, d, 0x00, 0x5A, 0x00, 0x0A, 0x7F,
    ];
    is_replied(&tape, expected)
}

// 45–60, 50–60 with this command and 0–50 in a run of 100 ticks, with the hours 0–50 and 40–100.
fn run_tape(command: u8, text: &[u8]) -> bool {
    let tape = [
        0x11, 0x00, 0x64, 0x50, 0x00, 0x00, 0x00, 0x32, 0x00, 0x28, 0x00, 0x64, 0x40, 0x00, 0x2D,
        0x00, 0x3C, command, 0x00, 0x32, 0x00, 0x3C, 0x40, 0x00, 0x00, 0x00, 0x32, 0x7F,
    ];
    is_replied(&tape, Ok(text))
}

// A round of 256 × high + low ticks with the row 0–1.
fn round_tape([high, low]: [u8; 2], expected: Result<&[u8], u8>) -> bool {
    let tape = [0x10, high, low, 0x40, 0x00, 0x00, 0x00, 0x01, 0x7F];
    is_replied(&tape, expected)
}

// A run of 100 ticks with the hours 0–q and 0–100 and the row 10 to `end`. With q 0 receiver 1 is closed.
fn hours_tape(command: u8, q: u8, end: u8, expected: Result<&[u8], u8>) -> bool {
    let tape = [
        0x11, 0x00, 0x64, 0x50, 0x00, 0x00, 0x00, q, 0x00, 0x00, 0x00, 0x64, command, 0x00, 0x0A,
        0x00, end, 0x7F,
    ];
    is_replied(&tape, expected)
}

// Tapes that are taken and planned, the session's first, and refusals of the planner.
fn planned(group: Group) -> Group {
    group.with_cases(&[
        session_tape([0x40; 4], Ok(b"heard 3\n0 1\n1 2\n2 0\n3 1\n")),
        run_tape(0x40, b"heard 2\n0 2\n1 0\n2 1\n"),
        run_tape(0x41, b"heard 2\n0 0\n1 2\n2 1\n"),
        is_replied(&[0x10, 0x00, 0x64, 0x7F], Ok(b"heard 0\n")),
        round_tape([0, 2], Ok(b"heard 1\n0 1\n")),
        round_tape([0, 1], Err(4)),
        round_tape([0xA8, 0xC0], Ok(b"heard 1\n0 1\n")),
        round_tape([0xA8, 0xC1], Err(4)),
        hours_tape(0x40, 100, 20, Ok(b"heard 1\n0 1\n")),
        hours_tape(0x40, 101, 20, Err(5)),
        hours_tape(0x40, 100, 10, Err(6)),
    ])
}

// Commands 42 to 45, marks 2 to 5. May on 1, must on 1, may on 2, must on 2: row 1 takes receiver 1, which leaves row 0
// unheard. Two musts on 1 that overlap. Must, and may, on the closed receiver 1; must on receiver 2 beside it.
fn one_receiver(group: Group) -> Group {
    group.with_cases(&[
        session_tape(
            [0x42, 0x43, 0x44, 0x45],
            Ok(b"heard 3\n0 0\n1 1\n2 2\n3 2\n"),
        ),
        session_tape([0x43, 0x43, 0x40, 0x40], Err(8)),
        hours_tape(0x43, 0, 20, Err(8)),
        hours_tape(0x42, 0, 20, Ok(b"heard 0\n0 0\n")),
        hours_tape(0x45, 0, 20, Ok(b"heard 1\n0 2\n")),
    ])
}

// A round of 100 ticks with the rows s–s, 20 to `end1` and 90 to `end2`, with these commands.
fn all_day_tape(
    [a, b, c]: [u8; 3],
    s: u8,
    end1: u8,
    end2: u8,
    expected: Result<&[u8], u8>,
) -> bool {
    let tape = [
        0x10, 0x00, 0x64, a, 0x00, s, 0x00, s, b, 0x00, 0x14, 0x00, end1, c, 0x00, 0x5A, 0x00,
        end2, 0x7F,
    ];
    is_replied(&tape, expected)
}

// Rows that send all day: three that may and three that must be heard; one that must be, and one on receiver 2 only,
// beside 20–40 and 90–10; one at R. In a run such a row is refused (`planned`).
fn all_day(group: Group) -> Group {
    let three = b"heard 2\n0 1\n1 2\n2 0\n";
    let must = b"heard 3\n0 1\n1 2\n2 2\n";
    let second = b"heard 3\n0 2\n1 1\n2 1\n";
    group.with_cases(&[
        all_day_tape([0x40, 0x40, 0x40], 10, 20, 90, Ok(three)),
        all_day_tape([0x41, 0x41, 0x41], 10, 20, 90, Err(8)),
        all_day_tape([0x41, 0x40, 0x40], 99, 40, 10, Ok(must)),
        all_day_tape([0x44, 0x40, 0x42], 0, 40, 10, Ok(second)),
        all_day_tape([0x40, 0x40, 0x40], 100, 40, 10, Err(6)),
    ])
}

// 20–40 and 40–`end` in a round of 100 ticks that receiver 1 alone must hear.
fn touching_round(end: u8) -> bool {
    let tape = [
        0x10, 0x00, 0x64, 0x43, 0x00, 0x14, 0x00, 0x28, 0x43, 0x00, 0x28, 0x00, end, 0x7F,
    ];
    is_replied(&tape, Ok(b"heard 2\n0 1\n1 1\n"))
}

// 20–40 and 40–100 in a run of 100 ticks, in which receiver 1 is open all the time and receiver 2 never.
fn touching_run() -> bool {
    let tape = [
        0x11, 0x00, 0x64, 0x50, 0x00, 0x00, 0x00, 0x64, 0x00, 0x00, 0x00, 0x00, 0x41, 0x00, 0x14,
        0x00, 0x28, 0x41, 0x00, 0x28, 0x00, 0x64, 0x7F,
    ];
    is_replied(&tape, Ok(b"heard 2\n0 1\n1 1\n"))
}

// The gap is 0: one receiver hears windows that touch, on one side and on both.
fn touching(group: Group) -> Group {
    group.with_cases(&[touching_round(60), touching_round(20), touching_run()])
}

// A round of 10 ticks with the row 4–5 three times, lent so many bytes of working space.
fn lent(command: u8, bytes: usize, expected: Result<&[u8], u8>) -> bool {
    let tape = [
        0x10, 0x00, 0x0A, command, 0x00, 0x04, 0x00, 0x05, command, 0x00, 0x04, 0x00, 0x05,
        command, 0x00, 0x04, 0x00, 0x05, 0x7F,
    ];
    is_replied_in(&tape, bytes, expected)
}

// Below 4,608 bytes refusal 3; a tape that is not of the form is refused before that. With enough, rows that may be
// heard, and rows that must be, of which there is no plan.
fn working_space(group: Group) -> Group {
    let mut g = group.with_cases(&[
        lent(0x40, 0, Err(3)),
        lent(0x40, 4607, Err(3)),
        lent(0x41, 4607, Err(3)),
        lent(0x46, 4607, Err(11)),
    ]);
    for bytes in [4608, 4609, 16383, 16384] {
        g = g.with_cases(&[
            lent(0x40, bytes, Ok(b"heard 2\n0 1\n1 2\n2 0\n")),
            lent(0x41, bytes, Err(8)),
        ]);
    }
    g
}

// A tape that is not of the form.
fn broken(tape: &[u8]) -> bool {
    is_replied(tape, Err(11))
}

// No byte; no STOP; a byte after STOP; a command of plan tapes; RUN without HOURS; ROUND with HOURS; an operand cut
// short; 3F and 46 for a row.
fn not_of_the_form(group: Group) -> Group {
    group.with_cases(&[
        broken(&[]),
        broken(&[0x10, 0x00, 0x64]),
        broken(&[0x10, 0x00, 0x64, 0x7F, 0x7F]),
        broken(&[0x10, 0x00, 0x64, 0x20, 0x01, 0x7F]),
        broken(&[0x11, 0x00, 0x64, 0x7F]),
        broken(&[0x10, 0, 0x64, 0x50, 0, 0, 0, 0, 0, 0, 0, 0, 0x7F]),
        broken(&[0x10, 0x00, 0x64, 0x40, 0x00, 0x0A, 0x00, 0x7F]),
        broken(&[0x10, 0x00, 0x64, 0x3F, 0x00, 0x0A, 0x00, 0x1E, 0x7F]),
        broken(&[0x10, 0x00, 0x64, 0x46, 0x00, 0x0A, 0x00, 0x1E, 0x7F]),
    ])
}

// MUST 10–30.
const MUST: [u8; 5] = [0x41, 0, 10, 0, 30];

// The tape that begins with `head` and has so many times MUST 10–30; STOP from there on.
fn long_tape(head: &[u8], rows: usize) -> [u8; 405] {
    from_fn(|i| match i.checked_sub(head.len()) {
        None => head[i],
        Some(place) if place / 5 < rows => MUST[place % 5],
        Some(_) => 0x7F,
    })
}

// The reply to so many bytes of it.
fn long(head: &[u8], rows: usize, bytes: usize, number: u8) -> bool {
    is_replied(first(&long_tape(head, rows), bytes), Err(number))
}

// Tapes of a round are of the form with 4 + 5 × rows bytes. With 64 rows the planner is asked, and finds no plan; up to
// 79 rows give 2; 80 rows are 404 bytes, which are too many. Tapes of 400 and 401 bytes are never of the form. A tape
// that is not is refused before its rows are counted.
fn long_rounds(group: Group) -> Group {
    let head = [0x10, 0x00, 0x64];
    group.with_cases(&[
        long(&head, 64, 324, 8),
        long(&head, 65, 329, 2),
        long(&head, 65, 330, 11),
        long(&head, 79, 399, 2),
        long(&head, 79, 400, 11),
        long(&head, 79, 401, 11),
        long(&head, 80, 404, 11),
    ])
}

// Tapes of a run are of the form with 13 + 5 × rows bytes: 77 rows are 398 bytes, 78 rows 403.
fn long_runs(group: Group) -> Group {
    let head = [0x11, 0x00, 0x64, 0x50, 0, 0, 0, 100, 0, 0, 0, 100];
    group.with_cases(&[
        long(&head, 64, 333, 8),
        long(&head, 65, 338, 2),
        long(&head, 77, 398, 2),
        long(&head, 77, 400, 11),
        long(&head, 78, 401, 11),
        long(&head, 78, 403, 11),
    ])
}

// An output of fewer than 400 bytes gets nothing, and the working space is left.
fn short_output(group: Group) -> Group {
    let mut out = [BEFORE; 399];
    let mut space = [BEFORE; LENT_BYTES];
    let n = reply_in(b"\x10\x00\x64\x7f", &mut out, &mut space, LENT_BYTES);
    group.with_case(n == 0 && is_written(&out, b"") && is_left(&space, Some(1)))
}

pub fn all() -> Group {
    let mut g = planned(Group::default());
    g = one_receiver(g);
    g = all_day(g);
    g = touching(g);
    g = working_space(g);
    g = short_output(g);
    g = not_of_the_form(g);
    g = long_rounds(g);
    long_runs(g)
}
