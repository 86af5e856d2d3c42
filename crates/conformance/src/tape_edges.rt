// The plan tape writer on both sides of its limits: R 1, 2, 43,200 and 43,201, a gap of 600 and 601, and the tape of 64
// heard rows, than which none is longer. The bytes expected of it are written out here or made by this file's loops: no
// product code makes them.
use std::array::from_fn;
use table::Setting;
use trial_calls::{is_taped, open_all, table_of};
use trial_report::Group;
use window::Kind;

// The commands that begin the tape of a round and of a run.
const KINDS: [(Kind, u8); 2] = [(Kind::Round, 0x10), (Kind::Run, 0x11)];

// ---- R and the gap

// No rows, open all the time, with room for a tape of no rows and not more.
fn no_rows(kind: Kind, ticks: u16, gap: u16, expected: Result<&[u8], u8>) -> bool {
    is_taped(
        table_of(open_all(kind, ticks, gap), &[], &[], &[]),
        &[],
        8,
        expected,
    )
}

fn refused(group: Group, ticks: u16, gap: u16, number: u8) -> Group {
    group.with_cases(&[
        no_rows(Kind::Round, ticks, gap, Err(number)),
        no_rows(Kind::Run, ticks, gap, Err(number)),
    ])
}

// R is these two bytes of the tape, which has no gap on it.
fn taken(group: Group, ticks: u16, gap: u16, [high, low]: [u8; 2]) -> Group {
    let mut g = group;
    for (kind, command) in KINDS {
        let tape = [command, high, low, 0x20, 0x01, 0x20, 0x02, 0x7F];
        g = g.with_case(no_rows(kind, ticks, gap, Ok(&tape)));
    }
    g
}

// One row, which receiver 2 hears.
fn one_row(kind: Kind, ticks: u16, start: u16, end: u16, tape: &[u8]) -> bool {
    let setting = Setting {
        hours: [[0, 0], [0, ticks]],
        ..open_all(kind, ticks, 0)
    };
    is_taped(
        table_of(setting, &[start], &[end], &[1]),
        &[2],
        14,
        Ok(tape),
    )
}

// A row of the last tick, whose number is 1 less than R and so is its low byte. It ends at 0 in a round and at R in a
// run.
fn last_tick(group: Group, ticks: u16, [high, low]: [u8; 2]) -> Group {
    let start = ticks.wrapping_sub(1);
    let before = low.wrapping_sub(1);
    let round = [
        0x10, high, low, 0x20, 0x01, 0x20, 0x02, 0x30, 0x00, high, before, 0x00, 0x00, 0x7F,
    ];
    let run = [
        0x11, high, low, 0x20, 0x01, 0x20, 0x02, 0x30, 0x00, high, before, high, low, 0x7F,
    ];
    group.with_cases(&[
        one_row(Kind::Round, ticks, start, 0, &round),
        one_row(Kind::Run, ticks, start, ticks, &run),
    ])
}

fn ticks(group: Group) -> Group {
    let mut g = refused(group, 1, 0, 4);
    g = taken(g, 2, 0, [0x00, 0x02]);
    g = taken(g, 43200, 0, [0xA8, 0xC0]);
    g = refused(g, 43201, 0, 4);
    g = last_tick(g, 2, [0x00, 0x02]);
    last_tick(g, 43200, [0xA8, 0xC0])
}

// 14 for a gap above 600; an R that is refused comes before it.
fn gaps(group: Group) -> Group {
    let mut g = taken(group, 2, 600, [0x00, 0x02]);
    g = taken(g, 43200, 600, [0xA8, 0xC0]);
    g = refused(g, 43200, 601, 14);
    g = refused(g, 2, 65535, 14);
    refused(g, 43201, 601, 4)
}

// ---- 64 heard rows
// Row 63 starts at 0 and each row before it 600 ticks later, for 1,200 ticks; receivers 1 and 2 take turns from row 0
// on. So rows of one receiver touch, those of two overlap, and the LISTENs are in the opposite order of the rows.

// The tick that lies so many after a row's start.
fn tick_after(row: usize, ticks: u16) -> u16 {
    (((63 - row % 64) * 600) as u16).wrapping_add(ticks)
}

// Receivers 1 and 2 in turn.
pub fn labels() -> [u8; 64] {
    from_fn(|row| (row % 2 + 1) as u8)
}

// The LISTEN of a row.
fn listen(row: usize) -> [u8; 6] {
    let [high, low] = tick_after(row, 0).to_be_bytes();
    let [high2, low2] = tick_after(row, 1200).to_be_bytes();
    [0x30, (row % 64) as u8, high, low, high2, low2]
}

// The tape, with the command for round or run. Receiver 1 hears each second row from 62 down, receiver 2 from 63 down.
fn tape_of_64(command: u8) -> [u8; 392] {
    let mut tape = [0x7F; 392];
    tape[..5].copy_from_slice(&[command, 0xA8, 0xC0, 0x20, 0x01]);
    tape[197..199].copy_from_slice(&[0x20, 0x02]);
    for n in 0..32 {
        tape[5 + 6 * n..11 + 6 * n].copy_from_slice(&listen(62 - 2 * n));
        tape[199 + 6 * n..205 + 6 * n].copy_from_slice(&listen(63 - 2 * n));
    }
    tape
}

// The 64 rows, all of which must be heard, with a gap and so many bytes for the tape.
fn rows_64(kind: Kind, gap: u16, bytes: usize, expected: Result<&[u8], u8>) -> bool {
    let starts: [u16; 64] = from_fn(|row| tick_after(row, 0));
    let ends: [u16; 64] = from_fn(|row| tick_after(row, 1200));
    is_taped(
        table_of(open_all(kind, 43200, gap), &starts, &ends, &[1; 64]),
        &labels(),
        bytes,
        expected,
    )
}

// It fits 392 bytes, and bytes after them are untouched; a buffer of 391 gives 10. With a gap the rows of one receiver
// are too close.
fn rows(group: Group) -> Group {
    let round = tape_of_64(0x10);
    let run = tape_of_64(0x11);
    group.with_cases(&[
        rows_64(Kind::Round, 0, 392, Ok(&round)),
        rows_64(Kind::Round, 0, 400, Ok(&round)),
        rows_64(Kind::Round, 0, 391, Err(10)),
        rows_64(Kind::Run, 0, 392, Ok(&run)),
        rows_64(Kind::Run, 0, 391, Err(10)),
        rows_64(Kind::Round, 1, 400, Err(9)),
        rows_64(Kind::Run, 1, 400, Err(9)),
    ])
}

// The cases of a group, and these.
pub fn with_edges(group: Group) -> Group {
    rows(gaps(ticks(group)))
}
