// The reader of fleet tapes: the form is judged to the end of the tape, and then the lists are filled
// (docs/RULES.md, Fleet tapes).
#![tactic(auto)]

ghost use Rattle.std.specs.Prelude.{◌≡◌, true, map, MatchOption};
ghost use Rattle.std.proofs.Math.Option.{none};
ghost use Rattle.tape.specs.Words.{Inside};
ghost use Rattle.window.specs.Rows.{starts_of, ends_of, marks_of};
ghost use Rattle.fleet_tape.specs.Form.{hours_of, is_row, mark_of, rows_in, stated, fleet_of};
ghost use Rattle.fleet_tape.specs.Scan.{all_rows, row_of, RowsOf, Fillable};
ghost use Rattle.fleet_tape.specs.Reads.{ReadsFleetTape};
ghost use Rattle.basics.specs.Limits.{Places};
ghost use Rattle.fleet_tape.specs.Reading.{report_of, reading, fleet_read};
ghost use Rattle.basics.specs.Lists.{front};

use basics::MAX_ROWS;
use refusals::Refusal;
use tape::{
    HOURS, MUST2, OPERAND_BYTES, ROUND, RUN, WINDOW, after, command_bytes, is_stop, word_at,
};
use window::Kind;

// The bytes of a row: a command, and its operands as the table of widths has them. Rows of every mark are laid out as
// WINDOW.
const ROW_BYTES: usize = 1 + OPERAND_BYTES[WINDOW as usize] as usize;

// What a call reports: kind, R, hours, which are all 0 in a round, and how many rows there are.
#[derive(Clone, Copy, Debug, PartialEq, Eq)]
pub struct Report {
    pub kind: Kind,
    pub ticks: u16,
    pub hours: [[u16; 2]; 2],
    pub rows: usize,
}

// The head of a tape, and the bytes after it. How many rows there are, which a `Report` has too, is known only once the
// rest is read.
#[derive(Clone, Copy)]
struct Head<'a> {
    kind: Kind,
    ticks: u16,
    hours: [[u16; 2]; 2],
    rest: &'a [u8],
}

// The operands of HOURS, which stands first.
fn hours_of(tape: &[u8]) -> [[u16; 2]; 2]
    requires { Inside tape.now 8 }
    ensures { result ≡ hours_of tape.now }
{
    [
        [word_at(tape, 1), word_at(tape, 3)],
        [word_at(tape, 5), word_at(tape, 7)],
    ]
}

// Reads ROUND, or RUN and then HOURS.
#[tactic(auto, using(crate::proofs::Judged::heads))]
fn head_of(tape: &[u8]) -> Option<Head<'_>>
    ensures { MatchOption result (fleet_of tape.now ≡ none)
        (λ h. fleet_of tape.now ≡ stated h.kind h.ticks h.hours (rows_in h.rest.now)) }
{
    if let Some(rest) = after(tape, ROUND) {
        return Some(Head {
            kind: Kind::Round,
            ticks: word_at(tape, 1),
            hours: [[0, 0], [0, 0]],
            rest,
        });
    }
    let hours = after(tape, RUN)?;
    let rest = after(hours, HOURS)?;
    Some(Head {
        kind: Kind::Run,
        ticks: word_at(tape, 1),
        hours: hours_of(hours),
        rest,
    })
}

// Whether a byte is a row's command: 40 to 45, hexadecimal.
fn is_row(command: u8) -> bool
    ensures { result ≡ is_row command }
{
    matches!(command, WINDOW..=MUST2)
}

// The mark that a row's command gives: the commands stand in the order of the marks.
fn mark_of(command: u8) -> u8
    requires { is_row command ≡ true }
    ensures { result ≡ mark_of command }
{
    command - WINDOW
}

// Whether a byte is a row's command, and the table of widths gives it the bytes of a piece.
#[tactic(auto, using(crate::proofs::Marks::row_bytes))]
fn is_piece(command: u8) -> bool
    ensures { result ≡ is_row command }
{
    is_row(command) && command_bytes(command) == ROW_BYTES
}

// Whether each piece is a row's command with its operands.
fn all_rows(pieces: &[[u8; ROW_BYTES]]) -> bool
    ensures { result ≡ all_rows pieces.now }
{
    pieces.iter().all(|piece| is_piece(piece[0]))
}

// The rows, where bytes are rows and then STOP.
#[tactic(auto, using(crate::proofs::Rows::rows_of_pieces))]
fn rows_in(bytes: &[u8]) -> Option<&[[u8; ROW_BYTES]]>
    ensures { MatchOption result (rows_in bytes.now ≡ none) (λ rows. RowsOf bytes.now rows.now) }
{
    let (rows, last) = bytes.as_chunks::<ROW_BYTES>();
    if is_stop(last) && all_rows(rows) {
        return Some(rows);
    }
    None
}

// Writes rows to the three lists, which C lends one by one.
#[tactic(auto, using(crate::proofs::Rows::fill_more))]
fn fill_rows(rows: &[[u8; ROW_BYTES]], starts: &mut [u16], ends: &mut [u16], marks: &mut [u8])
    requires { Fillable rows.now starts.old ends.old marks.old }
    ensures starts_after { starts.new ≡ front (starts_of (map row_of rows.now)) starts.old }
    ensures ends_after { ends.new ≡ front (ends_of (map row_of rows.now)) ends.old }
    ensures marks_after { marks.new ≡ front (marks_of (map row_of rows.now)) marks.old }
{
    for (i, row) in rows.iter().enumerate() {
        starts[i] = word_at(row, 1);
        ends[i] = word_at(row, 3);
        marks[i] = mark_of(row[0]);
    }
}

// THE READER of fleet tapes, into lists of 64 places. It judges the form alone; the planner judges the values. On every
// input, report and lists are what the definition `fleet_read` yields. Spelled out in `ReadsFleetTape`, by what a fleet
// tape is: into lists of 64 places it takes just the tapes of the form with up to 64 rows.
#[tactic(auto, using(crate::proofs::Judged::answers))]
pub fn read_fleet(
    tape: &[u8],
    starts: &mut [u16],
    ends: &mut [u16],
    marks: &mut [u8],
) -> Result<Report, Refusal>
    ensures read { reading (report_of result) starts.new ends.new marks.new
        ≡ fleet_read tape.now starts.old ends.old marks.old }
    ensures taken { Places starts.old ends.old marks.old
        → ReadsFleetTape tape.now (reading (report_of result) starts.new ends.new marks.new) }
{
    if !basics::has_places(starts.len(), ends.len(), marks.len()) {
        return Err(Refusal::Lists);
    }
    let head = head_of(tape).ok_or(Refusal::Form)?;
    let rows = rows_in(head.rest).ok_or(Refusal::Form)?;
    if MAX_ROWS < rows.len() {
        return Err(Refusal::Rows);
    }
    fill_rows(rows, starts, ends, marks);
    Ok(Report {
        kind: head.kind,
        ticks: head.ticks,
        hours: head.hours,
        rows: rows.len(),
    })
}
