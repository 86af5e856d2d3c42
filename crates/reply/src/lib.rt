// From the bytes of a fleet tape to the bytes that `hubplan` prints (docs/RULES.md, The program).
#![tactic(auto)]

ghost use Rattle.std.specs.Prelude.{◌≡◌, ◌+◌, ◌<◌, length};
ghost use Rattle.refusals.specs.Numbers.{number};
ghost use Rattle.refusals.specs.Refusals.{answer_of};
ghost use Rattle.table.specs.Tables.{lent};
ghost use Rattle.table.specs.Planned.{answering, planned};
ghost use Rattle.reply.specs.Lines.{decimal, word_line, row_line, row_lines, refused_word, printed};
ghost use Rattle.reply.specs.Replied.{replying, replied_with, replied, InFront, out_bytes};
ghost use Rattle.basics.specs.Lists.{Put};
ghost use Rattle.reply.specs.Room.{Room, NumberRoom, RowRoom, LabelsRoom, WordRoom, Answerable};

use basics::{MAX_ROWS, put_byte};
use refusals::Refusal;
use table::{Rows, Setting, Table};

// The output that a call needs, in bytes; the longest reply has 319.
pub const OUT_BYTES: usize = 400;

// The longest tape that is read, in bytes.
pub const TAPE_BYTES: usize = 400;

// The byte of a digit.
fn digit(n: usize) -> u8
    requires { n < 10 }
    ensures { result ≡ 48 + n }
{
    b'0' + (n as u8)
}

// Puts bytes at a place; the result is the place after them. The output is lent and there is no heap, so each part
// takes the output and a place. Bytes that are computed are put one by one: an array of them would be one more that
// `reply` holds.
fn put(out: &mut [u8], place: usize, bytes: &[u8]) -> usize
    requires { Room out.old place (length bytes.now) }
    ensures { Put out.old place bytes.now out.new result }
{
    let end = place + bytes.len();
    out[place..end].copy_from_slice(bytes);
    end
}

// Puts a number in decimal.
#[tactic(auto, using(crate::proofs::Putting::one_digit, crate::proofs::Putting::two_digits))]
fn put_number(out: &mut [u8], place: usize, n: usize) -> usize
    requires { NumberRoom n out.old place }
    ensures { Put out.old place (decimal n) out.new result }
{
    if n < 10 {
        return put_byte(out, place, digit(n));
    }
    let second = put_byte(out, place, digit(n / 10));
    put_byte(out, second, digit(n % 10))
}

// Puts the line of a row.
#[tactic(auto, using(crate::proofs::Putting::number_ends))]
fn put_row(out: &mut [u8], place: usize, row: usize, label: u8) -> usize
    requires { RowRoom row label out.old place }
    ensures { Put out.old place (row_line row label) out.new result }
{
    let between = put_number(out, place, row);
    let second = put_byte(out, between, b' ');
    let end = put_number(out, second, usize::from(label));
    put_byte(out, end, b'\n')
}

// Puts the lines of all rows.
fn put_rows(out: &mut [u8], place: usize, labels: &[u8]) -> usize
    requires { LabelsRoom labels.now out.old place }
    ensures { Put out.old place (row_lines 0 labels.now) out.new result }
{
    let mut at = place;
    for (row, label) in labels.iter().enumerate() {
        at = put_row(out, at, row, *label);
    }
    at
}

// Puts a line of a word and a number at the front.
#[tactic(auto, using(crate::proofs::Putting::number_ends))]
fn put_word(out: &mut [u8], word: &[u8], n: usize) -> usize
    requires { WordRoom word.now n out.old }
    ensures { Put out.old 0 (word_line word.now n) out.new result }
{
    let between = put(out, 0, word);
    let second = put_byte(out, between, b' ');
    let end = put_number(out, second, n);
    put_byte(out, end, b'\n')
}

// Puts the line of a refusal at the front.
fn put_refused(out: &mut [u8], refusal: Refusal) -> usize
    requires { Room out.old 0 out_bytes }
    ensures { Put out.old 0 (word_line refused_word (number refusal)) out.new result }
{
    put_word(out, b"refused", usize::from(u8::from(refusal)))
}

// Puts the lines of a planner's answer at the front.
fn put_answer(out: &mut [u8], answer: Result<usize, Refusal>, labels: &[u8]) -> usize
    requires { Answerable (answering (answer_of answer) labels.now) out.old }
    ensures { Put out.old 0 (printed (answering (answer_of answer) labels.now)) out.new result }
{
    match answer {
        Err(refusal) => put_refused(out, refusal),
        Ok(count) => {
            let at = put_word(out, b"heard", count);
            put_rows(out, at, labels)
        }
    }
}

// The reply to a table, whose labels are lent.
fn reply_table(table: Table, labels: &mut [u8], out: &mut [u8], space: &mut [u8]) -> usize
    requires { Room out.old 0 out_bytes }
    ensures { replying result out.new space.new
        ≡ replied_with (planned (lent table.entry) labels.old (length space.old)) out.old space.old }
{
    let answer = planner::plan(table, labels, space);
    put_answer(out, answer, labels)
}

// THE REPLY. Writes what `hubplan` prints for a tape to the front of the output and returns its length. On every input,
// result, output and working space are what the definition `replied` yields. That the length lies within the output
// follows; it is a clause of its own so that a caller can lend `&out[..n]`.
#[tactic(auto, using(crate::proofs::Replying::room_for_rows))]
pub fn reply(tape: &[u8], out: &mut [u8], space: &mut [u8]) -> usize
    ensures replied { replying result out.new space.new ≡ replied tape.now out.old space.old }
    ensures within { InFront result out.new }
{
    if out.len() < OUT_BYTES {
        return 0;
    }
    if TAPE_BYTES < tape.len() {
        return put_refused(out, Refusal::Form);
    }
    // Three arrays, since nothing is allocated: the reader fills the first places of each, as many as the report has
    // rows.
    let mut starts = [0u16; MAX_ROWS];
    let mut ends = [0u16; MAX_ROWS];
    let mut marks = [0u8; MAX_ROWS];
    let report = match fleet_tape::read_fleet(tape, &mut starts, &mut ends, &mut marks) {
        Err(refusal) => return put_refused(out, refusal),
        Ok(report) => report,
    };
    prove!(report.rows <= MAX_ROWS);
    // A variable: the check of borrows takes no array straight from one field into another.
    let hours = report.hours;
    let table = Table {
        setting: Setting {
            kind: report.kind,
            ticks: report.ticks,
            // A fleet tape states no gap: `hubplan` plans with 0.
            gap: 0,
            hours,
        },
        rows: Rows {
            starts: &starts[..report.rows],
            ends: &ends[..report.rows],
            marks: &marks[..report.rows],
        },
    };
    let mut labels = [0u8; MAX_ROWS];
    reply_table(table, &mut labels[..report.rows], out, space)
}
