// Calls of the planner and of the plan tape writer, each judged whole: the refusal's number, the count, every place of
// the list that is written, every byte of the working space. Product code has a part in each call: a table is of its
// own types, and `u8::from` gives the number of its refusal. What is expected of a call is what it writes, or the
// number of its refusal: the product's names have no part in it.
#![tactic(auto)]

ghost use Rattle.std.specs.Prelude.{◌≡◌, true, ◌↔◌, take, replicate};
ghost use Rattle.std.specs.List.{list_all};
ghost use Rattle.window.specs.declared.Kind.TheVariants.{Run};
ghost use Rattle.window.specs.Hours.{hours_from};
ghost use Rattle.table.specs.Tables.{setting_of, table, lent};
ghost use Rattle.trial_calls.specs.Drawn.{kind_of};
ghost use Rattle.trial_calls.specs.Judged.{numbered, are_written, is_written, cleared};

use brute_force::windows;
use brute_force::windows::Day;
use refusals::Refusal;
use table::{Rows, Setting, Table};
use window::{Kind, Row};

// What labels, working space and tape buffer hold before a call.
pub const BEFORE: u8 = 90;

// The working space that a case is lent, if it does not say otherwise: far more than a call clears, so that one which
// clears more is seen.
pub const LENT_BYTES: usize = 16484;

// ---- what a call is lent

// The first places of a list; all if there are fewer.
#[tactic(auto, using(std::proofs::lemmas::List::take_all))]
pub fn first<T>(list: &[T], n: usize) -> &[T]
    ensures { result.now ≡ take n list.now }
{
    if n <= list.len() { &list[..n] } else { list }
}

pub fn row(start: u16, end: u16, mark: u8) -> Row {
    Row { start, end, mark }
}

// A run with a gap and the receivers' open hours.
pub fn run(ticks: u16, gap: u16, hours: [[u16; 2]; 2]) -> Setting
    ensures { result ≡ setting_of Run ticks gap hours }
{
    Setting {
        kind: Kind::Run,
        ticks,
        gap,
        hours,
    }
}

// A round, or a run that is open all the time.
pub fn open_all(kind: Kind, ticks: u16, gap: u16) -> Setting
    ensures { result ≡ setting_of kind ticks gap (hours_from 0 ticks 0 ticks) }
{
    Setting {
        kind,
        ticks,
        gap,
        hours: [[0, ticks], [0, ticks]],
    }
}

// The product's kind.
fn kind_of(kind: windows::Kind) -> Kind
    ensures { result ≡ kind_of kind }
{
    match kind {
        windows::Kind::Round => Kind::Round,
        windows::Kind::Run => Kind::Run,
    }
}

// A day of the brute force, with the receivers' open hours.
pub fn setting_of(day: Day, hours: [[u16; 2]; 2]) -> Setting
    ensures { result ≡ setting_of (kind_of day.kind) day.ticks day.gap hours }
{
    Setting {
        kind: kind_of(day.kind),
        ticks: day.ticks,
        gap: day.gap,
        hours,
    }
}

// A table's three lists.
pub fn rows_of<'a>(starts: &'a [u16], ends: &'a [u16], marks: &'a [u8]) -> Rows<'a>
    ensures { (result.starts.now ≡ starts.now) × (result.ends.now ≡ ends.now) × (result.marks.now ≡ marks.now) }
{
    Rows {
        starts,
        ends,
        marks,
    }
}

// A table by its lists.
pub fn table_of<'a>(
    setting: Setting,
    starts: &'a [u16],
    ends: &'a [u16],
    marks: &'a [u8],
) -> Table<'a>
    ensures { lent result ≡ table setting starts.now ends.now marks.now }
{
    Table {
        setting,
        rows: rows_of(starts, ends, marks),
    }
}

// ---- what a call gave, judged

// Whether a call reports the count, or the refusal of the number.
pub fn is_answer(answer: Result<usize, Refusal>, expected: Result<usize, u8>) -> bool
    ensures { (result ≡ true) ↔ (numbered answer ≡ expected) }
{
    answer.map_err(u8::from) == expected
}

// Whether every place of a list holds what it held before.
fn is_as_before<T: Copy + PartialEq>(list: &[T], before: T) -> bool
    ensures { result ≡ list_all (λ place. T.eq place before) list.now }
{
    list.iter().all(|place| *place == before)
}

// Whether the first places of a list are written as they are to be and the others are as they were.
pub fn are_written<T: Copy + PartialEq>(list: &[T], written: &[T], before: T) -> bool
    ensures { result ≡ are_written T.eq list.now written.now before }
{
    let n = written.len().min(list.len());
    list[..n] == written[..n] && is_as_before(&list[n..], before)
}

// The same of a list of bytes that a call was lent.
pub fn is_written(list: &[u8], written: &[u8]) -> bool
    ensures { result ≡ is_written list.now written.now }
{
    are_written(list, written, BEFORE)
}

// How many bytes of the working space a call clears: 8 clears as many as a plan, and no other refusal clears any.
fn cleared(refusal: Option<u8>) -> usize
    ensures { result ≡ cleared refusal }
{
    match refusal {
        None | Some(8) => 4608,
        _ => 0,
    }
}

// Whether the working space is as a call is to leave it that is refused by this number, or is accepted.
pub fn is_left(space: &[u8], refusal: Option<u8>) -> bool
    ensures { result ≡ is_written space.now (take (cleared refusal) (replicate 4608 0)) }
{
    let zeros = [0u8; 4608];
    is_written(space, first(&zeros, cleared(refusal)))
}

// How many labels are 1 or 2, counted here: the product has no part in it.
pub fn heard(labels: &[u8]) -> usize {
    labels
        .iter()
        .filter(|label| matches!(**label, 1 | 2))
        .count()
}

// ---- calls

// Whether the planner, lent a place for each row's label, answers with these labels, or refuses by the number.
pub fn is_planned(table: Table, expected: Result<&[u8], u8>) -> bool {
    is_planned_in(table, table.rows.len(), LENT_BYTES, expected)
}

// The same, lent so many places for labels and so many bytes of working space: those that are not lent show a step
// beyond.
pub fn is_planned_in(
    table: Table,
    places: usize,
    bytes: usize,
    expected: Result<&[u8], u8>,
) -> bool {
    let mut list = [BEFORE; 66];
    let mut space = [BEFORE; LENT_BYTES];
    let n = places.min(list.len());
    let m = bytes.min(space.len());
    let answer = planner::plan(table, &mut list[..n], &mut space[..m]);
    is_answer(answer, expected.map(heard))
        && is_written(&list, expected.unwrap_or(&[]))
        && is_left(&space, expected.err())
}

// Whether the plan tape writer, lent so many bytes, answers with the tape, or refuses by the number.
pub fn is_taped(table: Table, labels: &[u8], bytes: usize, expected: Result<&[u8], u8>) -> bool {
    let mut buffer = [BEFORE; 400];
    let n = bytes.min(buffer.len());
    let answer = plan_tape::write_plan(table, labels, &mut buffer[..n]);
    is_answer(answer, expected.map(|tape| tape.len()))
        && is_written(&buffer, expected.unwrap_or(&[]))
}
