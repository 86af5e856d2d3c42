// Candidate windows tried against a table: each alone, as an added row that must be heard (docs/RULES.md, Candidates).
// The lists of answers and the working space are handed on one by one, as C lends them.
#![tactic(auto)]

ghost use Rattle.std.specs.Prelude.{◌≡◌, ◌<◌, ◌≤◌, IfOk, length, drop, replicate, set};
ghost use Rattle.basics.specs.Limits.{max_rows};
ghost use Rattle.line.specs.Cells.{core_bytes};
ghost use Rattle.table.specs.Tables.{lent};
ghost use Rattle.candidates.specs.Tried.{must_row, tried, offered, numbers_tried, counts_tried};
ghost use Rattle.candidates.specs.Tried.{answers_refusal, lent_refusal, candidates_visit, table_visit, visit, report};
ghost use Rattle.candidates.specs.Tried.{called, answers, candidates_call};
ghost use Rattle.candidates.specs.Lent.{CandidatesLent, TableLent, TablePassed, RowAddable, told};

use basics::MAX_ROWS;
use best_plan::SPACE_BYTES;
use refusals::Refusal;
use table::{Looked, Rows, Table, checks};
use window::Row;

// How many candidates a call takes.
pub const MAX_CANDIDATES: usize = 64;

// Check 16, of the candidates and of how long the lists for their answers are.
#[tactic(auto, unfolding(crate::specs::Tried::candidates_refusal))]
fn check_candidates(candidates: Rows, numbers: usize, counts: usize) -> Result<(), Refusal>
    ensures { result ≡ answers_refusal (offered candidates.entry) numbers counts }
{
    let size = candidates.len();
    if !candidates.is_even() || numbers != size || counts != size || MAX_CANDIDATES < size {
        return Err(Refusal::Candidates);
    }
    Ok(())
}

// Checks 1, 2, 3 and 16, of what is lent.
#[tactic(auto, unfolding(crate::specs::Tried::lent_refusal, table::specs::Planned::space_refusal))]
fn check_lent(
    table: Table,
    candidates: Rows,
    numbers: usize,
    counts: usize,
    space: usize,
) -> Result<(), Refusal>
    ensures { result
        ≡ lent_refusal (lent table.entry) (offered candidates.entry) numbers counts space }
{
    table.rows.check_lists(table.rows.len())?;
    if space < SPACE_BYTES {
        return Err(Refusal::Space);
    }
    check_candidates(candidates, numbers, counts)
}

// The row as one that must be heard.
fn must_row(row: Row) -> Row
    ensures { result ≡ must_row row }
{
    Row {
        mark: marks::raise(row.mark),
        ..row
    }
}

// Tries one candidate. Its mark is checked as it is lent and then raised.
fn try_row(table: Table, row: Row, space: &mut [u8]) -> Result<usize, Refusal>
    requires { RowAddable (lent table) space.old }
    ensures value { told result ≡ tried (lent table.entry) row }
    ensures few { IfOk result (λ n. n ≤ max_rows) }
    ensures space_unchanged { drop core_bytes space.new ≡ drop core_bytes space.old }
{
    checks::check_row(table.setting, row)?;
    best_plan::count_checked(table, Some(must_row(row)), space).ok_or(Refusal::NoPlan)
}

// Writes what candidate j is answered into the two lists that C lends: a refusal's number, 0 for accepted, and a count,
// 0 on a refusal.
fn set_answer(tried: Result<usize, Refusal>, j: usize, numbers: &mut [u8], counts: &mut [u8])
    requires few { IfOk tried (λ n. n ≤ max_rows) }
    requires places { (j < length numbers.old) × (j < length counts.old) }
    ensures numbers_after { numbers.new ≡ set numbers.old j (told tried).number }
    ensures counts_after { counts.new ≡ set counts.old j (told tried).count }
{
    match tried {
        Ok(count) => {
            numbers[j] = 0;
            counts[j] = count as u8;
        }
        Err(refusal) => {
            numbers[j] = refusal.into();
            counts[j] = 0;
        }
    }
}

// Tries each candidate.
fn try_rows(table: Table, candidates: Rows, numbers: &mut [u8], counts: &mut [u8], space: &mut [u8])
    requires row_addable { RowAddable (lent table) space.old }
    requires candidates_lent { CandidatesLent (offered candidates) numbers.old counts.old }
    ensures numbers_after { numbers.new
        ≡ numbers_tried (lent table.entry) (offered candidates.entry) }
    ensures counts_after { counts.new
        ≡ counts_tried (lent table.entry) (offered candidates.entry) }
    ensures space_unchanged { drop core_bytes space.new ≡ drop core_bytes space.old }
{
    for j in 0..candidates.len() {
        let tried = try_row(table, candidates.row(j), space);
        set_answer(tried, j, numbers, counts);
    }
}

// Answers each candidate that a full table has no place for it.
fn refuse_rows(numbers: &mut [u8], counts: &mut [u8])
    ensures numbers_after { numbers.new ≡ replicate (length numbers.old) 2 }
    ensures counts_after { counts.new ≡ replicate (length counts.old) 0 }
{
    numbers.fill(Refusal::Rows.into());
    counts.fill(0);
}

// Answers each candidate, and returns how many were looked at: none beside a full table.
fn answer_rows(
    table: Table,
    candidates: Rows,
    numbers: &mut [u8],
    counts: &mut [u8],
    space: &mut [u8],
) -> usize
    requires table_passed { TablePassed (lent table) space.old }
    requires candidates_lent { CandidatesLent (offered candidates) numbers.old counts.old }
    ensures value { result
        ≡ (candidates_visit (lent table.entry) (offered candidates.entry)).rows }
    ensures numbers_after { numbers.new
        ≡ numbers_tried (lent table.entry) (offered candidates.entry) }
    ensures counts_after { counts.new
        ≡ counts_tried (lent table.entry) (offered candidates.entry) }
    ensures space_unchanged { drop core_bytes space.new ≡ drop core_bytes space.old }
{
    if table.rows.len() == MAX_ROWS {
        refuse_rows(numbers, counts);
        return 0;
    }
    try_rows(table, candidates, numbers, counts, space);
    candidates.len()
}

// Checks and plans the table, from check 4 on, and answers each candidate where it has a plan.
fn try_table(
    table: Table,
    candidates: Rows,
    numbers: &mut [u8],
    counts: &mut [u8],
    space: &mut [u8],
) -> Looked
    requires table_lent { TableLent (lent table) space.old }
    requires candidates_lent { CandidatesLent (offered candidates) numbers.old counts.old }
    ensures { called result numbers.new counts.new space.new
        ≡ answers (lent table.entry) (offered candidates.entry)
        (report (table_visit (lent table.entry) (offered candidates.entry)))
        numbers.old counts.old space.old }
{
    let looked = checks::check_table(table);
    if looked.refusal.is_err() {
        return looked;
    }
    let best = best_plan::count_checked(table, None, space);
    if best.is_none() {
        best_plan::clear_space(space);
        return Looked {
            refusal: Err(Refusal::NoPlan),
            ..looked
        };
    }
    let read = answer_rows(table, candidates, numbers, counts, space);
    best_plan::clear_space(space);
    Looked {
        rows: looked.rows + read,
        ..looked
    }
}

// TRIES EACH CANDIDATE. What a call gives, report, answers and working space, is what the definition `candidates_call`
// yields, on every input, whatever the lists of answers and the working space held before. The count that it reports
// is the number of rows visited, in the order of the checks: each row of the table and then each candidate, once.
pub fn try_each(
    table: Table,
    candidates: Rows,
    numbers: &mut [u8],
    counts: &mut [u8],
    space: &mut [u8],
) -> Looked
    ensures computed { called result numbers.new counts.new space.new
        ≡ candidates_call (lent table.entry) (offered candidates.entry)
        numbers.old counts.old space.old }
    ensures visited { result.rows
        ≡ length (visit (lent table.entry) (offered candidates.entry)
        (length numbers.old) (length counts.old) (length space.old)).visited }
{
    let refusal = check_lent(table, candidates, numbers.len(), counts.len(), space.len());
    if refusal.is_err() {
        return Looked { refusal, rows: 0 };
    }
    try_table(table, candidates, numbers, counts, space)
}
