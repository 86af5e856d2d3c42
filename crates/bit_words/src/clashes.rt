// Clash words: for each row a word of the other rows whose windows overlap its own or have fewer than g ticks between
// them.
ghost use Rattle.std.specs.Prelude.{◌≡◌, ◌≤◌, ◌<◌, length};
ghost use Rattle.basics.specs.Limits.{max_rows};
ghost use Rattle.refusals.specs.Refusals.{Accepted};
ghost use Rattle.table.specs.Tables.{lent, RowIn};
ghost use Rattle.bit_words.specs.Clashes.{windows_of, ClashWords, is_clash, clash_word, clash_words_of, clash_given, clash_call};
ghost use Rattle.bit_words.specs.Lent.{RowsLent, windows_refusal};

use crate::bits;
use basics::MAX_ROWS;
use refusals::Refusal;
use table::{Rows, Setting, Table, checks};

// The marks of windows alone: each row may be heard.
const NO_MARKS: &[u8] = &[0; MAX_ROWS];

// Windows alone as a table.
fn windows<'a>(setting: Setting, starts: &'a [u16], ends: &'a [u16]) -> Table<'a>
    requires { length starts.now ≤ max_rows }
    ensures { lent result ≡ windows_of setting starts.now ends.now }
{
    let rows = Rows {
        starts,
        ends,
        marks: &NO_MARKS[..starts.len()],
    };
    Table { setting, rows }
}

// Checks 4, 14 and 6.
fn check_windows(table: Table) -> Result<(), Refusal>
    ensures { result ≡ windows_refusal (lent table.entry) }
{
    checks::check_ticks(table.setting.ticks)?;
    checks::check_gap(table.setting.gap)?;
    checks::check_rows(table).refusal
}

// Whether rows i and j are different rows that clash.
#[tactic(auto, unfolding(crate::specs::Clashes::is_clash))]
fn is_other_clash(table: Table, i: usize, j: usize) -> bool
    requires row_in { RowIn table.rows.starts.now table.rows.ends.now table.rows.marks.now i }
    requires row_in_2 { RowIn table.rows.starts.now table.rows.ends.now table.rows.marks.now j }
    ensures { result ≡ is_clash (lent table.entry) i j }
{
    i != j && table::plan::is_clash(table.setting, table.rows.row(i), table.rows.row(j))
}

// The clash word of row i.
#[tactic(auto, unfolding(crate::specs::Clashes::clash_word))]
fn clash_word(table: Table, i: usize) -> u64
    requires rows_lent { RowsLent (lent table) }
    requires i_in_bounds { i < length table.rows.starts.now }
    ensures { result ≡ clash_word (lent table.entry) i }
{
    bits::word_of(table.rows.len(), |j| is_other_clash(table, i, j))
}

// Fills in the clash word of each row.
#[tactic(auto, using(basics::proofs::Filling::filled_none, basics::proofs::Filling::filled_more, basics::proofs::Filling::filled_list))]
fn set_words(table: Table, words: &mut [u64])
    requires rows_lent { RowsLent (lent table) }
    requires words_len { length words.old ≡ length table.rows.starts.now }
    ensures { words.new ≡ clash_words_of (lent table.entry) }
{
    for (i, word) in words.iter_mut().enumerate() {
        *word = clash_word(table, i);
    }
}

// THE CLASH WORDS of windows, into a list with a place for each row: what the definition `clash_call` yields, on every
// input. Hours are neither checked nor used.
#[tactic(auto, unfolding(crate::specs::Clashes::clash_call, crate::specs::Clashes::clash_refusal))]
pub fn clash_words(
    setting: Setting,
    starts: &[u16],
    ends: &[u16],
    words: &mut [u64],
) -> Result<(), Refusal>
    ensures computed { clash_given result words.new
        ≡ clash_call (windows_of setting starts.now ends.now) words.old }
    ensures meaning { result ≡ Accepted
        → ClashWords (windows_of setting starts.now ends.now) words.new }
{
    checks::check_lists(starts.len(), ends.len(), starts.len(), words.len())?;
    let table = windows(setting, starts, ends);
    check_windows(table)?;
    set_words(table, words);
    Ok(())
}
