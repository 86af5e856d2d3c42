// The checks of a table, in the order in which they are made (docs/RULES.md, Refusals). Each contract says exactly
// what comes out, for every input of every length.
ghost use Rattle.std.specs.Prelude.{◌≡◌, ◌<◌, length};
ghost use Rattle.table.specs.Tables.{lent};
ghost use Rattle.table.specs.Checks.{lengths_refusal, ticks_refusal, is_hours, hours_refusal, gap_refusal, setting_refusal, row_refusal, rows_looked, table_looked};

use crate::{Looked, Rows, Setting, Table};
use basics::MAX_ROWS;
use marks::MAX_MARK;
use refusals::Refusal;
use window::{Kind, MAX_GAP, MAX_TICKS, Row};

// Checks 1 and 2, by the lengths of the four lists: 1 where they are not all equal, 2 for more than 64 rows. It takes
// lengths and no lists, since `bit_words` has starts and ends alone.
#[tactic(auto, unfolding(crate::specs::Checks::lengths_refusal))]
pub fn check_lists(starts: usize, ends: usize, marks: usize, labels: usize) -> Result<(), Refusal>
    ensures { result ≡ lengths_refusal starts ends marks labels }
{
    if ends != starts || marks != starts || labels != starts {
        return Err(Refusal::Lists);
    }
    if MAX_ROWS < starts {
        return Err(Refusal::Rows);
    }
    Ok(())
}

impl Rows<'_> {
    // Checks 1 and 2 of a table's rows, with a label list of this length.
    pub fn check_lists(self, labels: usize) -> Result<(), Refusal>
        ensures { result ≡ lengths_refusal (length self.entry.starts.now)
            (length self.entry.ends.now) (length self.entry.marks.now) labels }
    {
        check_lists(self.starts.len(), self.ends.len(), self.marks.len(), labels)
    }
}

// Check 4: a round or a run has from 2 to 43,200 ticks.
#[tactic(auto, unfolding(crate::specs::Checks::ticks_refusal))]
pub fn check_ticks(ticks: u16) -> Result<(), Refusal>
    ensures { result ≡ ticks_refusal ticks }
{
    if ticks < 2 || MAX_TICKS < ticks {
        return Err(Refusal::Ticks);
    }
    Ok(())
}

// Whether the receiver's open hours are in order and within the ticks.
fn is_hours(hours: [[u16; 2]; 2], ticks: u16, receiver: usize) -> bool
    requires { receiver < 2 }
    ensures { result ≡ is_hours hours ticks receiver }
{
    let [open, close] = hours[receiver];
    open <= close && close <= ticks
}

// Check 5: in a run the hours of both receivers are in order.
#[tactic(auto, unfolding(crate::specs::Checks::hours_refusal))]
fn check_hours(kind: Kind, ticks: u16, hours: [[u16; 2]; 2]) -> Result<(), Refusal>
    ensures { result ≡ hours_refusal kind ticks hours }
{
    match kind {
        Kind::Run if !is_hours(hours, ticks, 0) || !is_hours(hours, ticks, 1) => {
            Err(Refusal::Hours)
        }
        _ => Ok(()),
    }
}

// Check 14: the gap is at most 600 ticks.
#[tactic(auto, unfolding(crate::specs::Checks::gap_refusal))]
pub fn check_gap(gap: u16) -> Result<(), Refusal>
    ensures { result ≡ gap_refusal gap }
{
    if MAX_GAP < gap {
        return Err(Refusal::Gap);
    }
    Ok(())
}

// Checks 4, 5 and 14, in this order.
#[tactic(auto, unfolding(crate::specs::Checks::setting_refusal))]
pub fn check_setting(setting: Setting) -> Result<(), Refusal>
    ensures { result ≡ setting_refusal setting }
{
    check_ticks(setting.ticks)?;
    check_hours(setting.kind, setting.ticks, setting.hours)?;
    check_gap(setting.gap)
}

// Checks 6 and 7 of one row, in this order: start and end make a window, and the mark is at most 5.
#[tactic(auto, unfolding(crate::specs::Checks::row_refusal))]
pub fn check_row(setting: Setting, row: Row) -> Result<(), Refusal>
    ensures { result ≡ row_refusal setting row }
{
    if !row.window().is_proper(setting.kind, setting.ticks) {
        return Err(Refusal::Window);
    }
    if MAX_MARK < row.mark {
        return Err(Refusal::Mark);
    }
    Ok(())
}

// Checks 6 and 7 of the rows from row 0 on, as far as the first refusal. Lists of unequal length are refused 1 before
// any row is looked at.
pub fn check_rows(table: Table) -> Looked
    ensures { result ≡ rows_looked (lent table.entry) }
{
    if !table.rows.is_even() {
        return Looked {
            refusal: Err(Refusal::Lists),
            rows: 0,
        };
    }
    for i in 0..table.rows.len() {
        let refusal = check_row(table.setting, table.rows.row(i));
        if refusal.is_err() {
            return Looked {
                refusal,
                rows: i + 1,
            };
        }
    }
    Looked {
        refusal: Ok(()),
        rows: table.rows.len(),
    }
}

// Checks 4, 5 and 14, and then the rows, each for 6 and then 7.
#[tactic(auto, unfolding(crate::specs::Checks::table_looked))]
pub fn check_table(table: Table) -> Looked
    ensures { result ≡ table_looked (lent table.entry) }
{
    let refusal = check_setting(table.setting);
    if refusal.is_err() {
        return Looked { refusal, rows: 0 };
    }
    check_rows(table)
}
