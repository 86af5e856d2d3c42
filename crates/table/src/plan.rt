// The test whether labels are a plan of a table. The plan tape writer refuses labels that are none with 9.
ghost use Rattle.std.specs.Prelude.{◌≡◌, true, ◌↔◌, ◌≤◌};
ghost use Rattle.basics.specs.Tests.{every};
ghost use Rattle.table.specs.Tables.{lent, Plan, is_open, is_allowed, clashes, is_apart, apart_at, is_plan, LabelIn, Valid};

use crate::{Setting, Table};
use window::{Kind, Row};

// Whether the receiver that hears a row is open for its window.
fn is_open(setting: Setting, row: Row, label: u8) -> bool
    requires { (1 ≤ label) × (label ≤ 2) }
    ensures { result ≡ is_open setting.kind setting.hours row label }
{
    if setting.kind == Kind::Round {
        return true;
    }
    let [open, close] = setting.hours[usize::from(label - 1)];
    open <= row.start && row.end <= close
}

// Whether a row may have the label: its mark allows it, and the receiver is open.
#[tactic(auto, unfolding(crate::specs::Tables::is_allowed))]
pub fn is_allowed(setting: Setting, row: Row, label: u8) -> bool
    ensures { result ≡ is_allowed setting row label }
{
    label <= 2 && marks::allows(row.mark, label) && (label == 0 || is_open(setting, row, label))
}

// Whether one receiver cannot hear both rows: their windows overlap, or have fewer ticks between them than the gap.
#[tactic(auto, unfolding(crate::specs::Tables::clashes))]
pub fn is_clash(setting: Setting, row: Row, row2: Row) -> bool
    ensures { result ≡ clashes setting row row2 }
{
    row.window()
        .is_too_close(setting.kind, setting.ticks, setting.gap, row2.window())
}

// Whether two rows with these labels are not on one receiver, or do not clash.
#[tactic(auto, unfolding(crate::specs::Tables::is_apart))]
fn is_apart(setting: Setting, row: Row, label: u8, row2: Row, label2: u8) -> bool
    ensures { result ≡ is_apart setting row label row2 label2 }
{
    label == 0 || label != label2 || !is_clash(setting, row, row2)
}

// Whether row i is apart from the rows before it.
#[tactic(auto, using(basics::proofs::Tests::every_more), unfolding(basics::specs::Tests::every))]
fn is_apart_before(table: Table, labels: &[u8], i: usize) -> bool
    requires { LabelIn (lent table) labels.now i }
    ensures { result ≡ every i (apart_at (lent table.entry) labels.now i) }
{
    let row = table.rows.row(i);
    for j in 0..i {
        if !is_apart(table.setting, row, labels[i], table.rows.row(j), labels[j]) {
            return false;
        }
    }
    true
}

// Whether the labels are a plan of the table. Of a table that fails a check it is what the definition `is_plan`
// computes, and says nothing about plans.
pub fn is_plan(table: Table, labels: &[u8]) -> bool
    ensures computed { result ≡ is_plan (lent table.entry) labels.now }
    ensures meaning { Valid (lent table.entry)
        → (result ≡ true) ↔ Plan (lent table.entry) labels.now }
{
    if !table.rows.is_even() {
        return false;
    }
    if labels.len() != table.rows.len() {
        return false;
    }
    for i in 0..labels.len() {
        if !is_allowed(table.setting, table.rows.row(i), labels[i]) {
            return false;
        }
        if !is_apart_before(table, labels, i) {
            return false;
        }
    }
    true
}
