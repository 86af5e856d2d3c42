// The best plan of a table that has passed its checks, its count alone, and the clearing of the working space: the
// parts of the planner and of the other calls that plan (docs/RULES.md, What the planner promises).
#![tactic(auto)]

ghost use Rattle.std.specs.Prelude.{◌≡◌, ◌+◌, ◌++◌, map, ◌≤◌, length, drop, replicate, set};
ghost use Rattle.labels.specs.Permission.{label_of};
ghost use Rattle.line.specs.Cells.{core_bytes};
ghost use Rattle.refusals.specs.Refusals.{answer_of};
ghost use Rattle.table.specs.Tables.{lent, rows, ValidSetting};
ghost use Rattle.table.specs.Planned.{space_bytes, best_plan, answering, given};
ghost use Rattle.best_plan.specs.Rows.{circle_of, arc_of, HasArc, permission_of, with_more, ValidMore, ArcRoom, ArcsIn, Checked, Countable, count_in, count_of};

use basics::MAX_ROWS;
use refusals::Refusal;
use table::{Setting, Table};
use window::{Kind, MAX_GAP, Row};

// The working space that a call needs and clears, in bytes.
pub const SPACE_BYTES: usize = 4608;

// An arc of a circle: its first tick and how many ticks it has.
#[derive(Clone, Copy)]
pub struct Arc {
    pub start: u16,
    pub length: u16,
}

// The ticks of the circle on which a table's rows are arcs. The sum fits 16 bits, being at most MAX_TICKS + MAX_GAP,
// 43,800.
#[tactic(auto, unfolding(crate::specs::Rows::circle_ticks))]
fn circle_of(setting: Setting) -> u16
    requires { ValidSetting setting }
    ensures { result ≡ circle_of setting }
{
    match setting.kind {
        Kind::Round => setting.ticks,
        Kind::Run => setting.ticks + MAX_GAP,
    }
}

// The arc of a row, cut off at the circle. The sum fits 16 bits, since a window has at most MAX_TICKS ticks and the
// gap is at most MAX_GAP.
#[tactic(auto, using(window::proofs::Meaning::ticks_most), unfolding(crate::specs::Rows::arc_of))]
fn arc_of(setting: Setting, row: Row) -> Arc
    requires { HasArc setting row }
    ensures { result ≡ arc_of setting row }
{
    let ticks = row.window().length(setting.kind, setting.ticks);
    Arc {
        start: row.start,
        length: (ticks + setting.gap).min(circle_of(setting)),
    }
}

// The labels that a row may have, as a permission.
#[tactic(auto, unfolding(crate::specs::Rows::permission_of))]
fn permission(setting: Setting, row: Row) -> u8
    ensures { result ≡ permission_of setting row }
{
    labels::permission::permission_of(
        table::plan::is_allowed(setting, row, 0),
        table::plan::is_allowed(setting, row, 1),
        table::plan::is_allowed(setting, row, 2),
    )
}

// Writes the arc and permission of a row at place i of the three lists that the core takes.
fn set_arc(
    setting: Setting,
    row: Row,
    i: usize,
    starts: &mut [u16],
    lengths: &mut [u16],
    perms: &mut [u8],
)
    requires has_arc { HasArc setting row }
    requires room { ArcRoom (i + 1) starts.old lengths.old perms.old }
    ensures starts_after { starts.new ≡ set starts.old i (arc_of setting row).start }
    ensures lengths_after { lengths.new ≡ set lengths.old i (arc_of setting row).length }
    ensures perms_after { perms.new ≡ set perms.old i (permission_of setting row) }
{
    let arc = arc_of(setting, row);
    starts[i] = arc.start;
    lengths[i] = arc.length;
    perms[i] = permission(setting, row);
}

// Writes the arcs and permissions of the rows of a checked table, and after them those of the row more.
fn set_arcs(
    table: Table,
    more: Option<Row>,
    starts: &mut [u16],
    lengths: &mut [u16],
    perms: &mut [u8],
)
    requires valid { ValidMore (lent table) more }
    requires room { ArcRoom (rows (with_more (lent table) more)) starts.old lengths.old perms.old }
    ensures { ArcsIn (with_more (lent table.entry) more) starts.new lengths.new perms.new }
{
    let n = table.rows.len();
    for i in 0..n {
        set_arc(table.setting, table.rows.row(i), i, starts, lengths, perms);
    }
    if let Some(row) = more {
        set_arc(table.setting, row, n, starts, lengths, perms);
    }
}

// Writes the label of each permission.
fn set_labels(perms: &[u8], labels: &mut [u8])
    requires { length labels.old ≡ length perms.now }
    ensures { labels.new ≡ map label_of perms.now }
{
    for i in 0..perms.len() {
        labels[i] = labels::permission::label_of(perms[i]);
    }
}

// The count in an answer of the core, which is one more than the count, and 0 without an assignment.
fn count_in(best: u8) -> Option<usize>
    ensures { result ≡ count_in best }
{
    best.checked_sub(1).map(usize::from)
}

// Plans a table that has passed its checks. It leaves open what the first 4,608 bytes of the working space then hold,
// and touches no other. Its arrays are in the account of docs/MEMORY.md; those of `count_checked` are the same.
pub fn plan_checked(table: Table, labels: &mut [u8], space: &mut [u8]) -> Result<usize, Refusal>
    requires { Checked (lent table) labels.old space.old }
    ensures labels_after { answering (answer_of result) labels.new
        ≡ given (best_plan (lent table.entry)) labels.old }
    ensures space_unchanged { drop core_bytes space.new ≡ drop core_bytes space.old }
{
    let mut arc_starts = [0u16; MAX_ROWS];
    let mut arc_lengths = [0u16; MAX_ROWS];
    let mut perms = [0u8; MAX_ROWS];
    let n = table.rows.len();
    let starts = &mut arc_starts[..n];
    let lengths = &mut arc_lengths[..n];
    let perms = &mut perms[..n];
    set_arcs(table, None, starts, lengths, perms);
    let circle = circle_of(table.setting);
    let best = tracks::best_assignment(circle, starts, lengths, perms, space);
    let Some(count) = count_in(best) else {
        return Err(Refusal::NoPlan);
    };
    set_labels(perms, labels);
    Ok(count)
}

// Clears the working space as far as a call needs it.
pub fn clear_space(space: &mut [u8])
    requires { space_bytes ≤ length space.old }
    ensures { space.new ≡ replicate space_bytes 0 ++ drop space_bytes space.old }
{
    space[..SPACE_BYTES].fill(0);
}

// How many rows the best plan of a checked table hears, with a row more where one is given that has passed its checks
// too; None without a plan. It leaves open what the first 4,608 bytes of the working space then hold, and touches no
// other.
pub fn count_checked(table: Table, more: Option<Row>, space: &mut [u8]) -> Option<usize>
    requires { Countable (lent table) more space.old }
    ensures value { result ≡ count_of (best_plan (with_more (lent table.entry) more)) }
    ensures space_unchanged { drop core_bytes space.new ≡ drop core_bytes space.old }
{
    let mut arc_starts = [0u16; MAX_ROWS];
    let mut arc_lengths = [0u16; MAX_ROWS];
    let mut perms = [0u8; MAX_ROWS];
    let n = table.rows.len() + usize::from(more.is_some());
    let starts = &mut arc_starts[..n];
    let lengths = &mut arc_lengths[..n];
    let perms = &mut perms[..n];
    set_arcs(table, more, starts, lengths, perms);
    let circle = circle_of(table.setting);
    let best = tracks::best_count(circle, starts, lengths, perms, space);
    count_in(best)
}
