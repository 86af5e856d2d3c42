// Narrowing: row after row is left one label, the first of 1, 2, 0 with which the most can still be heard.
ghost use Rattle.std.specs.Prelude.{◌≡◌, true, false, ◌+◌, ◌≤◌, ◌<◌, length, drop};
ghost use Rattle.basics.specs.Limits.{max_rows};
ghost use Rattle.labels.specs.Permission.{only};
ghost use Rattle.line.specs.Cells.{next_from, core_bytes};
ghost use Rattle.tracks.specs.Tracks.{Answered};
ghost use Rattle.tracks.specs.Narrowing.{Ordered, Kept, Narrowed, Outcome, first_in, FixedFrom, Advanced, FindReady, NarrowReady, RowReady};

use basics::MAX_ROWS;
use labels::permission::{may_have, only_label};
use line::space::FOUND_FROM;
use pairs::OrderedRows;

// The first label of a permission in the order 1, 2, 0, as a permission.
#[tactic(auto, unfolding(labels::specs::Permission::only))]
fn first_label(perm: u8) -> u8
    ensures { result ≡ only (first_in perm) }
{
    if may_have(perm, 1) {
        only_label(1)
    } else if may_have(perm, 2) {
        only_label(2)
    } else {
        only_label(0)
    }
}

// Copies a list of the same length byte by byte: for `copy_from_slice` the library needs `memmove` from outside.
#[tactic(auto, using(basics::proofs::Filling::filled_none, basics::proofs::Filling::filled_more))]
fn copy(from: &[u8], to: &mut [u8])
    requires { length to.old ≡ length from.now }
    ensures { to.new ≡ from.now }
{
    for i in 0..from.len() {
        to[i] = from[i];
    }
}

// Writes the permissions where labels found stand, to be taken back if an attempt finds none.
fn keep(perms: &[u8], space: &mut [u8])
    requires few { length perms.now ≤ max_rows }
    requires long { core_bytes ≤ length space.old }
    ensures kept { Kept perms.now space.new }
    ensures space_unchanged { drop next_from space.new ≡ drop next_from space.old }
{
    copy(perms, &mut space[FOUND_FROM..FOUND_FROM + perms.len()]);
}

// Leaves the next rows from i on that have more than one label their first label, as many as `several`.
#[tactic(auto, using(crate::proofs::Turns::fixed_none, crate::proofs::Turns::fixed_more, crate::proofs::Turns::fixed_same))]
fn fix(perms: &mut [u8], i: usize, several: usize)
    requires inside { i < length perms.old }
    requires some { 1 ≤ several }
    ensures { FixedFrom perms.old perms.new i }
{
    let mut left = several;
    for r in i..perms.len() {
        if left == 0 {
            return;
        }
        let label = first_label(perms[r]);
        if perms[r] != label {
            perms[r] = label;
            left -= 1;
        }
    }
}

// Finds the labels of the rows, and takes what then stands there: what was found, or the permissions as they were kept.
fn take_found(
    rows: OrderedRows,
    perms: &mut [u8],
    cap: u8,
    left: &mut [u8],
    space: &mut [u8],
) -> bool
    requires { FindReady rows.positions.now rows.ends.now rows.order.now perms.old rows.m cap left.old space.old }
    ensures found { Outcome (Ordered rows.entry.positions.now rows.entry.ends.now rows.entry.order.now) cap perms.old perms.new space.old result }
    ensures kept { Kept perms.new space.new }
    ensures space_unchanged { drop next_from space.new ≡ drop next_from space.old }
{
    let reached = rows.find_labels(perms, cap, left, space);
    let n = perms.len();
    copy(&space[FOUND_FROM..FOUND_FROM + n], perms);
    reached
}

// Leaves as many rows as `ahead`, from i on, their first label, if the cap is still reached; else the permissions stay.
// One row alone is left to `narrow_row`. The lists that are written are parameters, as in `pairs`.
fn try_ahead(
    rows: OrderedRows,
    perms: &mut [u8],
    cap: u8,
    left: &mut [u8],
    space: &mut [u8],
    i: usize,
    ahead: usize,
) -> bool
    requires { RowReady rows.positions.now rows.ends.now rows.order.now perms.old rows.m cap left.old space.old i }
    ensures yes { result ≡ true → Narrowed (Ordered rows.entry.positions.now rows.entry.ends.now rows.entry.order.now) cap perms.old perms.new (i + 1) }
    ensures no { result ≡ false → perms.new ≡ perms.old }
    ensures kept { Kept perms.new space.new }
    ensures space_unchanged { drop next_from space.new ≡ drop next_from space.old }
{
    if ahead < 2 {
        return false;
    }
    fix(perms, i, ahead);
    take_found(rows, perms, cap, left, space)
}

// Leaves row i its first label, if the cap is still reached; else that label is struck.
fn try_first(
    rows: OrderedRows,
    perms: &mut [u8],
    cap: u8,
    left: &mut [u8],
    space: &mut [u8],
    i: usize,
)
    requires { RowReady rows.positions.now rows.ends.now rows.order.now perms.old rows.m cap left.old space.old i }
    ensures narrowed { Narrowed (Ordered rows.entry.positions.now rows.entry.ends.now rows.entry.order.now) cap perms.old perms.new i }
    ensures advanced { Advanced perms.old perms.new i }
    ensures kept { Kept perms.new space.new }
    ensures space_unchanged { drop next_from space.new ≡ drop next_from space.old }
{
    let perm = perms[i];
    let label = first_label(perm);
    if perm == label {
        return;
    }
    perms[i] = label;
    if take_found(rows, perms, cap, left, space) {
        return;
    }
    perms[i] = perm - label;
    keep(perms, space);
    take_found(rows, perms, cap, left, space);
}

// Leaves row i the first label with which the cap is still reached: where its first label is struck there may be two
// more.
fn narrow_row(
    rows: OrderedRows,
    perms: &mut [u8],
    cap: u8,
    left: &mut [u8],
    space: &mut [u8],
    i: usize,
)
    requires { RowReady rows.positions.now rows.ends.now rows.order.now perms.old rows.m cap left.old space.old i }
    ensures narrowed { Narrowed (Ordered rows.entry.positions.now rows.entry.ends.now rows.entry.order.now) cap perms.old perms.new (i + 1) }
    ensures kept { Kept perms.new space.new }
    ensures space_unchanged { drop next_from space.new ≡ drop next_from space.old }
{
    try_first(rows, perms, cap, left, space, i);
    try_first(rows, perms, cap, left, space, i);
}

// Leaves row i one label, and the rows after it where `ahead` of them can have their first; returns how many to try
// next: twice as many, or one where they could not.
fn narrow_ahead(
    rows: OrderedRows,
    perms: &mut [u8],
    cap: u8,
    left: &mut [u8],
    space: &mut [u8],
    i: usize,
    ahead: usize,
) -> usize
    requires row { RowReady rows.positions.now rows.ends.now rows.order.now perms.old rows.m cap left.old space.old i }
    requires ahead_few { ahead ≤ max_rows }
    ensures narrowed { Narrowed (Ordered rows.entry.positions.now rows.entry.ends.now rows.entry.order.now) cap perms.old perms.new (i + 1) }
    ensures kept { Kept perms.new space.new }
    ensures space_unchanged { drop next_from space.new ≡ drop next_from space.old }
    ensures ahead_few { result ≤ max_rows }
{
    if perms[i] == first_label(perms[i]) {
        return ahead;
    }
    if try_ahead(rows, perms, cap, left, space, i, ahead) {
        return (ahead * 2).min(MAX_ROWS);
    }
    narrow_row(rows, perms, cap, left, space, i);
    if ahead < 2 { 2 } else { 1 }
}

// Leaves each row one label. While the first labels can be had, ever more rows are tried at once.
pub fn narrow(rows: OrderedRows, perms: &mut [u8], cap: u8, left: &mut [u8], space: &mut [u8])
    requires { NarrowReady rows.positions.now rows.ends.now rows.order.now perms.old rows.m cap left.old space.old }
    ensures answered { Answered (Ordered rows.entry.positions.now rows.entry.ends.now rows.entry.order.now perms.old) cap perms.new }
    ensures space_unchanged { drop next_from space.new ≡ drop next_from space.old }
{
    keep(perms, space);
    let mut ahead = 1;
    for i in 0..perms.len() {
        ahead = narrow_ahead(rows, perms, cap, left, space, i, ahead);
    }
}
