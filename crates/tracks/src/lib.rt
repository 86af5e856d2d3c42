// The best two-track assignment of arcs under permissions.
#![tactic(auto)]

ghost use Rattle.std.specs.Prelude.{◌≡◌, ◌≤◌, length, drop};
ghost use Rattle.line.specs.Cells.{core_bytes};
ghost use Rattle.arcs.specs.Arcs.{Arcs, Assigned};
ghost use Rattle.tracks.specs.Tracks.{Lent, Most, Answered, Solved, Prepared};

use basics::MAX_ROWS;
use narrowing::narrow;
use pairs::OrderedRows;

mod narrowing;

// That the bytes of the space after the core's are as they were is a clause of each function that writes to it, here,
// in `best_plan` and in `candidates`: it relates what the space held before to what it holds after, which no field of a
// struct can state.

// Turns the arcs into rows in order, `starts` into positions and `lengths` into ends, and sets the next rows of those
// that do not cross the cut; returns how many cross.
fn prepare(
    circle: u16,
    starts: &mut [u16],
    lengths: &mut [u16],
    order: &mut [u8],
    space: &mut [u8],
) -> usize
    requires arcs { Arcs circle starts.old lengths.old }
    requires order_len { length order.old ≡ length starts.old }
    requires core_bytes_in_bounds { core_bytes ≤ length space.old }
    ensures { Prepared circle starts.old lengths.old starts.new lengths.new order.new result space.old space.new }
{
    let m = arcs::arrange(circle, starts, lengths, order);
    line::set_nexts(&starts[m..], &lengths[m..], space);
    m
}

// The most that can be heard and one more, 0 without an assignment; where narrowing is asked, the permissions are
// narrowed to the best assignment.
fn solve_lent(
    circle: u16,
    starts: &mut [u16],
    lengths: &mut [u16],
    perms: &mut [u8],
    narrowing: bool,
    order: &mut [u8],
    left: &mut [u8],
    space: &mut [u8],
) -> u8
    requires lent { Lent circle starts.old lengths.old perms.old space.old }
    requires order_len { (length order.old ≡ length starts.old) × (length left.old ≡ length starts.old) }
    ensures solved { Solved (Assigned circle starts.old lengths.old perms.old) narrowing result perms.old perms.new }
    ensures space_unchanged { drop core_bytes space.new ≡ drop core_bytes space.old }
{
    let m = prepare(circle, starts, lengths, order, space);
    let rows = OrderedRows {
        positions: starts,
        ends: lengths,
        order,
        m,
    };
    let best = rows.best(perms, left, space);
    if narrowing && 0 < best {
        narrow(rows, perms, best, left, space);
    }
    best
}

// The same, with the arrays that it needs, which are in the account of docs/MEMORY.md.
fn solve(
    circle: u16,
    starts: &mut [u16],
    lengths: &mut [u16],
    perms: &mut [u8],
    narrowing: bool,
    space: &mut [u8],
) -> u8
    requires { Lent circle starts.old lengths.old perms.old space.old }
    ensures solved { Solved (Assigned circle starts.old lengths.old perms.old) narrowing result perms.old perms.new }
    ensures space_unchanged { drop core_bytes space.new ≡ drop core_bytes space.old }
{
    let mut order = [0u8; MAX_ROWS];
    let mut left = [0u8; MAX_ROWS];
    let n = starts.len();
    solve_lent(
        circle,
        starts,
        lengths,
        perms,
        narrowing,
        &mut order[..n],
        &mut left[..n],
        space,
    )
}

// The best two-track assignment (docs/RULES.md, Plans and their order): 0 where there is none, else its count and one
// more, as a cell of the working space holds it, and its labels are those that `label_of` gives of the permissions
// then. What else the permissions hold is open, and so is what is left of starts and lengths and of the first
// `core_bytes` bytes of the space.
pub fn best_assignment(
    circle: u16,
    starts: &mut [u16],
    lengths: &mut [u16],
    perms: &mut [u8],
    space: &mut [u8],
) -> u8
    requires { Lent circle starts.old lengths.old perms.old space.old }
    ensures { Answered (Assigned circle starts.old lengths.old perms.old) result perms.new × (drop core_bytes space.new ≡ drop core_bytes space.old) }
{
    solve(circle, starts, lengths, perms, true, space)
}

// The count of the best assignment and one more, 0 where there is none. The permissions stay as they are; what is left
// of starts and lengths and of the first `core_bytes` bytes of the space is open. It borrows the permissions as
// `best_assignment` does, so that one function holds the arrays for both.
pub fn best_count(
    circle: u16,
    starts: &mut [u16],
    lengths: &mut [u16],
    perms: &mut [u8],
    space: &mut [u8],
) -> u8
    requires { Lent circle starts.old lengths.old perms.old space.old }
    ensures most { Most (Assigned circle starts.old lengths.old perms.old) result × (drop core_bytes space.new ≡ drop core_bytes space.old) }
    ensures perms_unchanged { perms.new ≡ perms.old }
{
    solve(circle, starts, lengths, perms, false, space)
}
