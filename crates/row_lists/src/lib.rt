// Rows in lent lists of 64 places: a row stored at a place, and the rows after a place moved up or down one. The
// three lists are lent one by one, so that a contract says of each what it then holds.
#![tactic(auto)]

ghost use Rattle.std.specs.Prelude.{◌≡◌, ◌-◌, ◌<◌, ◌≤◌, length, set};
ghost use Rattle.table.specs.Tables.{RowIn};
ghost use Rattle.row_lists.specs.Moved.{moved_up, moved_down, RowAmong};

use window::Row;

// Stores row i.
pub fn set_row(starts: &mut [u16], ends: &mut [u16], marks: &mut [u8], i: usize, row: Row)
    requires { RowIn starts.old ends.old marks.old i }
    ensures starts_after { starts.new ≡ set starts.old i row.start }
    ensures ends_after { ends.new ≡ set ends.old i row.end }
    ensures marks_after { marks.new ≡ set marks.old i row.mark }
{
    starts[i] = row.start;
    ends[i] = row.end;
    marks[i] = row.mark;
}

// Of the first n entries moves those after entry k up one.
fn move_later<T: Copy>(list: &mut [T], k: usize, n: usize)
    requires below { k < n }
    requires most { n ≤ length list.old }
    ensures { list.new ≡ moved_up k n list.old }
{
    list.copy_within(k + 1..n, k);
}

// Of the first n entries moves those from entry k on down one.
fn move_from<T: Copy>(list: &mut [T], k: usize, n: usize)
    requires below { k ≤ n }
    requires most { n < length list.old }
    ensures { list.new ≡ moved_down k n list.old }
{
    list.copy_within(k..n, k + 1);
}

// Moves the rows after row k, of the first `rows`, up one.
pub fn move_up(starts: &mut [u16], ends: &mut [u16], marks: &mut [u8], k: usize, rows: usize)
    requires { RowAmong k rows starts.old ends.old marks.old }
    ensures starts_after { starts.new ≡ moved_up k rows starts.old }
    ensures ends_after { ends.new ≡ moved_up k rows ends.old }
    ensures marks_after { marks.new ≡ moved_up k rows marks.old }
{
    move_later(starts, k, rows);
    move_later(ends, k, rows);
    move_later(marks, k, rows);
}

// Moves row k and those after it, of the first `rows` - 1, down one.
pub fn move_down(starts: &mut [u16], ends: &mut [u16], marks: &mut [u8], k: usize, rows: usize)
    requires { RowAmong k rows starts.old ends.old marks.old }
    ensures starts_after { starts.new ≡ moved_down k (rows - 1) starts.old }
    ensures ends_after { ends.new ≡ moved_down k (rows - 1) ends.old }
    ensures marks_after { marks.new ≡ moved_down k (rows - 1) marks.old }
{
    move_from(starts, k, rows - 1);
    move_from(ends, k, rows - 1);
    move_from(marks, k, rows - 1);
}
