// The parts of the core's working space, in the order of who writes them; `specs/Cells.antt` says what stands in each
// part. It has ACROSS, CELL_BYTES, LINE_BYTES, FOUND_FROM and NEXT_FROM by the same names; where the other parts begin
// stands in its `high_at` and `worth_at`.
use basics::MAX_ROWS;

// The cells stand in rows of so many: one for each row of the line and one for the time after the last.
pub const ACROSS: usize = MAX_ROWS + 1;

// How many cells there are, each of a byte.
pub const CELL_BYTES: usize = ACROSS * ACROSS;

// After the cells a byte for each row of the line: the last row from which on receiver 1 can be free in its turn,
pub const HIGH_1_FROM: usize = CELL_BYTES;

// and the same for receiver 2.
pub const HIGH_2_FROM: usize = HIGH_1_FROM + MAX_ROWS;

// The line program writes so many bytes.
pub const LINE_BYTES: usize = HIGH_2_FROM + MAX_ROWS;

// After them stands what receiver 2 could hear with each crossing row, and with none,
pub const WORTH_FROM: usize = LINE_BYTES;

// the labels found for each row of the table,
pub const FOUND_FROM: usize = WORTH_FROM + ACROSS;

// and the next row of each row of the line.
pub const NEXT_FROM: usize = FOUND_FROM + MAX_ROWS;
