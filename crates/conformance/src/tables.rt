// Tables that several groups of cases use.
use table::{Setting, Table};
use trial_calls::{is_planned, table_of};

// P2's lists: 10–30, 20–40, 25–50, 90–10.
pub const P2_STARTS: [u16; 4] = [10, 20, 25, 90];

const P2_ENDS: [u16; 4] = [30, 40, 50, 10];

// P2, in a round of 100 ticks, with a gap and marks.
pub fn p2(gap: u16, marks: &[u8]) -> Table<'_> {
    table_of(Setting::round(100, gap), &P2_STARTS, &P2_ENDS, marks)
}

// Whether three rows in a round of 10 ticks are planned so.
pub fn three(starts: &[u16], ends: &[u16], marks: &[u8], expected: Result<&[u8], u8>) -> bool {
    is_planned(
        table_of(Setting::round(10, 0), starts, ends, marks),
        expected,
    )
}

// 4–5 three times in that round.
pub fn equal(marks: &[u8], expected: Result<&[u8], u8>) -> bool {
    three(&[4, 4, 4], &[5, 5, 5], marks, expected)
}
