// In how many rounds, or runs, a mark or the gap decides the answer. A mark does where the brute force finds another
// answer if the rows of that mark have another mark.
use crate::drawn::Table;
use crate::gap::Gaps;
use brute_force::plans::{Found, changed};
use brute_force::windows::Row;
use trial_report::more;

// A mark and the one that takes its place: without must (1, 3, 5), on either receiver (2, 3, 4, 5), and with must (0).
pub const EXCHANGES: [[u8; 2]; 8] = [
    [0, 1],
    [1, 0],
    [2, 0],
    [3, 1],
    [3, 2],
    [4, 0],
    [5, 1],
    [5, 4],
];

// By each exchange of marks, and by the gap.
#[derive(Clone, Copy, Default)]
pub struct Decided {
    pub exchanges: [u32; 8],
    pub gaps: Gaps,
}

// Whether the answer would be another one if the rows of a mark had another.
fn decides(t: Table, right: Found, [mark, other]: [u8; 2]) -> bool {
    let rows = t.rows.map(|row| {
        if row.mark == mark {
            Row { mark: other, ..row }
        } else {
            row
        }
    });
    changed(right, Table { rows, ..t }.found())
}

impl Decided {
    // One table more.
    pub fn with_table(self, t: Table, right: Found) -> Decided {
        Decided {
            exchanges: std::array::from_fn(|i| more(
                self.exchanges[i],
                decides(t, right, EXCHANGES[i]),
            )),
            gaps: self.gaps.with_table(t, right),
        }
    }
}
