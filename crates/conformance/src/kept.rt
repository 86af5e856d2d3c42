// Labels and working space after each refusal of the planner and after a plan: the table of P2 with one fault each.
// Every call is judged with both filled with a pattern before it, and with more bytes than the planner needs (but for
// refusal 3).
use crate::tables::P2_STARTS;
use table::Setting;
use trial_calls::{LENT_BYTES, is_planned, is_planned_in, run, table_of};
use trial_report::Group;

// A call for P2 where row 2 may have another mark and row 3 another end, with so many places for labels and bytes of
// working space.
#[derive(Clone, Copy)]
struct Call {
    ticks: u16,
    gap: u16,
    mark: u8,
    end: u16,
    places: usize,
    bytes: usize,
}

const P2: Call = Call {
    ticks: 100,
    gap: 0,
    mark: 0,
    end: 10,
    places: 4,
    bytes: LENT_BYTES,
};

impl Call {
    fn gives(self, expected: Result<&[u8], u8>) -> bool {
        is_planned_in(
            table_of(
                Setting::round(self.ticks, self.gap),
                &P2_STARTS,
                &[30, 40, 50, self.end],
                &[1, 1, self.mark, 0],
            ),
            self.places,
            self.bytes,
            expected,
        )
    }
}

// 65 rows.
fn too_many() -> bool {
    is_planned(
        table_of(Setting::round(100, 0), &[10; 65], &[20; 65], &[0; 65]),
        Err(2),
    )
}

// A run with rows 10–30 and 20–40 and a gap, whose first receiver is open from p to 50.
fn in_hours(p: u16, gap: u16, mark: u8, expected: Result<&[u8], u8>) -> bool {
    is_planned(
        table_of(
            run(100, gap, [[p, 50], [60, 100]]),
            &[10, 20],
            &[30, 40],
            &[1, mark],
        ),
        expected,
    )
}

// Refusals 1 to 7 and 14 leave both as they were.
fn untouched(group: Group) -> Group {
    group.with_cases(&[
        Call { places: 5, ..P2 }.gives(Err(1)),
        too_many(),
        Call { bytes: 4607, ..P2 }.gives(Err(3)),
        Call { ticks: 43201, ..P2 }.gives(Err(4)),
        in_hours(51, 0, 0, Err(5)),
        Call { gap: 601, ..P2 }.gives(Err(14)),
        in_hours(0, 601, 0, Err(14)),
        Call { end: 100, ..P2 }.gives(Err(6)),
        Call { mark: 6, ..P2 }.gives(Err(7)),
    ])
}

// P2, and with three rows that must be heard, which is refused 8. A plan and refusal 8 clear the first 4,608 bytes and
// no others, however many are lent; refusal 8 leaves the labels as they were.
fn cleared(group: Group) -> Group {
    let mut g = group;
    for bytes in [LENT_BYTES, 4608, 4609, 16383, 16384] {
        let p2 = Call { bytes, ..P2 };
        g = g.with_cases(&[
            Call { mark: 1, ..p2 }.gives(Err(8)),
            p2.gives(Ok(&[1, 2, 0, 1])),
        ]);
    }
    g.with_cases(&[
        in_hours(0, 0, 1, Err(8)),
        in_hours(0, 0, 5, Err(8)),
        in_hours(0, 0, 0, Ok(&[1, 0])),
    ])
}

pub fn all() -> Group {
    cleared(untouched(Group::default()))
}
