// Small tables whose answers are compared with those of the brute force, and of how many of them each fact holds.
use crate::all_day::EveryTick;
use crate::decided::Decided;
use crate::drawn;
use crate::drawn::Table;
use crate::offered::Offered;
use brute_force::plans::{Found, changed};
use brute_force::windows::{Kind, Window};
use trial_calls::{LENT_BYTES, first, is_planned_in};
use trial_report::more;

pub const TABLES: u32 = 24000;

// Of how many tables each fact holds.
#[derive(Clone, Copy, Default)]
pub struct Tally {
    pub none: u32,
    pub hours: u32,
    pub crossing: u32,
    pub all_day: u32,
    pub two_all_day: u32,
    pub tied: u32,
    pub rounds: Decided,
    pub runs: Decided,
    pub every_tick: EveryTick,
    pub offered: Offered,
    pub differ: u32,
}

// The planner's answer, whole, is what the brute force finds, refusal 8 if that is no plan: from as many bytes of
// working space as it needs and from more.
fn is_found(t: Table, found: Found) -> bool {
    let labels = found.labels();
    let expected = match found.plan {
        Some(_) => Ok(first(&labels, t.count)),
        None => Err(8),
    };
    let lent = t.lent();
    [4608, LENT_BYTES].iter().all(|bytes| is_planned_in(lent.table(), t.count, *bytes, expected))
}

// Whether a window of a round goes on from R-1 to tick 0. In a run no window ends at its start or before it.
fn crosses(w: Window) -> bool {
    w.end != 0 && w.end <= w.start
}

// How many heard rows have a window that meets a test.
fn heard<F: Fn(Window) -> bool>(t: &Table, labels: &[u8; 8], test: F) -> usize
    requires { F.IsAlwaysCallable test }
{
    t.rows
        .iter()
        .zip(labels)
        .filter(|(row, label)| **label != 0 && test(row.window))
        .count()
}

impl Tally {
    // One table more is compared.
    fn with_table(self, t: Table) -> Tally {
        let right = t.found();
        let labels = right.labels();
        let hours = [[0, t.day.ticks]; 2];
        let open = Table { hours, ..t }.found();
        let all_day = heard(&t, &labels, |w| w.start == w.end);
        let counted = Tally {
            none: more(self.none, right.plan.is_none()),
            hours: more(self.hours, changed(right, open)),
            crossing: more(self.crossing, 1 < heard(&t, &labels, crosses)),
            all_day: more(self.all_day, 0 < all_day),
            two_all_day: more(self.two_all_day, 1 < all_day),
            tied: more(self.tied, 1 < right.best),
            offered: self.offered.with_table(t, right),
            differ: more(self.differ, !is_found(t, right)),
            ..self
        };
        match t.day.kind {
            Kind::Round => Tally {
                rounds: self.rounds.with_table(t, right),
                every_tick: self.every_tick.with_table(t, right),
                ..counted
            },
            Kind::Run => Tally {
                runs: self.runs.with_table(t, right),
                ..counted
            },
        }
    }
}

// All tables are compared.
pub fn tables() -> Tally {
    let mut tally = Tally::default();
    let mut state = 149;
    for _turn in 0..TABLES {
        let t = drawn::draw(state);
        tally = tally.with_table(t);
        state = t.state;
    }
    tally
}
