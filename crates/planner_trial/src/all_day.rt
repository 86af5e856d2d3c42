// In how many rounds it decides the answer that the window of a row that sends all day covers every tick: what the
// brute force finds is another answer where it covers fewer.
use crate::drawn::Table;
use brute_force::plans::{Found, changed};
use brute_force::windows::{Row, after, round_set};
use trial_report::more;

// A field for what it covers instead: no tick, its start alone, every tick but its start.
#[derive(Clone, Copy, Default)]
pub struct EveryTick {
    pub not_none: u32,
    pub not_start: u32,
    pub not_others: u32,
}

// Whether the answer would be another one if the windows that send all day covered the sets of ticks that are given for
// their starts.
fn decides<F: Fn(u16) -> u64>(t: Table, right: Found, set_of: F) -> bool
    requires { F.IsAlwaysCallable set_of }
{
    let sets = t.rows.map(|Row { window, .. }| {
        if window.start == window.end {
            set_of(window.start)
        } else {
            t.day.set_of(window)
        }
    });
    changed(right, t.found_by(&sets, t.day))
}

impl EveryTick {
    // One round more.
    pub fn with_table(self, t: Table, right: Found) -> EveryTick {
        let ticks = t.day.ticks;
        let start_alone = |start| round_set(ticks, start, after(ticks, start));
        let others = |start| round_set(ticks, after(ticks, start), start);
        EveryTick {
            not_none: more(self.not_none, decides(t, right, |_| 0)),
            not_start: more(self.not_start, decides(t, right, start_alone)),
            not_others: more(self.not_others, decides(t, right, others)),
        }
    }
}
