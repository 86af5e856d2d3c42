// Windows as the trial draws them.
use crate::random::{below_too, from};
use crate::windows::{Kind, Window};

// The end of a window of so many ticks: in a run cut off at R, in a round going on from R-1 to 0. After R ticks it is
// the start.
fn end_of(kind: Kind, ticks: u16, start: u16, length: u16) -> u16 {
    let end = start.wrapping_add(length);
    match kind {
        _ if end < ticks => end,
        Kind::Run => ticks,
        Kind::Round => end.wrapping_sub(ticks),
    }
}

// Days of so many ticks with windows of up to `longest`.
#[derive(Clone, Copy)]
pub struct Days {
    pub kind: Kind,
    pub ticks: u16,
    pub longest: u16,
}

impl Days {
    // How many ticks a window covers: up to the longest, and in a round, for one row in eight, all R. The chance of
    // that lies in the lower half of the state, which `from` leaves out.
    pub fn length(self, state: u64) -> u16 {
        match self.kind {
            Kind::Round if below_too(state, 8) == 0 => self.ticks,
            _ => from(state, 1, self.longest),
        }
    }

    // The window of so many ticks.
    pub fn window(self, start: u16, length: u16) -> Window {
        Window {
            start,
            end: end_of(self.kind, self.ticks, start, length),
        }
    }
}

// The kind that a number draws: a run for 0.
pub fn kind_by(drawn: u16) -> Kind {
    match drawn {
        0 => Kind::Run,
        _ => Kind::Round,
    }
}
