// Which ticks a window covers, and which labels its row may have (docs/RULES.md, Ticks and windows, Marks).
// A set of ticks is a number whose bit t says that tick t, below 64, is in it.

// The brute force's own: `window::Kind` belongs to the product, which is compared with what stands here.
#[derive(Clone, Copy, Debug, PartialEq, Eq)]
pub enum Kind {
    Round,
    Run,
}

// A run or a round of `ticks` ticks, where a receiver needs `gap` ticks between two windows.
#[derive(Clone, Copy)]
pub struct Day {
    pub kind: Kind,
    pub ticks: u16,
    pub gap: u16,
}

#[derive(Clone, Copy)]
pub struct Window {
    pub start: u16,
    pub end: u16,
}

#[derive(Clone, Copy)]
pub struct Row {
    pub window: Window,
    pub mark: u8,
}

// The set of one tick.
fn one(tick: u16) -> u64 {
    1 << (tick % 64)
}

// The tick after `tick`, which after R-1 is 0.
pub fn after(ticks: u16, tick: u16) -> u16 {
    let next = tick.wrapping_add(1);
    if next < ticks { next } else { 0 }
}

// A window covers its start and the ticks after it, from R-1 on to 0, up to the tick before its end; start equal to end
// covers every tick. So the walk ends where it comes to the end after at least one step, which is within one turn.
pub fn round_set(ticks: u16, start: u16, end: u16) -> u64 {
    let mut set = 0;
    let mut tick = start;
    for _ in 0..ticks {
        set |= one(tick);
        tick = after(ticks, tick);
        if tick == end {
            break;
        }
    }
    set
}

// A window of a run covers its start to the tick before its end.
pub fn run_set(start: u16, end: u16) -> u64 {
    (start..end).fold(0, |set, tick| set | one(tick))
}

impl Day {
    // The ticks that a window covers.
    pub fn set_of(self, w: Window) -> u64 {
        match self.kind {
            Kind::Round => round_set(self.ticks, w.start, w.end),
            Kind::Run => run_set(w.start, w.end),
        }
    }

    pub fn sets_of(self, rows: &[Row; 8]) -> [u64; 8] {
        rows.map(|row| self.set_of(row.window))
    }
}

// The labels that a mark leaves a row, as a set: bit 0 for not heard, bit 1 for receiver 1, bit 2 for receiver 2. 0, 2
// and 4 may be heard, 1, 3 and 5 must be; 2 and 3 by receiver 1 only, 4 and 5 by receiver 2 only.
fn marked(mark: u8) -> u8 {
    match mark {
        0 => 7,
        1 => 6,
        2 => 3,
        3 => 2,
        4 => 5,
        5 => 4,
        _ => 0,
    }
}

// A receiver takes a window that starts and ends within its hours: then `receiver`, its bit, is permitted.
fn taken([opening, closing]: [u16; 2], w: Window, receiver: u8) -> u8 {
    if opening <= w.start && w.end <= closing {
        receiver
    } else {
        0
    }
}

// The receivers that can take a window, by their bits: in a round both.
fn receivers(kind: Kind, w: Window, [first, second]: [[u16; 2]; 2]) -> u8 {
    match kind {
        Kind::Round => 6,
        Kind::Run => taken(first, w, 2) | taken(second, w, 4),
    }
}

// A row's permitted labels: what its mark leaves it, of not being heard and the receivers that can take its window.
fn permission(kind: Kind, row: Row, hours: [[u16; 2]; 2]) -> u8 {
    marked(row.mark) & (1 | receivers(kind, row.window, hours))
}

pub fn permissions(kind: Kind, rows: &[Row; 8], hours: [[u16; 2]; 2]) -> [u8; 8] {
    rows.map(|row| permission(kind, row, hours))
}
