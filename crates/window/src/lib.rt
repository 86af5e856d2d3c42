// Ticks, windows and rows (docs/RULES.md, Ticks and windows; Gap): how far a tick lies after a start, which tick comes
// next, whether a window is proper, whether it covers a tick, whether two windows overlap or are too close.
#![tactic(auto)]

ghost use Rattle.std.specs.Prelude.{◌≡◌, ◌↔◌, true, ℕ, ◌<◌};
ghost use Rattle.window.specs.Ticks.{Ticks, distance};
// The definition `Window` is `Proper` in clauses, since the struct has its name.
ghost use Rattle.window.specs.Windows.{next, Covers, Overlap, Window as Proper, is_window, covers, ticks_in, lies_in, overlaps};
ghost use Rattle.window.specs.Gaps.{TooClose, is_near, reaches, too_close};

// The longest round or run, in ticks.
pub const MAX_TICKS: u16 = 43_200;

// The longest gap, in ticks. A longer one is refused with 14.
pub const MAX_GAP: u16 = 600;

// A round is a day that repeats; a run is one stretch of time.
#[derive(Clone, Copy, Debug, PartialEq, Eq)]
pub enum Kind {
    Round,
    Run,
}

impl Kind {
    // The tick after `tick`: in a round 0 comes after the last one.
    pub fn next_tick(self, ticks: u16, tick: u16) -> u16
        requires { tick < ticks }
        ensures { result ≡ next self ticks tick }
    {
        match self {
            Kind::Round if tick + 1 == ticks => 0,
            _ => tick + 1,
        }
    }
}

// A row of a table: its window and its mark. What a mark says is the crate `marks`.
#[derive(Clone, Copy, Debug, PartialEq, Eq)]
pub struct Row {
    pub start: u16,
    pub end: u16,
    pub mark: u8,
}

impl Row {
    pub fn window(self) -> Window
        ensures { result ≡ record { start = self.start; end = self.end } }
    {
        Window {
            start: self.start,
            end: self.end,
        }
    }
}

// A start and an end on any numbers: `is_proper` says whether they are a window of a round or a run.
#[derive(Clone, Copy, Debug, PartialEq, Eq)]
pub struct Window {
    pub start: u16,
    pub end: u16,
}

impl Window {
    // Whether start and end make a window of a round or a run of `ticks` ticks (check 6).
    pub fn is_proper(self, kind: Kind, ticks: u16) -> bool
        ensures { result ≡ is_window kind ticks self.start self.end }
    {
        match kind {
            Kind::Round => self.start < ticks && self.end < ticks,
            Kind::Run => self.start < self.end && self.end <= ticks,
        }
    }

    // How many ticks the window covers.
    #[tactic(auto, unfolding(crate::specs::Windows::ticks_in))]
    pub fn length(self, kind: Kind, ticks: u16) -> u16
        requires { Proper kind ticks self.start self.end }
        ensures { result ≡ ticks_in kind ticks self.start self.end }
    {
        match kind {
            // A distance of 0 is a length of R.
            Kind::Round if self.start == self.end => ticks,
            Kind::Round => distance(ticks, self.start, self.end),
            Kind::Run => self.end - self.start,
        }
    }

    // Whether the window covers the tick. Of a window that fails check 6 it is what `covers` computes, and says nothing
    // about ticks.
    #[tactic(auto, unfolding(crate::specs::Windows::covers))]
    pub fn covers(self, tick: u16) -> bool
        ensures computed { result ≡ covers self.start self.end tick }
        ensures meaning { (kind : Kind) (R : ℕ) → Proper kind R self.start self.end → tick < R → (result ≡ true) ↔ Covers kind R self.start self.end tick }
    {
        if self.start < self.end {
            self.start <= tick && tick < self.end
        } else {
            self.start <= tick || tick < self.end
        }
    }

    // Whether start and end make a window of a round or a run of `ticks` ticks and the tick lies in it, on any numbers.
    #[tactic(auto, using(crate::proofs::Meaning::lies_covers))]
    pub fn lies_at(self, kind: Kind, ticks: u16, tick: u16) -> bool
        ensures computed { result ≡ lies_in kind ticks self.start self.end tick }
        ensures meaning { (result ≡ true) ↔ (Proper kind ticks self.start self.end × (tick < ticks) × Covers kind ticks self.start self.end tick) }
    {
        self.is_proper(kind, ticks) && tick < ticks && self.covers(tick)
    }

    // Whether two windows overlap. Of windows that fail check 6 it is what `overlaps` computes, and says nothing about
    // ticks.
    #[tactic(auto, unfolding(crate::specs::Windows::overlaps))]
    pub fn overlaps(self, other: Window) -> bool
        ensures computed { result ≡ overlaps self.start self.end other.start other.end }
        ensures meaning { (kind : Kind) (R : ℕ) → Proper kind R self.start self.end → Proper kind R other.start other.end → (result ≡ true) ↔ Overlap kind R self.start self.end other.start other.end }
    {
        self.covers(other.start) || other.covers(self.start)
    }

    // Whether two windows overlap or have fewer than `gap` ticks between them. Of windows that fail check 6 it is what
    // `too_close` computes, and says nothing about ticks.
    #[tactic(auto, unfolding(crate::specs::Gaps::too_close))]
    pub fn is_too_close(self, kind: Kind, ticks: u16, gap: u16, other: Window) -> bool
        ensures computed { result ≡ too_close kind ticks gap self.start self.end other.start other.end }
        ensures meaning { Proper kind ticks self.start self.end → Proper kind ticks other.start other.end → (result ≡ true) ↔ TooClose kind ticks gap self.start self.end other.start other.end }
    {
        self.reaches(kind, ticks, gap, other.start) || other.reaches(kind, ticks, gap, self.start)
    }

    // Whether the window, or one of the `gap` ticks after it, is at the tick.
    #[tactic(auto, unfolding(crate::specs::Gaps::reaches))]
    fn reaches(self, kind: Kind, ticks: u16, gap: u16, tick: u16) -> bool
        ensures { result ≡ reaches kind ticks gap self.start self.end tick }
    {
        self.covers(tick) || is_near(kind, ticks, gap, self.end, tick)
    }
}

// How many ticks after a start a tick lies on a circle of `ticks` ticks, without division or remainder. The brackets
// keep the sum within 16 bits, which tick + ticks may leave. It is no method of Window: the core measures from starts
// on circles of its own.
#[tactic(auto, using(crate::proofs::Circle::distance_after, crate::proofs::Circle::distance_before))]
pub fn distance(ticks: u16, start: u16, tick: u16) -> u16
    requires { Ticks ticks start tick }
    ensures { result ≡ distance ticks start tick }
{
    if tick >= start {
        tick - start
    } else {
        tick + (ticks - start)
    }
}

// Whether fewer than `gap` ticks lie between the end of a window and the start of another. Of any numbers, so that the
// sums take 32 bits. Kind, ticks and gap come one by one here and in the methods above: they are fields of
// `table::Setting`, which stands in a crate above this one.
#[tactic(auto, unfolding(crate::specs::Gaps::is_near))]
fn is_near(kind: Kind, ticks: u16, gap: u16, end: u16, start: u16) -> bool
    ensures { result ≡ is_near kind ticks gap end start }
{
    let reach = u32::from(end) + u32::from(gap);
    if end <= start {
        return u32::from(start) < reach;
    }
    match kind {
        Kind::Round => u32::from(start) + u32::from(ticks) < reach,
        Kind::Run => false,
    }
}
