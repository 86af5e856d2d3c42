// Tables of windows: the setting, the rows, the checks of a table, and the test whether labels are a plan.
#![tactic(auto)]

ghost use Rattle.std.specs.Prelude.{◌≡◌, length};
ghost use Rattle.window.specs.declared.Kind.TheVariants.{Round};
ghost use Rattle.window.specs.Hours.{no_hours};
ghost use Rattle.table.specs.Tables.{setting_of, row_of, RowIn, are_even};

use refusals::Refusal;
use window::{Kind, Row};

pub mod checks;
pub mod plan;

// What all rows of a table share: a round or a run, its ticks, the gap, which is how many ticks a receiver needs
// between two windows, and the receivers' open hours, which count in a run alone.
#[derive(Clone, Copy)]
pub struct Setting {
    pub kind: Kind,
    pub ticks: u16,
    pub gap: u16,
    pub hours: [[u16; 2]; 2],
}

// What the checks of the rows report: a refusal or none, and how many rows were looked at, which a caller needs on a
// refusal too.
#[derive(Clone, Copy)]
pub struct Looked {
    pub refusal: Result<(), Refusal>,
    pub rows: usize,
}

impl Setting {
    // A round with a gap, in which hours are neither checked nor used.
    pub fn round(ticks: u16, gap: u16) -> Setting
        ensures { result ≡ setting_of Round ticks gap no_hours }
    {
        Setting {
            kind: Kind::Round,
            ticks,
            gap,
            hours: [[0, 0], [0, 0]],
        }
    }
}

// A table's rows as they are lent: row i is entry i of each list.
#[derive(Clone, Copy)]
pub struct Rows<'a> {
    pub starts: &'a [u16],
    pub ends: &'a [u16],
    pub marks: &'a [u8],
}

// A table as it is lent, before any check.
#[derive(Clone, Copy)]
pub struct Table<'a> {
    pub setting: Setting,
    pub rows: Rows<'a>,
}

impl<'a> Rows<'a> {
    // How many rows there are.
    pub fn len(self) -> usize
        ensures { result ≡ length self.entry.starts.now }
    {
        self.starts.len()
    }

    // Whether the three lists are equally long.
    pub fn is_even(self) -> bool
        ensures { result ≡ are_even self.entry.starts.now self.entry.ends.now self.entry.marks.now }
    {
        self.ends.len() == self.starts.len() && self.marks.len() == self.starts.len()
    }

    // Row i.
    pub fn row(self, i: usize) -> Row
        requires { RowIn self.starts.now self.ends.now self.marks.now i }
        ensures { result ≡ row_of self.entry.starts.now self.entry.ends.now self.entry.marks.now i }
    {
        Row {
            start: self.starts[i],
            end: self.ends[i],
            mark: self.marks[i],
        }
    }
}
