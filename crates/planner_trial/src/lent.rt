// A table that was drawn, as the product is lent it.
use crate::drawn::Table;
use table::Setting;
use trial_calls::{first, setting_of, table_of};

// The product's setting, and arrays, since nothing is allocated: it is lent the first `count` places of each as a list.
#[derive(Clone, Copy)]
pub struct Lent {
    setting: Setting,
    count: usize,
    starts: [u16; 8],
    ends: [u16; 8],
    marks: [u8; 8],
}

impl Table {
    pub fn lent(&self) -> Lent {
        Lent {
            setting: setting_of(self.day, self.hours),
            count: self.count,
            starts: self.rows.map(|row| row.window.start),
            ends: self.rows.map(|row| row.window.end),
            marks: self.rows.map(|row| row.mark),
        }
    }
}

impl Lent {
    pub fn table(&self) -> table::Table<'_> {
        table_of(
            self.setting,
            first(&self.starts, self.count),
            first(&self.ends, self.count),
            first(&self.marks, self.count),
        )
    }
}
