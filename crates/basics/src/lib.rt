// What several crates use: how many rows there can be, the places of lists, and a byte that is stored.
#![tactic(auto)]

ghost use Rattle.std.specs.Prelude.{◌≡◌, ◌<◌, [], ◌∷◌, length};
ghost use Rattle.basics.specs.Limits.{has_places};
ghost use Rattle.basics.specs.Lists.{Put};

// A table has at most so many rows.
pub const MAX_ROWS: usize = 64;

// Whether the lists of starts, ends and marks, whose lengths these are, have 64 places each.
pub fn has_places(starts: usize, ends: usize, marks: usize) -> bool
    ensures { result ≡ has_places starts ends marks }
{
    starts == MAX_ROWS && ends == MAX_ROWS && marks == MAX_ROWS
}

// Stores a byte at a place, and gives the place after it.
pub fn put_byte(list: &mut [u8], at: usize, byte: u8) -> usize
    requires { at < length list.old }
    ensures { Put list.old at (byte ∷ []) list.new result }
{
    list[at] = byte;
    at + 1
}
