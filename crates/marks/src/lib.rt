// What a row's mark says: whether the row must be heard, and by which receiver alone (docs/RULES.md, Marks). A mark is
// a byte, since C lends lists of bytes.
#![tactic(auto)]

ghost use Rattle.std.specs.Prelude.{◌≡◌};
ghost use Rattle.marks.specs.Marks.{is_must, is_receiver1_only, is_receiver2_only, mark_allows, raised};

// The highest mark. What is above it is refused with 7.
pub const MAX_MARK: u8 = 5;

// Whether a row with this mark must be heard.
pub fn is_must(mark: u8) -> bool
    ensures { result ≡ is_must mark }
{
    matches!(mark, 1 | 3 | 5)
}

// Whether only receiver 1 can hear a row with this mark.
fn is_receiver_1_only(mark: u8) -> bool
    ensures { result ≡ is_receiver1_only mark }
{
    matches!(mark, 2 | 3)
}

// Whether only receiver 2 can hear a row with this mark.
fn is_receiver_2_only(mark: u8) -> bool
    ensures { result ≡ is_receiver2_only mark }
{
    matches!(mark, 4 | 5)
}

// Whether a row with this mark may have the label.
#[tactic(auto, unfolding(crate::specs::Marks::mark_allows))]
pub fn allows(mark: u8, label: u8) -> bool
    ensures { result ≡ mark_allows mark label }
{
    match label {
        0 => !is_must(mark),
        1 => !is_receiver_2_only(mark),
        2 => !is_receiver_1_only(mark),
        _ => true,
    }
}

// The mark of the same row as one that must be heard.
#[tactic(auto, unfolding(crate::specs::Marks::raised))]
pub fn raise(mark: u8) -> u8
    ensures { result ≡ raised mark }
{
    match mark {
        0 | 2 | 4 => mark + 1,
        _ => mark,
    }
}
