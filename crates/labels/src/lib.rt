// Lists of labels, one label a row: 0 not heard, 1 or 2 the receiver. A label is a byte, since C lends lists of bytes.
#![tactic(auto)]

ghost use Rattle.std.specs.Prelude.{◌≡◌};
ghost use Rattle.labels.specs.Labels.{heard};

pub mod permission;

// How many rows are heard: those labelled 1 or 2.
pub fn count_heard(labels: &[u8]) -> usize
    ensures { result ≡ heard labels.now }
{
    labels
        .iter()
        .filter(|label| matches!(**label, 1 | 2))
        .count()
}
