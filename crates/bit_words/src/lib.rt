// One bit per row: labels as a heard and a receiver word and back, marks as a must word, and for each row a word of
// the rows that clash with it (docs/RULES.md, Words).
#![tactic(auto)]

ghost use Rattle.std.specs.Prelude.{◌≡◌, ◌≤◌, ◌<◌, length};
ghost use Rattle.std.specs.Int.Count.{ones};
ghost use Rattle.basics.specs.Limits.{max_rows};
ghost use Rattle.refusals.specs.Refusals.{answer_of};
ghost use Rattle.bit_words.specs.Bits.{word_bits, is_set};
ghost use Rattle.bit_words.specs.Words.{are_labels, words_given, words_call, label_by, are_words, labels_from, labels_given, labels_call, must_given, must_call};
ghost use Rattle.bit_words.specs.Lent.{rows_refusal};

use basics::MAX_ROWS;
use refusals::Refusal;

mod bits;
pub mod clashes;

// Labels as words: bit i of the one is 1 where row i is heard, and of the other where receiver 2 hears it.
#[derive(Clone, Copy, Debug, PartialEq, Eq)]
pub struct LabelWords {
    pub heard: u64,
    pub receiver: u64,
}

impl LabelWords {
    // The number heard.
    pub fn count(self) -> usize
        ensures { result ≡ ones self.heard }
    {
        bits::ones_in(self.heard)
    }

    // Whether the words can be carried by so many labels.
    #[tactic(auto, using(crate::proofs::Carrying::not_within, crate::proofs::Carrying::within))]
    fn fit(self, rows: usize) -> bool
        requires { rows ≤ max_rows }
        ensures { result ≡ are_words rows self.heard self.receiver }
    {
        self.heard & self.receiver == self.receiver && bits::is_below(self.heard, rows)
    }

    // The label of row i, from its two bits.
    fn label(self, i: usize) -> u8
        requires { i < word_bits }
        ensures { result ≡ label_by (is_set self.heard i) (is_set self.receiver i) }
    {
        match (
            bits::has_bit(self.heard, i),
            bits::has_bit(self.receiver, i),
        ) {
            (false, _) => 0,
            (true, false) => 1,
            (true, true) => 2,
        }
    }
}

// Check 2, of labels, marks or words for so many rows.
fn check_rows(rows: usize) -> Result<(), Refusal>
    ensures { result ≡ rows_refusal rows }
{
    if MAX_ROWS < rows {
        return Err(Refusal::Rows);
    }
    Ok(())
}

// Whether every label is 0, 1 or 2.
fn are_labels(labels: &[u8]) -> bool
    ensures { result ≡ are_labels labels.now }
{
    labels.iter().all(|label| *label <= 2)
}

// THE WORDS OF LABELS: what the definition `words_call` yields, on every input. The number heard is the number of ones
// of the heard word.
#[tactic(auto, using(crate::proofs::Answering::words_ones), unfolding(crate::specs::Words::words_call, crate::specs::Words::labels_refusal))]
pub fn words_of(labels: &[u8]) -> Result<LabelWords, Refusal>
    ensures { words_given result ≡ words_call labels.now }
{
    check_rows(labels.len())?;
    if !are_labels(labels) {
        return Err(Refusal::NotPlan);
    }
    Ok(LabelWords {
        heard: bits::word_of(labels.len(), |i| labels[i] != 0),
        receiver: bits::word_of(labels.len(), |i| labels[i] == 2),
    })
}

// Fills the labels from the words.
#[tactic(auto, using(basics::proofs::Filling::filled_none, basics::proofs::Filling::filled_more, basics::proofs::Filling::filled_list), unfolding(crate::specs::Words::labels_from))]
fn set_labels(words: LabelWords, labels: &mut [u8])
    requires { length labels.old ≤ max_rows }
    ensures { labels.new ≡ labels_from (length labels.old) words.heard words.receiver }
{
    for (i, label) in labels.iter_mut().enumerate() {
        *label = words.label(i);
    }
}

// THE LABELS OF WORDS, a place for each row: what the definition `labels_call` yields, on every input.
#[tactic(auto, using(crate::proofs::Answering::labels_ones), unfolding(crate::specs::Words::labels_call, crate::specs::Words::words_refusal))]
pub fn labels_of(words: LabelWords, labels: &mut [u8]) -> Result<usize, Refusal>
    ensures { labels_given (answer_of result) labels.new
        ≡ labels_call words.heard words.receiver labels.old }
{
    check_rows(labels.len())?;
    if !words.fit(labels.len()) {
        return Err(Refusal::NotPlan);
    }
    set_labels(words, labels);
    Ok(words.count())
}

// THE MUST WORD OF MARKS: what the definition `must_call` yields, on every input.
#[tactic(auto, unfolding(crate::specs::Words::must_call))]
pub fn must_of(marks: &[u8]) -> Result<u64, Refusal>
    ensures { must_given result ≡ must_call marks.now }
{
    check_rows(marks.len())?;
    Ok(bits::word_of(marks.len(), |i| marks::is_must(marks[i])))
}
