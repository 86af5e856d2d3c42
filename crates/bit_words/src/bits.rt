// Words of 64 bits: a word with a bit for each row, and single bits of a word.
ghost use Rattle.std.specs.Prelude.{◌≡◌, ℕ, cond, ◌+◌, ◌^◌, ◌≤◌, ◌<◌, ltb};
ghost use Rattle.std.specs.Int.Count.{ones};
ghost use Rattle.bit_words.specs.Bits.{word_bits, is_set};
ghost use Rattle.bit_words.specs.Lent.{BitAbove, WordBy};

// How many bits a word has.
const WORD_BITS: usize = 64;

// A word with bit i set where it is asked for. The word has no bit from i on.
#[tactic(auto, using(crate::proofs::BitLaws::or_placed))]
fn with_bit(word: u64, i: usize, set: bool) -> u64
    requires { BitAbove word i }
    ensures { result ≡ word + cond set (2 ^ i) 0 }
{
    if set { word | (1u64 << i) } else { word }
}

// The word of n rows, with bit i set for each row i of which the test holds.
#[tactic(auto, using(crate::proofs::BitLaws::word_none, crate::proofs::BitLaws::word_more, crate::proofs::BitLaws::below_more))]
pub fn word_of<F: Fn(usize) -> bool>(n: usize, test: F) -> u64
    requires few { n ≤ word_bits }
    requires callable { (i : ℕ) → i < n → F.pre test i }
    ensures { WordBy (F.post test) n result }
{
    let mut word = 0;
    for i in 0..n {
        word = with_bit(word, i, test(i));
    }
    word
}

// Whether bit i is 1.
pub fn has_bit(word: u64, i: usize) -> bool
    requires { i < word_bits }
    ensures { result ≡ is_set word i }
{
    (word >> i) & 1 == 1
}

// Whether the word has no bit from n on. Of 64 bits nothing lies above, and no shift by 64 is made.
#[tactic(auto, using(crate::proofs::BitLaws::below_test))]
pub fn is_below(word: u64, n: usize) -> bool
    requires { n ≤ word_bits }
    ensures { result ≡ ltb word (2 ^ n) }
{
    n == WORD_BITS || word >> n == 0
}

// How many bits are 1. `as`, since std has no `From<u32>` for usize.
pub fn ones_in(word: u64) -> usize
    ensures { result ≡ ones word }
{
    word.count_ones() as usize
}
