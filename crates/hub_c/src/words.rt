// Labels, marks and clashes as words of bits, for C and Rust: a word is a `uint64_t`, bit i for row i.
ghost use Rattle.std.specs.Prelude.{◌≡◌};
ghost use Rattle.window.specs.declared.Kind.TheVariants.{Round, Run};
ghost use Rattle.window.specs.Hours.{no_hours};
ghost use Rattle.table.specs.Tables.{setting_of};
ghost use Rattle.bit_words.specs.Words.{words_given, words_call, labels_call, must_given, must_call};
ghost use Rattle.bit_words.specs.Clashes.{windows_of, clash_call};
ghost use Rattle.hub_c.specs.Handed.{handed_words, labels_gave, handed_labels, handed_must, clash_gave, handed_clash};

use crate::HubAnswer;
use bit_words::LabelWords;
use refusals::Refusal;
use table::Setting;
use window::Kind;

// What labels are as words: the refusal's number, the number heard, and the two words, all 0 on a refusal.
#[repr(C)]
#[derive(Clone, Copy)]
pub struct HubLabelWords {
    pub refusal: u8,
    pub count: usize,
    pub heard: u64,
    pub receiver: u64,
}

// What marks are as a word: the refusal's number, and the word, 0 on a refusal.
#[repr(C)]
#[derive(Clone, Copy)]
pub struct HubMustWord {
    pub refusal: u8,
    pub word: u64,
}

impl From<Result<LabelWords, Refusal>> for HubLabelWords {
    ghost from_gives = { λ given handed. handed ≡ handed_words (words_given given) };

    fn from(given: Result<LabelWords, Refusal>) -> HubLabelWords {
        match given {
            Ok(words) => HubLabelWords {
                refusal: 0,
                count: words.count(),
                heard: words.heard,
                receiver: words.receiver,
            },
            Err(refusal) => HubLabelWords {
                refusal: refusal.into(),
                count: 0,
                heard: 0,
                receiver: 0,
            },
        }
    }
}

// What marks are as a word; on a refusal the word is 0.
impl From<Result<u64, Refusal>> for HubMustWord {
    ghost from_gives = { λ given handed. handed ≡ handed_must (must_given given) };

    fn from(given: Result<u64, Refusal>) -> HubMustWord {
        match given {
            Ok(word) => HubMustWord { refusal: 0, word },
            Err(refusal) => HubMustWord {
                refusal: refusal.into(),
                word: 0,
            },
        }
    }
}

// The heard and the receiver word of labels.
#[unsafe(no_mangle)]
pub extern "C" fn hub_words_of_labels(labels: &[u8]) -> HubLabelWords
    ensures { result ≡ handed_words (words_call labels.now) }
{
    bit_words::words_of(labels).into()
}

// The labels of a heard and a receiver word, a place for each row.
#[unsafe(no_mangle)]
pub extern "C" fn hub_labels_of_words(heard: u64, receiver: u64, labels: &mut [u8]) -> HubAnswer
    ensures { labels_gave result labels.new ≡ handed_labels (labels_call heard receiver labels.old) }
{
    bit_words::labels_of(LabelWords { heard, receiver }, labels).into()
}

// The must word of marks.
#[unsafe(no_mangle)]
pub extern "C" fn hub_must_of_marks(marks: &[u8]) -> HubMustWord
    ensures { result ≡ handed_must (must_call marks.now) }
{
    bit_words::must_of(marks).into()
}

// The clash words of windows of a round or a run, and the refusal's number.
fn clash_words(setting: Setting, starts: &[u16], ends: &[u16], words: &mut [u64]) -> u8
    ensures { clash_gave result words.new ≡ handed_clash (clash_call (windows_of setting starts.now ends.now) words.old) }
{
    refusals::number(bit_words::clashes::clash_words(setting, starts, ends, words))
}

// The clash words of windows of a round with a gap.
#[unsafe(no_mangle)]
pub extern "C" fn hub_clash_words_round(
    ticks: u16,
    gap: u16,
    starts: &[u16],
    ends: &[u16],
    words: &mut [u64],
) -> u8
    ensures { clash_gave result words.new ≡ handed_clash (clash_call (windows_of (setting_of Round ticks gap no_hours) starts.now ends.now) words.old) }
{
    clash_words(Setting::round(ticks, gap), starts, ends, words)
}

// The clash words of windows of a run with a gap. Hours are neither checked nor used, so none are lent.
#[unsafe(no_mangle)]
pub extern "C" fn hub_clash_words_run(
    ticks: u16,
    gap: u16,
    starts: &[u16],
    ends: &[u16],
    words: &mut [u64],
) -> u8
    ensures { clash_gave result words.new ≡ handed_clash (clash_call (windows_of (setting_of Run ticks gap no_hours) starts.now ends.now) words.old) }
{
    let setting = Setting {
        kind: Kind::Run,
        ticks,
        gap,
        hours: [[0, 0], [0, 0]],
    };
    clash_words(setting, starts, ends, words)
}
