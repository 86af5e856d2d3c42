// The reader of plan tapes: it keeps the tape and the position, and takes the command that stands there.
#![tactic(auto)]

ghost use Rattle.std.specs.Prelude.{◌≡◌, true, false, Some, None, MatchOption};
ghost use Rattle.tape.specs.Commands.{LISTEN, begins, after};
ghost use Rattle.plan_tape.specs.PlanTapes.{kind_command};
ghost use Rattle.plan_tape.specs.Stated.{ticks_at};
ghost use Rattle.plan_reader.specs.Items.{listen_at, head_at, item_of, after_item, left, TakesItem, ReadsListen, TakesListen};

use plan_tape::kind_command;
use tape::{LISTEN, RECEIVER, STOP, after, word_at};
use window::{Kind, Window};

pub mod judged;

// A plan tape and a position on it.
#[derive(Clone, Copy)]
pub struct PlanReader<'a> {
    pub tape: &'a [u8],
    pub at: usize,
}

// ROUND or RUN with its R.
#[derive(Clone, Copy, Debug, PartialEq, Eq)]
pub struct Head {
    pub kind: Kind,
    pub ticks: u16,
}

// LISTEN with its row and the row's window.
#[derive(Clone, Copy, Debug, PartialEq, Eq)]
pub struct Listen {
    pub row: u8,
    pub window: Window,
}

// A command of a plan tape with its operands.
#[derive(Clone, Copy, Debug, PartialEq, Eq)]
pub enum Item {
    Head(Head),
    Receiver(u8),
    Listen(Listen),
    Stop,
}

// The LISTEN that stands first and the bytes after it.
#[tactic(auto, using(crate::proofs::Items::listen_whole))]
pub fn split_listen(tape: &[u8]) -> Option<(Listen, &[u8])>
    ensures { MatchOption result (begins LISTEN tape.now ≡ false) (λ p. (begins LISTEN tape.now ≡ true) × (p.0 ≡ listen_at tape.now) × (p.1.now ≡ after LISTEN tape.now)) }
{
    let rest = after(tape, LISTEN)?;
    let row = tape[1];
    let window = Window {
        start: word_at(tape, 2),
        end: word_at(tape, 4),
    };
    Some((Listen { row, window }, rest))
}

// The ROUND or RUN of a kind that stands first, and the bytes after it.
#[tactic(auto, using(crate::proofs::Items::head_whole))]
fn split_head(tape: &[u8], kind: Kind) -> Option<(Item, &[u8])>
    ensures { MatchOption result (begins (kind_command kind) tape.now ≡ false) (λ p. (begins (kind_command kind) tape.now ≡ true) × (p.0 ≡ head_at kind tape.now) × (p.1.now ≡ after (kind_command kind) tape.now)) }
{
    let rest = after(tape, kind_command(kind))?;
    let ticks = word_at(tape, 1);
    Some((Item::Head(Head { kind, ticks }), rest))
}

// The item that stands first and the bytes after it; None is something else, or a command that is cut short.
#[tactic(auto, using(crate::proofs::Items::receiver_whole), unfolding(crate::specs::Items::item_of, crate::specs::Items::after_item))]
fn split(tape: &[u8]) -> Option<(Item, &[u8])>
    ensures { MatchOption result ((item_of tape.now ≡ None) × (after_item tape.now ≡ tape.now)) (λ p. (item_of tape.now ≡ Some p.0) × (after_item tape.now ≡ p.1.now)) }
{
    if let Some((listen, rest)) = split_listen(tape) {
        return Some((Item::Listen(listen), rest));
    }
    if let Some(rest) = after(tape, RECEIVER) {
        return Some((Item::Receiver(tape[1]), rest));
    }
    if let Some(rest) = after(tape, STOP) {
        return Some((Item::Stop, rest));
    }
    if let Some(head) = split_head(tape, Kind::Round) {
        return Some(head);
    }
    split_head(tape, Kind::Run)
}

impl<'a> PlanReader<'a> {
    // A reader at the beginning of a tape, which it keeps as it is.
    pub fn new(tape: &'a [u8]) -> PlanReader<'a>
        ensures { (result.tape ≡ tape.entry) × (result.at ≡ 0) }
    {
        PlanReader { tape, at: 0 }
    }

    // The reader at another place of its tape. Past the end it is as at the end: nothing is left.
    pub fn moved(self, at: usize) -> PlanReader<'a>
        ensures { (result.tape ≡ self.entry.tape) × (result.at ≡ at) }
    {
        PlanReader { at, ..self }
    }

    // What is left of the tape. The test in place of `min` saves a step of the player time.
    #[tactic(auto, using(std::proofs::lemmas::List::drop_min))]
    pub fn left(self) -> &'a [u8]
        ensures { result.now ≡ left self.entry }
    {
        if self.tape.len() <= self.at {
            return &self.tape[self.tape.len()..];
        }
        &self.tape[self.at..]
    }

    // Takes the LISTEN that stands first, and stands after it; the reader stays where none does.
    #[tactic(auto, using(crate::proofs::Listens::no_listen))]
    pub fn listen(&mut self) -> Option<Listen>
        ensures reads { ReadsListen self.old result self.new }
        ensures takes { TakesListen self.old result self.new }
    {
        let left = self.left();
        let (listen, rest) = split_listen(left)?;
        self.at += left.len() - rest.len();
        Some(listen)
    }
}

// Takes the item that stands first, and stands after it; where none does the reader stays. `listen` does not call it:
// a walk over LISTENs tests for one command alone.
impl<'a> Iterator for PlanReader<'a> {
    type Item = Item;

    ghost next_gives = { TakesItem };

    #[tactic(auto, unfolding(crate::specs::Items::item_bytes))]
    fn next(&mut self) -> Option<Item> {
        let left = self.left();
        let (item, rest) = split(left)?;
        self.at += left.len() - rest.len();
        Some(item)
    }
}

// R, as the ROUND or RUN with which a tape begins has it; 0 where neither does. No first tick is below 0, so that
// `player` needs one comparison.
pub fn ticks_of(tape: &[u8]) -> u16
    ensures { result ≡ ticks_at tape.now }
{
    let mut reader = PlanReader::new(tape);
    let Some(Item::Head(head)) = reader.next() else {
        return 0;
    };
    head.ticks
}
