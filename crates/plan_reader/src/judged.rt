// Whether a tape is one that the writer can make (docs/RULES.md, Plan tapes).
ghost use Rattle.std.specs.Prelude.{◌≡◌, ◌↔◌, true};
ghost use Rattle.std.specs.Iterator.{YieldsFirstBy, item_count};
ghost use Rattle.std.specs.List.{list_all};
ghost use Rattle.plan_tape.specs.Stated.{listens_in, after_listens};
ghost use Rattle.plan_reader.specs.Items.{stated_listen, after_item, left};
ghost use Rattle.plan_reader.specs.Taken.{WriterMakes};
ghost use Rattle.plan_reader.specs.Judged.{listens_left, is_receiver, is_other, is_before, is_listen, is_part, are_other, are_parts, is_plan_tape};

use crate::{Head, Item, Listen, PlanReader, split_listen};
use basics::MAX_ROWS;

// The LISTENs with which bytes begin, one after the other.
#[derive(Clone, Copy)]
struct Listens<'a> {
    rest: &'a [u8],
}

impl<'a> Iterator for Listens<'a> {
    type Item = Listen;

    ghost next_gives = { YieldsFirstBy stated_listen listens_left };

    ghost remaining = { item_count listens_left };

    #[tactic(auto, using(crate::proofs::Listens::no_listen, crate::proofs::Listens::listen_taken))]
    fn next(&mut self) -> Option<Listen> {
        let (listen, rest) = split_listen(self.rest)?;
        self.rest = rest;
        Some(listen)
    }
}

// Takes the item that stands first, and tells whether it is RECEIVER with this number.
fn is_receiver(reader: &mut PlanReader, number: u8) -> bool
    ensures stands { result ≡ is_receiver number (left reader.old) }
    ensures rest { left reader.new ≡ after_item (left reader.old) }
{
    reader.next() == Some(Item::Receiver(number))
}

// Takes the LISTENs that stand first: the reader goes on after them.
fn take_listens<'a>(reader: &mut PlanReader<'a>) -> Listens<'a>
    ensures these { listens_left result ≡ listens_in (left reader.old) }
    ensures rest { left reader.new ≡ after_listens (left reader.old) }
{
    let listens = Listens {
        rest: reader.left(),
    };
    while reader.listen().is_some() {}
    listens
}

// Whether no LISTEN is of the row.
fn is_row_free(mut listens: Listens, row: u8) -> bool
    ensures { result ≡ list_all (is_other row) (listens_left listens.entry) }
{
    listens.all(|other| row != other.row)
}

// Whether a LISTEN can stand before another of the same receiver.
fn is_before(listen: Listen, other: Listen) -> bool
    ensures { result ≡ is_before (stated_listen listen) (stated_listen other) }
{
    listen.window.start < other.window.start
        && !listen.window.overlaps(other.window)
        && listen.row != other.row
}

// Whether a LISTEN can stand before all these.
fn is_before_all(mut listens: Listens, listen: Listen) -> bool
    ensures { result ≡ list_all (is_before (stated_listen listen)) (listens_left listens.entry) }
{
    listens.all(|other| is_before(listen, other))
}

// Whether a LISTEN is of a row of a table, with a window that passes check 6.
fn is_listen(head: Head, listen: Listen) -> bool
    ensures { result ≡ is_listen head.kind head.ticks (stated_listen listen) }
{
    usize::from(listen.row) < MAX_ROWS && listen.window.is_proper(head.kind, head.ticks)
}

// Whether the LISTENs can be those of one receiver: each is held against those that are left.
#[tactic(auto, unfolding(crate::specs::Judged::is_part))]
fn is_part(mut listens: Listens, head: Head) -> bool
    ensures { result ≡ is_part head.kind head.ticks (listens_left listens.entry) }
{
    while let Some(listen) = listens.next() {
        if !(is_listen(head, listen) && is_before_all(listens, listen)) {
            return false;
        }
    }
    true
}

// Whether two receivers' LISTENs have no row in common.
fn are_other_rows(mut listens: Listens, others: Listens) -> bool
    ensures { result ≡ are_other (listens_left listens.entry) (listens_left others.entry) }
{
    listens.all(|listen| is_row_free(others, listen.row))
}

// Whether LISTENs can be those of receivers 1 and 2.
#[tactic(auto, unfolding(crate::specs::Judged::are_parts))]
fn are_parts(head: Head, first: Listens, second: Listens) -> bool
    ensures { result ≡ are_parts head.kind head.ticks (listens_left first.entry) (listens_left second.entry) }
{
    table::checks::check_ticks(head.ticks).is_ok()
        && is_part(first, head)
        && is_part(second, head)
        && are_other_rows(first, second)
}

// Whether the writer can make the tape, for some table and labels.
pub fn is_plan_tape(tape: &[u8]) -> bool
    ensures computed { result ≡ is_plan_tape tape.now }
    ensures meaning { (result ≡ true) ↔ WriterMakes tape.now }
{
    let mut reader = PlanReader::new(tape);
    let Some(Item::Head(head)) = reader.next() else {
        return false;
    };
    if !is_receiver(&mut reader, 1) {
        return false;
    }
    let first = take_listens(&mut reader);
    if !is_receiver(&mut reader, 2) {
        return false;
    }
    let second = take_listens(&mut reader);
    if !tape::is_stop(reader.left()) {
        return false;
    }
    are_parts(head, first, second)
}
