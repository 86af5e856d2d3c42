// Runs examples and edges of every entry point and compares each with the right answer, worked out by hand from
// docs/RULES.md. It prints for each group how many cases there were and how many differ.
#![tactic(auto)]

mod all_day;
mod bench;
mod candidate;
mod edges;
mod fleet;
mod gap;
mod held;
mod kept;
mod order;
mod played;
mod replies;
mod six_marks;
mod tables;
mod tape_edges;
mod tapes;
mod words;
mod wrong;

use std::io;
use trial_report::print_group;

fn main(rt: HostRuntime) -> io::Result<()> {
    print_group(&rt, "P1 to P12", bench::all())?;
    print_group(&rt, "edges", edges::all())?;
    print_group(&rt, "order of refusals", order::all())?;
    print_group(&rt, "plan tapes", tapes::all())?;
    print_group(&rt, "fleet tapes", fleet::all())?;
    print_group(&rt, "replies", replies::all())?;
    print_group(&rt, "the player", played::all())?;
    print_group(&rt, "marks 0 to 5", six_marks::all())?;
    print_group(&rt, "beacons that send all day", all_day::all())?;
    print_group(&rt, "gaps between windows", gap::all())?;
    print_group(&rt, "plausible and wrong", wrong::all())?;
    print_group(&rt, "labels and working space after a call", kept::all())?;
    print_group(&rt, "held tables", held::all())?;
    print_group(&rt, "candidates", candidate::all())?;
    print_group(&rt, "labels, marks and windows as words", words::all())
}
