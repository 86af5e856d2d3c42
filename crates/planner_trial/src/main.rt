// Compares the planner's answers for small random tables, and the plan tape writer's for labels of them, with those of
// the brute force, and prints what there was among them.
#![tactic(auto)]

mod all_day;
mod compared;
mod decided;
mod drawn;
mod gap;
mod lent;
mod offered;
mod searched;

use all_day::EveryTick;
use compared::Tally;
use decided::EXCHANGES;
use gap::Gaps;
use offered::Offered;
use std::io;
use trial_report::print;

// The tables whose answer a mark decided: with the other mark in its place it is another answer.
fn print_decided(rt: &impl Print, rounds: &[u32; 8], runs: &[u32; 8]) -> io::Result<()> {
    for (i, [mark, other]) in EXCHANGES.iter().enumerate() {
        println!(rt;
            "  decided by mark {mark}, not {other}: rounds {}, runs {}",
            rounds[i], runs[i]
        )?;
    }
    Ok(())
}

// The rounds whose answer it decided that a window that sends all day covers every tick: where it covers fewer it is
// another answer.
fn print_every_tick(rt: &impl Print, a: EveryTick) -> io::Result<()> {
    println!(rt; "  decided by every tick, not none: rounds {}", a.not_none)?;
    println!(rt;
        "  decided by every tick, not the start alone: rounds {}",
        a.not_start
    )?;
    println!(rt;
        "  decided by every tick, not all but the start: rounds {}",
        a.not_others
    )
}

// The tables whose answer the gap decided: with another gap, or counted as in the other kind of day, it is another
// answer.
fn print_gaps(rt: &impl Print, rounds: Gaps, runs: Gaps) -> io::Result<()> {
    println!(rt;
        "  decided by the gap, not 0: rounds {}, runs {}",
        rounds.not_0, runs.not_0
    )?;
    println!(rt;
        "  decided by the gap, not one tick more: rounds {}, runs {}",
        rounds.not_more, runs.not_more
    )?;
    println!(rt;
        "  decided by the gap on both sides, not within the day alone: rounds {}",
        rounds.not_other
    )?;
    println!(rt;
        "  decided by the gap within the day, not over its end too: runs {}",
        runs.not_other
    )?;
    println!(rt;
        "  no plan because of the gap: rounds {}, runs {}",
        rounds.no_plan, runs.no_plan
    )?;
    println!(rt;
        "  a gap of R or more: rounds {}, runs {}",
        rounds.long, runs.long
    )
}

fn print_offered(rt: &impl Print, o: Offered) -> io::Result<()> {
    print(rt, "labels offered to the writer: ", o.lists)?;
    print(rt, "  a plan ", o.plans)?;
    print(rt, "  a plan but for the gap ", o.too_close)?;
    print(rt, "  no plan with any gap ", o.others)?;
    print(rt, "  differ ", o.differ)
}

fn print_heard(rt: &impl Print, tally: Tally) -> io::Result<()> {
    println!(rt;
        "  two windows over the end of the day heard {}",
        tally.crossing
    )?;
    println!(rt; "  a row that sends all day heard {}", tally.all_day)?;
    println!(rt; "  two rows that send all day heard {}", tally.two_all_day)
}

fn main(rt: HostRuntime) -> io::Result<()> {
    let tally = compared::tables();
    print(
        &rt,
        "random tables, each with 4,608 and with 16,484 bytes of working space: ",
        compared::TABLES,
    )?;
    print(&rt, "  no plan ", tally.none)?;
    print(&rt, "  the hours changed the answer ", tally.hours)?;
    print_heard(&rt, tally)?;
    print(&rt, "  several best plans ", tally.tied)?;
    print_decided(&rt, &tally.rounds.exchanges, &tally.runs.exchanges)?;
    print_every_tick(&rt, tally.every_tick)?;
    print_gaps(&rt, tally.rounds.gaps, tally.runs.gaps)?;
    print(&rt, "  differ ", tally.differ)?;
    print_offered(&rt, tally.offered)
}
