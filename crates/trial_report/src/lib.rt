// What the trial programs count and print: cases, and those for which a fact holds.
#![tactic(auto)]

ghost use Rattle.std.specs.Prelude.{◌≡◌, ◌+◌, ◌%◌, ◌^◌, if◌then◌else◌};
ghost use Rattle.std.specs.List.{fold};
ghost use Rattle.trial_report.specs.Groups.{with_case};

use std::io;

// One more if the fact holds.
pub fn more(count: u32, fact: bool) -> u32
    ensures { result ≡ (if fact then (count + 1) % 2 ^ 32 else count) }
{
    if fact { count.wrapping_add(1) } else { count }
}

// A line of words and a number.
pub fn print(rt: &impl Print, words: &str, n: u32) -> io::Result<()> {
    println!(rt; "{words}{n}")
}

// The cases of a group that were run, and how many of them differ from what is right. A function of cases takes the
// group so far and gives it with its own.
#[derive(Clone, Copy, Default)]
pub struct Group {
    pub cases: u32,
    pub differ: u32,
}

impl Group {
    // One case more, which differs if it is not right.
    pub fn with_case(self, right: bool) -> Group
        ensures { result ≡ with_case self right }
    {
        Group {
            cases: more(self.cases, true),
            differ: more(self.differ, !right),
        }
    }

    // One case more for each of these.
    pub fn with_cases(self, rights: &[bool]) -> Group
        ensures { result ≡ fold with_case self rights.now }
    {
        rights
            .iter()
            .fold(self, |group, right| group.with_case(*right))
    }
}

// A line for a group.
pub fn print_group(rt: &impl Print, words: &str, group: Group) -> io::Result<()> {
    println!(rt; "{words}: cases {}, differ {}", group.cases, group.differ)
}
