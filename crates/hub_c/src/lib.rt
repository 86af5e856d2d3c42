// The hub planner's functions for C and Rust. A round and a run have a function each, so that no bad kind can be
// passed. No function has a `requires`: each answers every input. Each list is the address of its first element and
// its length in elements; the address is not NULL, also where the length is 0, and is aligned for its type; a list
// that is written overlaps no other list of the same call. C has no Result: its structs have a refusal's number
// beside the values. What the values are on a refusal, the contracts say by the definitions of the crates below:
// `started` a player that is finished, `begun` an empty table, `fleet_read` and the words zeros (docs/RULES.md,
// Refusals).
#![tactic(auto)]

ghost use Rattle.std.specs.Prelude.{◌≡◌};
ghost use Rattle.window.specs.declared.Kind.TheVariants.{Round, Run};
ghost use Rattle.refusals.specs.Refusals.{answer_of};
ghost use Rattle.table.specs.Tables.{setting_of, table, lent};
ghost use Rattle.table.specs.Planned.{plan_call};
ghost use Rattle.plan_tape.specs.Written.{written};
ghost use Rattle.fleet_tape.specs.Reading.{fleet_read, report_of};
ghost use Rattle.player.specs.Played.{player_at, stepped, started_of, started};
ghost use Rattle.reply.specs.Replied.{replying, replied};
ghost use Rattle.hub_c.specs.Handed.{handed, handed_report, plan_gave, handed_plan, tape_gave, handed_tape, read_gave, handed_read, handed_player, handed_receiver, handed_started, handed_stepped, handed_numbers, numbers_from, handed_begun, handed_change, held_gave, handed_held, handed_looked, tried_gave, handed_tried};
ghost use Rattle.held_table.specs.Held.{kept, begun_as, begun, add_call, withdraw_call};
ghost use Rattle.candidates.specs.Tried.{candidates, candidates_call};
ghost use Rattle.window.specs.Rows.{row};
ghost use Rattle.window.specs.Hours.{hours_from, no_hours};

use fleet_tape::Report;
use held_table::{Held, Numbers, REFUSED_GAP, REFUSED_TICKS};
use player::{Player, Receiver, Stepped};
use refusals::Refusal;
use table::{Looked, Rows, Setting, Table};
use window::{Kind, Row};

pub mod words;

// What a call reports: the refusal's number, 0 for accepted, and the count, 0 on a refusal.
#[repr(C)]
#[derive(Clone, Copy)]
pub struct HubAnswer {
    pub refusal: u8,
    pub count: usize,
}

// What the fleet tape reader reports: the refusal's number, whether the tape is of a run, R, the open hours (all 0 in a
// round) and how many rows there are. On a refusal all but its number are 0 and false.
#[repr(C)]
#[derive(Clone, Copy)]
pub struct HubReport {
    pub refusal: u8,
    pub run: bool,
    pub ticks: u16,
    pub p1: u16,
    pub q1: u16,
    pub p2: u16,
    pub q2: u16,
    pub rows: usize,
}

// A player: the tick of its next step.
#[repr(C)]
#[derive(Clone, Copy)]
pub struct HubPlayer {
    pub tick: u16,
}

// What a start of a player gives: the refusal's number, and the player, which is finished on a refusal.
#[repr(C)]
#[derive(Clone, Copy)]
pub struct HubStarted {
    pub refusal: u8,
    pub player: HubPlayer,
}

// What a receiver does at a tick: whether it listens, to which row and until which tick, both 0 where it is idle.
#[repr(C)]
#[derive(Clone, Copy)]
pub struct HubReceiver {
    pub listening: bool,
    pub row: u8,
    pub until: u16,
}

// What a step of a player gives: that the player is finished, or what each receiver does, and the player that has
// moved on.
#[repr(C)]
#[derive(Clone, Copy)]
pub struct HubStepped {
    pub finished: bool,
    pub receiver1: HubReceiver,
    pub receiver2: HubReceiver,
    pub player: HubPlayer,
}

// The numbers of a held table: R and g of its round, how many rows it has, and how many of them its plan hears.
#[repr(C)]
#[derive(Clone, Copy)]
pub struct HubHeldNumbers {
    pub ticks: u16,
    pub gap: u16,
    pub rows: usize,
    pub count: usize,
}

// What a begin of a held table gives: the refusal's number, and the numbers of an empty table, of R 2 and g 0 on a
// refusal.
#[repr(C)]
#[derive(Clone, Copy)]
pub struct HubHeldBegun {
    pub refusal: u8,
    pub numbers: HubHeldNumbers,
}

// What a change of a held table gives: the refusal's number and the count, 0 on a refusal, and the numbers of what is
// then held.
#[repr(C)]
#[derive(Clone, Copy)]
pub struct HubHeldChange {
    pub refusal: u8,
    pub count: usize,
    pub numbers: HubHeldNumbers,
}

// What trying candidates reports: the refusal's number, and how many rows were looked at, of the table and of the
// candidates.
#[repr(C)]
#[derive(Clone, Copy)]
pub struct HubTried {
    pub refusal: u8,
    pub rows: usize,
}

impl From<Result<usize, Refusal>> for HubAnswer {
    ghost from_gives = { λ given answer. answer ≡ handed (answer_of given) };

    fn from(given: Result<usize, Refusal>) -> HubAnswer {
        match given {
            Ok(count) => HubAnswer { refusal: 0, count },
            Err(refusal) => HubAnswer {
                refusal: refusal.into(),
                count: 0,
            },
        }
    }
}

// A round with a gap, and its rows.
fn round<'a>(ticks: u16, gap: u16, starts: &'a [u16], ends: &'a [u16], marks: &'a [u8]) -> Table<'a>
    ensures { lent result ≡ table (setting_of Round ticks gap no_hours) starts.now ends.now marks.now }
{
    Table {
        setting: Setting::round(ticks, gap),
        rows: Rows {
            starts,
            ends,
            marks,
        },
    }
}

// A run with a gap in which receiver 1 is open from p1 to q1 and receiver 2 from p2 to q2, and its rows.
fn run<'a>(
    ticks: u16,
    gap: u16,
    p1: u16,
    q1: u16,
    p2: u16,
    q2: u16,
    starts: &'a [u16],
    ends: &'a [u16],
    marks: &'a [u8],
) -> Table<'a>
    ensures { lent result ≡ table (setting_of Run ticks gap (hours_from p1 q1 p2 q2)) starts.now ends.now marks.now }
{
    Table {
        setting: Setting {
            kind: Kind::Run,
            ticks,
            gap,
            hours: [[p1, q1], [p2, q2]],
        },
        rows: Rows {
            starts,
            ends,
            marks,
        },
    }
}

// Plans a round with a gap.
#[unsafe(no_mangle)]
pub extern "C" fn hub_plan_round(
    ticks: u16,
    gap: u16,
    starts: &[u16],
    ends: &[u16],
    marks: &[u8],
    labels: &mut [u8],
    space: &mut [u8],
) -> HubAnswer
    ensures { plan_gave result labels.new space.new ≡ handed_plan (plan_call (table (setting_of Round ticks gap no_hours) starts.now ends.now marks.now) labels.old space.old) }
{
    planner::plan(round(ticks, gap, starts, ends, marks), labels, space).into()
}

// Plans a run with a gap in which receiver 1 is open from p1 to q1 and receiver 2 from p2 to q2.
#[unsafe(no_mangle)]
pub extern "C" fn hub_plan_run(
    ticks: u16,
    gap: u16,
    p1: u16,
    q1: u16,
    p2: u16,
    q2: u16,
    starts: &[u16],
    ends: &[u16],
    marks: &[u8],
    labels: &mut [u8],
    space: &mut [u8],
) -> HubAnswer
    ensures { plan_gave result labels.new space.new ≡ handed_plan (plan_call (table (setting_of Run ticks gap (hours_from p1 q1 p2 q2)) starts.now ends.now marks.now) labels.old space.old) }
{
    planner::plan(
        run(ticks, gap, p1, q1, p2, q2, starts, ends, marks),
        labels,
        space,
    )
    .into()
}

// Writes the plan tape of a round with a gap and labels to the front of the buffer `tape`; its count is the tape's
// length.
#[unsafe(no_mangle)]
pub extern "C" fn hub_write_plan_round(
    ticks: u16,
    gap: u16,
    starts: &[u16],
    ends: &[u16],
    marks: &[u8],
    labels: &[u8],
    tape: &mut [u8],
) -> HubAnswer
    ensures { tape_gave result tape.new ≡ handed_tape (written (table (setting_of Round ticks gap no_hours) starts.now ends.now marks.now) labels.now tape.old) }
{
    plan_tape::write_plan(round(ticks, gap, starts, ends, marks), labels, tape).into()
}

// Writes the plan tape of a run with a gap, with the hours of its receivers, and labels to the front of the buffer
// `tape`; its count is the tape's length.
#[unsafe(no_mangle)]
pub extern "C" fn hub_write_plan_run(
    ticks: u16,
    gap: u16,
    p1: u16,
    q1: u16,
    p2: u16,
    q2: u16,
    starts: &[u16],
    ends: &[u16],
    marks: &[u8],
    labels: &[u8],
    tape: &mut [u8],
) -> HubAnswer
    ensures { tape_gave result tape.new ≡ handed_tape (written (table (setting_of Run ticks gap (hours_from p1 q1 p2 q2)) starts.now ends.now marks.now) labels.now tape.old) }
{
    plan_tape::write_plan(
        run(ticks, gap, p1, q1, p2, q2, starts, ends, marks),
        labels,
        tape,
    )
    .into()
}

impl From<Result<Report, Refusal>> for HubReport {
    ghost from_gives = { λ given report. report ≡ handed_report (report_of given) };

    fn from(given: Result<Report, Refusal>) -> HubReport {
        match given {
            Ok(report) => {
                let [[p1, q1], [p2, q2]] = report.hours;
                HubReport {
                    refusal: 0,
                    run: report.kind == Kind::Run,
                    ticks: report.ticks,
                    p1,
                    q1,
                    p2,
                    q2,
                    rows: report.rows,
                }
            }
            Err(refusal) => HubReport {
                refusal: refusal.into(),
                run: false,
                ticks: 0,
                p1: 0,
                q1: 0,
                p2: 0,
                q2: 0,
                rows: 0,
            },
        }
    }
}

// Reads a fleet tape into lists of 64 places.
#[unsafe(no_mangle)]
pub extern "C" fn hub_read_fleet(
    tape: &[u8],
    starts: &mut [u16],
    ends: &mut [u16],
    marks: &mut [u8],
) -> HubReport
    ensures { read_gave result starts.new ends.new marks.new ≡ handed_read (fleet_read tape.now starts.old ends.old marks.old) }
{
    fleet_tape::read_fleet(tape, starts, ends, marks).into()
}

// Writes to the front of `out` the reply to a fleet tape, and returns how many bytes that is: 0, with nothing
// written, where `out` is shorter than 400 bytes.
#[unsafe(no_mangle)]
pub extern "C" fn hub_reply(tape: &[u8], out: &mut [u8], space: &mut [u8]) -> usize
    ensures { replying result out.new space.new ≡ replied tape.now out.old space.old }
{
    reply::reply(tape, out, space)
}

impl From<Player> for HubPlayer {
    ghost from_gives = { λ player handed. handed ≡ handed_player player };

    fn from(player: Player) -> HubPlayer {
        HubPlayer { tick: player.tick }
    }
}

impl From<Receiver> for HubReceiver {
    ghost from_gives = { λ receiver handed. handed ≡ handed_receiver receiver };

    fn from(receiver: Receiver) -> HubReceiver {
        match receiver {
            Receiver::Idle => HubReceiver {
                listening: false,
                row: 0,
                until: 0,
            },
            Receiver::Listening { row, until } => HubReceiver {
                listening: true,
                row,
                until,
            },
        }
    }
}

// A refused start gives a player that is finished on every tape: no R is above its tick.
impl From<Result<Player, Refusal>> for HubStarted {
    ghost from_gives = { λ given handed. handed ≡ handed_started (started_of given) };

    fn from(given: Result<Player, Refusal>) -> HubStarted {
        match given {
            Ok(player) => HubStarted {
                refusal: 0,
                player: player.into(),
            },
            Err(refusal) => HubStarted {
                refusal: refusal.into(),
                player: Player::finished().into(),
            },
        }
    }
}

impl From<Stepped> for HubStepped {
    ghost from_gives = { λ step handed. handed ≡ handed_stepped step };

    fn from(step: Stepped) -> HubStepped {
        HubStepped {
            finished: step.state.finished,
            receiver1: step.state.receiver1.into(),
            receiver2: step.state.receiver2.into(),
            player: step.player.into(),
        }
    }
}

// Starts a player on a plan tape at a first tick.
#[unsafe(no_mangle)]
pub extern "C" fn hub_player_start(tape: &[u8], first: u16) -> HubStarted
    ensures { result ≡ handed_started (started tape.now first) }
{
    Player::start(tape, first).into()
}

// A step of a player on a plan tape: it tells for the player's tick and then moves on.
#[unsafe(no_mangle)]
pub extern "C" fn hub_player_step(tape: &[u8], player: HubPlayer) -> HubStepped
    ensures { result ≡ handed_stepped (stepped tape.now (player_at player.tick)) }
{
    Player { tick: player.tick }.step(tape).into()
}

// The numbers of a held table, handed over to C and in from C.
impl From<Numbers> for HubHeldNumbers {
    ghost from_gives = { λ numbers handed. handed ≡ handed_numbers numbers };

    fn from(numbers: Numbers) -> HubHeldNumbers {
        HubHeldNumbers {
            ticks: numbers.ticks,
            gap: numbers.gap,
            rows: numbers.rows,
            count: numbers.count,
        }
    }
}

impl From<HubHeldNumbers> for Numbers {
    ghost from_gives = { λ handed numbers. numbers ≡ numbers_from handed };

    fn from(handed: HubHeldNumbers) -> Numbers {
        Numbers {
            ticks: handed.ticks,
            gap: handed.gap,
            rows: handed.rows,
            count: handed.count,
        }
    }
}

// A refused begin has no numbers: C is handed those of the empty table that stands for it.
impl From<Result<Numbers, Refusal>> for HubHeldBegun {
    ghost from_gives = { λ given handed. handed ≡ handed_begun (begun_as given) };

    fn from(given: Result<Numbers, Refusal>) -> HubHeldBegun {
        match given {
            Ok(numbers) => HubHeldBegun {
                refusal: 0,
                numbers: numbers.into(),
            },
            Err(refusal) => HubHeldBegun {
                refusal: refusal.into(),
                numbers: Numbers::empty(REFUSED_TICKS, REFUSED_GAP).into(),
            },
        }
    }
}

// What a change of a held table gave, and the numbers of what is then held.
impl From<(Result<usize, Refusal>, Numbers)> for HubHeldChange {
    ghost from_gives = { λ changed handed. handed ≡ handed_change (answer_of changed.0) changed.1 };

    fn from((given, numbers): (Result<usize, Refusal>, Numbers)) -> HubHeldChange {
        let answer = HubAnswer::from(given);
        HubHeldChange {
            refusal: answer.refusal,
            count: answer.count,
            numbers: numbers.into(),
        }
    }
}

// Begins a held table of a round with a gap.
#[unsafe(no_mangle)]
pub extern "C" fn hub_held_begin(ticks: u16, gap: u16) -> HubHeldBegun
    ensures { result ≡ handed_begun (begun ticks gap) }
{
    held_table::begin(ticks, gap).into()
}

// Adds a row to a held table, at the end.
#[unsafe(no_mangle)]
pub extern "C" fn hub_held_add(
    numbers: HubHeldNumbers,
    starts: &mut [u16],
    ends: &mut [u16],
    marks: &mut [u8],
    labels: &mut [u8],
    start: u16,
    end: u16,
    mark: u8,
    space: &mut [u8],
) -> HubHeldChange
    ensures { held_gave result starts.new ends.new marks.new labels.new space.new ≡ handed_held (add_call (kept (numbers_from numbers) starts.old ends.old marks.old labels.old) (row start end mark) space.old) }
{
    let mut held = Held {
        numbers: numbers.into(),
        starts,
        ends,
        marks,
    };
    let given = held.add(Row { start, end, mark }, labels, space);
    (given, held.numbers).into()
}

// Withdraws a row of a held table; later rows move up one.
#[unsafe(no_mangle)]
pub extern "C" fn hub_held_withdraw(
    numbers: HubHeldNumbers,
    starts: &mut [u16],
    ends: &mut [u16],
    marks: &mut [u8],
    labels: &mut [u8],
    row: usize,
    space: &mut [u8],
) -> HubHeldChange
    ensures { held_gave result starts.new ends.new marks.new labels.new space.new ≡ handed_held (withdraw_call (kept (numbers_from numbers) starts.old ends.old marks.old labels.old) row space.old) }
{
    let mut held = Held {
        numbers: numbers.into(),
        starts,
        ends,
        marks,
    };
    let given = held.withdraw(row, labels, space);
    (given, held.numbers).into()
}

impl From<Looked> for HubTried {
    ghost from_gives = { λ looked handed. handed ≡ handed_looked looked };

    fn from(looked: Looked) -> HubTried {
        HubTried {
            refusal: refusals::number(looked.refusal),
            rows: looked.rows,
        }
    }
}

// Tries each candidate, alone, as a row that must be heard beside the table of a round with a gap.
#[unsafe(no_mangle)]
pub extern "C" fn hub_try_candidates_round(
    ticks: u16,
    gap: u16,
    starts: &[u16],
    ends: &[u16],
    marks: &[u8],
    candidate_starts: &[u16],
    candidate_ends: &[u16],
    candidate_marks: &[u8],
    numbers: &mut [u8],
    counts: &mut [u8],
    space: &mut [u8],
) -> HubTried
    ensures { tried_gave result numbers.new counts.new space.new ≡ handed_tried (candidates_call (table (setting_of Round ticks gap no_hours) starts.now ends.now marks.now) (candidates candidate_starts.now candidate_ends.now candidate_marks.now) numbers.old counts.old space.old) }
{
    let table = round(ticks, gap, starts, ends, marks);
    let candidates = Rows {
        starts: candidate_starts,
        ends: candidate_ends,
        marks: candidate_marks,
    };
    candidates::try_each(table, candidates, numbers, counts, space).into()
}

// Tries each candidate, alone, as a row that must be heard beside the table of a run with a gap, with the hours of its
// receivers.
#[unsafe(no_mangle)]
pub extern "C" fn hub_try_candidates_run(
    ticks: u16,
    gap: u16,
    p1: u16,
    q1: u16,
    p2: u16,
    q2: u16,
    starts: &[u16],
    ends: &[u16],
    marks: &[u8],
    candidate_starts: &[u16],
    candidate_ends: &[u16],
    candidate_marks: &[u8],
    numbers: &mut [u8],
    counts: &mut [u8],
    space: &mut [u8],
) -> HubTried
    ensures { tried_gave result numbers.new counts.new space.new ≡ handed_tried (candidates_call (table (setting_of Run ticks gap (hours_from p1 q1 p2 q2)) starts.now ends.now marks.now) (candidates candidate_starts.now candidate_ends.now candidate_marks.now) numbers.old counts.old space.old) }
{
    let table = run(ticks, gap, p1, q1, p2, q2, starts, ends, marks);
    let candidates = Rows {
        starts: candidate_starts,
        ends: candidate_ends,
        marks: candidate_marks,
    };
    candidates::try_each(table, candidates, numbers, counts, space).into()
}
