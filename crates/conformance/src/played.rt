// The player (docs/RULES.md, Player): starts that are taken or refused by a number, and what steps tell. A step is
// judged whole: whether it is finished, both receivers, and the next tick.
use player::{Player, Receiver, State, Stepped};
use trial_report::Group;

// The session's plan tape, of a round of 100 ticks: on receiver 1 row 0, 10–30, and row 3, 90–10; on receiver 2 row 1,
// 20–40.
const SESSION: [u8; 26] = [
    0x10, 0x00, 0x64, 0x20, 0x01, 0x30, 0x00, 0x00, 0x0A, 0x00, 0x1E, 0x30, 0x03, 0x00, 0x5A, 0x00,
    0x0A, 0x20, 0x02, 0x30, 0x01, 0x00, 0x14, 0x00, 0x28, 0x7F,
];

// A run of 100 ticks: on receiver 1 row 2, 0–50; on receiver 2 row 0, 45–100.
const RUN: [u8; 20] = [
    0x11, 0x00, 0x64, 0x20, 0x01, 0x30, 0x02, 0x00, 0x00, 0x00, 0x32, 0x20, 0x02, 0x30, 0x00, 0x00,
    0x2D, 0x00, 0x64, 0x7F,
];

// A round of 10 ticks: on receiver 1 row 5, 3–3, which covers every tick; on receiver 2 row 63, 9–0.
const ALL_DAY: [u8; 20] = [
    0x10, 0x00, 0x0A, 0x20, 0x01, 0x30, 0x05, 0x00, 0x03, 0x00, 0x03, 0x20, 0x02, 0x30, 0x3F, 0x00,
    0x09, 0x00, 0x00, 0x7F,
];

// ---- starts

// Whether a start is taken, which gives a player at its first tick, or is refused by the number.
fn is_started(tape: &[u8], start: u16, expected: Result<(), u8>) -> bool {
    Player::start(tape, start).map_err(u8::from) == expected.map(|_| Player { tick: start })
}

// 13 for a first tick from R on, and 12 before that for a tape that no writer makes.
fn first_ticks(group: Group) -> Group {
    let cut = &SESSION[..25];
    group.with_cases(&[
        is_started(&SESSION, 0, Ok(())),
        is_started(&SESSION, 99, Ok(())),
        is_started(&SESSION, 100, Err(13)),
        is_started(&SESSION, 65535, Err(13)),
        is_started(&RUN, 0, Ok(())),
        is_started(&RUN, 99, Ok(())),
        is_started(&RUN, 100, Err(13)),
        is_started(&ALL_DAY, 9, Ok(())),
        is_started(&ALL_DAY, 10, Err(13)),
        is_started(cut, 0, Err(12)),
        is_started(cut, 65535, Err(12)),
        is_started(b"", 0, Err(12)),
    ])
}

// Whether the session's tape with another byte at a place is taken.
fn changed(at: usize, byte: u8, expected: Result<(), u8>) -> bool {
    let mut tape = SESSION;
    if let Some(place) = tape.get_mut(at) {
        *place = byte;
    }
    is_started(&tape, 0, expected)
}

// Another command, receiver, row, start or end. Row 63 and touching windows are taken, row 64, a row twice, an overlap
// and rows out of the order of their starts are not.
fn changed_tapes(group: Group) -> Group {
    group.with_cases(&[
        changed(0, 0x11, Err(12)),
        changed(3, 0x40, Err(12)),
        changed(4, 2, Err(12)),
        changed(5, 0x20, Err(12)),
        changed(25, 0x30, Err(12)),
        changed(12, 63, Ok(())),
        changed(12, 64, Err(12)),
        changed(12, 0, Err(12)),
        changed(20, 3, Err(12)),
        changed(20, 2, Ok(())),
        changed(14, 29, Err(12)),
        changed(14, 30, Ok(())),
        changed(16, 99, Ok(())),
        changed(16, 100, Err(12)),
        changed(16, 11, Err(12)),
        changed(14, 0, Err(12)),
        changed(24, 20, Ok(())),
        changed(10, 10, Err(12)),
        changed(2, 90, Err(12)),
    ])
}

// Tapes with no LISTEN, of R 1, 2, 43,200 and 43,201; a RECEIVER left out, told twice, after a LISTEN; a byte after
// STOP; a window that covers every tick of a round, which a run refuses.
fn forms(group: Group) -> Group {
    group.with_cases(&[
        is_started(b"\x10\x00\x01\x20\x01\x20\x02\x7f", 0, Err(12)),
        is_started(b"\x10\x00\x02\x20\x01\x20\x02\x7f", 1, Ok(())),
        is_started(b"\x11\xa8\xc0\x20\x01\x20\x02\x7f", 43199, Ok(())),
        is_started(b"\x11\xa8\xc1\x20\x01\x20\x02\x7f", 0, Err(12)),
        is_started(b"\x10\x00\x64\x20\x01\x7f", 0, Err(12)),
        is_started(b"\x10\x00\x64\x20\x01\x20\x01\x20\x02\x7f", 0, Err(12)),
        is_started(
            b"\x10\x00\x64\x30\x00\x00\x0a\x00\x1e\x20\x01\x20\x02\x7f",
            0,
            Err(12),
        ),
        is_started(b"\x10\x00\x64\x20\x01\x20\x02\x7f\x7f", 0, Err(12)),
        is_started(
            b"\x10\x00\x0a\x20\x01\x30\x00\x00\x04\x00\x04\x20\x02\x7f",
            0,
            Ok(()),
        ),
        is_started(
            b"\x11\x00\x0a\x20\x01\x30\x00\x00\x04\x00\x04\x20\x02\x7f",
            0,
            Err(12),
        ),
        is_started(
            b"\x10\x00\x0a\x20\x01\x30\x00\x00\x0a\x00\x0a\x20\x02\x7f",
            0,
            Err(12),
        ),
    ])
}

// ---- steps

// A row and the tick until which a receiver listens to it; None is idle.
type Told = Option<(u8, u16)>;

fn receiver(told: Told) -> Receiver {
    match told {
        None => Receiver::Idle,
        Some((row, until)) => Receiver::Listening { row, until },
    }
}

// Whether a step at a tick tells this of the receivers, None for finished, and gives the player of the next tick.
fn is_step(tape: &[u8], tick: u16, told: Option<[Told; 2]>, next: u16) -> bool {
    let [receiver1, receiver2] = told.unwrap_or([None; 2]);
    let expected = Stepped {
        state: State {
            finished: told.is_none(),
            receiver1: receiver(receiver1),
            receiver2: receiver(receiver2),
        },
        player: Player { tick: next },
    };
    Player { tick }.step(tape) == expected
}

// Both sides of each start and end of the session, and on from the last tick to 0.
fn steps_of_session(group: Group) -> Group {
    let (zero, three, one) = (Some((0, 30)), Some((3, 10)), Some((1, 40)));
    let mut g = group;
    for (tick, told, next) in [
        (0, [three, None], 1),
        (9, [three, None], 10),
        (10, [zero, None], 11),
        (19, [zero, None], 20),
        (20, [zero, one], 21),
        (29, [zero, one], 30),
        (30, [None, one], 31),
        (39, [None, one], 40),
        (40, [None, None], 41),
        (89, [None, None], 90),
        (90, [three, None], 91),
        (99, [three, None], 0),
    ] {
        g = g.with_case(is_step(&SESSION, tick, Some(told), next));
    }
    g
}

// A run is finished after its last tick, and a finished player stays where it is.
fn steps_of_run(group: Group) -> Group {
    let (two, zero) = (Some((2, 50)), Some((0, 100)));
    group.with_cases(&[
        is_step(&RUN, 0, Some([two, None]), 1),
        is_step(&RUN, 44, Some([two, None]), 45),
        is_step(&RUN, 45, Some([two, zero]), 46),
        is_step(&RUN, 49, Some([two, zero]), 50),
        is_step(&RUN, 50, Some([None, zero]), 51),
        is_step(&RUN, 99, Some([None, zero]), 100),
        is_step(&RUN, 100, None, 100),
        is_step(&RUN, 101, None, 101),
    ])
}

// A window that covers every tick is told with its end, also at that tick.
fn steps_of_all_day(group: Group) -> Group {
    let five = Some((5, 3));
    group.with_cases(&[
        is_step(&ALL_DAY, 0, Some([five, None]), 1),
        is_step(&ALL_DAY, 2, Some([five, None]), 3),
        is_step(&ALL_DAY, 3, Some([five, None]), 4),
        is_step(&ALL_DAY, 8, Some([five, None]), 9),
        is_step(&ALL_DAY, 9, Some([five, Some((63, 0))]), 0),
    ])
}

// A refused start gives the finished player, which is finished on every tape. On bytes that are no plan tape a step
// tells of what can be read of them, and is finished where that is no R.
fn other_steps(group: Group) -> Group {
    let refused = Player::start(b"", 7).unwrap_or(Player::finished());
    group.with_cases(&[
        refused == Player { tick: 65535 },
        is_step(&SESSION, 65535, None, 65535),
        is_step(b"\x10\xff\xff\x20\x01\x20\x02\x7f", 65535, None, 65535),
        is_step(b"", 0, None, 0),
        is_step(b"\x10\x00\x0a", 4, Some([None, None]), 5),
        is_step(&SESSION[..17], 20, Some([Some((0, 30)), None]), 21),
        is_step(
            b"\x11\x00\x0a\x20\x01\x30\x00\x00\x04\x00\x04",
            4,
            Some([None, None]),
            5,
        ),
    ])
}

pub fn all() -> Group {
    let mut g = first_ticks(Group::default());
    g = changed_tapes(g);
    g = forms(g);
    g = steps_of_session(g);
    g = steps_of_run(g);
    g = steps_of_all_day(g);
    other_steps(g)
}
