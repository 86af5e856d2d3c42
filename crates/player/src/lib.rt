// The player: it follows a plan tape tick by tick, and tells of each receiver whether it is idle or listening to a row,
// and until which tick (docs/RULES.md, Player).
#![tactic(auto)]

ghost use Rattle.std.specs.Prelude.{◌≡◌, false, cond};
ghost use Rattle.window.specs.Windows.{lies_in};
ghost use Rattle.plan_tape.specs.Stated.{listens_in, after_listens, part_in, after_part};
ghost use Rattle.plan_reader.specs.Items.{left};
ghost use Rattle.player.specs.declared.Receiver.TheVariants.{Idle, Listening};
ghost use Rattle.player.specs.Told.{telling};
ghost use Rattle.player.specs.Played.{player_at, state_of, resting, stepped, finished_tick, started_of, started};
ghost use Rattle.player.specs.Follows.{IsFinished, StartsPlayer};

use plan_reader::{Head, Item, PlanReader, split_listen};
use refusals::Refusal;
use window::Window;

// What a receiver does at a tick: it is idle, or it listens to a row until the end of the row's window.
#[derive(Clone, Copy, Debug, PartialEq, Eq)]
pub enum Receiver {
    Idle,
    Listening { row: u8, until: u16 },
}

// What a step tells: that the player is finished, or what each receiver does at the step's tick. A finished player's
// receivers are idle.
#[derive(Clone, Copy, Debug, PartialEq, Eq)]
pub struct State {
    pub finished: bool,
    pub receiver1: Receiver,
    pub receiver2: Receiver,
}

// A player is the tick of its next step; on a tape whose R is not above that tick it is finished.
#[derive(Clone, Copy, Debug, PartialEq, Eq)]
pub struct Player {
    pub tick: u16,
}

// What a step gives: what it tells, and the player that has moved on.
#[derive(Clone, Copy, Debug, PartialEq, Eq)]
pub struct Stepped {
    pub state: State,
    pub player: Player,
}

// A tick of a round or a run.
#[derive(Clone, Copy)]
struct Moment {
    head: Head,
    tick: u16,
}

impl Moment {
    // Whether the tick lies in a window.
    fn lies_in(self, window: Window) -> bool
        ensures { result ≡ lies_in self.head.kind self.head.ticks window.start window.end self.tick }
    {
        window.lies_at(self.head.kind, self.head.ticks, self.tick)
    }

    // What the LISTENs that stand first tell. The reader goes on after them.
    #[tactic(auto, unfolding(crate::specs::Told::telling))]
    fn tell_listens(self, reader: &mut PlanReader) -> Receiver
        ensures told { result ≡ telling self.head.kind self.head.ticks self.tick Idle (listens_in (left reader.old)) }
        ensures rest { left reader.new ≡ after_listens (left reader.old) }
    {
        let mut receiver = Receiver::Idle;
        let left = reader.left();
        let mut rest = left;
        while let Some((listen, after)) = split_listen(rest) {
            rest = after;
            if self.lies_in(listen.window) {
                receiver = Receiver::Listening {
                    row: listen.row,
                    until: listen.window.end,
                };
            }
        }
        reader.at += left.len() - rest.len();
        receiver
    }

    // What the receiver that stands first does, and the reader goes on after its LISTENs; nothing where none stands
    // first, and the reader stays.
    fn tell_part(self, reader: &mut PlanReader) -> Receiver
        ensures told { result ≡ telling self.head.kind self.head.ticks self.tick Idle (part_in (left reader.old)) }
        ensures rest { left reader.new ≡ after_part (left reader.old) }
    {
        let mut ahead = *reader;
        let Some(Item::Receiver(_)) = ahead.next() else {
            return Receiver::Idle;
        };
        let receiver = self.tell_listens(&mut ahead);
        *reader = ahead;
        receiver
    }

    // What a tape tells at this tick, its receivers standing first.
    fn tell_both(self, mut reader: PlanReader) -> State
        ensures { result ≡ state_of false (telling self.head.kind self.head.ticks self.tick Idle (part_in (left reader.entry))) (telling self.head.kind self.head.ticks self.tick Idle (part_in (after_part (left reader.entry)))) }
    {
        let first = self.tell_part(&mut reader);
        let second = self.tell_part(&mut reader);
        State {
            finished: false,
            receiver1: first,
            receiver2: second,
        }
    }
}

impl Player {
    // A player that is finished on every tape: its tick is below no R. It stands for a refused start where a caller
    // needs a player.
    #[tactic(auto, using(crate::proofs::Starting::finished_rests))]
    pub fn finished() -> Player
        ensures tick { result ≡ player_at finished_tick }
        ensures rests { IsFinished result }
    {
        Player { tick: 65535 }
    }

    // Starts a player on a tape at a first tick. Whether it is accepted, and the player, is what the definition
    // `started` yields, on every input; so, spelled out, 12 and 13 are refused in their order, and an accepted player
    // follows its tape at every step. A refusal has no player: the contract reads the finished one beside it
    // (`started_of`).
    pub fn start(tape: &[u8], first: u16) -> Result<Player, Refusal>
        ensures started { started_of result ≡ started tape.now first }
        ensures starts { StartsPlayer tape.now first (started_of result) }
    {
        if !plan_reader::judged::is_plan_tape(tape) {
            return Err(Refusal::Tape);
        }
        if plan_reader::ticks_of(tape) <= first {
            return Err(Refusal::FirstTick);
        }
        Ok(Player { tick: first })
    }

    // A step of a player on a tape: it tells for the player's tick and then moves on. What it gives is what the
    // definition `stepped` yields, on every tape and every player, also ones that no start gave. It walks at most
    // once over the tape and does not judge its form again.
    pub fn step(self, tape: &[u8]) -> Stepped
        ensures { result ≡ stepped tape.now self }
    {
        let mut reader = PlanReader::new(tape);
        let Some(Item::Head(head)) = reader.next() else {
            return self.rest();
        };
        if head.ticks <= self.tick {
            return self.rest();
        }
        let moment = Moment {
            head,
            tick: self.tick,
        };
        Stepped {
            state: moment.tell_both(reader),
            player: Player {
                tick: head.kind.next_tick(head.ticks, self.tick),
            },
        }
    }

    // A step of a player that is finished on its tape.
    fn rest(self) -> Stepped
        ensures { result ≡ resting self }
    {
        Stepped {
            state: State {
                finished: true,
                receiver1: Receiver::Idle,
                receiver2: Receiver::Idle,
            },
            player: self,
        }
    }
}
