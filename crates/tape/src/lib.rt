// The commands of tapes with the widths of their operands, and what stands first on the rest of a tape
// (docs/RULES.md, Plan tapes).
#![tactic(auto)]

ghost use Rattle.std.specs.Prelude.{◌≡◌, true, false, ◌+◌, MatchOption};
ghost use Rattle.tape.specs.Commands.{operand_bytes, command_bytes, begins, stop_last, after};
ghost use Rattle.tape.specs.Words.{word_at, Inside};

// The commands, each by the byte that it begins with.
pub const ROUND: u8 = 0x10;

pub const RUN: u8 = 0x11;

pub const RECEIVER: u8 = 0x20;

pub const LISTEN: u8 = 0x30;

pub const WINDOW: u8 = 0x40;

pub const MUST: u8 = 0x41;

// Rows that only receiver 1 can hear, may and must; laid out as WINDOW.
pub const WINDOW1: u8 = 0x42;

pub const MUST1: u8 = 0x43;

// Rows that only receiver 2 can hear, may and must.
pub const WINDOW2: u8 = 0x44;

pub const MUST2: u8 = 0x45;

pub const HOURS: u8 = 0x50;

pub const STOP: u8 = 0x7F;

// The bytes of operands by command; 0 also for a byte that is no command. The readers and the writer take the length
// of each command from this table alone.
pub const OPERAND_BYTES: [u8; 128] = [
    0, 0, 0, 0, 0, 0, 0, 0, 0, 0, 0, 0, 0, 0, 0, 0, 2, // 10 ROUND
    2, // 11 RUN
    0, 0, 0, 0, 0, 0, 0, 0, 0, 0, 0, 0, 0, 0, 1, // 20 RECEIVER
    0, 0, 0, 0, 0, 0, 0, 0, 0, 0, 0, 0, 0, 0, 0, 5, // 30 LISTEN
    0, 0, 0, 0, 0, 0, 0, 0, 0, 0, 0, 0, 0, 0, 0, 4, // 40 WINDOW
    4, // 41 MUST
    4, // 42 WINDOW1
    4, // 43 MUST1
    4, // 44 WINDOW2
    4, // 45 MUST2
    0, 0, 0, 0, 0, 0, 0, 0, 0, 0, 8, // 50 HOURS
    0, 0, 0, 0, 0, 0, 0, 0, 0, 0, 0, 0, 0, 0, 0, 0, 0, 0, 0, 0, 0, 0, 0, 0, 0, 0, 0, 0, 0, 0, 0, 0,
    0, 0, 0, 0, 0, 0, 0, 0, 0, 0, 0, 0, 0, 0, 0, // 7F STOP
];

// How many bytes of operands follow a command.
#[tactic(auto, using(crate::proofs::Widths::widths_right, crate::proofs::Widths::no_operands))]
pub fn operand_bytes(command: u8) -> usize
    ensures { result ≡ operand_bytes command }
{
    if command < 128 {
        usize::from(OPERAND_BYTES[usize::from(command)])
    } else {
        0
    }
}

// How many bytes a command takes with its operands.
#[tactic(auto, using(crate::proofs::Widths::few_operands))]
pub fn command_bytes(command: u8) -> usize
    ensures { result ≡ command_bytes command }
{
    1 + operand_bytes(command)
}

// The bytes after a command with its operands, where the command stands first and all bytes of its operands follow.
#[tactic(auto, using(crate::proofs::Heads::fits, crate::proofs::Heads::short, crate::proofs::Heads::other, std::proofs::lemmas::List::take_rest))]
pub fn after(tape: &[u8], command: u8) -> Option<&[u8]>
    ensures { MatchOption result (begins command tape.now ≡ false)
        (λ rest. (begins command tape.now ≡ true) × (rest.now ≡ after command tape.now)) }
{
    let bytes = command_bytes(command);
    if tape.len() < bytes || tape[0] != command {
        return None;
    }
    Some(&tape[bytes..])
}

// The 16-bit operand at a place.
pub fn word_at(tape: &[u8], at: usize) -> u16
    requires { Inside tape.now (at + 1) }
    ensures { result ≡ word_at tape.now at }
{
    u16::from_be_bytes([tape[at], tape[at + 1]])
}

// Whether STOP is all that is left.
#[tactic(auto, unfolding(crate::specs::Commands::begins, crate::specs::Commands::operand_bytes))]
pub fn is_stop(tape: &[u8]) -> bool
    ensures { result ≡ stop_last tape.now }
{
    matches!(tape, [STOP])
}
