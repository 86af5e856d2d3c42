// A fixed pseudo-random sequence (xorshift), from which the trial takes its tables.
ghost use Rattle.std.specs.Prelude.{◌<◌, ◌≤◌, ◌+◌};

// The state after `state`, which is not 0.
pub fn next(state: u64) -> u64 {
    let a = state ^ (state << 13);
    let b = a ^ (a >> 7);
    b ^ (b << 17)
}

// The eight states after a state.
pub fn eight_after(state: u64) -> [u64; 8] {
    let mut s = state;
    std::array::from_fn(|_| {
        s = next(s);
        s
    })
}

// A number below `limit`, from the upper half of a state.
pub fn below(state: u64, limit: u16) -> u16
    requires { 0 < limit }
    ensures { result < limit }
{
    ((state >> 32) % u64::from(limit)) as u16
}

// The same of any limit: 0 if the limit is 0.
pub fn below_any(state: u64, limit: u16) -> u16
    ensures { 0 < limit → result < limit }
{
    below(state, limit.max(1))
}

// The same from the lower half of a state.
pub fn below_too(state: u64, limit: u16) -> u16 {
    below_any(state << 32, limit)
}

// One of the `count` numbers from `low` on.
pub fn from(state: u64, low: u16, count: u16) -> u16
    ensures { 0 < count → low + count < 65536 → (low ≤ result) × (result < low + count) }
{
    low.wrapping_add(below_any(state, count))
}
