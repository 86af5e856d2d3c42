// The program: reads a fleet tape on standard input, and prints the reply (docs/RULES.md, The program).
#![tactic(auto)]

ghost use Rattle.std.specs.Prelude.{◌≤◌, length};

use best_plan::SPACE_BYTES;
use reply::{OUT_BYTES, TAPE_BYTES};
use std::io;
use std::io::Read;

// Reads until the list is full, the input ends or a read fails, and returns how many bytes it read. `read_exact` would
// fail where the input ends sooner, and `read_to_end` asks for a heap.
fn read_full<R: Read>(from: &mut R, bytes: &mut [u8]) -> usize
    ensures { result ≤ length bytes.new }
{
    let mut done = 0;
    while done < bytes.len() {
        let n = from.read(&mut bytes[done..]).unwrap_or(0);
        if n == 0 {
            return done;
        }
        done += n;
    }
    done
}

fn main(rt: HostRuntime) -> io::Result<()> {
    // One byte more than the longest tape that is read, so that a longer tape is seen to be longer; what follows is
    // left unread.
    let mut tape = [0u8; TAPE_BYTES + 1];
    let n = read_full(&mut rt.stdin(), &mut tape);
    let mut out = [0u8; OUT_BYTES];
    let mut space = [0u8; SPACE_BYTES];
    let m = reply::reply(&tape[..n], &mut out, &mut space);
    rt.write_all(&out[..m])
}
