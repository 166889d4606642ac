// What a program is given to read, read into the room that it has.
#![tactic(auto)]

ghost use Rattle.std.specs.Prelude.{◌<◌, ◌≤◌, length, take, IfOk};
ghost use Rattle.std.specs.Io.KnownBytes.{Consumes, IsAtEnd};

use std::io;
use std::io::Read;

// Reads until the room is full or the input ends, and returns how many of the room's bytes are the input's. How far a read comes is the reader's answer,
// so the loop counts it; the library's `read_exact` does not say how many bytes came before the end.
pub fn read_full<R: Read>(from: &mut R, room: &mut [u8]) -> io::Result<usize>
    ensures within { IfOk result (λ n. n ≤ length room.new) }
    ensures bytes { IfOk result (λ n. Consumes (R.remaining from.old) (R.remaining from.new) (take n room.new)) }
    ensures end { IfOk result (λ n. n < length room.new → IsAtEnd (R.remaining from.new)) }
{
    let mut done = 0;
    while done < room.len() {
        let n = from.read(&mut room[done..])?;
        if n == 0 {
            break;
        }
        done += n;
    }
    Ok(done)
}
