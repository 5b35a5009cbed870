// A reader's bytes, as many as an area holds.
#![tactic(auto)]

ghost use Rattle.std.specs.Prelude.{◌≤◌, ◌<◌, length, take, IfOk};
ghost use Rattle.std.specs.Io.KnownBytes.{Consumes, IsAtEnd};

use std::io;
use std::io::Read;

// Reads until the area is full or the reader is at its end: how many bytes stand at the area's start. After an error the area is anything.
pub fn read_full<R: Read>(reader: &mut R, area: &mut [u8]) -> io::Result<usize>
    ensures within { IfOk result (λ n. n ≤ length area.old) }
    ensures bytes { IfOk result (λ n. Consumes (R.remaining reader.old) (R.remaining reader.new) (take n area.new)) }
    ensures end { IfOk result (λ n. n < length area.old → IsAtEnd (R.remaining reader.new)) }
{
    let mut done = 0;
    // A loop of reads, not of places: std's `read_exact` is an error where the reader ends before the area is full.
    while done < area.len() {
        let n = reader.read(&mut area[done..])?;
        if n == 0 {
            return Ok(done);
        }
        done += n;
    }
    Ok(done)
}
