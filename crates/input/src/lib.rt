// Reading: a buffer filled from a reader, as far as the reader's bytes go.
// Knows readers alone; gives `read_full`, by which the programs read standard input.
#![tactic(auto)]

ghost use Rattle.std.specs.Prelude.{◌≡◌, ◌<◌, ◌≤◌, IfOk, OnErr, ℕ, length, take};
ghost use Rattle.std.specs.Io.{ReadsAtMost};
ghost use Rattle.std.specs.Io.KnownBytes.{Consumes, IsAtEnd};

use std::io::{Read, Result};

// Reads until `buf` is full or the bytes end, and answers how many it put at the start of `buf`.
// A failed read ends it with that error.
pub fn read_full<R: Read>(from: &mut R, buf: &mut [u8]) -> Result<usize>
    ensures fits { ReadsAtMost result buf.new }
    ensures bytes { IfOk result (λ n. Consumes (R.remaining from.old) (R.remaining from.new) (take n buf.new)) }
    ensures ends { IfOk result (λ n. n < length buf.new → IsAtEnd (R.remaining from.new)) }
    ensures broken { OnErr result ((n : ℕ) × (n ≤ length buf.new)
        × Consumes (R.remaining from.old) (R.remaining from.new) (take n buf.new)) }
{
    let mut done = 0;
    while done < buf.len() {
        let n = from.read(&mut buf[done..])?;
        if n == 0 {
            break;
        }
        done += n;
    }
    Ok(done)
}
