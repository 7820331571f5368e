// Bytes of a reader, put into a lent buffer.
#![tactic(auto)]

ghost use Rattle.std.specs.Prelude.{◌⊎◌, ◌≡◌, ◌≤◌, length, take, IfOk};
ghost use Rattle.std.specs.Io.KnownBytes.{Consumes, IsAtEnd};

use std::io::{self, Read};

// Reads until the buffer is full or the input ends, and returns how many bytes it put at the buffer's start: those that the reader lost.
pub fn read_full<R: Read>(reader: &mut R, buffer: &mut [u8]) -> io::Result<usize>
    ensures bound { IfOk result (λ n. n ≤ length buffer.new) }
    ensures bytes { IfOk result (λ n. Consumes (R.Read.remaining reader.old) (R.Read.remaining reader.new) (take n buffer.new)) }
    ensures end { IfOk result (λ n. (n ≡ length buffer.new) ⊎ IsAtEnd (R.Read.remaining reader.new)) }
{
    // The reader decides how far it goes: `read_exact` tells no count at the input's end, and `read_to_end` needs a heap.
    let mut done = 0;
    while done < buffer.len() {
        let n = reader.read(&mut buffer[done..])?;
        if n == 0 {
            break;
        }
        done += n;
    }
    Ok(done)
}
