// Reads a request from standard input, and writes its answer.
#![tactic(auto)]

use cli::MAX_OUTPUT;
use input::read_full;
use std::io;

fn main(rt: HostRuntime) -> io::Result<()> {
    // One byte more than four lines of 16,384 bytes with their LFs: an input that is longer is cut, and stays too long.
    let mut input = [0u8; 65541];
    let read = read_full(&mut rt.stdin(), &mut input)?;
    let mut output = [0u8; MAX_OUTPUT];
    let count = cli::answer(&input[..read], &mut output);
    rt.write_all(&output[..count])
}
