// Runs the cases that standard input lists, a line each; stdout has the expected answers. README.md has the form of a line.
#![tactic(auto)]

use input::read_full;
use std::io;

mod build;
mod call;
mod script;
mod show;
mod text;

fn main(rt: HostRuntime) -> io::Result<()> {
    let mut input = [0u8; script::MAX_INPUT];
    let read = read_full(&mut rt.stdin(), &mut input)?;
    script::all(&rt, &input[..read])
}
