// The program: reads standard input, book length (2 bytes, little-endian), book, message, and prints the rows or the refusal. What it
// prints is decided in the crate `console`.
#![tactic(auto)]

use std::io;
use std::io::Read;

fn main(rt: HostRuntime) -> io::Result<()> {
    let mut input = Vec::new(rt.alloc());
    rt.stdin().read_to_end(&mut input)?;
    let lines = console::printed(rt.alloc(), input.as_slice())?;
    rt.write_all(lines.as_slice())
}
