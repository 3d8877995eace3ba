// Settles the net sheet on standard input. Prints what `programs::output::settle_output` returns.
#![tactic(auto)]

use programs::input::front;
use radix::limits;
use std::io;
use std::io::prelude::*;

fn main(rt: HostRuntime) -> io::Result<()> {
    let mut sheet = [0u8; limits::MOST_READ];
    let mut rest = &mut sheet[..];
    let mut input = rt.stdin().take(limits::MOST_READ as u64);
    let length = io::copy(&mut input, &mut rest)? as usize;
    let printed = programs::output::settle_output(front(&sheet, length));
    let bytes = printed.bytes;
    let end = printed.length;
    rt.stdout().write_all(&bytes[..end])
}
