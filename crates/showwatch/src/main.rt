// Prints the automaton of the rule on standard input, or its refusal.
#![tactic(auto)]

use std::io;
use std::io::{Read, Write};

// The 97th byte is enough to refuse a rule by its length.
const ENOUGH: usize = 97;

fn show_input<R: Read, W: Write>(input: &mut R, out: &mut W, buffer: &mut [u8]) -> io::Result<()> {
    let n = show::read_full(input, buffer)?;
    show::show_rule(out, &buffer[..n])
}

fn main(rt: HostRuntime) -> io::Result<()> {
    let mut buffer = [0u8; ENOUGH];
    show_input(&mut rt.stdin(), &mut rt.stdout(), &mut buffer)
}
