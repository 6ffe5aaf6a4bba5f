// Translates many rules in one run. Standard input has them one after another, each behind its length in two bytes,
// low byte first; each gets what the program showwatch prints.
#![tactic(auto)]

use answer::number_of;
use std::io;
use std::io::{Read, Write};

// The longest input taken for a rule: enough for any that is not refused by its length, and for many that are.
const LONGEST: usize = 1024;

// Reads a rule of n bytes into the buffer and answers it; whether there was one.
fn answer_rule<R: Read, W: Write>(
    input: &mut R,
    out: &mut W,
    buffer: &mut [u8],
    n: usize,
) -> io::Result<bool> {
    if buffer.len() < n {
        return Ok(false);
    }
    let got = show::read_full(input, &mut buffer[..n])?;
    if got < n {
        return Ok(false);
    }
    show::show_rule(out, &buffer[..n])?;
    Ok(true)
}

// Answers the next rule; whether there was one.
fn answer_next<R: Read, W: Write>(input: &mut R, out: &mut W) -> io::Result<bool> {
    let mut prefix = [0u8; 2];
    let got = show::read_full(input, &mut prefix)?;
    if got < 2 {
        return Ok(false);
    }
    let mut buffer = [0u8; LONGEST];
    answer_rule(input, out, &mut buffer, number_of(prefix[0], prefix[1]))
}

// A loop has to end, and nothing says that the input does: it counts its turns.
fn main(rt: HostRuntime) -> io::Result<()> {
    let mut input = rt.stdin();
    let mut out = rt.stdout();
    for _ in 0..u64::MAX {
        if !answer_next(&mut input, &mut out)? {
            break;
        }
    }
    Ok(())
}
