// Judges the lasso on standard input, which has an image, the stem and the cycle one after another. Before the image
// and before the stem stands its length, two bytes with the low one first; the cycle goes to the end.
#![tactic(auto)]

ghost use Rattle.std.specs.Prelude.{◌≤◌};

use answer::{Refusal, number_at};
use judge::{Finding, Verdict, WORK_BYTES, judge};
use lasso::{Lasso, MAX_LETTERS};
use std::io;
use std::io::{Read, Write};

// The longest image and stem that two bytes can say, with their lengths, and one letter more than a lasso may have:
// what comes after that changes no answer.
const ENOUGH: usize = 2 + 65535 + 2 + 65535 + MAX_LETTERS + 1;

fn print_judged<W: Write>(out: &mut W, answer: Result<Finding, Refusal>) -> io::Result<()> {
    match answer {
        Ok(finding) => match finding.verdict {
            Verdict::Kept => writeln!(out, "kept"),
            Verdict::Broken => writeln!(out, "broken"),
        },
        Err(refusal) => writeln!(out, "{refusal}"),
    }
}

fn judge_lasso<W: Write>(out: &mut W, image: &[u8], lasso: &Lasso<'_>) -> io::Result<()> {
    let mut work = [0u8; WORK_BYTES];
    print_judged(out, judge(image, lasso, &mut work))
}

// The input whose image ends at `end`.
fn judge_after<W: Write>(out: &mut W, input: &[u8], end: usize) -> io::Result<()>
    requires { (2 ≤ end) × (end ≤ 65537) }
{
    if input.len() < end + 2 {
        return writeln!(out, "short");
    }
    let from = end + 2;
    let n = number_at(input, end);
    if input.len() - from < n {
        return writeln!(out, "short");
    }
    let to = from + n;
    let lasso = Lasso {
        stem: &input[from..to],
        cycle: &input[to..],
    };
    judge_lasso(out, &input[2..end], &lasso)
}

fn judge_input<W: Write>(out: &mut W, input: &[u8]) -> io::Result<()> {
    if input.len() < 2 {
        return writeln!(out, "short");
    }
    judge_after(out, input, 2 + number_at(input, 0))
}

fn read_and_judge<R: Read, W: Write>(
    input: &mut R,
    out: &mut W,
    buffer: &mut [u8],
) -> io::Result<()> {
    let n = show::read_full(input, buffer)?;
    judge_input(out, &buffer[..n])
}

fn main(rt: HostRuntime) -> io::Result<()> {
    let mut buffer = [0u8; ENOUGH];
    read_and_judge(&mut rt.stdin(), &mut rt.stdout(), &mut buffer)
}
