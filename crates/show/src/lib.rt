// Prints what the program showwatch prints of a rule: its automaton, or its refusal.
#![tactic(auto)]

ghost use Rattle.std.specs.Prelude.{◌≡◌, ◌≤◌, ◌<◌, length, IfOk};
ghost use Rattle.automaton.specs.Limits.{max_transitions};
ghost use Rattle.show.specs.Shown.{digit, label, row_end};

use answer::{Refusal, number_at};
use automaton::{INITIAL_BYTES, MAX_TRANSITIONS, STATES_BYTES, TRANSITIONS_BYTES};
use std::io;
use std::io::{Read, Write};
use translation::{Translated, translate};

// Reads until the buffer is full or the input ends; how many bytes.
pub fn read_full<R: Read>(input: &mut R, buffer: &mut [u8]) -> io::Result<usize>
    ensures { IfOk result (λ n. n ≤ length buffer.old) }
{
    let mut n = 0;
    while n < buffer.len() {
        let got = input.read(&mut buffer[n..])?;
        if got == 0 {
            return Ok(n);
        }
        n += got;
    }
    Ok(n)
}

// A hexadecimal digit, a capital above 9.
fn digit(n: u8) -> u8
    requires { n < 16 }
    ensures { result ≡ digit n }
{
    if n < 10 { 48 + n } else { 55 + n }
}

// must and must_not in two hexadecimal digits each, a space after each.
fn label(must: u8, must_not: u8) -> [u8; 6]
    ensures { result ≡ label must must_not }
{
    [
        digit(must / 16),
        digit(must % 16),
        b' ',
        digit(must_not / 16),
        digit(must_not % 16),
        b' ',
    ]
}

// Transition record k: its label, then its target.
fn print_record<W: Write>(out: &mut W, transitions: &[u8], k: usize) -> io::Result<()> {
    if transitions.len() / 4 <= k {
        return Ok(());
    }
    let at = k * 4;
    out.write_all(&label(transitions[at], transitions[at + 1]))?;
    writeln!(out, "{}", number_at(transitions, at + 2))
}

// Transition records from `from` on, count of them.
fn print_transitions<W: Write>(
    out: &mut W,
    transitions: &[u8],
    from: usize,
    count: usize,
) -> io::Result<()>
    requires { (from ≤ max_transitions) × (count ≤ 65535) }
{
    for i in 0..count {
        print_record(out, transitions, from + i)?;
    }
    Ok(())
}

// State record i and its transitions, which begin at `from`; where they end.
#[tactic(auto, unfolding(crate::specs::Shown::row_end))]
fn print_row<W: Write>(
    out: &mut W,
    states: &[u8],
    i: usize,
    transitions: &[u8],
    from: usize,
) -> io::Result<usize>
    ensures { IfOk result (λ end. end ≡ row_end states.now i from) }
{
    if MAX_TRANSITIONS < from || states.len() / 4 <= i {
        return Ok(from);
    }
    let at = i * 4;
    let count = number_at(states, at);
    let kind = if states[at + 2] == 1 {
        "accepting"
    } else {
        "plain"
    };
    writeln!(out, "state {i} {kind} {count}")?;
    print_transitions(out, transitions, from, count)?;
    Ok(from + count)
}

// The first n state records with their transitions.
fn print_rows<W: Write>(
    out: &mut W,
    states: &[u8],
    n: usize,
    transitions: &[u8],
) -> io::Result<()> {
    let mut from = 0;
    for i in 0..n {
        from = print_row(out, states, i, transitions, from)?;
    }
    Ok(())
}

// The answer of translate, with the tables that it filled.
fn print_translated<W: Write>(
    out: &mut W,
    answer: Result<Translated, Refusal>,
    states: &[u8],
    transitions: &[u8],
) -> io::Result<()> {
    match answer {
        Ok(translated) => {
            let counts = translated.counts;
            let (n, initial, total) = (counts.states, counts.initial, counts.transitions);
            writeln!(out, "states {n} initial {initial} transitions {total}")?;
            print_rows(out, states, n, transitions)
        }
        Err(refusal) => writeln!(out, "{refusal}"),
    }
}

// Translates the rule and prints the answer.
pub fn show_rule<W: Write>(out: &mut W, rule: &[u8]) -> io::Result<()> {
    let mut states = [0u8; STATES_BYTES];
    let mut transitions = [0u8; TRANSITIONS_BYTES];
    let mut initial = [0u8; INITIAL_BYTES];
    let answer = translate(rule, &mut states, &mut transitions, &mut initial);
    print_translated(out, answer, &states, &transitions)
}
