// What the answers and the bytes of every call are said with: a refusal's number and place, numbers of two bytes, zeros
// and copies.
#![tactic(auto)]

ghost use Rattle.std.specs.Prelude.{ℕ, ◌≡◌, ◌++◌, ◌+◌, ◌<◌, ◌≤◌, length, take, drop, replicate};
ghost use Rattle.std.proofs.lemmas.List.Edits.{sets};
ghost use Rattle.answer.specs.Bytes.{two_bytes, number, number_at, filled};
ghost use Rattle.answer.specs.Result.{reason_number, require, lowest, answer, Checks};

use std::error::Error;
use std::fmt;

// Why a call refuses what it was given; each reason has the number of document 01 or 02.
#[derive(Clone, Copy, Debug, PartialEq, Eq)]
pub enum Reason {
    RuleTooLong = 1,
    BadLength = 2,
    UnknownKind = 3,
    BadByte = 4,
    ChildNotBelow = 5,
    BadPlaces = 6,
    TooManyUntils = 7,
    EmptyCycle = 8,
    TooManyLetters = 9,
    BadContents = 10,
    BadState = 11,
    BadTransition = 12,
    BadInitial = 13,
    TooManyTerms = 20,
    ProductTooLarge = 21,
    TooManyTransitions = 22,
    TooManyStates = 23,
    TooManyPairs = 24,
    TableTooShort = 25,
    TooManyNodes = 26,
    MergedTooLarge = 27,
    AllSkipped = 28,
    HasUntil = 29,
}

impl From<Reason> for u8 {
    ghost from_gives = { λ reason number. number ≡ reason_number reason };

    fn from(reason: Reason) -> u8 {
        reason as u8
    }
}

// A refusal: its reason and its place.
#[derive(Clone, Copy, Debug, PartialEq, Eq)]
pub struct Refusal {
    pub reason: Reason,
    pub place: usize,
}

// As programs print it.
impl fmt::Display for Refusal {
    fn fmt<W: fmt::Write>(&self, f: &mut fmt::Formatter<W>) -> fmt::Result {
        write!(f, "refused {} place {}", u8::from(self.reason), self.place)
    }
}

impl Error for Refusal {}

// Fine where the test holds, else refused for this reason at this place.
pub fn require(test: bool, reason: Reason, place: usize) -> Result<(), Refusal>
    ensures { answer result ≡ require test (reason_number reason) place }
{
    if test {
        Ok(())
    } else {
        Err(Refusal { reason, place })
    }
}

// The checks of 0 to n - 1 in turn, up to the first that refuses.
#[tactic(auto, using(crate::proofs::Lowest::turns))]
pub fn first_refused<F: Fn(usize) -> Result<(), Refusal>>(n: usize, check: F) -> Result<(), Refusal>
    requires { (i : ℕ) → i < n → F.pre check i }
    ensures { (checks : _) → Checks (F.post check) checks n → answer result ≡ lowest checks n }
{
    for i in 0..n {
        check(i)?;
    }
    Ok(())
}

// The number in two bytes, low byte first.
pub fn number_of(low: u8, high: u8) -> usize
    ensures value { result ≡ number low high }
    ensures within { result ≤ 65535 }
{
    usize::from(u16::from_le_bytes([low, high]))
}

// The number at index i, low byte first.
pub fn number_at(bytes: &[u8], i: usize) -> usize
    requires { i + 1 < length bytes.now }
    ensures { result ≡ number_at bytes.now i }
{
    number_of(bytes[i], bytes[i + 1])
}

// A number of two bytes, low byte first.
#[tactic(auto, using(crate::proofs::Numbers::high_byte), unfolding(crate::specs::Bytes::two_bytes))]
pub fn put_number(table: &mut [u8], at: usize, x: usize)
    requires { (at + 2 ≤ length table.old) × (x < 65536) }
    ensures { table.new ≡ sets table.old at (two_bytes x) }
{
    table[at..at + 2].copy_from_slice(&(x as u16).to_le_bytes());
}

// All of a slice set to 0.
pub fn zero(table: &mut [u8])
    ensures { table.new ≡ replicate (length table.old) 0 }
{
    table.fill(0);
}

// Zeros behind the first n bytes.
pub fn zero_behind(table: &mut [u8], n: usize)
    requires { n ≤ length table.old }
    ensures { table.new ≡ filled table.old (take n table.old) }
{
    table[n..].fill(0);
}

// All of source in the first places of target.
pub fn copy<T: Copy>(target: &mut [T], source: &[T])
    requires { length source.now ≤ length target.old }
    ensures { target.new ≡ source.now ++ drop (length source.now) target.old }
{
    for (i, item) in source.iter().enumerate() {
        target[i] = *item;
    }
}
