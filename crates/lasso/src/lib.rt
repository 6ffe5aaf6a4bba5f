// Lassos: refusals 8, 9 and 28, the letters that remain, and the letters at positions.
#![tactic(auto)]

ghost use Rattle.std.specs.Prelude.{◌≡◌, true, ◌↔◌, ◌+◌, ◌<◌, ◌≤◌, length, take, ltb};
ghost use Rattle.answer.specs.Result.{answer};
ghost use Rattle.lasso.specs.Lasso.{remaining, letter, after, lasso_check};

use answer::{Reason, Refusal, require};

// A lasso has at most so many letters, stem and cycle together (`max_letters` of specs/).
pub const MAX_LETTERS: usize = 336;

// Bit 7 of a letter, which says that it is skipped (`skipped` of specs/).
pub const SKIPPED: u8 = 0x80;

// The letters that remain, in the first places of `kept`, and how many they are. A skipped letter is stored over by the
// next one, so what is behind them may be anything.
pub fn keep_remaining(letters: &[u8], kept: &mut [u8]) -> usize
    requires { length letters.now ≤ length kept.old }
    ensures { (result ≤ length kept.new)
        × (take result kept.new ≡ remaining letters.now) }
{
    let mut n = 0;
    for letter in letters {
        kept[n] = *letter;
        n += usize::from(*letter < SKIPPED);
    }
    n
}

// Whether one of the letters remains.
fn some_remains(letters: &[u8]) -> bool
    ensures { result ≡ ltb 0 (length (remaining letters.now)) }
{
    letters.iter().any(|letter| *letter < SKIPPED)
}

// Whether all of the letters remain: exactly then bit 7 is not among their bits, all joined. No letter is tested by
// itself: this runs over all letters of every plan.
fn all_remain(letters: &[u8]) -> bool
    ensures { (result ≡ true) ↔ (remaining letters.now ≡ letters.now) }
{
    letters.iter().fold(0, |joined, letter| joined | letter) < SKIPPED
}

// A stem, and a cycle that is taken round and round, as they are lent.
#[derive(Clone, Copy)]
pub struct Lasso<'a> {
    pub stem: &'a [u8],
    pub cycle: &'a [u8],
}

impl Lasso<'_> {
    // Whether no letter of a lasso is skipped, so that what remains of it is the lasso as it is lent.
    pub fn none_skipped(&self) -> bool
        ensures { (result ≡ true) ↔ ((remaining self.now.stem.now ≡ self.now.stem.now)
            × (remaining self.now.cycle.now ≡ self.now.cycle.now)) }
    {
        all_remain(self.stem) && all_remain(self.cycle)
    }

    // 8, 9 and 28 of a lasso.
    #[tactic(auto, unfolding(crate::specs::Lasso::lasso_check))]
    pub fn check(&self) -> Result<(), Refusal>
        ensures { answer result ≡ lasso_check self.now.stem.now self.now.cycle.now }
    {
        let letters = self.stem.len() + self.cycle.len();
        require(!self.cycle.is_empty(), Reason::EmptyCycle, 0)?;
        require(letters <= MAX_LETTERS, Reason::TooManyLetters, 0)?;
        require(some_remains(self.cycle), Reason::AllSkipped, 0)
    }

    // The position after one.
    #[tactic(auto, unfolding(crate::specs::Lasso::after))]
    pub fn position_after(&self, position: usize) -> usize
        requires { (position < length self.now.stem.now + length self.now.cycle.now) × (0 < length self.now.cycle.now) }
        ensures { result ≡ after self.now.stem.now self.now.cycle.now position }
    {
        if position + 1 < self.stem.len() + self.cycle.len() {
            position + 1
        } else {
            self.stem.len()
        }
    }

    // The letter at a position.
    #[tactic(auto, using(crate::proofs::Letters::letter_early, crate::proofs::Letters::letter_cycle))]
    pub fn letter_at(&self, position: usize) -> u8
        requires { position < length self.now.stem.now + length self.now.cycle.now }
        ensures { result ≡ letter self.now.stem.now self.now.cycle.now position }
    {
        if position < self.stem.len() {
            self.stem[position]
        } else {
            self.cycle[position - self.stem.len()]
        }
    }
}
