// Whether two lassos are one word, and so one plan: compare, which refuses by 8, 9 and 28.
#![tactic(auto)]

ghost use Rattle.std.specs.Prelude.{◌≡◌, true, ◌↔◌, ◌+◌, ◌<◌, ◌≤◌, length};
ghost use Rattle.answer.specs.Result.{answer, fine};
ghost use Rattle.lasso.specs.Lasso.{letter, remaining, max_letters, lasso_check};
ghost use Rattle.sameword.specs.Words.{agree, words_agree, SameWord, SameRemaining, compared};

use answer::Refusal;
use lasso::{Lasso, MAX_LETTERS, keep_remaining};

// The place of a refusal that is about the second of two lassos.
const SECOND: usize = 1;

// Whether the first n letters of two lassos agree: both are followed position by position.
#[tactic(auto, using(crate::proofs::Agreement::follow_differs))]
fn letters_agree(first: &Lasso<'_>, second: &Lasso<'_>, n: usize) -> bool
    requires { (0 < length first.now.cycle.now) × (0 < length second.now.cycle.now) }
    ensures { result ≡ agree (letter first.now.stem.now first.now.cycle.now)
        (letter second.now.stem.now second.now.cycle.now) n }
{
    let mut at = 0;
    let mut other_at = 0;
    for _ in 0..n {
        if first.letter_at(at) != second.letter_at(other_at) {
            return false;
        }
        at = first.position_after(at);
        other_at = second.position_after(other_at);
    }
    true
}

// Whether the letters of two lassos without skipped ones agree at each i, for ever: told by those of the longer stem,
// and behind it as many as both cycles have together (`words_agree_exactly`, proofs/Periods.antt).
#[tactic(auto, unfolding(crate::specs::Words::words_agree))]
fn same_letters(first: &Lasso<'_>, second: &Lasso<'_>) -> bool
    requires { (0 < length first.now.cycle.now) × (length first.now.stem.now + length first.now.cycle.now ≤ max_letters)
        × (0 < length second.now.cycle.now)
        × (length second.now.stem.now + length second.now.cycle.now ≤ max_letters) }
    ensures { (result ≡ words_agree first.now.stem.now first.now.cycle.now
        second.now.stem.now second.now.cycle.now)
        × ((result ≡ true) ↔ SameWord first.now.stem.now first.now.cycle.now
        second.now.stem.now second.now.cycle.now) }
{
    let longer = first.stem.len().max(second.stem.len());
    let n = longer + first.cycle.len() + second.cycle.len();
    letters_agree(first, second, n)
}

// Whether the letters of two lassos that remain agree at each i, for ever: they are gathered first, once.
#[tactic(auto, using(lasso::proofs::Checking::lasso_known))]
fn same_remaining(first: &Lasso<'_>, second: &Lasso<'_>) -> bool
    requires { (fine ≡ lasso_check first.now.stem.now first.now.cycle.now)
        × (fine ≡ lasso_check second.now.stem.now second.now.cycle.now) }
    ensures { (result ≡ words_agree (remaining first.now.stem.now) (remaining first.now.cycle.now)
        (remaining second.now.stem.now) (remaining second.now.cycle.now))
        × ((result ≡ true) ↔ SameRemaining first.now.stem.now first.now.cycle.now
        second.now.stem.now second.now.cycle.now) }
{
    let mut first_stem = [0; MAX_LETTERS];
    let mut first_cycle = [0; MAX_LETTERS];
    let mut second_stem = [0; MAX_LETTERS];
    let mut second_cycle = [0; MAX_LETTERS];
    let s = keep_remaining(first.stem, &mut first_stem);
    let c = keep_remaining(first.cycle, &mut first_cycle);
    let t = keep_remaining(second.stem, &mut second_stem);
    let d = keep_remaining(second.cycle, &mut second_cycle);
    same_letters(
        &Lasso {
            stem: &first_stem[..s],
            cycle: &first_cycle[..c],
        },
        &Lasso {
            stem: &second_stem[..t],
            cycle: &second_cycle[..d],
        },
    )
}

// The same. Where no letter is skipped they are compared as they are lent.
#[tactic(auto, using(lasso::proofs::Checking::lasso_known))]
fn same_word(first: &Lasso<'_>, second: &Lasso<'_>) -> bool
    requires { (fine ≡ lasso_check first.now.stem.now first.now.cycle.now)
        × (fine ≡ lasso_check second.now.stem.now second.now.cycle.now) }
    ensures { (result ≡ words_agree (remaining first.now.stem.now) (remaining first.now.cycle.now)
        (remaining second.now.stem.now) (remaining second.now.cycle.now))
        × ((result ≡ true) ↔ SameRemaining first.now.stem.now first.now.cycle.now
        second.now.stem.now second.now.cycle.now) }
{
    if first.none_skipped() && second.none_skipped() {
        same_letters(first, second)
    } else {
        same_remaining(first, second)
    }
}

// Whether two lassos are one word: 8, 9 and 28 of the first, then of the second, then the letters.
#[tactic(auto, unfolding(crate::specs::Words::compared, crate::specs::Words::lassos_check))]
pub fn compare(first: &Lasso<'_>, second: &Lasso<'_>) -> Result<bool, Refusal>
    ensures { answer result ≡ compared first.now.stem.now first.now.cycle.now
        second.now.stem.now second.now.cycle.now }
{
    first.check()?;
    second.check().map_err(|refusal| Refusal {
        place: SECOND,
        ..refusal
    })?;
    Ok(same_word(first, second))
}
