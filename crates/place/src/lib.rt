// Where a letter that remains stands among the letters as they are lent.
#![tactic(auto)]

ghost use Rattle.std.specs.Prelude.{◌≡◌, ◌+◌, ◌≤◌, length};
ghost use Rattle.lasso.specs.Lasso.{remaining, max_letters};
ghost use Rattle.place.specs.Place.{place_in, place_of};

use lasso::{Lasso, SKIPPED};

// At which index remaining letter i stands.
#[tactic(auto, using(crate::proofs::Standing::seeking))]
fn place_in(letters: &[u8], i: usize) -> usize
    ensures { result ≡ place_in letters.now i }
{
    let mut left = i;
    for (at, letter) in letters.iter().enumerate() {
        if *letter < SKIPPED {
            if left == 0 {
                return at;
            }
            left -= 1;
        }
    }
    letters.len()
}

// The same of a lasso, s letters of whose stem remain.
#[tactic(auto, using(crate::proofs::Standing::placing))]
pub fn place_of(lasso: &Lasso<'_>, s: usize, i: usize) -> usize
    requires { (s ≡ length (remaining lasso.now.stem.now))
        × (length lasso.now.stem.now + length lasso.now.cycle.now ≤ max_letters) }
    ensures { result ≡ place_of lasso.now.stem.now lasso.now.cycle.now i }
{
    if i < s {
        place_in(lasso.stem, i)
    } else {
        lasso.stem.len() + place_in(lasso.cycle, i - s)
    }
}
