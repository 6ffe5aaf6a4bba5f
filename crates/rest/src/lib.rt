// The pairs of position and state that judging takes, breadth first, until one is at rest.
#![tactic(auto)]

ghost use Rattle.std.specs.Prelude.{◌≡◌, false, List, ◌∷◌, [], ℕ, ◌+◌, ◌*◌, ◌<◌, ◌≤◌, length, get_or, replicate};
ghost use Rattle.answer.specs.Bytes.{number_at};
ghost use Rattle.automaton.specs.Automaton.{no_state};
ghost use Rattle.automaton.specs.Limits.{max_states};
ghost use Rattle.image.specs.Lookup.{image_automaton, record_at};
ghost use Rattle.rest.specs.Search.{point, read_targets, starts};
ghost use Rattle.rest.specs.Rest.{rest_taken, pairs_taken};
ghost use Rattle.rest.specs.Memory.{Placed, buffers, Ready, Fills, Before, Ended, ReachedMarked};

use answer::{number_at, zero};
use automaton::{MAX_STATES, reads_letter};
use image::{CONTENTS_BYTES, Image};
use lasso::Lasso;

// Where the last byte of the first state record is.
const REST_AT: usize = CONTENTS_BYTES + 3;

// The states met at a position, in order: the first `count`. What is behind them does not count.
#[derive(Clone, Copy)]
struct Level {
    states: [u8; MAX_STATES],
    count: usize,
}

// Where the transition records of each state begin.
type Places = [usize; MAX_STATES];

// What the search to rest comes to: whether a pair at rest was taken, and how many pairs were.
#[derive(Clone, Copy)]
pub struct Taken {
    pub rests: bool,
    pub pairs: usize,
}

// A state that was not met at the position is marked and joins the level.
fn visit(position: usize, state: usize, work: &mut [u8], level: &mut Level)
    requires { (n : ℕ) × (state < n) × Ready n position (buffers work.old level.old) }
    ensures { (n : ℕ) → state < n → Fills n position
        (buffers work.old level.old) (buffers work.new level.new) (point position state ∷ []) }
{
    let at = MAX_STATES * position + state;
    if work[at] != 1 {
        work[at] = 1;
        level.states[level.count] = state as u8;
        level.count += 1;
    }
}

// The target of the transition record at byte `at` is met, if the record reads the letter.
fn follow(image: &[u8], at: usize, letter: u8, position: usize, work: &mut [u8], level: &mut Level)
    requires { (at + 3 < length image.now) × ((n : ℕ) × (number_at image.now (at + 2) < n)
        × Ready n position (buffers work.old level.old)) }
    ensures { (n : ℕ) → number_at image.now (at + 2) < n → Fills n position
        (buffers work.old level.old) (buffers work.new level.new)
        (read_targets letter position (record_at image.now at ∷ [])) }
{
    if reads_letter(image[at], image[at + 1], letter) {
        visit(position, number_at(image, at + 2), work, level);
    }
}

// The targets of all transitions of state q that read the letter are met, in order. Where the level has all states
// there is nothing to meet.
#[tactic(auto, using(image::proofs::Known::size_known))]
fn take_state(
    image: &Image<'_>,
    places: &Places,
    q: usize,
    letter: u8,
    position: usize,
    work: &mut [u8],
    level: &mut Level,
)
    requires { (q < image.now.counts.states) × Placed image.now.bytes.now places.now
        × Ready image.now.counts.states position (buffers work.old level.old) }
    ensures { Fills image.now.counts.states position
        (buffers work.old level.old) (buffers work.new level.new)
        (read_targets letter position (get_or (image_automaton image.now.bytes.now).states q no_state).transitions) }
{
    if image.counts.states <= level.count {
        return;
    }
    // a name of its own, so that the loop need not look it up in what is lent after each store
    let bytes = image.bytes;
    let at = places[q];
    let records = number_at(bytes, CONTENTS_BYTES + 4 * q);
    for i in 0..records {
        follow(bytes, at + 4 * i, letter, position, work, level);
    }
}

// Where the transition records of each state begin.
#[tactic(auto, using(image::proofs::Known::size_known))]
fn find_places(image: &Image<'_>) -> Places
    ensures { Placed image.now.bytes.now result }
{
    let mut places = [0; MAX_STATES];
    let mut at = CONTENTS_BYTES + 4 * image.counts.states;
    for (q, place) in places[..image.counts.states].iter_mut().enumerate() {
        *place = at;
        at += 4 * number_at(image.bytes, CONTENTS_BYTES + 4 * q);
    }
    places
}

// The states of a level are taken in order, at the position, until one is at rest: how many pairs were taken by then,
// of which `taken` were taken before. Where none is at rest, `next` has what their transitions lead to.
fn take_level(
    image: &Image<'_>,
    lasso: &Lasso<'_>,
    places: &Places,
    position: usize,
    taken: usize,
    level: &Level,
    work: &mut [u8],
    next: &mut Level,
) -> Option<usize>
    requires { Placed image.now.bytes.now places.now × (0 < length lasso.now.cycle.now)
        × (max_states * (length lasso.now.stem.now + length lasso.now.cycle.now) ≤ length work.old)
        × Before (image_automaton image.now.bytes.now) lasso.now.stem.now lasso.now.cycle.now
        image.now.counts.states position taken (buffers work.old level.now) }
    ensures { Ended (image_automaton image.now.bytes.now) lasso.now.stem.now lasso.now.cycle.now
        image.now.counts.states position (taken + level.now.count) result (buffers work.new next.new) }
{
    let letter = lasso.letter_at(position);
    let onward = lasso.position_after(position);
    next.count = 0;
    for (i, state) in level.states[..level.count].iter().enumerate() {
        let q = usize::from(*state);
        if image.bytes[REST_AT + 4 * q] == 1 {
            return Some(taken + i + 1);
        }
        take_state(image, places, q, letter, onward, work, next);
    }
    None
}

// The initial states are met at position 0. Their numbers are the image's last.
#[tactic(auto, using(image::proofs::Known::size_known))]
fn begin(image: &Image<'_>, work: &mut [u8], level: &mut Level)
    requires { Ready image.now.counts.states 0 (buffers work.old level.old) }
    ensures { (stem cycle : List ℕ) → Fills image.now.counts.states 0
        (buffers work.old level.old) (buffers work.new level.new)
        (starts (image_automaton image.now.bytes.now) stem cycle) }
{
    let records = image.counts.initial;
    let at = image.bytes.len() - 2 * records;
    for i in 0..records {
        visit(0, number_at(image.bytes, at + 2 * i), work, level);
    }
}

// Level after level, until one has a state at rest or there is no next. The bytes are zero before.
fn take_levels(image: &Image<'_>, lasso: &Lasso<'_>, work: &mut [u8]) -> Taken
    requires { (0 < length lasso.now.cycle.now)
        × (max_states * (length lasso.now.stem.now + length lasso.now.cycle.now) ≤ length work.old)
        × (work.old ≡ replicate (length work.old) 0) }
    ensures { (result.rests ≡ rest_taken (image_automaton image.now.bytes.now) lasso.now.stem.now lasso.now.cycle.now)
        × (result.pairs ≡ pairs_taken (image_automaton image.now.bytes.now) lasso.now.stem.now lasso.now.cycle.now)
        × (result.rests ≡ false → ReachedMarked (image_automaton image.now.bytes.now)
        lasso.now.stem.now lasso.now.cycle.now work.new) }
{
    let places = find_places(image);
    let mut level = Level {
        states: [0; MAX_STATES],
        count: 0,
    };
    let mut next = level;
    begin(image, work, &mut level);
    let mut position = 0;
    let mut taken = 0;
    while 0 < level.count {
        if let Some(pairs) = take_level(
            image, lasso, &places, position, taken, &level, work, &mut next,
        ) {
            return Taken { rests: true, pairs };
        }
        taken += level.count;
        position = lasso.position_after(position);
        level = next;
    }
    Taken {
        rests: false,
        pairs: taken,
    }
}

// The search to rest, over an image that is not refused. What the working bytes hold before does not count. Those for
// the positions of the lasso are written and not zeroed again: where no pair is at rest they mark all pairs reached.
pub fn take_pairs(image: &Image<'_>, lasso: &Lasso<'_>, work: &mut [u8]) -> Taken
    requires { (0 < length lasso.now.cycle.now)
        × (max_states * (length lasso.now.stem.now + length lasso.now.cycle.now) ≤ length work.old) }
    ensures { (result.rests ≡ rest_taken (image_automaton image.now.bytes.now) lasso.now.stem.now lasso.now.cycle.now)
        × (result.pairs ≡ pairs_taken (image_automaton image.now.bytes.now) lasso.now.stem.now lasso.now.cycle.now)
        × (result.rests ≡ false → ReachedMarked (image_automaton image.now.bytes.now)
        lasso.now.stem.now lasso.now.cycle.now work.new) }
{
    let used = MAX_STATES * (lasso.stem.len() + lasso.cycle.len());
    let marks = &mut work[..used];
    zero(marks);
    take_levels(image, lasso, marks)
}
