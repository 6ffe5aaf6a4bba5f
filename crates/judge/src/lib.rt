// The call judge: whether a lasso is kept or broken by the automaton of an image.
#![tactic(auto)]

ghost use Rattle.std.specs.Prelude.{◌≡◌, true, false, ℕ, ◌+◌, ◌*◌, ◌<◌, ◌≤◌, length, get_or};
ghost use Rattle.automaton.specs.Automaton.{AcceptingPass, Accepts};
ghost use Rattle.automaton.specs.Limits.{max_states};
ghost use Rattle.answer.specs.Bytes.{number_at};
ghost use Rattle.answer.specs.Result.{accepted, answer, fine};
ghost use Rattle.lasso.specs.Lasso.{remaining, lasso_check};
ghost use Rattle.judge.specs.Judge.{work_bytes, judgement, letters_judged, judged};
ghost use Rattle.judge.specs.Limits.{met_bit, row_bits};
ghost use Rattle.judge.specs.Memory.{Token, Lifted, Is, Gains, Ored, Tells, Onward, ByRecord, Moved, AfterAll};
ghost use Rattle.judge.specs.Memory.{Confined, Ran, Through, Via, Joined, Covered, Linked};
ghost use Rattle.rest.specs.Memory.{ReachedMarked};
ghost use Rattle.image.specs.Lookup.{image_automaton, AcceptingByte, records_at};

use answer::{Reason, Refusal, number_at, require, zero};
use automaton::reads_letter;
use image::{CONTENTS_BYTES, Image};
use lasso::{Lasso, MAX_LETTERS, keep_remaining};
use rest::take_pairs;

// How many working bytes judging asks for.
pub const WORK_BYTES: usize = automaton::MAX_STATES * MAX_LETTERS;

// The words of the rows of all states, four each (specs/Memory.antt has what the bits are).
const ROWS_WORDS: usize = 4 * automaton::MAX_STATES;

type Rows = [u64; ROWS_WORDS];

// One of them by itself.
type Row = [u64; 4];

// How far above a bit the one lies that says the same of runs that have met an accepting state.
const MET: usize = 128;

// Where the accepting byte of the first state record is.
const ACCEPTING_AT: usize = CONTENTS_BYTES + 2;

// Whether a lasso is kept or broken.
#[derive(Clone, Copy, Debug, PartialEq, Eq)]
pub enum Verdict {
    Kept,
    Broken,
}

// What judging finds: the verdict, and how many pairs of position and state it took.
#[derive(Clone, Copy, Debug, PartialEq, Eq)]
pub struct Finding {
    pub verdict: Verdict,
    pub pairs: usize,
}

// Each word joined with the one at its place in `from`.
fn or_words(into: &mut [u64], from: &[u64])
    requires { length into.old ≡ length from.now }
    ensures { Ored into.old from.now into.new }
{
    for (i, word) in from.iter().enumerate() {
        into[i] |= *word;
    }
}

// The bits of a row joined to row q.
fn join_row(rows: &mut Rows, q: usize, row: &Row)
    requires { q < max_states }
    ensures { Gains rows.old rows.new (λ r k. (r ≡ q) × Token row.now 0 k) }
{
    or_words(&mut rows[4 * q..4 * q + 4], row);
}

// The runs of a row, as such that have met an accepting state, joined to row q: its lower half to the upper half there.
fn join_lifted(rows: &mut [u64], q: usize, row: &Row)
    requires { 4 * q + 4 ≤ length rows.old }
    ensures { Gains rows.old rows.new (λ r k. (r ≡ q) × Lifted (Token row.now) 0 k) }
{
    or_words(&mut rows[4 * q + 2..4 * q + 4], &row[..2]);
}

// Whether row q has bit k.
fn has_bit(rows: &Rows, q: usize, k: usize) -> bool
    requires { (q < max_states) × (k < row_bits) }
    ensures { Tells result (Token rows.now q k) }
{
    (rows[4 * q + k / 64] >> (k % 64)) & 1 == 1
}

// Row q by itself.
fn row_of(rows: &Rows, q: usize) -> Row
    requires { q < max_states }
    ensures { Is result (λ p k. (p ≡ 0) × Token rows.now q k) }
{
    let at = 4 * q;
    [rows[at], rows[at + 1], rows[at + 2], rows[at + 3]]
}

// Whether row q has no bit. Callers rest on a yes alone.
fn row_empty(rows: &Rows, q: usize) -> bool
    requires { q < max_states }
    ensures { result ≡ true → (k : ℕ) → Token rows.now q k → ⊥ }
{
    let row = row_of(rows, q);
    row[0] | row[1] | row[2] | row[3] == 0
}

// Bit k of row q set.
fn set_bit(rows: &mut [u64], q: usize, k: usize)
    requires { (4 * q + 4 ≤ length rows.old) × (k < row_bits) }
    ensures { Gains rows.old rows.new (λ r j. (r ≡ q) × (j ≡ k)) }
{
    rows[4 * q + k / 64] |= 1 << (k % 64);
}

// Whether state q accepts.
#[tactic(auto, using(image::proofs::Known::few_known, image::proofs::Known::records_known))]
fn accepts(image: &Image<'_>, q: usize) -> bool
    requires { q < image.now.counts.states }
    ensures { Tells result (AcceptingByte image.now.bytes.now q) }
{
    image.bytes[ACCEPTING_AT + 4 * q] == 1
}

// The runs of a row in the target's row, if the transition record at byte `at` reads the letter.
fn take_transition(image: &[u8], at: usize, letter: u8, row: &Row, next: &mut Rows)
    requires { (at + 3 < length image.now) × (number_at image.now (at + 2) < max_states) }
    ensures { Gains next.old next.new
        (ByRecord image.now at letter row.now) }
{
    if reads_letter(image[at], image[at + 1], letter) {
        join_row(next, number_at(image, at + 2), row);
    }
}

// The runs of row q after the letter, by the transitions of state q, whose records begin at byte `at`: they are passed
// over if the row is empty. Where the records of the next state begin.
fn step_state(
    image: &Image<'_>,
    q: usize,
    at: usize,
    letter: u8,
    rows: &Rows,
    next: &mut Rows,
) -> usize
    requires { (q < image.now.counts.states) × (at ≡ records_at image.now.bytes.now q) }
    ensures { (result ≡ records_at image.now.bytes.now (q + 1))
        × Gains next.old next.new
        (Onward (image_automaton image.now.bytes.now) letter (Token rows.now) q) }
{
    // a name of its own, so that the loop need not look it up in what is lent after each store
    let bytes = image.bytes;
    let count = number_at(bytes, CONTENTS_BYTES + 4 * q);
    let end = at + 4 * count;
    if row_empty(rows, q) {
        return end;
    }
    let row = row_of(rows, q);
    for i in 0..count {
        take_transition(bytes, at + 4 * i, letter, &row, next);
    }
    end
}

// The runs of all rows after the letter.
#[tactic(auto, using(image::proofs::Known::few_known, image::proofs::Known::records_known))]
fn step_states(image: &Image<'_>, letter: u8, rows: &Rows, next: &mut Rows)
    ensures { Gains next.old next.new (λ t k. (q : ℕ) × (q < image.now.counts.states)
        × Onward (image_automaton image.now.bytes.now) letter (Token rows.now) q t k) }
{
    let mut at = CONTENTS_BYTES + 4 * image.counts.states;
    for q in 0..image.counts.states {
        at = step_state(image, q, at, letter, rows, next);
    }
}

// The runs that stand in an accepting state have met one.
fn lift(image: &Image<'_>, rows: &mut Rows)
    ensures { Gains rows.old rows.new
        (λ q k. Accepts (image_automaton image.now.bytes.now) q × Lifted (Token rows.old) q k) }
{
    for q in 0..image.counts.states {
        if accepts(image, q) {
            let row = row_of(rows, q);
            join_lifted(rows, q, &row);
        }
    }
}

// The runs after one letter, in `next`; what it held does not count.
fn step(image: &Image<'_>, letter: u8, rows: &Rows, next: &mut Rows)
    requires { Confined image.now.counts.states next.old }
    ensures { Is next.new
        (Moved (image_automaton image.now.bytes.now) letter (Token rows.now)) }
{
    next[..4 * image.counts.states].fill(0);
    step_states(image, letter, rows, next);
    lift(image, next);
}

// Whether a run stands in one of n states. Callers rest on a no alone.
fn some_run(rows: &Rows, n: usize) -> bool
    requires { n ≤ max_states }
    ensures { result ≡ false → (q k : ℕ) → q < n → Token rows.now q k → ⊥ }
{
    (0..n).any(|q| !row_empty(rows, q))
}

// The runs after one letter, in `next`; false if none is left.
fn advance(image: &Image<'_>, letter: u8, rows: &Rows, next: &mut Rows) -> bool
    requires { Confined image.now.counts.states next.old }
    ensures { Ran result next.new
        (Moved (image_automaton image.now.bytes.now) letter (Token rows.now)) }
{
    step(image, letter, rows, next);
    some_run(next, image.counts.states)
}

// The runs after all letters of a word. False at the first letter after which none is left: then none will be. Two
// letters lead from `rows` to `next` and back; what the last of an odd word leads to is copied.
fn run(image: &Image<'_>, word: &[u8], rows: &mut Rows) -> bool
    requires { Confined image.now.counts.states rows.old }
    ensures { Ran result rows.new
        (AfterAll (image_automaton image.now.bytes.now) word.now (Token rows.old)) }
{
    let mut next = [0u64; ROWS_WORDS];
    let (pairs, rest) = word.as_chunks::<2>();
    for pair in pairs {
        if !advance(image, pair[0], rows, &mut next) || !advance(image, pair[1], &next, rows) {
            return false;
        }
    }
    if let Some(letter) = rest.first() {
        if !advance(image, *letter, rows, &mut next) {
            return false;
        }
        *rows = next;
    }
    true
}

// A pass begins in each marked state: one whose mark is 1.
fn begin_passes(marks: &[u8], rows: &mut Rows)
    requires { length marks.now ≤ max_states }
    ensures { Gains rows.old rows.new
        (λ q k. (q < length marks.now) × ((get_or marks.now q 0 ≡ 1) × (k ≡ q))) }
{
    for (q, mark) in marks.iter().enumerate() {
        if *mark == 1 {
            set_bit(rows, q, q);
        }
    }
}

// The row by which runs go on through m: the runs to m; if one of them goes from m to m and meets an accepting state,
// all that go round with it meet one too.
fn runs_to(rows: &Rows, m: usize) -> Row
    requires { m < max_states }
    ensures { Is result (λ p k. (p ≡ 0) × Through rows.now m k) }
{
    let row = row_of(rows, m);
    let mut via = row;
    if has_bit(rows, m, MET + m) {
        join_lifted(&mut via, 0, &row);
    }
    via
}

// The runs to m in `via` go on to q. If those from m to q meet an accepting state, they have met one. Runs that meet
// one are runs: without bit m in row q there is nothing to join.
fn join_state(rows: &mut Rows, q: usize, m: usize, via: &Row)
    requires { (q < max_states) × (m < max_states) × (Token rows.old q (met_bit + m) → Token rows.old q m) }
    ensures { Gains rows.old rows.new
        (λ p k. (p ≡ q) × Via rows.old via.now m q k) }
{
    if !has_bit(rows, q, m) {
        return;
    }
    let met = has_bit(rows, q, MET + m);
    join_row(rows, q, via);
    if met {
        join_lifted(rows, q, via);
    }
}

// All runs that pass through state m when a pass begins, put together.
fn join_through(rows: &mut Rows, n: usize, m: usize)
    requires { (n ≤ max_states) × (m < n) × Covered rows.old }
    ensures { Gains rows.old rows.new
        (λ q k. (q < n) × Joined (Token rows.old) m q k) }
{
    let via = runs_to(rows, m);
    for q in 0..n {
        join_state(rows, q, m, &via);
    }
}

// From runs over one pass to runs over one or more.
fn close(rows: &mut Rows, n: usize)
    requires { (n ≤ max_states) × Covered rows.old }
    ensures { Is rows.new (Linked n (Token rows.old)) }
{
    for m in 0..n {
        join_through(rows, n, m);
    }
}

// Whether some state comes back to itself through an accepting state.
fn some_back(rows: &Rows, n: usize) -> bool
    requires { n ≤ max_states }
    ensures { Tells result ((q : ℕ) × (q < n) × Token rows.now q (met_bit + q)) }
{
    (0..n).any(|q| has_bit(rows, q, MET + q))
}

// Whether some state accepts.
fn some_accepting(image: &Image<'_>) -> bool
    ensures { Tells result ((q : ℕ) × (q < image.now.counts.states) × (AcceptingByte image.now.bytes.now q)) }
{
    (0..image.counts.states).any(|q| accepts(image, q))
}

// Whether the automaton of an image has an accepting pass on the lasso. The marks say in which states a run stands when
// some pass begins: only from these can a run come back to where it stood.
fn search(image: &Image<'_>, lasso: &Lasso<'_>, work: &[u8]) -> bool
    requires { (0 < length lasso.now.cycle.now)
        × (max_states * (length lasso.now.stem.now + length lasso.now.cycle.now) ≤ length work.now)
        × ReachedMarked (image_automaton image.now.bytes.now) lasso.now.stem.now lasso.now.cycle.now work.now }
    ensures { Tells result
        (AcceptingPass (image_automaton image.now.bytes.now) lasso.now.stem.now lasso.now.cycle.now) }
{
    if !some_accepting(image) {
        return false;
    }
    let n = image.counts.states;
    let marks_at = automaton::MAX_STATES * lasso.stem.len();
    let mut rows = [0u64; ROWS_WORDS];
    begin_passes(&work[marks_at..marks_at + n], &mut rows);
    if !run(image, lasso.cycle, &mut rows) {
        return false;
    }
    close(&mut rows, n);
    some_back(&rows, n)
}

// What judging finds of letters none of which is skipped; the working bytes zero. The lasso is kept where a pair at
// rest was taken, or else where the full search says so, which begins at the marks that the search to rest has left.
fn judge_letters(image: &Image<'_>, lasso: &Lasso<'_>, work: &mut [u8]) -> Finding
    requires { (0 < length lasso.now.cycle.now)
        × (max_states * (length lasso.now.stem.now + length lasso.now.cycle.now) ≤ length work.old) }
    ensures { judgement (accepted result) work.new
        ≡ letters_judged (image_automaton image.now.bytes.now)
        lasso.now.stem.now lasso.now.cycle.now work.old }
{
    let taken = take_pairs(image, lasso, work);
    let kept = taken.rests || search(image, lasso, work);
    zero(work);
    Finding {
        verdict: if kept { Verdict::Kept } else { Verdict::Broken },
        pairs: taken.pairs,
    }
}

// What judging finds of the letters of a lasso that remain. Where none is skipped they are judged as they are lent;
// else they are gathered first, once.
fn judge_remaining(image: &Image<'_>, lasso: &Lasso<'_>, work: &mut [u8]) -> Finding
    requires { (fine ≡ lasso_check lasso.now.stem.now lasso.now.cycle.now) × (work_bytes ≤ length work.old) }
    ensures { judgement (accepted result) work.new
        ≡ letters_judged (image_automaton image.now.bytes.now)
        (remaining lasso.now.stem.now) (remaining lasso.now.cycle.now) work.old }
{
    if lasso.none_skipped() {
        return judge_letters(image, lasso, work);
    }
    let mut stem = [0u8; MAX_LETTERS];
    let mut cycle = [0u8; MAX_LETTERS];
    let stem_len = keep_remaining(lasso.stem, &mut stem);
    let cycle_len = keep_remaining(lasso.cycle, &mut cycle);
    let remaining = Lasso {
        stem: &stem[..stem_len],
        cycle: &cycle[..cycle_len],
    };
    judge_letters(image, &remaining, work)
}

// The verdict on a lasso: 25, then 10 to 13 of the image, then 8, 9 and 28 of the lasso.
pub fn judge(image: &[u8], lasso: &Lasso<'_>, work: &mut [u8]) -> Result<Finding, Refusal>
    ensures { judgement (answer result) work.new
        ≡ judged image.now lasso.now.stem.now lasso.now.cycle.now work.old }
{
    require(WORK_BYTES <= work.len(), Reason::TableTooShort, 0)?;
    let image = Image::parse(image)?;
    lasso.check()?;
    Ok(judge_remaining(&image, lasso, work))
}
