// The field unit: the states that some run may be in, in a lent set, one letter per step, and the alarm when there is
// none.
#![tactic(auto)]

ghost use Rattle.std.specs.Prelude.{◌≡◌, ◌+◌, ◌/◌, ◌<◌, ◌≤◌, length, get_or, eqb, OnOk};
ghost use Rattle.answer.specs.Result.{accepted, answer};
ghost use Rattle.answer.specs.Bytes.{number_at, filled};
ghost use Rattle.sets.specs.Sets.{any};
ghost use Rattle.automaton.specs.Automaton.{no_state};
ghost use Rattle.image.specs.Lookup.{image_automaton, record_at, records_at};
ghost use Rattle.field.specs.Sets.{set_bytes, in_set, packed, begun, leads_to, moved, is_empty};
ghost use Rattle.field.specs.Calls.{watch, begins, advances, watchable, started, stepped};
ghost use Rattle.field.specs.Memory.{Added, watched};

use answer::{Reason, Refusal, copy, number_at, require, zero_behind};
use automaton::{MAX_STATES, reads_letter};
use image::{CONTENTS_BYTES, Image};
use lasso::SKIPPED;

// How many bytes a lent set has.
pub const SET_BYTES: usize = MAX_STATES / 8;

// Whether state q is in the set.
fn has_state(set: &[u8], q: usize) -> bool
    requires { q / 8 < length set.now }
    ensures { result ≡ in_set set.now q }
{
    (set[q / 8] >> (q % 8)) & 1 == 1
}

// State q joins the set.
fn add_state(set: &mut [u8], q: usize)
    requires { q / 8 < length set.old }
    ensures { Added set.old set.new (λ p. eqb p q) }
{
    set[q / 8] |= 1 << (q % 8);
}

// Whether no state of the image is in the set.
fn is_empty(image: &Image<'_>, set: &[u8]) -> bool
    requires { set_bytes ≤ length set.now }
    ensures { result ≡ is_empty (image_automaton image.now.bytes.now) (in_set set.now) }
{
    !(0..image.counts.states).any(|q| has_state(set, q))
}

// The target of the transition record at byte `at` joins the set, if the record reads the letter.
fn follow(image: &[u8], at: usize, letter: u8, next: &mut [u8])
    requires { (at + 3 < length image.now) × (number_at image.now (at + 2) / 8 < length next.old) }
    ensures { Added next.old next.new
        (λ q. leads_to letter q (record_at image.now at)) }
{
    if reads_letter(image[at], image[at + 1], letter) {
        add_state(next, number_at(image, at + 2));
    }
}

// What the transitions of state p lead to joins the set; their records begin at byte `at`.
#[tactic(auto, using(image::proofs::Known::size_known))]
fn step_state(image: &Image<'_>, p: usize, at: usize, letter: u8, next: &mut [u8])
    requires { (p < image.now.counts.states) × (at ≡ records_at image.now.bytes.now p)
        × (length next.old ≡ set_bytes) }
    ensures { Added next.old next.new
        (λ q. any (leads_to letter q) (get_or (image_automaton image.now.bytes.now).states p no_state).transitions) }
{
    let count = number_at(image.bytes, CONTENTS_BYTES + 4 * p);
    for i in 0..count {
        follow(image.bytes, at + 4 * i, letter, next);
    }
}

// The bytes of the states that one letter leads to. Only the states in the set have their transitions looked at; of the
// others the count is added up, by which the records of those behind them are found.
#[tactic(auto, using(image::proofs::Known::size_known))]
fn moved_set(image: &Image<'_>, set: &[u8], letter: u8) -> [u8; SET_BYTES]
    requires { set_bytes ≤ length set.now }
    ensures { result ≡ packed (moved (image_automaton image.now.bytes.now) (in_set set.now) letter) }
{
    let mut next = [0; SET_BYTES];
    let mut at = CONTENTS_BYTES + 4 * image.counts.states;
    for p in 0..image.counts.states {
        if has_state(set, p) {
            step_state(image, p, at, letter, &mut next);
        }
        at += 4 * number_at(image.bytes, CONTENTS_BYTES + 4 * p);
    }
    next
}

// The bytes of the initial states; their numbers are the image's last.
#[tactic(auto, using(image::proofs::Known::size_known))]
fn initial_set(image: &Image<'_>) -> [u8; SET_BYTES]
    ensures { result ≡ packed (begun (image_automaton image.now.bytes.now)) }
{
    let count = image.counts.initial;
    let at = image.bytes.len() - 2 * count;
    let mut set = [0; SET_BYTES];
    for i in 0..count {
        add_state(&mut set, number_at(image.bytes, at + 2 * i));
    }
    set
}

// The bytes of a set in the lent one, and zero behind them.
fn store(bytes: &[u8], set: &mut [u8])
    requires { (length bytes.now ≡ set_bytes) × (set_bytes ≤ length set.old) }
    ensures { set.new ≡ filled set.old bytes.now }
{
    copy(set, bytes);
    zero_behind(set, SET_BYTES);
}

// The set before the first letter, of an image that is not refused; whether the alarm is raised.
pub fn begin(image: &Image<'_>, set: &mut [u8]) -> bool
    requires { set_bytes ≤ length set.old }
    ensures { watch (accepted result) set.new
        ≡ begins (image_automaton image.now.bytes.now) set.old }
{
    store(&initial_set(image), set);
    is_empty(image, set)
}

// The set after one letter more, of an image that is not refused; whether the alarm is raised. This is `step` for a
// unit that knows its image: nothing is checked again.
pub fn advance(image: &Image<'_>, set: &mut [u8], letter: u8) -> bool
    requires { set_bytes ≤ length set.old }
    ensures { watch (accepted result) set.new
        ≡ advances (image_automaton image.now.bytes.now) set.old letter }
{
    if letter < SKIPPED {
        store(&moved_set(image, set, letter), set);
    }
    is_empty(image, set)
}

// The image that a lent set is to watch: 25 for the set, then 10 to 13 for the image.
#[tactic(auto, using(crate::proofs::Calling::parsed_watched), unfolding(crate::specs::Calls::watchable))]
fn check_lent<'a>(image: &'a [u8], set: &[u8]) -> Result<Image<'a>, Refusal>
    ensures room { OnOk result (set_bytes ≤ length set.now) }
    ensures watched { watched result ≡ watchable image.now set.now }
{
    require(SET_BYTES <= set.len(), Reason::TableTooShort, 0)?;
    Image::parse(image)
}

// The set before the first letter, and whether the alarm is raised. 25, then 10 to 13.
#[tactic(auto, unfolding(crate::specs::Calls::started))]
pub fn start(image: &[u8], set: &mut [u8]) -> Result<bool, Refusal>
    ensures { watch (answer result) set.new ≡ started image.now set.old }
{
    let image = check_lent(image, set)?;
    Ok(begin(&image, set))
}

// The set after one letter more, and whether the alarm is raised. 25, then 10 to 13.
#[tactic(auto, unfolding(crate::specs::Calls::stepped))]
pub fn step(image: &[u8], set: &mut [u8], letter: u8) -> Result<bool, Refusal>
    ensures { watch (answer result) set.new
        ≡ stepped image.now set.old letter }
{
    let image = check_lent(image, set)?;
    Ok(advance(&image, set, letter))
}
