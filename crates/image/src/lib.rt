// The image of an automaton: the calls write and read, and check, which looks at an image and stores nothing.
#![tactic(auto)]

ghost use Rattle.std.specs.Prelude.{◌≡◌, cond, ◌+◌, ◌*◌, ◌<◌, ◌≤◌, length, drop, IfOk};
ghost use Rattle.std.proofs.lemmas.List.Edits.{sets};
ghost use Rattle.answer.specs.Result.{accepted, and_then, lowest, answer};
ghost use Rattle.sets.specs.Sets.{any};
ghost use Rattle.automaton.specs.Automaton.{free_to, at_rest};
ghost use Rattle.automaton.specs.Limits.{max_states, max_transitions};
ghost use Rattle.automaton.specs.Tables.{outcome, TablesRoom};
ghost use Rattle.answer.specs.Bytes.{number_at, filled};
ghost use Rattle.answer.specs.Buffer.{buffer};
ghost use Rattle.image.specs.Image.{entry, entry_bytes, contents_bytes, largest_image};
ghost use Rattle.image.specs.Image.{transitions_at, initial_at, image_length};
ghost use Rattle.image.specs.Reader.{counts_at, counts_fit, entries_have, contents_check, add_state, state_pass};
ghost use Rattle.image.specs.Reader.{states_check, label_fits, transition_record_check, initial_check};
ghost use Rattle.image.specs.Reader.{transitions_from, count_sum, states_from, rest_check, records_check, bodies_check};
ghost use Rattle.image.specs.Lookup.{record_at, Readable};
ghost use Rattle.image.specs.Calls.{writes, read_into, checks};
ghost use Rattle.image.specs.Parsed.{parsed};
ghost use Rattle.image.specs.Memory.{state_at, joined_over, HasRecords, Small, Sized, Loads};

use answer::{Reason, Refusal, copy, first_refused, number_at, put_number, require, zero_behind};
use automaton::{
    Counts, INITIAL_BYTES, MAX_INITIAL, MAX_OF_STATE, MAX_STATES, MAX_TRANSITIONS, STATES_BYTES,
    TRANSITIONS_BYTES, tables_fit,
};
use lasso::SKIPPED;

mod readable;

pub use readable::Image;

// What an entry of the table of contents takes, where the second and the third begin, and where the bodies do
// (specs/Image.antt).
const ENTRY_BYTES: usize = 6;

const TRANSITIONS_ENTRY: usize = ENTRY_BYTES;

const INITIAL_ENTRY: usize = 2 * ENTRY_BYTES;

pub const CONTENTS_BYTES: usize = 3 * ENTRY_BYTES;

// Where the count of each entry stands.
pub const STATE_COUNT_AT: usize = 2;

const TRANSITION_COUNT_AT: usize = TRANSITIONS_ENTRY + 2;

pub const INITIAL_COUNT_AT: usize = INITIAL_ENTRY + 2;

// Where in an entry its kind and its offset stand.
const KIND_AT: usize = 0;

const OFFSET_AT: usize = 4;

// The largest image.
pub const IMAGE_BYTES: usize = CONTENTS_BYTES + STATES_BYTES + TRANSITIONS_BYTES + INITIAL_BYTES;

// Where the transition records and the initial numbers of an image with these counts begin, and where it ends.
fn transitions_at(counts: Counts) -> usize
    requires { Small counts }
    ensures { result ≡ transitions_at counts }
{
    CONTENTS_BYTES + 4 * counts.states
}

fn initial_at(counts: Counts) -> usize
    requires { Small counts }
    ensures { result ≡ initial_at counts }
{
    transitions_at(counts) + 4 * counts.transitions
}

fn image_length(counts: Counts) -> usize
    requires { Small counts }
    ensures { result ≡ image_length counts }
{
    initial_at(counts) + 2 * counts.initial
}

// The counts against 10.
#[tactic(auto, unfolding(crate::specs::Reader::counts_fit))]
fn counts_fit(counts: Counts) -> bool
    ensures { result ≡ counts_fit counts }
{
    counts.states <= MAX_STATES
        && counts.transitions <= MAX_TRANSITIONS
        && counts.initial <= MAX_INITIAL
}

// State record i in the pass, behind records whose counts add up to `sum`.
#[tactic(auto, unfolding(crate::specs::Reader::state_check))]
fn add_state(states: &[u8], i: usize, sum: usize) -> Result<usize, Refusal>
    requires { (4 * i + 3 < length states.now) × (sum ≤ max_transitions) }
    ensures { answer result ≡ add_state states.now i sum }
{
    let at = 4 * i;
    let count = number_at(states, at);
    let fits = count <= MAX_OF_STATE && states[at + 2] <= 1;
    require(fits, Reason::BadState, i)?;
    Ok(sum + count)
}

// The pass over the first n state records. While an image is loaded their counts and accepting bytes are checked here,
// once; what is stored afterwards is copied unread.
#[tactic(auto, using(crate::proofs::Sums::pass_turns))]
fn pass_states(states: &[u8], n: usize) -> Result<usize, Refusal>
    requires { (n ≤ max_states) × (4 * n ≤ length states.now) }
    ensures { answer result ≡ state_pass states.now n }
{
    let mut sum = 0;
    for i in 0..n {
        sum = add_state(states, i, sum)?;
    }
    Ok(sum)
}

// 11 for the state records but for their last bytes: the pass, then its sum.
#[tactic(auto, unfolding(crate::specs::Reader::states_check))]
fn check_states(states: &[u8], counts: Counts) -> Result<(), Refusal>
    requires { (counts.states ≤ max_states) × (4 * counts.states ≤ length states.now) }
    ensures { answer result ≡ states_check counts states.now }
{
    let sum = pass_states(states, counts.states)?;
    require(sum == counts.transitions, Reason::BadState, counts.states)
}

// Whether the transition whose record is at byte `at` is free and leads to state q.
fn free_to(transitions: &[u8], at: usize, q: usize) -> bool
    requires { at + 3 < length transitions.now }
    ensures { result ≡ free_to q (record_at transitions.now at) }
{
    transitions[at] == 0 && transitions[at + 1] == 0 && number_at(transitions, at + 2) == q
}

// Whether one of `count` transitions, whose records begin at byte `at`, is.
fn some_free_to(transitions: &[u8], at: usize, count: usize, q: usize) -> bool
    requires { at + 4 * count ≤ length transitions.now }
    ensures { result ≡ any (free_to q) (transitions_from count (drop at transitions.now)) }
{
    (0..count).any(|i| free_to(transitions, at + 4 * i, q))
}

// What the last byte of state record q is to be, where its `count` transition records begin at byte `at`. Only an
// accepting state's are looked at.
#[tactic(auto, unfolding(automaton::specs::Automaton::at_rest))]
fn rest_byte(states: &[u8], transitions: &[u8], q: usize, at: usize, count: usize) -> u8
    requires { (4 * q + 3 < length states.now) × (at + 4 * count ≤ length transitions.now)
        × (at ≡ 4 * count_sum states.now q) × (count ≡ number_at states.now (4 * q)) }
    ensures { result ≡ cond (at_rest q (state_at states.now transitions.now q)) 1 0 }
{
    u8::from(states[4 * q + 2] == 1 && some_free_to(transitions, at, count, q))
}

// 11 for the last bytes of the first n state records, whose transition records are all there (R-5).
#[tactic(auto, using(crate::proofs::Rests::rest_turns))]
fn check_rests(states: &[u8], transitions: &[u8], n: usize) -> Result<(), Refusal>
    requires { (4 * n ≤ length states.now) × (4 * count_sum states.now n ≤ length transitions.now) }
    ensures { answer result
        ≡ lowest (rest_check (states_from n states.now transitions.now) states.now) n }
{
    let mut at = 0;
    for q in 0..n {
        let count = number_at(states, 4 * q);
        let rest = rest_byte(states, transitions, q, at, count);
        require(states[4 * q + 3] == rest, Reason::BadState, q)?;
        at += 4 * count;
    }
    Ok(())
}

// Whether 12 lets the label of a transition pass.
#[tactic(auto, unfolding(crate::specs::Reader::label_fits))]
fn label_fits(must: u8, must_not: u8) -> bool
    ensures { result ≡ label_fits must must_not }
{
    must & must_not == 0 && must < SKIPPED && must_not < SKIPPED
}

// 12 for transition record i.
#[tactic(auto, unfolding(crate::specs::Reader::transition_record_check))]
fn check_transition(transitions: &[u8], i: usize, state_count: usize) -> Result<(), Refusal>
    requires { 4 * i + 3 < length transitions.now }
    ensures { answer result ≡ transition_record_check state_count transitions.now i }
{
    let at = 4 * i;
    let fits = number_at(transitions, at + 2) < state_count
        && label_fits(transitions[at], transitions[at + 1]);
    require(fits, Reason::BadTransition, i)
}

// 12 for the first n transition records.
fn check_transitions(transitions: &[u8], n: usize, state_count: usize) -> Result<(), Refusal>
    requires { 4 * n ≤ length transitions.now }
    ensures { answer result ≡ lowest (transition_record_check state_count transitions.now) n }
{
    first_refused(n, |i| check_transition(transitions, i, state_count))
}

// 13 for the first n initial numbers. The next is to be at least one above the one before.
#[tactic(auto, using(crate::proofs::Rising::initial_turns))]
fn check_initial(initial: &[u8], n: usize, state_count: usize) -> Result<(), Refusal>
    requires { 2 * n ≤ length initial.now }
    ensures { answer result ≡ lowest (initial_check state_count initial.now) n }
{
    let mut least = 0;
    for i in 0..n {
        let number = number_at(initial, 2 * i);
        let fits = number < state_count && least <= number;
        require(fits, Reason::BadInitial, i)?;
        least = number + 1;
    }
    Ok(())
}

// 11 to 13 of three tables.
#[tactic(auto, unfolding(crate::specs::Reader::records_check, crate::specs::Reader::rests_check))]
fn check_records(
    states: &[u8],
    transitions: &[u8],
    initial: &[u8],
    counts: Counts,
) -> Result<(), Refusal>
    requires { HasRecords counts states.now transitions.now initial.now }
    ensures { answer result
        ≡ records_check counts states.now transitions.now initial.now }
{
    check_states(states, counts)?;
    check_rests(states, transitions, counts.states)?;
    check_transitions(transitions, counts.transitions, counts.states)?;
    check_initial(initial, counts.initial, counts.states)
}

// The numbers at byte `at` of the three entries against 10.
fn entries_have(image: &[u8], at: usize, first: usize, second: usize, third: usize) -> bool
    requires { (contents_bytes ≤ length image.now) × (at + 2 ≤ entry_bytes) }
    ensures { result ≡ entries_have image.now at first second third }
{
    number_at(image, at) == first
        && number_at(image, TRANSITIONS_ENTRY + at) == second
        && number_at(image, INITIAL_ENTRY + at) == third
}

// The counts of an image, unless 10 refuses it.
#[tactic(auto, unfolding(crate::specs::Reader::contents_check))]
fn check_contents(image: &[u8]) -> Result<Counts, Refusal>
    ensures { answer result
        ≡ and_then (contents_check image.now) (λ _. accepted (counts_at image.now)) }
{
    let known = CONTENTS_BYTES <= image.len() && entries_have(image, KIND_AT, 1, 2, 3);
    require(known, Reason::BadContents, 0)?;
    let counts = Counts {
        states: number_at(image, STATE_COUNT_AT),
        transitions: number_at(image, TRANSITION_COUNT_AT),
        initial: number_at(image, INITIAL_COUNT_AT),
    };
    require(counts_fit(counts), Reason::BadContents, 0)?;
    let second = transitions_at(counts);
    let third = initial_at(counts);
    let fits = entries_have(image, OFFSET_AT, CONTENTS_BYTES, second, third)
        && image.len() == image_length(counts);
    require(fits, Reason::BadContents, 0)?;
    Ok(counts)
}

// 11 to 13 of an image that has its contents and its length.
fn check_bodies(image: &[u8], counts: Counts) -> Result<(), Refusal>
    requires { Sized counts image.now }
    ensures { answer result ≡ bodies_check counts image.now }
{
    check_records(
        &image[CONTENTS_BYTES..],
        &image[transitions_at(counts)..],
        &image[initial_at(counts)..],
        counts,
    )
}

// 10 to 13 of any bytes; on acceptance the counts.
#[tactic(auto, using(crate::proofs::Contents::decides))]
pub fn check(image: &[u8]) -> Result<Counts, Refusal>
    ensures { answer result ≡ checks image.now }
{
    let counts = check_contents(image)?;
    check_bodies(image, counts)?;
    Ok(counts)
}

// A body of an image in a table, and zero behind it.
fn load(table: &mut [u8], body: &[u8])
    requires { length body.now ≤ length table.old }
    ensures { table.new ≡ filled table.old body.now }
{
    copy(table, body);
    zero_behind(table, body.len());
}

impl<'a> Image<'a> {
    // The image that any bytes are, unless 10 to 13 refuse them.
    pub fn parse(bytes: &'a [u8]) -> Result<Image<'a>, Refusal>
        ensures bytes { IfOk result (λ i. i.bytes.now ≡ bytes.now) }
        ensures checked { parsed result ≡ checks bytes.now }
    {
        let counts = check(bytes)?;
        Ok(Image { bytes, counts })
    }

    // The same of bytes whose records are known to be there.
    pub fn new(bytes: &'a [u8]) -> Image<'a>
        requires { Readable bytes.now }
        ensures { result.bytes.now ≡ bytes.now }
    {
        let counts = Counts {
            states: number_at(bytes, STATE_COUNT_AT),
            transitions: number_at(bytes, TRANSITION_COUNT_AT),
            initial: number_at(bytes, INITIAL_COUNT_AT),
        };
        Image { bytes, counts }
    }
}

// The bodies of an image in three tables.
fn load_bodies(image: &Image<'_>, states: &mut [u8], transitions: &mut [u8], initial: &mut [u8])
    requires { Sized image.now.counts image.now.bytes.now × TablesRoom states.old transitions.old initial.old }
    ensures { Loads image.now.bytes.now image.now.counts
        states.old transitions.old initial.old
        states.new transitions.new initial.new }
{
    let transitions_begin = transitions_at(image.counts);
    let initial_begin = initial_at(image.counts);
    load(states, &image.bytes[CONTENTS_BYTES..transitions_begin]);
    load(transitions, &image.bytes[transitions_begin..initial_begin]);
    load(initial, &image.bytes[initial_begin..]);
}

// 25, then 10 to 13; the whole image is looked at before anything is stored.
#[tactic(auto, unfolding(automaton::specs::Tables::table_check, crate::specs::Calls::read_into))]
pub fn read(
    image: &[u8],
    states: &mut [u8],
    transitions: &mut [u8],
    initial: &mut [u8],
) -> Result<Counts, Refusal>
    ensures { outcome (answer result) states.new transitions.new initial.new
        ≡ read_into image.now states.old transitions.old initial.old }
{
    let room = tables_fit(states.len(), transitions.len(), initial.len());
    require(room, Reason::TableTooShort, 0)?;
    let image = Image::parse(image)?;
    load_bodies(&image, states, transitions, initial);
    Ok(image.counts)
}

// An entry of the table of contents in six bytes from byte `at` on.
#[tactic(auto, using(crate::proofs::Stores::entry_stored))]
fn write_entry(image: &mut [u8], at: usize, kind: usize, count: usize, offset: usize)
    requires { (at + entry_bytes ≤ length image.old) × (kind < 65536) × (count < 65536) × (offset < 65536) }
    ensures { image.new ≡ sets image.old at (entry kind count offset) }
{
    put_number(image, at, kind);
    put_number(image, at + 2, count);
    put_number(image, at + 4, offset);
}

// All of source from byte `at` of an image on.
fn put(image: &mut [u8], at: usize, source: &[u8])
    requires { at + length source.now ≤ length image.old }
    ensures { image.new ≡ sets image.old at source.now }
{
    copy(&mut image[at..], source);
}

// The contents, then each body at its offset; the image's length.
fn write_image(
    states: &[u8],
    transitions: &[u8],
    initial: &[u8],
    counts: Counts,
    image: &mut [u8],
) -> usize
    requires { Small counts × TablesRoom states.now transitions.now initial.now
        × (largest_image ≤ length image.old) }
    ensures { buffer (accepted result) image.new
        ≡ joined_over counts states.now transitions.now initial.now
        image.old }
{
    let transitions_begin = transitions_at(counts);
    let initial_begin = initial_at(counts);
    write_entry(image, 0, 1, counts.states, CONTENTS_BYTES);
    write_entry(
        image,
        TRANSITIONS_ENTRY,
        2,
        counts.transitions,
        transitions_begin,
    );
    write_entry(image, INITIAL_ENTRY, 3, counts.initial, initial_begin);
    put(image, CONTENTS_BYTES, &states[..4 * counts.states]);
    put(
        image,
        transitions_begin,
        &transitions[..4 * counts.transitions],
    );
    put(image, initial_begin, &initial[..2 * counts.initial]);
    image_length(counts)
}

// 25, then 10 to 13 of the tables; on acceptance the image's length.
#[tactic(auto, unfolding(automaton::specs::Tables::table_check, crate::specs::Calls::writes, crate::specs::Reader::read_tables))]
pub fn write(
    states: &[u8],
    transitions: &[u8],
    initial: &[u8],
    counts: Counts,
    image: &mut [u8],
) -> Result<usize, Refusal>
    ensures { buffer (answer result) image.new
        ≡ writes counts states.now transitions.now initial.now image.old }
{
    let room = tables_fit(states.len(), transitions.len(), initial.len());
    require(room, Reason::TableTooShort, 0)?;
    require(IMAGE_BYTES <= image.len(), Reason::TableTooShort, 0)?;
    require(counts_fit(counts), Reason::BadContents, 0)?;
    check_records(states, transitions, initial, counts)?;
    Ok(write_image(states, transitions, initial, counts, image))
}
