// The second walk, which makes the automaton of a rule, and the call translate: the automaton as records in three
// tables that the caller lends.
#![tactic(auto)]

ghost use Rattle.std.specs.Prelude.{◌≡◌, [], ◌∷◌, ◌++◌, map, ℕ, List, ◌+◌, ◌-◌, ◌*◌, ◌/◌, ◌%◌, ◌^◌, ◌<◌, ◌≤◌};
ghost use Rattle.std.specs.Prelude.{length, take, eqb};
ghost use Rattle.std.proofs.lemmas.List.Edits.{sets};
ghost use Rattle.answer.specs.Result.{fine};
ghost use Rattle.answer.specs.Bytes.{two_bytes, filled};
ghost use Rattle.formula.specs.Limits.{max_untils};
ghost use Rattle.term.specs.Limits.{max_terms};
ghost use Rattle.term.specs.Size.{sizes_checked};
ghost use Rattle.term.specs.Memory.{TableRoom};
ghost use Rattle.generalized.specs.Explore.{find};
ghost use Rattle.generalized.specs.Memory.{kept_must, kept_must_not};
ghost use Rattle.automaton.specs.Limits.{max_states, transitions_bytes, initial_bytes};
ghost use Rattle.automaton.specs.Records.{records, numbered_records, state_bytes, transition_bytes};
ghost use Rattle.automaton.specs.Tables.{TablesRoom};
ghost use Rattle.translation.specs.Degeneralized.{numbers, translation};
ghost use Rattle.translation.specs.Memory.{FirstWalk, row, level_places, code_of, code_places, climb_n};
ghost use Rattle.translation.specs.Memory.{next_level_n, target_n, stays_n, rests_n, pair_bytes, PairRows, Leads};
ghost use Rattle.translation.specs.Memory.{PairsNumbered, MeetsPair, MeetsRow, WalksPairs};
ghost use Rattle.translation.specs.Memory.{Fills, FillsAll, Builds};
ghost use Rattle.translation.specs.Conflicts.{told_with, translates};

use answer::{Reason, Refusal, put_number, require, zero, zero_behind};
use automaton::{Counts, MAX_STATES, tables_fit};
use formula::{MAX_BYTES, Rule};
use generalized::GeneralizedNumber;
use std::marker::Model;

// A state has this many places for its levels, 0 to 8.
const LEVEL_PLACES: usize = 16;

// A place for each state of the first walk at each level.
const CODE_PLACES: usize = generalized::MAX_STATES * LEVEL_PLACES;

// A rule of at most this many nodes has its terms in a small table.
const FEW_NODES: usize = 8;

// A state's number in the automaton; the first walk's states have numbers of another type.
#[derive(Clone, Copy)]
pub struct StateNumber(pub usize);

// What translating comes to: the automaton's counts, and the propositions for which some join was dropped, a bit each.
#[derive(Clone, Copy, Debug, PartialEq, Eq)]
pub struct Translated {
    pub counts: Counts,
    pub conflicts: u8,
}

// The pairs of the second walk by number: a pair's code at its number, and for each code one more than its pair's
// number, or 0 where the pair has none.
#[derive(Drop)]
struct Pairs {
    codes: [usize; MAX_STATES],
    index: [u8; CODE_PLACES],
    count: usize,
}

// Contracts see the codes of the pairs that are numbered, in the order of their numbers.
impl Model for Pairs {
    ghost Value = { List ℕ };

    ghost view = { λ p. take p.count p.codes };

    ghost invariant = { λ p. PairsNumbered p.codes p.index p.count };
}

impl Pairs {
    fn new() -> Self
        ensures { result ≡ [] }
    {
        Self {
            codes: [0; MAX_STATES],
            index: [0; CODE_PLACES],
            count: 0,
        }
    }

    fn codes(&self) -> &[usize]
        ensures codes { result.now ≡ self.now }
        ensures few { length self.now ≤ max_states }
    {
        &self.codes[..self.count]
    }

    // A pair that has no number takes the next.
    fn add(&mut self, code: usize) -> StateNumber
        requires { (length self.old < max_states) × (code < code_places)
            × (length self.old ≤ find eqb code self.old) }
        ensures number { result.0 ≡ length self.old }
        ensures codes { self.new ≡ self.old ++ (code ∷ []) }
    {
        let number = self.count;
        self.codes[number] = code;
        self.count = number + 1;
        self.index[code] = self.count as u8;
        StateNumber(number)
    }

    // A pair met: one that has no number takes the next, if there is one.
    fn meet(&mut self, code: usize) -> Option<StateNumber>
        requires { code < code_places }
        ensures { (place : ℕ) → MeetsPair place code self.old result self.new }
    {
        let known = self.index[code];
        if known != 0 {
            return Some(StateNumber(usize::from(known) - 1));
        }
        if MAX_STATES <= self.count {
            return None;
        }
        Some(self.add(code))
    }
}

// The first walk's transitions as the second reads them: those of all states one after another, and where each state's
// end; with the last level, which is how many untils the rule has.
#[derive(Clone, Copy)]
struct Rows<'a> {
    transitions: &'a [u32],
    ends: &'a [usize],
    last: usize,
}

impl<'a> Rows<'a> {
    // The transitions of the pair that has a code: those of its state.
    fn of(&self, code: usize) -> &'a [u32]
        requires { PairRows self.now.ends.now self.now.transitions.now self.now.last (code ∷ []) }
        ensures { result.now ≡ row self.now.ends.now self.now.transitions.now (code / level_places) }
    {
        let state = state_of(code).0;
        let start = if state == 0 { 0 } else { self.ends[state - 1] };
        &self.transitions[start..self.ends[state]]
    }
}

// The level reached from one on: one more for each until that is fulfilled, up to the first that is not.
fn climb(fulfilled: u64, last: usize, from: usize) -> usize
    requires { (from ≤ last) × (last ≤ max_untils) }
    ensures { result ≡ climb_n fulfilled (last - from) from }
{
    (from..last)
        .find(|j| !sets::has(fulfilled, *j))
        .unwrap_or(last)
}

// The level after a transition that fulfils these untils; from the last level it is counted from 0.
#[tactic(auto, unfolding(crate::specs::Memory::next_level_n))]
fn next_level(fulfilled: u64, last: usize, level: usize) -> usize
    requires { last ≤ max_untils }
    ensures { result ≡ next_level_n fulfilled last level }
{
    if level < last {
        climb(fulfilled, last, level)
    } else {
        climb(fulfilled, last, 0)
    }
}

// A pair as one number.
fn code_of(state: GeneralizedNumber, level: usize) -> usize
    requires { code_of state.0 level < 2 ^ 64 }
    ensures { result ≡ code_of state.0 level }
{
    state.0 * LEVEL_PLACES + level
}

fn state_of(code: usize) -> GeneralizedNumber
    ensures { result.0 ≡ code / level_places }
{
    GeneralizedNumber(code / LEVEL_PLACES)
}

fn level_of(code: usize) -> usize
    ensures { result ≡ code % level_places }
{
    code % LEVEL_PLACES
}

// The code of the pair to which a transition leads from a level.
#[tactic(auto, using(crate::proofs::Levels::target_fits))]
fn target(transition: u32, last: usize, level: usize) -> usize
    requires { last ≤ max_untils }
    ensures { result ≡ target_n last level transition }
{
    code_of(
        generalized::target_of(transition),
        next_level(generalized::fulfilled_by(transition), last, level),
    )
}

// Whether a transition is free and leads from the pair that has a code back to it.
fn stays(transition: u32, last: usize, code: usize) -> bool
    requires { last ≤ max_untils }
    ensures { result ≡ stays_n last code transition }
{
    generalized::must_of(transition) == 0
        && generalized::must_not_of(transition) == 0
        && target(transition, last, level_of(code)) == code
}

// Whether the pair that has a code is at rest, where the row has its transitions (R-5).
fn rests(row: &[u32], last: usize, code: usize) -> bool
    requires { last ≤ max_untils }
    ensures { result ≡ rests_n last code row.now }
{
    level_of(code) == last && row.iter().any(|x| stays(*x, last, code))
}

// The initial pairs: the first n states at level 0.
fn start_pairs(pairs: &mut Pairs, n: usize)
    requires { (pairs.old ≡ []) × (n ≤ max_terms) }
    ensures { pairs.new ≡ map (λ i. code_of i 0) (numbers n) }
{
    for i in 0..n {
        pairs.add(code_of(GeneralizedNumber(i), 0));
    }
}

// A row of transitions walked from a level: their targets met one after another, and their records put behind those
// that are written. How many are written then, or the refusal at the pair that is walked.
fn meet_row(
    row: &[u32],
    level: usize,
    last: usize,
    walked: StateNumber,
    pairs: &mut Pairs,
    table: &mut [u8],
    written: usize,
) -> Result<usize, Refusal>
    requires { (last ≤ max_untils) × Leads row.now
        × ((written + length row.now) * 4 ≤ length table.old) }
    ensures { MeetsRow row.now level last walked.0 written pairs.old table.old result pairs.new table.new }
{
    for (i, x) in row.iter().enumerate() {
        let Some(number) = pairs.meet(target(*x, last, level)) else {
            return Err(Refusal {
                reason: Reason::TooManyPairs,
                place: walked.0,
            });
        };
        put_transition(table, written + i, *x, number);
    }
    Ok(written + row.len())
}

// The second walk: all pairs that can be reached from those that are numbered, with the records of their transitions in
// the table. How many records there are, or the refusal at the pair whose walk meets a pair too many.
fn explore_pairs(rows: &Rows<'_>, pairs: &mut Pairs, table: &mut [u8]) -> Result<usize, Refusal>
    requires { PairRows rows.now.ends.now rows.now.transitions.now rows.now.last pairs.old
        × (transitions_bytes ≤ length table.old) }
    ensures { WalksPairs rows.now.ends.now rows.now.transitions.now rows.now.last pairs.old table.old
        result pairs.new table.new }
{
    let mut written = 0;
    let mut pair = 0;
    while let Some(&code) = pairs.codes().get(pair) {
        let row = rows.of(code);
        let level = level_of(code);
        written = meet_row(
            row,
            level,
            rows.last,
            StateNumber(pair),
            pairs,
            table,
            written,
        )?;
        pair += 1;
    }
    Ok(written)
}

// The record of a state: how many transitions it has, whether it accepts, and whether it is at rest.
#[tactic(auto, using(crate::proofs::Filling::state_stores))]
fn put_state(table: &mut [u8], state: StateNumber, count: usize, accepting: bool, rests: bool)
    requires { (state.0 * 4 + 4 ≤ length table.old) × (count < 65536) }
    ensures { table.new ≡ sets table.old (state.0 * 4) (state_bytes count accepting rests) }
{
    let at = state.0 * 4;
    put_number(table, at, count);
    table[at + 2] = u8::from(accepting);
    table[at + 3] = u8::from(rests);
}

// The record of transition number k, a transition of the first walk with its target among the pairs.
fn put_transition(table: &mut [u8], k: usize, transition: u32, target: StateNumber)
    requires { (k * 4 + 4 ≤ length table.old) × (target.0 < 65536) }
    ensures { table.new
        ≡ sets table.old (k * 4)
        (transition_bytes (kept_must transition) (kept_must_not transition) target.0) }
{
    let at = k * 4;
    table[at] = generalized::must_of(transition);
    table[at + 1] = generalized::must_not_of(transition);
    put_number(table, at + 2, target.0);
}

// The record of the pair that has a number and a code, as a state of the automaton.
fn write_state(table: &mut [u8], rows: &Rows<'_>, pair: StateNumber, code: usize)
    requires { PairRows rows.now.ends.now rows.now.transitions.now rows.now.last (code ∷ [])
        × (pair.0 * 4 + 4 ≤ length table.old) }
    ensures { table.new
        ≡ sets table.old (pair.0 * 4)
        (pair_bytes rows.now.ends.now rows.now.transitions.now rows.now.last pair.0 code) }
{
    let row = rows.of(code);
    let at_rest = rests(row, rows.last, code);
    put_state(table, pair, row.len(), level_of(code) == rows.last, at_rest);
}

// The records of all pairs.
fn write_states(table: &mut [u8], rows: &Rows<'_>, codes: &[usize])
    requires { PairRows rows.now.ends.now rows.now.transitions.now rows.now.last codes.now
        × (length codes.now * 4 ≤ length table.old) }
    ensures { table.new
        ≡ filled table.old
        (numbered_records (pair_bytes rows.now.ends.now rows.now.transitions.now rows.now.last) 0 codes.now) }
{
    for (number, code) in codes.iter().enumerate() {
        write_state(table, rows, StateNumber(number), *code);
    }
    zero_behind(table, codes.len() * 4);
}

// The numbers of the n initial states.
fn write_initial(table: &mut [u8], n: usize)
    requires { (n ≤ max_terms) × (initial_bytes ≤ length table.old) }
    ensures { table.new ≡ filled table.old (records two_bytes (numbers n)) }
{
    for i in 0..n {
        put_number(table, i * 2, i);
    }
    zero_behind(table, n * 2);
}

// The second walk over the first walk's transitions, of which each state's end where ends says, and the automaton in
// the three tables; the first walk has `first` initial states. A refusal leaves the tables' bytes open.
fn degeneralize(
    rule: &Rule<'_>,
    first: usize,
    kept: &[u32],
    ends: &[usize],
    states: &mut [u8],
    transitions: &mut [u8],
    initial: &mut [u8],
) -> Result<Counts, Refusal>
    requires { (sizes_checked rule.now.bytes.now ≡ fine) × FirstWalk rule.now.bytes.now first kept.now ends.now
        × TablesRoom states.old transitions.old initial.old }
    ensures { Fills (translation rule.now.bytes.now) result
        states.old transitions.old initial.old
        states.new transitions.new initial.new }
{
    let rows = Rows {
        transitions: kept,
        ends,
        last: acceptance::untils_of(rule).count,
    };
    let mut pairs = Pairs::new();
    start_pairs(&mut pairs, first);
    let written = explore_pairs(&rows, &mut pairs, transitions)?;
    let codes = pairs.codes();
    write_states(states, &rows, codes);
    zero_behind(transitions, written * 4);
    write_initial(initial, first);
    let counts = Counts {
        states: codes.len(),
        transitions: written,
        initial: first,
    };
    Ok(counts)
}

// The terms of a rule in a table, then both walks, and the automaton in the three tables. A refusal leaves the tables'
// bytes open.
fn fill(
    rule: &Rule<'_>,
    table: &mut [u64],
    states: &mut [u8],
    transitions: &mut [u8],
    initial: &mut [u8],
) -> Result<Translated, Refusal>
    requires { TableRoom rule.now.bytes.now table.old × TablesRoom states.old transitions.old initial.old }
    ensures { FillsAll rule.now.bytes.now result
        states.old transitions.old initial.old
        states.new transitions.new initial.new }
{
    let of_nodes = term::tabulate(rule, table)?;
    let mut found = [0u64; generalized::MAX_STATES];
    let mut kept = [0u32; generalized::MAX_TRANSITIONS];
    let mut ends = [0usize; generalized::MAX_STATES];
    let walked = generalized::walk(rule, table, &mut found, &mut kept, &mut ends)?;
    let first = walked.initial;
    let counts = degeneralize(rule, first, &kept, &ends, states, transitions, initial)?;
    Ok(Translated {
        counts,
        conflicts: of_nodes | walked.conflicts,
    })
}

// The same, but a refusal, which is one of 20 to 24, leaves all tables zero.
fn build(
    rule: &Rule<'_>,
    table: &mut [u64],
    states: &mut [u8],
    transitions: &mut [u8],
    initial: &mut [u8],
) -> Result<Translated, Refusal>
    requires { TableRoom rule.now.bytes.now table.old × TablesRoom states.old transitions.old initial.old }
    ensures { Builds rule.now.bytes.now result
        states.old transitions.old initial.old
        states.new transitions.new initial.new }
{
    let built = fill(rule, table, states, transitions, initial);
    if built.is_err() {
        zero(states);
        zero(transitions);
        zero(initial);
    }
    built
}

// The same with a table of our own for the terms, a smaller one for a rule of few nodes: less to set to zero. This is
// `translate` for a first-edition rule that has been checked, and tables that fit.
pub fn build_tabled(
    rule: &Rule<'_>,
    states: &mut [u8],
    transitions: &mut [u8],
    initial: &mut [u8],
) -> Result<Translated, Refusal>
    requires { TablesRoom states.old transitions.old initial.old }
    ensures { Builds rule.now.bytes.now result
        states.old transitions.old initial.old
        states.new transitions.new initial.new }
{
    if rule.count() <= FEW_NODES {
        let mut few = [0u64; FEW_NODES * term::ROW_PLACES];
        return build(rule, &mut few, states, transitions, initial);
    }
    let mut table = [0u64; term::TABLE_PLACES];
    build(rule, &mut table, states, transitions, initial)
}

// The automaton of a written rule in three tables: that of its normal form. Its counts and conflicts, or a refusal.
pub fn translate(
    rule: &[u8],
    states: &mut [u8],
    transitions: &mut [u8],
    initial: &mut [u8],
) -> Result<Translated, Refusal>
    ensures { told_with result states.new transitions.new initial.new
        ≡ translates rule.now states.old transitions.old initial.old }
{
    let fit = tables_fit(states.len(), transitions.len(), initial.len());
    require(fit, Reason::TableTooShort, 0)?;
    let mut form = [0u8; MAX_BYTES];
    let n = normalform::check_form(rule, &mut form)?;
    build_tabled(&Rule::new(&form[..n]), states, transitions, initial)
}
