// The first walk: the generalized automaton of a rule. Its states are obligation sets, its transitions terms; they
// stand in tables that the caller lends, each transition with the number of its target and the untils that it fulfils.
#![tactic(auto)]

ghost use Rattle.std.specs.Prelude.{◌≡◌, [], ◌≤◌, ◌<◌, length, take, set, eqb};
ghost use Rattle.answer.specs.Result.{fine};
ghost use Rattle.formula.specs.Limits.{max_nodes};
ghost use Rattle.formula.specs.Formula.{formula};
ghost use Rattle.sets.specs.Sets.{insert_product_n, product_conflicts_n};
ghost use Rattle.term.specs.Limits.{max_terms};
ghost use Rattle.term.specs.Term.{cover};
ghost use Rattle.term.specs.Size.{sizes_checked};
ghost use Rattle.term.specs.Memory.{unpack, row_of, TermTable};
ghost use Rattle.generalized.specs.Limits.{max_product, max_generalized_states};
ghost use Rattle.generalized.specs.Explore.{find};
ghost use Rattle.generalized.specs.Memory.{Factor, ProductRoom, Multiplies, StateProduct};
ghost use Rattle.generalized.specs.Memory.{kept_n, kept_target, kept_untils, kept_must, kept_must_not};
ghost use Rattle.generalized.specs.Memory.{OwnNumber, Finds, MeetsState, WalkRoom, MeetsAll};
ghost use Rattle.generalized.specs.Memory.{WalkPlaces, Walks};

use answer::{Reason, Refusal, require};
use formula::Rule;
use sets::Joined;

// The first walk's limits: terms of a partial product, transitions, states.
pub const MAX_PRODUCT: usize = 128;

pub const MAX_TRANSITIONS: usize = 1024;

pub const MAX_STATES: usize = 128;

// A state's number in the first walk; the automaton's states have numbers of another type.
#[derive(Clone, Copy)]
pub struct GeneralizedNumber(pub usize);

// How far a walk is: the states that are numbered and the transitions that are in the table.
#[derive(Clone, Copy)]
struct Extent {
    states: usize,
    transitions: usize,
}

// What a meeting comes to: the number of the one met, and how many are in the list then.
#[derive(Clone, Copy)]
struct Met {
    number: usize,
    count: usize,
}

// What the walk comes to: how many initial states, states and transitions there are, and the propositions for which a
// join on its way was dropped.
#[derive(Clone, Copy, Debug, PartialEq, Eq)]
pub struct Walked {
    pub initial: usize,
    pub states: usize,
    pub transitions: usize,
    pub conflicts: u8,
}

// A transition for the table: the number of its target, the untils that it fulfils, and the letters of t.
fn keep(target: usize, untils: u8, t: u64) -> u32
    requires { target < max_generalized_states }
    ensures { result ≡ kept_n target untils (unpack t).must (unpack t).must_not }
{
    (target as u32 * 256 + u32::from(untils)) * 65536 + (t % 65536) as u32
}

// The parts of a transition in the table: the state that it leads to, the untils that it fulfils, a bit each, and the
// propositions that a letter must have and must not have.
pub fn target_of(x: u32) -> GeneralizedNumber
    ensures { result.0 ≡ kept_target x }
{
    GeneralizedNumber((x / 16777216) as usize)
}

pub fn fulfilled_by(x: u32) -> u64
    ensures { result ≡ kept_untils x }
{
    u64::from(x / 65536 % 256)
}

pub fn must_of(x: u32) -> u8
    ensures { result ≡ kept_must x }
{
    (x / 256 % 256) as u8
}

pub fn must_not_of(x: u32) -> u8
    ensures { result ≡ kept_must_not x }
{
    (x % 256) as u8
}

// The first place of x among items. The place last, where there is one, is looked at first: what stands there stands
// nowhere before.
fn find(items: &[u64], x: u64, last: usize) -> Option<usize>
    requires { OwnNumber last items.now }
    ensures { Finds x items.now result }
{
    if items.get(last) == Some(&x) {
        return Some(last);
    }
    items.iter().position(|item| *item == x)
}

// x in a list, the first n of items, when last was met before it: an unseen one is put behind them, if there is a
// place.
fn meet_state(items: &mut [u64], n: usize, x: u64, last: usize) -> Option<Met>
    requires { (n ≤ length items.old) × OwnNumber last (take n items.old) }
    ensures { MeetsState x n items.old result items.new }
{
    if let Some(number) = find(&items[..n], x, last) {
        return Some(Met { number, count: n });
    }
    if items.len() <= n {
        return None;
    }
    items[n] = x;
    Some(Met {
        number: n,
        count: n + 1,
    })
}

// The first count of product times the terms of node k, which stand in its row of the table; how many there are then,
// and the propositions for which a join was dropped. None where there are more than a product may have.
fn times(
    table: &[u64],
    k: usize,
    product: &mut [u64],
    count: usize,
    next: &mut [u64],
) -> Option<Joined>
    requires { (k < max_nodes) × (count ≤ max_product) × Factor table.now k × ProductRoom product.old next.old }
    ensures { Multiplies result product.new
        (insert_product_n (take count product.old) (row_of table.now k) [])
        (product_conflicts_n (take count product.old) (row_of table.now k)) }
{
    let row = k * term::ROW_PLACES;
    let n = table[row] as usize;
    let terms = &table[row + 1..row + 1 + n];
    // a product with the one term 0 is the other factor, and no join is dropped
    if count == 1 && product[0] == 0 {
        answer::copy(product, terms);
        return Some(Joined {
            count: n,
            conflicts: 0,
        });
    }
    let joined = sets::product(next, 0, &product[..count], terms);
    if MAX_PRODUCT < joined.count {
        return None;
    }
    answer::copy(product, &next[..joined.count]);
    Some(joined)
}

// The terms of a state, which are the product over its obligations: how many there are, and the propositions for which
// a join on the way was dropped. None where a partial product has too many.
fn state_terms(
    rule: &Rule<'_>,
    table: &[u64],
    obligations: u64,
    product: &mut [u64],
    next: &mut [u64],
) -> Option<Joined>
    requires { (sizes_checked rule.now.bytes.now ≡ fine)
        × TermTable rule.now.bytes.now table.now × ProductRoom product.old next.old }
    ensures { StateProduct rule.now.bytes.now obligations result product.new }
{
    product[0] = 0;
    let mut count = 1;
    let mut conflicts = 0;
    for k in 0..rule.count() {
        if sets::has(obligations, k) {
            let joined = times(table, k, product, count, next)?;
            count = joined.count;
            conflicts |= joined.conflicts;
        }
    }
    Some(Joined { count, conflicts })
}

// The transitions of a state, met one after another and put into the table with the untils that the bytes tell. Those
// that owe the same stand side by side, so a target is mostly the last one met.
fn meet_all(
    ts: &[u64],
    bytes: &[u8],
    state: GeneralizedNumber,
    states: &mut [u64],
    transitions: &mut [u32],
    before: Extent,
) -> Result<Extent, Refusal>
    requires { (length bytes.now ≡ length ts.now) × WalkRoom before states.old transitions.old }
    ensures { MeetsAll ts.now bytes.now state.0 before
        states.old transitions.old result states.new transitions.new }
{
    let total = before.transitions;
    let mut seen = before.states;
    let mut last = 0;
    for (i, t) in ts.iter().enumerate() {
        require(
            total + i < MAX_TRANSITIONS,
            Reason::TooManyTransitions,
            state.0,
        )?;
        let met = meet_state(states, seen, t / 65536, last).ok_or(Refusal {
            reason: Reason::TooManyStates,
            place: state.0,
        })?;
        transitions[total + i] = keep(met.number, bytes[i], *t);
        last = met.number;
        seen = met.count;
    }
    Ok(Extent {
        states: seen,
        transitions: total + ts.len(),
    })
}

// The root's cover as the first states; their count.
fn start(rule: &Rule<'_>, states: &mut [u64]) -> usize
    requires { (sizes_checked rule.now.bytes.now ≡ fine) × (length states.old ≡ max_generalized_states) }
    ensures { (take result states.new ≡ cover (formula rule.now.bytes.now)) × (result ≤ max_terms) }
{
    let cover = term::root_cover(rule);
    for (i, set) in cover.as_slice().iter().enumerate() {
        states[i] = set / 65536;
    }
    cover.count
}

// The first walk of a rule that 1 to 7 and 20 let pass, from its table of terms: its states by number, their
// transitions one after another, and where each state's end. Each state's terms are worked out, or 21, then the untils
// that they fulfil; those that another dominates are dropped, and the rest are met.
pub fn walk(
    rule: &Rule<'_>,
    table: &[u64],
    states: &mut [u64],
    transitions: &mut [u32],
    ends: &mut [usize],
) -> Result<Walked, Refusal>
    requires { (sizes_checked rule.now.bytes.now ≡ fine)
        × TermTable rule.now.bytes.now table.now × WalkPlaces states.old transitions.old ends.old }
    ensures { Walks rule.now.bytes.now result states.new transitions.new ends.new }
{
    let untils = acceptance::untils_of(rule);
    let initial = start(rule, states);
    let mut product = [0; MAX_PRODUCT];
    let mut next = [0; MAX_PRODUCT];
    let mut bytes = [0; MAX_PRODUCT];
    let mut size = Extent {
        states: initial,
        transitions: 0,
    };
    let mut conflicts = 0;
    let mut state = GeneralizedNumber(0);
    // there are more states to walk while targets are met
    while state.0 < size.states {
        let at = state.0;
        let terms = state_terms(rule, table, states[at], &mut product, &mut next).ok_or(Refusal {
            reason: Reason::ProductTooLarge,
            place: at,
        })?;
        let many = terms.count;
        acceptance::fulfil(
            rule.bytes,
            table,
            &untils,
            &product[..many],
            &mut bytes[..many],
        );
        let few = domination::drop_dominated(&mut product[..many], &mut bytes[..many]);
        size = meet_all(
            &product[..few],
            &bytes[..few],
            state,
            states,
            transitions,
            size,
        )?;
        ends[at] = size.transitions;
        conflicts |= terms.conflicts;
        state = GeneralizedNumber(at + 1);
    }
    Ok(Walked {
        initial,
        states: size.states,
        transitions: size.transitions,
        conflicts,
    })
}
