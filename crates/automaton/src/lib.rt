// The limits and the counts of an automaton, the sizes of the tables that hold its records, and whether a transition
// reads a letter.
#![tactic(auto)]

ghost use Rattle.std.specs.Prelude.{◌≡◌, ◌&&◌, eqb};
ghost use Rattle.std.specs.Int.Bits.{bit_or, bit_and};
ghost use Rattle.automaton.specs.Tables.{lengths_fit};

// The limits of an automaton (specs/Limits.antt has where they come from): its states, the transitions of one state and
// so of all, its initial states.
pub const MAX_STATES: usize = 96;

pub const MAX_OF_STATE: usize = 128;

pub const MAX_TRANSITIONS: usize = MAX_STATES * MAX_OF_STATE;

pub const MAX_INITIAL: usize = 96;

// What a table for so many has: a state and a transition take 4 bytes each, an initial number 2.
pub const STATES_BYTES: usize = 4 * MAX_STATES;

pub const TRANSITIONS_BYTES: usize = 4 * MAX_TRANSITIONS;

pub const INITIAL_BYTES: usize = 2 * MAX_INITIAL;

// How many states, transitions and initial numbers an automaton has.
#[derive(Clone, Copy, Debug, PartialEq, Eq)]
pub struct Counts {
    pub states: usize,
    pub transitions: usize,
    pub initial: usize,
}

// The lengths of three lent tables against 25.
pub fn tables_fit(states: usize, transitions: usize, initial: usize) -> bool
    ensures { result ≡ lengths_fit states transitions initial }
{
    STATES_BYTES <= states && TRANSITIONS_BYTES <= transitions && INITIAL_BYTES <= initial
}

// Whether a transition with these propositions reads the letter, by one test: those that must hold and do not, joined
// with those that must not and do, are none.
pub fn reads_letter(must: u8, must_not: u8, letter: u8) -> bool
    ensures { result ≡ (eqb (bit_or must letter) letter && eqb (bit_and must_not letter) 0) }
{
    ((must | letter) ^ letter) | (must_not & letter) == 0
}
