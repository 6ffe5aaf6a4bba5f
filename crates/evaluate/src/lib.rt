// Where each node of a rule holds on a lasso: a row of flags for each node, from the flags of its children.
#![tactic(auto)]

ghost use Rattle.std.specs.Prelude.{◌≡◌, ◌+◌, ◌-◌, ◌*◌, ◌<◌, ◌≤◌, false, length, get_or};
ghost use Rattle.formula.specs.Limits.{propositions};
ghost use Rattle.formula.specs.Kind.{kind_number};
ghost use Rattle.formula.specs.Rule.{node_count};
ghost use Rattle.lasso.specs.Lasso.{letter};
ghost use Rattle.evaluate.specs.Truth.{sweep, rounds};
ghost use Rattle.evaluate.specs.Memory.{leaf_here, pair_here, round_here, leaf_step, pair_step, round_step, opening};
ghost use Rattle.evaluate.specs.Memory.{Swept, RowStored, Filled, Room};

use formula::{Kind, Rule};
use lasso::Lasso;

// How far apart rows begin: a lasso has at most this many letters.
pub const STRIDE: usize = lasso::MAX_LETTERS;

// How many flags a table has with a row for each node that a rule may have.
pub const FLAGS: usize = formula::MAX_NODES * STRIDE;

// Where in the table three rows begin: those of a node's children, and behind them the node's own.
#[derive(Clone, Copy)]
struct Starts {
    left: usize,
    right: usize,
    own: usize,
}

// Whether a leaf holds at a letter.
fn leaf_here(kind: Kind, p: usize, x: u8) -> bool
    requires { 1 < kind_number kind → p < propositions }
    ensures { result ≡ leaf_here (kind_number kind) p x }
{
    match kind {
        Kind::False => false,
        Kind::True => true,
        Kind::Proposition => (x >> p) & 1 == 1,
        _ => (x >> p) & 1 == 0,
    }
}

// Whether an and, an or or a next holds at a position.
fn pair_here(kind: Kind, a: bool, b: bool, ahead: bool) -> bool
    ensures { result ≡ pair_here (kind_number kind) a b ahead }
{
    match kind {
        Kind::And => a & b,
        Kind::Or => a | b,
        _ => ahead,
    }
}

// Whether an until, or else a release, holds at a position.
fn round_here(kind: Kind, a: bool, b: bool, next: bool) -> bool
    ensures { result ≡ round_here (kind_number kind) a b next }
{
    match kind {
        Kind::Until => b | (a & next),
        _ => b & (a | next),
    }
}

// What is behind the last position in the first round: an until has not come, a release has not been broken.
fn opening(kind: Kind) -> bool
    ensures { result ≡ opening (kind_number kind) }
{
    kind != Kind::Until
}

// The row of a leaf.
fn fill_leaf(kind: Kind, p: usize, lasso: &Lasso<'_>, table: &mut [bool], at: usize)
    requires { (1 < kind_number kind → p < propositions)
        × (at + (length lasso.now.stem.now + length lasso.now.cycle.now) ≤ length table.old) }
    ensures { Swept (leaf_step (kind_number kind) p lasso.now.stem.now lasso.now.cycle.now) at
        (length lasso.now.stem.now + length lasso.now.cycle.now) false table.old table.new 0 }
{
    // a copy, so that the loop need not look it up in what is lent after each store
    let lasso = *lasso;
    for i in (0..lasso.stem.len() + lasso.cycle.len()).rev() {
        table[at + i] = leaf_here(kind, p, lasso.letter_at(i));
    }
}

// The row of an and, an or or a next, from those of its children.
fn fill_pair(kind: Kind, lasso: &Lasso<'_>, table: &mut [bool], at: Starts)
    requires { (0 < length lasso.now.cycle.now)
        × (at.left + (length lasso.now.stem.now + length lasso.now.cycle.now) ≤ at.own)
        × (at.right + (length lasso.now.stem.now + length lasso.now.cycle.now) ≤ at.own)
        × (at.own + (length lasso.now.stem.now + length lasso.now.cycle.now) ≤ length table.old) }
    ensures { Swept (pair_step (kind_number kind) table.old at.left at.right lasso.now.stem.now lasso.now.cycle.now)
        at.own (length lasso.now.stem.now + length lasso.now.cycle.now) false table.old table.new 0 }
{
    // a copy, as above
    let lasso = *lasso;
    for i in (0..lasso.stem.len() + lasso.cycle.len()).rev() {
        let next = lasso.position_after(i);
        table[at.own + i] = pair_here(
            kind,
            table[at.left + i],
            table[at.right + i],
            table[at.left + next],
        );
    }
}

// One pass backwards over the row of an until or a release down to position `from`; the flag there.
fn sweep_back(
    kind: Kind,
    table: &mut [bool],
    at: Starts,
    from: usize,
    total: usize,
    behind: bool,
) -> bool
    requires { (from < total) × (at.left + total ≤ at.own) × (at.right + total ≤ at.own)
        × (at.own + total ≤ length table.old) }
    ensures { (result
        ≡ get_or (sweep (round_step (kind_number kind) table.old at.left at.right) from (total - from) behind) 0 behind)
        × Swept (round_step (kind_number kind) table.old at.left at.right) at.own total behind
        table.old table.new from }
{
    let mut next = behind;
    for i in (from..total).rev() {
        next = round_here(kind, table[at.left + i], table[at.right + i], next);
        table[at.own + i] = next;
    }
    next
}

// The row of an until or a release: two rounds.
fn fill_round(kind: Kind, lasso: &Lasso<'_>, table: &mut [bool], at: Starts)
    requires { (0 < length lasso.now.cycle.now)
        × (at.left + (length lasso.now.stem.now + length lasso.now.cycle.now) ≤ at.own)
        × (at.right + (length lasso.now.stem.now + length lasso.now.cycle.now) ≤ at.own)
        × (at.own + (length lasso.now.stem.now + length lasso.now.cycle.now) ≤ length table.old) }
    ensures { RowStored at.own (length lasso.now.stem.now + length lasso.now.cycle.now)
        (rounds lasso.now.stem.now lasso.now.cycle.now (round_step (kind_number kind) table.old at.left at.right)
        (opening (kind_number kind)))
        table.old table.new }
{
    let total = lasso.stem.len() + lasso.cycle.len();
    let first = sweep_back(kind, table, at, lasso.stem.len(), total, opening(kind));
    sweep_back(kind, table, at, 0, total, first);
}

// The row of node k, if those of the nodes below it are there.
#[tactic(auto, using(formula::proofs::Accepted::passed_left, formula::proofs::Accepted::passed_right))]
fn fill_node(rule: &Rule<'_>, lasso: &Lasso<'_>, table: &mut [bool], k: usize)
    requires { (k < node_count rule.now.bytes.now)
        × Room rule.now.bytes.now lasso.now.stem.now lasso.now.cycle.now table.old
        × Filled rule.now.bytes.now lasso.now.stem.now lasso.now.cycle.now table.old k }
    ensures { Filled rule.now.bytes.now lasso.now.stem.now lasso.now.cycle.now table.new (k + 1) }
{
    let kind = rule.kind(k);
    let left = rule.left(k);
    let own = k * STRIDE;
    let at = Starts {
        left: left * STRIDE,
        right: rule.right(k) * STRIDE,
        own,
    };
    match kind {
        Kind::False | Kind::True | Kind::Proposition | Kind::NegatedProposition => {
            fill_leaf(kind, left, lasso, table, own);
        }
        Kind::And | Kind::Or | Kind::Next => fill_pair(kind, lasso, table, at),
        // An until or a release: a rule that 1 to 7 let pass has no higher kind.
        _ => fill_round(kind, lasso, table, at),
    }
}

// The rows of all nodes.
pub fn fill(rule: &Rule<'_>, lasso: &Lasso<'_>, table: &mut [bool])
    requires { Room rule.now.bytes.now lasso.now.stem.now lasso.now.cycle.now table.old }
    ensures { Filled rule.now.bytes.now lasso.now.stem.now lasso.now.cycle.now table.new
        (node_count rule.now.bytes.now) }
{
    for k in 0..rule.count() {
        fill_node(rule, lasso, table, k);
    }
}
