// Which clause of a rule a lasso breaks, and where.
#![tactic(auto)]

ghost use Rattle.std.specs.Prelude.{◌≡◌, ◌+◌, ◌*◌, ◌<◌, ◌≤◌, length, take, drop};
ghost use Rattle.answer.specs.Result.{answer, accepted, fine};
ghost use Rattle.formula.specs.Limits.{max_nodes};
ghost use Rattle.formula.specs.Rule.{node_count};
ghost use Rattle.lasso.specs.Lasso.{remaining, max_letters, lasso_check};
ghost use Rattle.evaluate.specs.Memory.{Filled, Room};
ghost use Rattle.explain.specs.Explain.{clauses_of, first_failing, first_from, break_at, part_from};
ghost use Rattle.explain.specs.Explain.{explanation};
ghost use Rattle.explain.specs.Call.{as_lent, explained, broken_part};
ghost use Rattle.explain.specs.Satisfied.{is_kept, satisfied};
ghost use Rattle.explain.specs.Memory.{first, exposed_at, both_fail_at};

use answer::Refusal;
use evaluate::{FLAGS, STRIDE, fill};
use formula::{Kind, MAX_BYTES, Rule};
use lasso::{Lasso, MAX_LETTERS, keep_remaining};
use normalform::check_form;
use place::place_of;

// Up to so many nodes a rule is explained with a smaller table.
const FEW_NODES: usize = 8;

// What is told of a lasso: it keeps the rule; it breaks a clause, which is shown from an index of the stem, or behind
// the stem's last of the cycle, on; or it breaks a clause whose right side never comes.
#[derive(Clone, Copy, Debug, PartialEq, Eq)]
pub enum Explanation {
    Kept,
    Broken(usize, usize),
    NeverComes(usize),
}

impl Explanation {
    // Whether the rule is kept.
    fn is_kept(self) -> bool
        ensures { result ≡ is_kept self }
    {
        matches!(self, Explanation::Kept)
    }
}

// The first clause of node n that does not hold at position 0.
fn first_broken(rule: &Rule<'_>, table: &[bool], n: usize) -> Option<usize>
    requires { (n < node_count rule.now.bytes.now)
        × (node_count rule.now.bytes.now * max_letters ≤ length table.now) }
    ensures { result ≡ first_failing (first table.now) (clauses_of rule.now.bytes.now n) }
{
    if rule.kind(n) != Kind::And {
        return (!table[n * STRIDE]).then_some(n);
    }
    let left = rule.left(n);
    let right = rule.right(n);
    match first_broken(rule, table, left) {
        None => first_broken(rule, table, right),
        found => found,
    }
}

// The flags of node n at the positions, so many of them.
fn row(table: &[bool], n: usize, total: usize) -> &[bool]
    requires { (n < max_nodes) × (n * max_letters + total ≤ length table.now) }
    ensures { result.now ≡ take total (drop (n * max_letters) table.now) }
{
    &table[n * STRIDE..][..total]
}

// The first position without the right side of which no position before it has the left side.
fn release_break(left: &[bool], right: &[bool]) -> Option<usize>
    requires { length left.now ≡ length right.now }
    ensures { result ≡ first_from (exposed_at left.now right.now) 0 (length right.now) }
{
    let mut held = false;
    for (i, here) in right.iter().enumerate() {
        if !*here && !held {
            return Some(i);
        }
        held |= left[i];
    }
    None
}

// The first position where neither side holds.
fn until_break(left: &[bool], right: &[bool]) -> Option<usize>
    requires { length left.now ≡ length right.now }
    ensures { result ≡ first_from (both_fail_at left.now right.now) 0 (length right.now) }
{
    left.iter()
        .zip(right)
        .position(|(left, right)| !*left && !*right)
}

// Where clause c is broken; nowhere if its right side never comes.
fn break_at(rule: &Rule<'_>, lasso: &Lasso<'_>, table: &[bool], c: usize) -> Option<usize>
    requires { (c < node_count rule.now.bytes.now)
        × Room rule.now.bytes.now lasso.now.stem.now lasso.now.cycle.now table.now
        × Filled rule.now.bytes.now lasso.now.stem.now lasso.now.cycle.now table.now (node_count rule.now.bytes.now) }
    ensures { result ≡ break_at rule.now.bytes.now lasso.now.stem.now lasso.now.cycle.now c }
{
    let total = lasso.stem.len() + lasso.cycle.len();
    let left = rule.left(c);
    let right = rule.right(c);
    match rule.kind(c) {
        Kind::Until => until_break(row(table, left, total), row(table, right, total)),
        Kind::Release => release_break(row(table, left, total), row(table, right, total)),
        _ => Some(0),
    }
}

// The first clause that is broken, and where, of a lasso whose letters all remain, by a table that is filled first.
fn explain_by(rule: &Rule<'_>, lasso: &Lasso<'_>, table: &mut [bool]) -> Explanation
    requires { Room rule.now.bytes.now lasso.now.stem.now lasso.now.cycle.now table.old }
    ensures { result ≡ explanation rule.now.bytes.now lasso.now.stem.now lasso.now.cycle.now }
{
    fill(rule, lasso, table);
    match first_broken(rule, table, rule.count() - 1) {
        None => Explanation::Kept,
        Some(c) => match break_at(rule, lasso, table, c) {
            Some(i) => Explanation::Broken(c, i),
            None => Explanation::NeverComes(c),
        },
    }
}

// The same with a table of its own, a smaller one for a rule of few nodes, so that less is set to false.
fn explain_letters(rule: &Rule<'_>, lasso: &Lasso<'_>) -> Explanation
    requires { (0 < length lasso.now.cycle.now)
        × (length lasso.now.stem.now + length lasso.now.cycle.now ≤ max_letters) }
    ensures { result ≡ explanation rule.now.bytes.now lasso.now.stem.now lasso.now.cycle.now }
{
    if rule.count() <= FEW_NODES {
        explain_by(rule, lasso, &mut [false; FEW_NODES * STRIDE])
    } else {
        explain_by(rule, lasso, &mut [false; FLAGS])
    }
}

// What was found at a position among the letters that remain, s of them in the stem, at its index as lent.
fn as_lent(found: Explanation, lasso: &Lasso<'_>, s: usize) -> Explanation
    requires { (s ≡ length (remaining lasso.now.stem.now))
        × (length lasso.now.stem.now + length lasso.now.cycle.now ≤ max_letters) }
    ensures { result ≡ as_lent lasso.now.stem.now lasso.now.cycle.now found }
{
    match found {
        Explanation::Broken(c, i) => Explanation::Broken(c, place_of(lasso, s, i)),
        Explanation::Kept | Explanation::NeverComes(_) => found,
    }
}

// What is told of the letters that remain, where 8, 9 and 28 refuse nothing.
fn explain_remaining(rule: &Rule<'_>, lasso: &Lasso<'_>) -> Explanation
    requires { lasso_check lasso.now.stem.now lasso.now.cycle.now ≡ fine }
    ensures { accepted result ≡ explained rule.now.bytes.now lasso.now.stem.now lasso.now.cycle.now }
{
    if lasso.none_skipped() {
        return as_lent(explain_letters(rule, lasso), lasso, lasso.stem.len());
    }
    let mut stem = [0u8; MAX_LETTERS];
    let mut cycle = [0u8; MAX_LETTERS];
    let s = keep_remaining(lasso.stem, &mut stem);
    let n = keep_remaining(lasso.cycle, &mut cycle);
    let kept = Lasso {
        stem: &stem[..s],
        cycle: &cycle[..n],
    };
    as_lent(explain_letters(rule, &kept), lasso, s)
}

// What is told of a lasso, 8, 9 and 28 among it.
fn explain_lasso(rule: &Rule<'_>, lasso: &Lasso<'_>) -> Result<Explanation, Refusal>
    ensures { answer result ≡ explained rule.now.bytes.now lasso.now.stem.now lasso.now.cycle.now }
{
    lasso.check()?;
    Ok(explain_remaining(rule, lasso))
}

// The first clause that is broken, and from which index of the lasso as lent it is shown.
pub fn explain(rule: &[u8], lasso: &Lasso<'_>) -> Result<Explanation, Refusal>
    ensures { answer result ≡ explained rule.now lasso.now.stem.now lasso.now.cycle.now }
{
    explain_lasso(&Rule::parse(rule)?, lasso)
}

// The letters from an index on, to the end of the stem or of the cycle.
pub fn part_from<'a>(stem: &'a [u8], cycle: &'a [u8], from: usize) -> &'a [u8]
    ensures { result.now ≡ part_from stem.now cycle.now from }
{
    if from < stem.len() {
        &stem[from..]
    } else {
        &cycle[(from - stem.len()).min(cycle.len())..]
    }
}

// The part of the stem or of the cycle that shows the grower where the rule is broken.
#[tactic(auto, unfolding(crate::specs::Call::broken_part))]
pub fn broken_part<'a>(rule: &[u8], stem: &'a [u8], cycle: &'a [u8]) -> &'a [u8]
    ensures { result.now ≡ broken_part rule.now stem.now cycle.now }
{
    match explain(rule, &Lasso { stem, cycle }) {
        Ok(Explanation::Broken(_, from)) => part_from(stem, cycle, from),
        _ => &[],
    }
}

// Whether a lasso satisfies a written rule, also one that translating refuses by 20 to 24.
pub fn satisfies(rule: &[u8], lasso: &Lasso<'_>) -> Result<bool, Refusal>
    ensures { answer result ≡ satisfied rule.now lasso.now.stem.now lasso.now.cycle.now }
{
    let mut form = [0u8; MAX_BYTES];
    let n = check_form(rule, &mut form)?;
    Ok(explain_lasso(&Rule::new(&form[..n]), lasso)?.is_kept())
}
