// The bytes of a rule: what they must be, refusals 1 to 7 of document 01, and the parts of a node.
#![tactic(auto)]

ghost use Rattle.std.specs.Prelude.{◌≡◌, true, cond, eqb, ℕ, ◌+◌, ◌*◌, ◌<◌, ◌≤◌, length, get_or, OnOk};
ghost use Rattle.answer.specs.Result.{lowest, answer};
ghost use Rattle.formula.specs.Limits.{max_nodes, rule_bytes};
ghost use Rattle.formula.specs.Rule.{node_count, kind_at, left_at, right_at, left_operand, one_child};
ghost use Rattle.formula.specs.Rule.{right_operand};
ghost use Rattle.formula.specs.Rule.{byte_fits, child_fits, node_check, ChildrenBelow, is_child, places, place_check};
ghost use Rattle.formula.specs.Rule.{length_check, syntax_check, untils, until_check, checked};

use answer::{Reason, Refusal, first_refused, require};

mod kind;
mod rule;

pub use kind::{Kind, UnknownKind};
pub use rule::Rule;

// The limits of a rule (specs/Limits.antt has where they come from): its nodes, their bytes, the untils among them; and
// how many propositions there are.
pub const MAX_NODES: usize = 32;

pub const MAX_BYTES: usize = 3 * MAX_NODES;

pub const MAX_UNTILS: usize = 8;

pub const PROPOSITIONS: usize = 7;

// What the left or the right byte of a node is.
#[derive(Clone, Copy, Debug, PartialEq, Eq)]
pub enum Operand {
    Unused,
    Proposition,
    Child,
}

pub fn kind_of(rule: &[u8], n: usize) -> u8
    requires { n < node_count rule.now }
    ensures { result ≡ kind_at rule.now n }
{
    rule[n * 3]
}

pub fn left_of(rule: &[u8], n: usize) -> usize
    requires { n < node_count rule.now }
    ensures { result ≡ left_at rule.now n }
{
    usize::from(rule[n * 3 + 1])
}

pub fn right_of(rule: &[u8], n: usize) -> usize
    requires { n < node_count rule.now }
    ensures { result ≡ right_at rule.now n }
{
    usize::from(rule[n * 3 + 2])
}

#[tactic(auto, unfolding(crate::specs::Rule::left_operand))]
pub fn left_operand(kind: u8) -> Operand
    ensures { result ≡ left_operand kind }
{
    match Kind::try_from(kind) {
        Ok(Kind::False | Kind::True) => Operand::Unused,
        Ok(Kind::Proposition | Kind::NegatedProposition) => Operand::Proposition,
        _ => Operand::Child,
    }
}

// Whether the one child of such a node is on the left.
#[tactic(auto, unfolding(crate::specs::Rule::one_child))]
pub fn one_child(kind: u8) -> bool
    ensures { result ≡ one_child kind }
{
    matches!(
        Kind::try_from(kind),
        Ok(Kind::Next | Kind::Not | Kind::Always | Kind::Eventually)
    )
}

#[tactic(auto, unfolding(crate::specs::Rule::right_operand))]
pub fn right_operand(kind: u8) -> Operand
    ensures { result ≡ right_operand kind }
{
    if kind < Kind::And as u8 || one_child(kind) {
        Operand::Unused
    } else {
        Operand::Child
    }
}

// Whether the byte is no 4.
fn byte_fits(operand: Operand, byte: usize) -> bool
    ensures { result ≡ byte_fits operand byte }
{
    match operand {
        Operand::Unused => byte == 0,
        Operand::Proposition => byte < PROPOSITIONS,
        Operand::Child => true,
    }
}

// Whether the byte is no 5.
fn child_fits(operand: Operand, byte: usize, parent: usize) -> bool
    ensures { result ≡ child_fits operand byte parent }
{
    match operand {
        Operand::Unused | Operand::Proposition => true,
        Operand::Child => byte < parent,
    }
}

// 3, 4 and 5 for node n of a rule whose kinds go up to highest.
#[tactic(auto, unfolding(crate::specs::Rule::node_check))]
fn check_node(highest: u8, rule: &[u8], n: usize) -> Result<(), Refusal>
    requires { n < node_count rule.now }
    ensures { answer result ≡ node_check highest rule.now n }
{
    let kind = kind_of(rule, n);
    let left = left_of(rule, n);
    let right = right_of(rule, n);
    require(kind <= highest, Reason::UnknownKind, n)?;
    let on_left = left_operand(kind);
    let on_right = right_operand(kind);
    require(
        byte_fits(on_left, left) && byte_fits(on_right, right),
        Reason::BadByte,
        n,
    )?;
    require(
        child_fits(on_left, left, n) && child_fits(on_right, right, n),
        Reason::ChildNotBelow,
        n,
    )
}

// 3, 4 and 5 for the first n nodes.
fn check_nodes(highest: u8, rule: &[u8], n: usize) -> Result<(), Refusal>
    requires { n ≤ node_count rule.now }
    ensures { answer result ≡ lowest (node_check highest rule.now) n }
{
    first_refused(n, |i| check_node(highest, rule, i))
}

// One place more for the child, if the byte is one.
fn count_child(counts: &mut [u8], operand: Operand, byte: usize)
    requires { (child_fits operand byte (length counts.old) ≡ true) × ((k : ℕ) → get_or counts.old k 0 < 255) }
    ensures { (k : ℕ) → get_or counts.new k 0
        ≡ get_or counts.old k 0 + is_child operand byte k }
{
    if operand == Operand::Child {
        counts[byte] += 1;
    }
}

// At how many places of the first n nodes each node is a child.
fn count_places(rule: &[u8], n: usize) -> [u8; MAX_NODES]
    requires { (n ≤ node_count rule.now) × (n ≤ max_nodes) × ChildrenBelow rule.now n }
    ensures { (k : ℕ) → get_or result k 0 ≡ places rule.now n k }
{
    let mut counts = [0u8; MAX_NODES];
    for i in 0..n {
        let kind = kind_of(rule, i);
        count_child(&mut counts, left_operand(kind), left_of(rule, i));
        count_child(&mut counts, right_operand(kind), right_of(rule, i));
    }
    counts
}

// 6 for node k, which is a child at count places.
#[tactic(auto, unfolding(crate::specs::Rule::place_check))]
fn check_place(rule: &[u8], k: usize, count: u8) -> Result<(), Refusal>
    requires { (k < node_count rule.now) × (count ≡ places rule.now (node_count rule.now) k) }
    ensures { answer result ≡ place_check rule.now k }
{
    let orphan = count == 0 && k != rule.len() / 3 - 1;
    let shared = 2 <= count && Kind::And as u8 <= kind_of(rule, k);
    require(!orphan && !shared, Reason::BadPlaces, k)
}

// 6 for all n nodes.
fn check_places(rule: &[u8], n: usize) -> Result<(), Refusal>
    requires { (n ≡ node_count rule.now) × (n ≤ max_nodes) × ChildrenBelow rule.now n }
    ensures { answer result ≡ lowest (place_check rule.now) n }
{
    let counts = count_places(rule, n);
    first_refused(n, |k| check_place(rule, k, counts[k]))
}

// 1 and 2.
#[tactic(auto, unfolding(crate::specs::Rule::length_check))]
fn check_length(rule: &[u8]) -> Result<(), Refusal>
    ensures checked { answer result ≡ length_check rule.now }
    ensures bounded { OnOk result (length rule.now ≤ rule_bytes) }
{
    require(rule.len() <= MAX_BYTES, Reason::RuleTooLong, 0)?;
    require(
        !rule.is_empty() && rule.len() % 3 == 0,
        Reason::BadLength,
        0,
    )
}

// Refusals 1 to 6 of any bytes, where kinds go up to highest.
#[tactic(auto, unfolding(crate::specs::Rule::syntax_check))]
pub fn check_syntax(highest: u8, rule: &[u8]) -> Result<(), Refusal>
    ensures { answer result ≡ syntax_check highest rule.now }
{
    check_length(rule)?;
    let n = rule.len() / 3;
    check_nodes(highest, rule, n)?;
    check_places(rule, n)
}

// How many of the first n nodes are untils.
#[tactic(auto, using(crate::proofs::Untils::counting))]
pub fn count_untils(rule: &[u8], n: usize) -> usize
    requires { n ≤ node_count rule.now }
    ensures { result ≡ length (untils rule.now n) }
{
    let mut count = 0;
    for i in 0..n {
        count += usize::from(kind_of(rule, i) == Kind::Until as u8);
    }
    count
}

// 7.
#[tactic(auto, unfolding(crate::specs::Rule::until_check))]
pub fn check_untils(rule: &[u8], n: usize) -> Result<(), Refusal>
    requires { n ≡ node_count rule.now }
    ensures { answer result ≡ until_check rule.now }
{
    require(
        count_untils(rule, n) <= MAX_UNTILS,
        Reason::TooManyUntils,
        0,
    )
}

// Refusals 1 to 7 of any bytes, as a first-edition rule.
#[tactic(auto, unfolding(crate::specs::Rule::checked))]
pub fn check(rule: &[u8]) -> Result<(), Refusal>
    ensures { answer result ≡ checked rule.now }
{
    check_syntax(Kind::Release as u8, rule)?;
    check_untils(rule, rule.len() / 3)
}
