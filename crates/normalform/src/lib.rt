// Rules as growers write them, document 02's second edition, and their negation normal form: the first edition's form
// of the same rule (R-3).
#![tactic(auto)]

ghost use Rattle.std.specs.Prelude.{◌≡◌, [], ◌∷◌, true, false, ◌+◌, ◌*◌, ◌<◌, ◌≤◌, length, take};
ghost use Rattle.std.proofs.lemmas.List.Edits.{sets};
ghost use Rattle.answer.specs.Result.{answer};
ghost use Rattle.answer.specs.Buffer.{buffer};
ghost use Rattle.formula.specs.Limits.{max_nodes, rule_bytes};
ghost use Rattle.formula.specs.Kind.{kind_number};
ghost use Rattle.formula.specs.Rule.{node_count};
ghost use Rattle.normalform.specs.NormalForm.{pair_code, size, normal_bytes, sized, written_checked};
ghost use Rattle.normalform.specs.Normalize.{rule_stored, normalizes};
ghost use Rattle.normalform.specs.Memory.{code_places, Added, node_walk, node_code, own_code};
ghost use Rattle.normalform.specs.Memory.{constant_code, left_turned, own_codes, Numbered, number_in, form_kind};
ghost use Rattle.normalform.specs.Memory.{OwnPlace, node_bytes, code_bytes, Named, Ready, Forms};

use answer::{Reason, Refusal, require, zero_behind};
use formula::{Kind, MAX_BYTES, MAX_NODES, check_untils};

mod written;

use written::Written;

// A place for each code (specs/NormalForm.antt): false, true, and each node as it stands and negated.
const CODE_PLACES: usize = MAX_NODES * 2 + 2;

// The code of node n in a sense.
fn pair_code(n: usize, negated: bool) -> usize
    requires { n < max_nodes }
    ensures { (result ≡ pair_code n negated) × (result < code_places) }
{
    n * 2 + 2 + usize::from(negated)
}

// The code of a node that is no not.
fn own_code(kind: Kind, n: usize, negated: bool) -> usize
    requires { n < max_nodes }
    ensures { (result ≡ own_code (kind_number kind) n negated) × (result < code_places) }
{
    match kind {
        Kind::False => usize::from(negated),
        Kind::True => usize::from(!negated),
        _ => pair_code(n, negated),
    }
}

// The code of the constant on the left of what always and eventually become.
fn constant_code(kind: Kind, negated: bool) -> usize
    ensures { (result ≡ constant_code (kind_number kind) negated) × (result < code_places) }
{
    match kind {
        Kind::Always => usize::from(negated),
        _ => usize::from(!negated),
    }
}

// The sense of a node's left side: not and implies negate it.
fn left_sense(kind: Kind, negated: bool) -> bool
    ensures { result ≡ left_turned (kind_number kind) negated }
{
    negated != matches!(kind, Kind::Not | Kind::Implies)
}

// The codes of a node itself, without its children's.
fn add_own(kind: Kind, n: usize, negated: bool, needed: &mut [bool])
    requires { (n < max_nodes) × (length needed.old ≡ code_places) }
    ensures { Added needed.old needed.new (own_codes (kind_number kind) n negated) }
{
    match kind {
        Kind::Not => {}
        Kind::Always | Kind::Eventually => {
            needed[pair_code(n, negated)] = true;
            needed[constant_code(kind, negated)] = true;
        }
        _ => needed[own_code(kind, n, negated)] = true,
    }
}

// The two walks of a rule are two functions, as document 01 asks: one of a node as it stands, one of its negation. Each
// calls the other at the left of not and implies, and the node's number falls at each call.

// The codes that node n needs as it stands: its own and its children's.
#[cycle(walk_negated_walk_plain)]
fn walk_plain(rule: &Written<'_>, n: usize, needed: &mut [bool])
    requires { (n < node_count rule.now.bytes.now) × (length needed.old ≡ code_places) }
    ensures { Added needed.old needed.new (node_walk rule.now.bytes.now n false) }
{
    let kind = rule.kind(n);
    add_own(kind, n, false, needed);
    match kind {
        Kind::False | Kind::True | Kind::Proposition | Kind::NegatedProposition => {}
        Kind::Not => walk_negated(rule, rule.left(n), needed),
        Kind::Next | Kind::Always | Kind::Eventually => walk_plain(rule, rule.left(n), needed),
        Kind::Implies => {
            walk_negated(rule, rule.left(n), needed);
            walk_plain(rule, rule.right(n), needed);
        }
        Kind::And | Kind::Or | Kind::Until | Kind::Release => {
            walk_plain(rule, rule.left(n), needed);
            walk_plain(rule, rule.right(n), needed);
        }
    }
}

// The codes that the negation of node n needs.
#[cycle(walk_negated_walk_plain)]
fn walk_negated(rule: &Written<'_>, n: usize, needed: &mut [bool])
    requires { (n < node_count rule.now.bytes.now) × (length needed.old ≡ code_places) }
    ensures { Added needed.old needed.new (node_walk rule.now.bytes.now n true) }
{
    let kind = rule.kind(n);
    add_own(kind, n, true, needed);
    match kind {
        Kind::False | Kind::True | Kind::Proposition | Kind::NegatedProposition => {}
        Kind::Not => walk_plain(rule, rule.left(n), needed),
        Kind::Next | Kind::Always | Kind::Eventually => walk_negated(rule, rule.left(n), needed),
        Kind::Implies => {
            walk_plain(rule, rule.left(n), needed);
            walk_negated(rule, rule.right(n), needed);
        }
        Kind::And | Kind::Or | Kind::Until | Kind::Release => {
            walk_negated(rule, rule.left(n), needed);
            walk_negated(rule, rule.right(n), needed);
        }
    }
}

// The code of what stands for node n in a sense: that of the first node from it on that is no not.
fn code_of(rule: &Written<'_>, n: usize, negated: bool) -> usize
    requires { n < node_count rule.now.bytes.now }
    ensures { (result ≡ node_code rule.now.bytes.now n negated) × (result < code_places) }
{
    match rule.kind(n) {
        Kind::Not => code_of(rule, rule.left(n), !negated),
        kind => own_code(kind, n, negated),
    }
}

// The numbers of the codes, the needed ones counted from 0; how many are needed.
fn number_codes(needed: &[bool], numbers: &mut [u8]) -> usize
    requires { (length needed.now ≤ length numbers.old) × (length needed.now ≤ code_places) }
    ensures { Numbered needed.now numbers.new result }
{
    let mut count = 0;
    for (c, is_needed) in needed.iter().enumerate() {
        numbers[c] = count as u8;
        count += usize::from(*is_needed);
    }
    count
}

// The kind of what stands for a node of a kind in a sense, where the node has a place of its own: implies becomes an
// or, always a release, eventually an until; negation trades a proposition with its negation, and with or, until with
// release.
#[tactic(auto, unfolding(crate::specs::NormalForm::entry))]
fn form_kind(kind: Kind, negated: bool) -> u8
    requires { (2 ≤ kind_number kind) × (kind_number kind ≡ 9 → ⊥) }
    ensures { result ≡ form_kind (kind_number kind) negated }
{
    let new = match (kind, negated) {
        (Kind::Proposition, false) | (Kind::NegatedProposition, true) => Kind::Proposition,
        (Kind::Proposition, true) | (Kind::NegatedProposition, false) => Kind::NegatedProposition,
        (Kind::And, false) | (Kind::Or | Kind::Implies, true) => Kind::And,
        (Kind::And, true) | (Kind::Or | Kind::Implies, false) => Kind::Or,
        (Kind::Until | Kind::Eventually, false) | (Kind::Release | Kind::Always, true) =>
            Kind::Until,
        (Kind::Until | Kind::Eventually, true) | (Kind::Release | Kind::Always, false) =>
            Kind::Release,
        _ => Kind::Next,
    };
    new as u8
}

// The number of what stands for node n in a sense.
fn form_node(rule: &Written<'_>, n: usize, negated: bool, numbers: &[u8]) -> u8
    requires { (n < node_count rule.now.bytes.now) × (length numbers.now ≡ code_places) }
    ensures { result ≡ number_in numbers.now (node_code rule.now.bytes.now n negated) }
{
    numbers[code_of(rule, n, negated)]
}

// The three bytes of a node.
pub fn put_node(form: &mut [u8], at: usize, kind: u8, left: u8, right: u8)
    requires { at + 3 ≤ length form.old }
    ensures { form.new ≡ sets form.old at (kind ∷ (left ∷ (right ∷ []))) }
{
    form[at..at + 3].copy_from_slice(&[kind, left, right]);
}

// The bytes of what stands for node n in a sense.
fn node_bytes(rule: &Written<'_>, n: usize, negated: bool, numbers: &[u8]) -> [u8; 3]
    requires { (n < node_count rule.now.bytes.now) × OwnPlace rule.now.bytes.now n
        × (length numbers.now ≡ code_places) }
    ensures { result ≡ node_bytes rule.now.bytes.now numbers.now n negated }
{
    let kind = rule.kind(n);
    let new = form_kind(kind, negated);
    match kind {
        Kind::Proposition | Kind::NegatedProposition => [new, rule.bytes[n * 3 + 1], 0],
        Kind::Next => [new, form_node(rule, rule.left(n), negated, numbers), 0],
        Kind::Always | Kind::Eventually => {
            let constant = numbers[constant_code(kind, negated)];
            let child = form_node(rule, rule.left(n), negated, numbers);
            [new, constant, child]
        }
        _ => {
            let left = form_node(rule, rule.left(n), left_sense(kind, negated), numbers);
            let right = form_node(rule, rule.right(n), negated, numbers);
            [new, left, right]
        }
    }
}

// The bytes under a code.
fn code_bytes(rule: &Written<'_>, c: usize, numbers: &[u8]) -> [u8; 3]
    requires { Named rule.now.bytes.now c × (c < code_places) × (length numbers.now ≡ code_places) }
    ensures { result ≡ code_bytes rule.now.bytes.now numbers.now c }
{
    if c < 2 {
        return [c as u8, 0, 0];
    }
    node_bytes(rule, (c - 2) / 2, c % 2 == 1, numbers)
}

// The bytes under all needed codes, by rising codes from the form's start.
fn write_codes(rule: &Written<'_>, needed: &[bool], numbers: &[u8], form: &mut [u8])
    requires { Ready rule.now.bytes.now needed.now numbers.now form.old }
    ensures { take (size rule.now.bytes.now * 3) form.new ≡ normal_bytes rule.now.bytes.now }
{
    for (c, is_needed) in needed.iter().enumerate() {
        if *is_needed {
            let [kind, left, right] = code_bytes(rule, c, numbers);
            put_node(form, usize::from(numbers[c]) * 3, kind, left, right);
        }
    }
}

// The normal form of a rule that 1 to 6 let pass at the form's start, and zeros behind it; or 26.
fn build_form(rule: &Written<'_>, form: &mut [u8]) -> Result<usize, Refusal>
    requires { rule_bytes ≤ length form.old }
    ensures { buffer (answer result) form.new
        ≡ rule_stored (sized rule.now.bytes.now) form.old }
{
    let n = rule.count();
    let mut flags = [false; CODE_PLACES];
    walk_plain(rule, n - 1, &mut flags);
    let needed = &flags[..n * 2 + 2];
    let mut numbers = [0u8; CODE_PLACES];
    let count = number_codes(needed, &mut numbers);
    require(count <= MAX_NODES, Reason::TooManyNodes, 0)?;
    write_codes(rule, needed, &numbers, form);
    zero_behind(form, count * 3);
    Ok(count * 3)
}

// The normal form of a written rule, at the start of a buffer for the longest rule, with zeros behind it.
#[tactic(auto, unfolding(crate::specs::Normalize::normalizes, crate::specs::NormalForm::normal_form))]
pub fn normalize(rule: &[u8], form: &mut [u8]) -> Result<usize, Refusal>
    ensures { buffer (answer result) form.new
        ≡ normalizes rule.now form.old }
{
    require(MAX_BYTES <= form.len(), Reason::TableTooShort, 0)?;
    build_form(&Written::parse(rule)?, form)
}

// 1 to 6 and 26 of a written rule, then 7 of its normal form, which stands at the form's start where all let it pass.
pub fn check_form(rule: &[u8], form: &mut [u8]) -> Result<usize, Refusal>
    requires { rule_bytes ≤ length form.old }
    ensures { Forms rule.now result form.new }
{
    let n = normalize(rule, form)?;
    check_untils(&form[..n], n / 3)?;
    Ok(n)
}

// The same, of the rule alone.
pub fn check(rule: &[u8]) -> Result<(), Refusal>
    ensures { answer result ≡ written_checked rule.now }
{
    check_form(rule, &mut [0u8; MAX_BYTES])?;
    Ok(())
}
