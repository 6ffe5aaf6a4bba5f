// Covers and terms of a rule's nodes, each by recursion into the node's children, and refusal 20. A term is packed
// into one number, so that the order of terms is the order of numbers and a join is one `|`. One descent from the
// root keeps the terms of all nodes in a table, a row for each node.
#![tactic(auto)]

ghost use Rattle.std.specs.Prelude.{◌≡◌, List, [], ◌∷◌, ℕ, suc, ◌*◌, ◌^◌, ◌≤◌, ◌<◌, min, length, take};
ghost use Rattle.std.specs.Int.Bits.{bit_or};
ghost use Rattle.sets.specs.Sets.{union_n, insert_product_n, product_conflicts_n};
ghost use Rattle.answer.specs.Result.{fine, lowest, answer};
ghost use Rattle.formula.specs.Rule.{node_count};
ghost use Rattle.formula.specs.Kind.{kind_number};
ghost use Rattle.formula.specs.Limits.{max_nodes, propositions};
ghost use Rattle.formula.specs.Formula.{Formula, build, tree, formula};
ghost use Rattle.term.specs.Limits.{max_terms, row_places};
ghost use Rattle.term.specs.Term.{cover};
ghost use Rattle.term.specs.Size.{size_check, sizes_checked};
ghost use Rattle.term.specs.Memory.{IsPacked, IsCover, IsJoined, IsNode, FromChildren};
ghost use Rattle.term.specs.Memory.{TableRoom, Kept, FoundCover, StoresRow, Keeps, Tabulates};
ghost use Rattle.term.specs.Memory.{cover_bound, BoundedBelow};

use answer::{Reason, Refusal, require};
use formula::{Kind, Rule};

// The most terms of a node, and the most sets of its cover, that 20 lets pass.
pub const MAX_TERMS: usize = 64;

// A node's row in the table: how many terms it has, then these.
pub const ROW_PLACES: usize = MAX_TERMS + 1;

// A row for each node of the largest rule.
pub const TABLE_PLACES: usize = formula::MAX_NODES * ROW_PLACES;

// A packed term: obligations * 65536 + must * 256 + must_not.
pub type Term = u64;

// A node's terms, rising, and the propositions for which a join on the way to them was dropped. A count above MAX_TERMS
// says that there are more than that: what stands in the places is not said then, the conflicts are.
#[derive(Clone, Copy)]
pub struct Terms {
    pub count: usize,
    pub items: [Term; MAX_TERMS],
    pub conflicts: u8,
}

impl Terms {
    // No term, and one term: no join was dropped on the way.
    fn none() -> Terms
        ensures { IsJoined result [] 0 }
    {
        Terms {
            count: 0,
            items: [0; MAX_TERMS],
            conflicts: 0,
        }
    }

    fn one(t: Term) -> Terms
        ensures { IsJoined result (t ∷ []) 0 }
    {
        Terms {
            count: 1,
            items: [t; MAX_TERMS],
            conflicts: 0,
        }
    }

    // The terms themselves, where there are no more than MAX_TERMS.
    pub fn as_slice(&self) -> &[Term]
        requires { self.now.count ≤ max_terms }
        ensures { result.now ≡ take self.now.count self.now.items }
    {
        &self.items[..self.count]
    }
}

fn bit(n: usize) -> u64
    requires { n < 48 }
    ensures { result ≡ 2 ^ n }
{
    1u64 << n
}

// The joins of each of a and each of b. Like the next three, with the conflicts of a, of b and of its own joins, and in
// line: else the compiler copies the lists once more, by a name that the library for C would then need from outside,
// memmove.
#[inline(always)]
fn product(a: Terms, b: Terms) -> Terms
    requires { (a.count ≤ max_terms) × (b.count ≤ max_terms) }
    ensures { (us vs : List ℕ) → IsPacked a us → IsPacked b vs → IsJoined result (insert_product_n us vs [])
        (bit_or (product_conflicts_n us vs) (bit_or a.conflicts b.conflicts)) }
{
    let mut items = [0; MAX_TERMS];
    let joined = sets::product(&mut items, 0, a.as_slice(), b.as_slice());
    Terms {
        count: joined.count,
        items,
        conflicts: joined.conflicts | (a.conflicts | b.conflicts),
    }
}

// a together with b.
#[inline(always)]
fn union(a: Terms, b: Terms) -> Terms
    requires { (a.count ≤ max_terms) × (b.count ≤ max_terms) }
    ensures { (us vs : List ℕ) → IsPacked a us → IsPacked b vs
        → IsJoined result (union_n us vs) (bit_or a.conflicts b.conflicts) }
{
    let mut items = b.items;
    let count = sets::union(&mut items, b.count, a.as_slice());
    Terms {
        count,
        items,
        conflicts: a.conflicts | b.conflicts,
    }
}

// b together with the joins of own and each of a.
#[inline(always)]
fn until(a: Terms, b: Terms, own: Term) -> Terms
    requires { (a.count ≤ max_terms) × (b.count ≤ max_terms) }
    ensures { (us vs : List ℕ) → IsPacked a us → IsPacked b vs
        → IsJoined result (union_n vs (insert_product_n us (own ∷ []) []))
        (bit_or (product_conflicts_n us (own ∷ [])) (bit_or a.conflicts b.conflicts)) }
{
    let mut items = [0; MAX_TERMS];
    let joined = sets::product(&mut items, 0, a.as_slice(), &[own]);
    let count = sets::union(&mut items, joined.count, b.as_slice());
    Terms {
        count,
        items,
        conflicts: joined.conflicts | (a.conflicts | b.conflicts),
    }
}

// The joins of each of b and each of a together with own: that list may have one member more than MAX_TERMS.
#[inline(always)]
fn release(a: Terms, b: Terms, own: Term) -> Terms
    requires { (a.count ≤ max_terms) × (b.count ≤ max_terms) }
    ensures { (us vs : List ℕ) → IsPacked a us → IsPacked b vs
        → IsJoined result (insert_product_n vs (union_n us (own ∷ [])) [])
        (bit_or (product_conflicts_n vs (union_n us (own ∷ []))) (bit_or a.conflicts b.conflicts)) }
{
    let mut more = [own; MAX_TERMS + 1];
    let count = sets::union(&mut more, 1, a.as_slice());
    let mut items = [0; MAX_TERMS];
    let joined = sets::product(&mut items, 0, b.as_slice(), &more[..count]);
    Terms {
        count: joined.count,
        items,
        conflicts: joined.conflicts | (a.conflicts | b.conflicts),
    }
}

// The obligation of node n alone, packed.
fn owe(n: usize) -> Term
    requires { n < max_nodes }
    ensures { result ≡ 2 ^ n * 65536 }
{
    bit(n) * 65536
}

// The terms of a constant or of a proposition, or else of a negated one, where its left byte is p.
fn terms_leaf(kind: Kind, p: usize) -> Terms
    requires { (kind_number kind < 4) × (1 < kind_number kind → p < propositions) }
    ensures { (n : ℕ) (f g : Formula) → IsNode result (build (kind_number kind) n p f g) }
{
    match kind {
        Kind::False => Terms::none(),
        Kind::True => Terms::one(0),
        Kind::Proposition => Terms::one(bit(p) * 256),
        _ => Terms::one(bit(p)),
    }
}

// The terms of an and, an or, an until, a release by those of its children, and of an and, an or the cover by theirs; a
// count above MAX_TERMS is handed on. A kind of the second edition has none.
fn from_children(kind: Kind, n: usize, a: Terms, b: Terms) -> Terms
    requires { (n < max_nodes) × (3 < kind_number kind) × ((kind_number kind ≡ 6) → ⊥) }
    ensures { FromChildren (kind_number kind) n a b result }
{
    if MAX_TERMS < a.count {
        return a;
    }
    if MAX_TERMS < b.count {
        return b;
    }
    match kind {
        Kind::And => product(a, b),
        Kind::Or => union(a, b),
        Kind::Until => until(a, b, owe(n)),
        Kind::Release => release(a, b, owe(n)),
        _ => Terms::none(),
    }
}

// The cover of node n, as packed terms with no propositions. A node that is no constant, no and, no or owes itself.
fn cover_of(rule: &Rule<'_>, n: usize) -> Terms
    requires { n < node_count rule.now.bytes.now }
    ensures { FoundCover rule.now.bytes.now n result }
{
    let kind = rule.kind(n);
    match kind {
        Kind::False => Terms::none(),
        Kind::True => Terms::one(0),
        Kind::And | Kind::Or => {
            let a = cover_of(rule, rule.left(n));
            let b = cover_of(rule, rule.right(n));
            from_children(kind, n, a, b)
        }
        _ => Terms::one(owe(n)),
    }
}

// The row of node n: the count of its terms, and these where they fit.
fn store_row(table: &mut [u64], n: usize, ts: Terms)
    requires { (n < max_nodes) × (suc n * row_places ≤ length table.old) }
    ensures { StoresRow table.old n ts table.new }
{
    let at = n * ROW_PLACES;
    table[at] = ts.count as u64;
    if ts.count <= MAX_TERMS {
        answer::copy(&mut table[at + 1..], ts.as_slice());
    }
}

// The terms of node n, with the conflicts of n and of all nodes below it, and in the table the rows of these.
fn keep_terms(rule: &Rule<'_>, n: usize, table: &mut [u64]) -> Terms
    requires { (n < node_count rule.now.bytes.now) × TableRoom rule.now.bytes.now table.old }
    ensures { Keeps rule.now.bytes.now n table.old result table.new }
{
    let kind = rule.kind(n);
    let left = rule.left(n);
    let terms = match kind {
        Kind::False | Kind::True | Kind::Proposition | Kind::NegatedProposition => {
            terms_leaf(kind, left)
        }
        Kind::Next => {
            let operand = keep_terms(rule, left, table);
            Terms {
                conflicts: operand.conflicts,
                ..cover_of(rule, left)
            }
        }
        _ => {
            let a = keep_terms(rule, left, table);
            let b = keep_terms(rule, rule.right(n), table);
            from_children(kind, n, a, b)
        }
    };
    store_row(table, n, terms);
    terms
}

// x, or one more than MAX_TERMS for all above it.
fn clip(x: usize) -> usize
    ensures { result ≡ min (suc max_terms) x }
{
    x.min(MAX_TERMS + 1)
}

// The bound of the cover of node n, how many sets it has at most, by the bounds of the nodes below n.
#[tactic(auto, using(formula::proofs::Accepted::passed_left, formula::proofs::Accepted::passed_right))]
fn cover_bound(rule: &Rule<'_>, n: usize, bounds: &[usize; formula::MAX_NODES]) -> usize
    requires { (n < node_count rule.now.bytes.now) × BoundedBelow rule.now.bytes.now n bounds.now }
    ensures { result ≡ cover_bound (tree rule.now.bytes.now n) }
{
    let left = rule.left(n);
    let right = rule.right(n);
    match rule.kind(n) {
        Kind::And => clip(bounds[left] * bounds[right]),
        Kind::Or => clip(bounds[left] + bounds[right]),
        _ => 1,
    }
}

// 20 for node n, the nodes below which are no 20. Its cover is worked out only where the bound does not settle it.
fn check_size(rule: &Rule<'_>, n: usize, table: &[u64], bound: usize) -> Result<(), Refusal>
    requires { (n < node_count rule.now.bytes.now) × (lowest (size_check rule.now.bytes.now) n ≡ fine)
        × TableRoom rule.now.bytes.now table.now × Kept rule.now.bytes.now table.now n
        × (bound ≡ cover_bound (tree rule.now.bytes.now n)) }
    ensures { answer result ≡ size_check rule.now.bytes.now n }
{
    let terms = table[n * ROW_PLACES] as usize;
    require(terms <= MAX_TERMS, Reason::TooManyTerms, n)?;
    let few_sets = bound <= MAX_TERMS || cover_of(rule, n).count <= MAX_TERMS;
    require(few_sets, Reason::TooManyTerms, n)
}

// 20 for all nodes, with the bounds of their covers.
fn check_sizes(rule: &Rule<'_>, table: &[u64]) -> Result<(), Refusal>
    requires { TableRoom rule.now.bytes.now table.now
        × ((k : ℕ) → k < node_count rule.now.bytes.now → Kept rule.now.bytes.now table.now k) }
    ensures { answer result ≡ lowest (size_check rule.now.bytes.now) (node_count rule.now.bytes.now) }
{
    let mut bounds = [0; formula::MAX_NODES];
    for i in 0..rule.count() {
        bounds[i] = cover_bound(rule, i, &bounds);
        check_size(rule, i, table, bounds[i])?;
    }
    Ok(())
}

// The terms of all nodes in the table, and their conflicts, or 20 at the lowest node that has too many.
pub fn tabulate(rule: &Rule<'_>, table: &mut [u64]) -> Result<u8, Refusal>
    requires { TableRoom rule.now.bytes.now table.old }
    ensures { Tabulates rule.now.bytes.now result table.new }
{
    let root = keep_terms(rule, rule.count() - 1, table);
    check_sizes(rule, table)?;
    Ok(root.conflicts)
}

// The cover of the root: the sets of obligations that the walk begins with.
pub fn root_cover(rule: &Rule<'_>) -> Terms
    requires { sizes_checked rule.now.bytes.now ≡ fine }
    ensures { IsCover result (cover (formula rule.now.bytes.now)) }
{
    cover_of(rule, rule.count() - 1)
}
