// Sets of numbers, stored rising and with no repeats in the first places of a lent slice of any length. A count
// one above the slice's length says that the set has more members than there are places; it stays so whatever
// is inserted after it, and what the slice then holds is not said.
#![tactic(auto)]

ghost use Rattle.std.specs.Prelude.{◌≡◌, ◌≤◌, ◌<◌, length, take};
ghost use Rattle.sets.specs.Bits.{has};
ghost use Rattle.std.specs.Int.Bits.{bit_or};
ghost use Rattle.sets.specs.Sets.{Stores, Updates, Joins, insert_at, conflict_n};
ghost use Rattle.sets.specs.Sets.{insert_n, union_n, insert_join_n, insert_joins_n, insert_product_n};
ghost use Rattle.sets.specs.Sets.{join_conflicts_n, product_conflicts_n};

// What joining comes to: how many are in the set then, and the bits for which some join was dropped.
#[derive(Clone, Copy)]
pub struct Joined {
    pub count: usize,
    pub conflicts: u8,
}

// t at place i, and what stood there and after it one place on.
fn insert_at(items: &mut [u64], count: usize, i: usize, t: u64) -> usize
    requires { (i ≤ count) × (count ≤ length items.old) }
    ensures { Stores items.new result (insert_at i t (take count items.old)) }
{
    if items.len() <= count {
        return items.len() + 1;
    }
    items.copy_within(i..count, i + 1);
    items[i] = t;
    count + 1
}

// The set with t.
pub fn insert(items: &mut [u64], count: usize, t: u64) -> usize
    ensures { Updates items.old count items.new result (insert_n t) }
{
    // more members than places: the count stays, since callers are promised it whatever they insert after that
    if items.len() < count {
        return count;
    }
    let i = items[..count].iter().position(|y| t <= *y).unwrap_or(count);
    if i < count && items[i] == t {
        return count;
    }
    insert_at(items, count, i, t)
}

// The bits that the two lowest bytes share: a packed term has these propositions in must and in must_not.
fn conflict(t: u64) -> u8
    ensures { result ≡ conflict_n t }
{
    ((t / 256) & (t % 256)) as u8
}

// The set with the join of x and y, unless that join is dropped, and the bits for which it is.
fn insert_join(items: &mut [u64], count: usize, x: u64, y: u64) -> Joined
    ensures { Joins items.old count items.new result (insert_join_n x y) (conflict_n (bit_or x y)) }
{
    let t = x | y;
    let conflicts = conflict(t);
    let count = if conflicts == 0 {
        insert(items, count, t)
    } else {
        count
    };
    Joined { count, conflicts }
}

// The set with the joins of x and each of ys, and the bits for which some of them is dropped.
fn insert_joins(items: &mut [u64], count: usize, x: u64, ys: &[u64]) -> Joined
    ensures { Joins items.old count items.new result
        (insert_joins_n x ys.now) (join_conflicts_n x ys.now) }
{
    let mut n = count;
    let mut conflicts = 0;
    for y in ys.iter().rev() {
        let joined = insert_join(items, n, x, *y);
        n = joined.count;
        conflicts |= joined.conflicts;
    }
    Joined {
        count: n,
        conflicts,
    }
}

// The set with all joins of one of xs and one of ys, and the bits for which some of them is dropped.
pub fn product(items: &mut [u64], count: usize, xs: &[u64], ys: &[u64]) -> Joined
    ensures { Joins items.old count items.new result
        (insert_product_n xs.now ys.now)
        (product_conflicts_n xs.now ys.now) }
{
    let mut n = count;
    let mut conflicts = 0;
    for x in xs.iter().rev() {
        let joined = insert_joins(items, n, *x, ys);
        n = joined.count;
        conflicts |= joined.conflicts;
    }
    Joined {
        count: n,
        conflicts,
    }
}

// The set with each of xs.
pub fn union(items: &mut [u64], count: usize, xs: &[u64]) -> usize
    ensures { Updates items.old count items.new result (union_n xs.now) }
{
    let mut n = count;
    for x in xs.iter().rev() {
        n = insert(items, n, *x);
    }
    n
}

// Whether n is in the set of the bits of a number.
pub fn has(set: u64, n: usize) -> bool
    requires { n < 64 }
    ensures { result ≡ has set n }
{
    (set >> n) & 1 == 1
}
