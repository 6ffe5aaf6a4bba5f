// Which untils of a rule a transition of the first walk fulfils: a byte for each transition, found from the terms of
// the untils.
#![tactic(auto)]

ghost use Rattle.std.specs.Prelude.{◌≡◌, map, ◌++◌, ◌+◌, ◌*◌, ◌≤◌, ◌<◌, length, get_or, drop};
ghost use Rattle.formula.specs.Limits.{max_nodes};
ghost use Rattle.sets.specs.Bits.{has};
ghost use Rattle.term.specs.Limits.{row_places};
ghost use Rattle.term.specs.Memory.{obligations_n, unpack, row_of};
ghost use Rattle.acceptance.specs.Acceptance.{fulfilment};
ghost use Rattle.acceptance.specs.Memory.{IsUntils, Known, shows_n, fulfils_n};

use formula::{Kind, Rule};

// The nodes of a rule's untils, rising, and how many they are.
#[derive(Clone, Copy)]
pub struct Untils {
    pub count: usize,
    pub nodes: [usize; formula::MAX_UNTILS],
}

// The untils of a rule that 1 to 7 let pass.
#[tactic(auto, using(crate::proofs::Gathering::gather_fits, crate::proofs::Gathering::gather_ends))]
pub fn untils_of(rule: &Rule<'_>) -> Untils
    ensures { IsUntils rule.now.bytes.now result.nodes result.count }
{
    let mut nodes = [0; formula::MAX_UNTILS];
    let mut count = 0;
    for i in 0..rule.count() {
        if rule.kind(i) == Kind::Until {
            nodes[count] = i;
            count += 1;
        }
    }
    Untils { count, nodes }
}

// Whether f is among the obligations of t.
fn owes(t: u64, f: usize) -> bool
    requires { f < max_nodes }
    ensures { result ≡ has (obligations_n t) f }
{
    sets::has(t / 65536, f)
}

// Whether u, a term of f, shows that t fulfils f.
fn shows(f: usize, t: u64, u: u64) -> bool
    requires { f < max_nodes }
    ensures { result ≡ shows_n f t u }
{
    (u | t) == t && !owes(u, f)
}

// Whether t fulfils f, whose terms are us. A t that does not owe f fulfils it at once.
fn fulfils(f: usize, us: &[u64], t: u64) -> bool
    requires { f < max_nodes }
    ensures { result ≡ fulfils_n f us.now t }
{
    !owes(t, f) || us.iter().any(|u| shows(f, t, *u))
}

// Whether t fulfils f, whose terms stand in its row of the table.
fn fulfils_node(table: &[u64], f: usize, t: u64) -> bool
    requires { (f < max_nodes) × (f * row_places + 1 + get_or table.now (f * row_places) 0 ≤ length table.now) }
    ensures { result ≡ fulfils_n f (row_of table.now f) t }
{
    let row = f * term::ROW_PLACES;
    let count = table[row] as usize;
    let from = row + 1;
    fulfils(f, &table[from..from + count], t)
}

// Which untils t fulfils, of those whose nodes these are: bit k stands for the one of nodes[k].
fn fulfilment(rule: &[u8], table: &[u64], nodes: &[usize], t: u64) -> u8
    requires { Known rule.now table.now nodes.now (length nodes.now) }
    ensures { result ≡ fulfilment rule.now (unpack t) }
{
    let mut byte = 0;
    for (k, node) in nodes.iter().enumerate() {
        byte |= u8::from(fulfils_node(table, *node, t)) << k;
    }
    byte
}

// Which untils each of ts fulfils, a byte each; the bytes behind these stay.
pub fn fulfil(rule: &[u8], table: &[u64], untils: &Untils, ts: &[u64], bytes: &mut [u8])
    requires { (length ts.now ≤ length bytes.old) × Known rule.now table.now untils.now.nodes untils.now.count }
    ensures { bytes.new ≡ map (fulfilment rule.now) (map unpack ts.now) ++ drop (length ts.now) bytes.old }
{
    let nodes = &untils.nodes[..untils.count];
    for (i, t) in ts.iter().enumerate() {
        bytes[i] = fulfilment(rule, table, nodes, *t);
    }
}
