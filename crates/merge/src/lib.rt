// Two first-edition rules merged into one, which a lasso satisfies exactly when it satisfies both (R-7).
#![tactic(auto)]

ghost use Rattle.std.specs.Prelude.{◌≡◌, ◌++◌, ◌+◌, ◌*◌, ◌<◌, ◌≤◌, length, take};
ghost use Rattle.std.proofs.lemmas.List.Edits.{sets};
ghost use Rattle.answer.specs.Result.{fine, answer};
ghost use Rattle.answer.specs.Buffer.{buffer};
ghost use Rattle.formula.specs.Limits.{max_nodes, rule_bytes};
ghost use Rattle.formula.specs.Rule.{node_count, release_kind, node_check, syntax_check};
ghost use Rattle.merge.specs.Merge.{moved, moved_node, moved_nodes, conjoined, merged_count};
ghost use Rattle.merge.specs.Merge.{merge_check, merges};

use answer::{Reason, Refusal, copy, require, zero_behind};
use formula::{
    Kind, MAX_BYTES, MAX_NODES, MAX_UNTILS, Operand, check_syntax, count_untils, kind_of,
    left_operand, right_operand,
};
use normalform::put_node;

// A byte of a node that is moved up: a child's number is moved too.
fn moved(operand: Operand, byte: u8, up: u8) -> u8
    requires { up + byte < 256 }
    ensures { result ≡ moved operand up byte }
{
    match operand {
        Operand::Unused | Operand::Proposition => byte,
        Operand::Child => up + byte,
    }
}

// Node n of a rule, moved up.
fn put_moved(rule: &[u8], n: usize, up: usize, merged: &mut [u8])
    requires { (n < node_count rule.now) × (node_check release_kind rule.now n ≡ fine)
        × (up + n < max_nodes) × ((up + n) * 3 + 3 ≤ length merged.old) }
    ensures { merged.new
        ≡ sets merged.old ((up + n) * 3) (moved_node rule.now up n) }
{
    let kind = kind_of(rule, n);
    let left = moved(left_operand(kind), rule[n * 3 + 1], up as u8);
    let right = moved(right_operand(kind), rule[n * 3 + 2], up as u8);
    put_node(merged, (up + n) * 3, kind, left, right);
}

// All nodes of a rule that 1 to 6 let pass, moved up.
fn put_all_moved(rule: &[u8], up: usize, merged: &mut [u8])
    requires { (syntax_check release_kind rule.now ≡ fine) × (up + node_count rule.now ≤ max_nodes)
        × (rule_bytes ≤ length merged.old) }
    ensures { take ((up + node_count rule.now) * 3) merged.new
        ≡ take (up * 3) merged.old ++ moved_nodes rule.now up (node_count rule.now) }
{
    for i in 0..rule.len() / 3 {
        put_moved(rule, i, up, merged);
    }
}

// The merged rule of two that 1 to 6 let pass and that are not too large, at the buffer's start.
fn conjoin(first: &[u8], second: &[u8], merged: &mut [u8])
    requires { (syntax_check release_kind first.now ≡ fine) × (syntax_check release_kind second.now ≡ fine)
        × (merged_count first.now second.now ≤ max_nodes) × (rule_bytes ≤ length merged.old) }
    ensures { take (merged_count first.now second.now * 3) merged.new
        ≡ conjoined first.now second.now }
{
    let m = first.len() / 3;
    let end = m + second.len() / 3;
    copy(merged, first);
    put_all_moved(second, m, merged);
    put_node(
        merged,
        end * 3,
        Kind::And as u8,
        (m - 1) as u8,
        (end - 1) as u8,
    );
}

// 1 to 6 of both rules, then 27 and 7 of the merged one.
#[tactic(auto, using(crate::proofs::Merging::merging), unfolding(crate::specs::Merge::merge_check))]
fn check(first: &[u8], second: &[u8]) -> Result<(), Refusal>
    ensures { answer result ≡ merge_check first.now second.now }
{
    check_syntax(Kind::Release as u8, first)?;
    check_syntax(Kind::Release as u8, second)?;
    let m = first.len() / 3;
    let n = second.len() / 3;
    let count = m + n + 1;
    let untils = count_untils(first, m) + count_untils(second, n);
    require(count <= MAX_NODES, Reason::MergedTooLarge, 0)?;
    require(untils <= MAX_UNTILS, Reason::TooManyUntils, 0)
}

// Two first-edition rules merged, at the start of a buffer for the longest rule, with zeros behind.
#[tactic(auto, unfolding(crate::specs::Merge::merges))]
pub fn merge(first: &[u8], second: &[u8], merged: &mut [u8]) -> Result<usize, Refusal>
    ensures { buffer (answer result) merged.new
        ≡ merges first.now second.now merged.old }
{
    require(MAX_BYTES <= merged.len(), Reason::TableTooShort, 0)?;
    check(first, second)?;
    let length = (first.len() / 3 + second.len() / 3 + 1) * 3;
    conjoin(first, second, merged);
    zero_behind(merged, length);
    Ok(length)
}
