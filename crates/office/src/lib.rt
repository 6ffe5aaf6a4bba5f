// The calls for C: numbers and byte slices, each slice a pointer and a length. An answer is packed into one number.
#![tactic(auto)]

ghost use Rattle.std.specs.Prelude.{◌≡◌, ◌+◌, length};
ghost use Rattle.normalform.specs.Normalize.{normalizes};
ghost use Rattle.merge.specs.Merge.{merges};
ghost use Rattle.translation.specs.Conflicts.{told_counts, told_conflicts, translates};
ghost use Rattle.image.specs.Calls.{read_into, writes};
ghost use Rattle.answer.specs.Result.{answer, reason_number};
ghost use Rattle.judge.specs.Judge.{judged};
ghost use Rattle.field.specs.Calls.{started, stepped};
ghost use Rattle.explain.specs.Call.{explained};
ghost use Rattle.explain.specs.Satisfied.{satisfied};
ghost use Rattle.profile.specs.Profile.{profile_translates};
ghost use Rattle.demands.specs.Demand.{decided};
ghost use Rattle.sameword.specs.Words.{compared};
ghost use Rattle.office.specs.Packing.{pack_refusal, pack_three, pack_size, pack_counts, pack_length};
ghost use Rattle.office.specs.Packing.{pack_verdict, packed_tables, pack_outcome, packed_slice, pack_buffer};
ghost use Rattle.office.specs.Packing.{pack_judgement};
ghost use Rattle.office.specs.Packing.{packed_decision, pack_decision, counts_of, pack_conflicts, pack_translated};
ghost use Rattle.office.specs.Packing.{pack_bit, pack_watch, pack_clause, pack_part, pack_explained, packed_result};
ghost use Rattle.office.specs.Sending.{sent};

use answer::{Reason, Refusal, copy};
use automaton::Counts;
use demands::decide;
use explain::{Explanation, explain, satisfies};
use field::{start, step};
use image::{read, write};
use judge::{Finding, Verdict, judge};
use lasso::Lasso;
use merge::merge;
use normalform::normalize;
use report::REPORT_BYTES;
use sameword::compare;
use translation::{Translated, translate};

// A refusal's number and place.
fn pack_refusal(refusal: Refusal) -> u64
    ensures { result ≡ pack_refusal (reason_number refusal.reason) refusal.place }
{
    u64::from(u8::from(refusal.reason)) + 256 * ((refusal.place % 4294967296) as u64)
}

// The three counts.
fn pack_three(counts: Counts) -> u64
    ensures { result ≡ pack_three counts }
{
    256 * ((counts.states % 256) as u64)
        + 65536 * ((counts.transitions % 65536) as u64)
        + 4294967296 * ((counts.initial % 256) as u64)
}

// How many bytes are stored.
fn pack_size(length: usize) -> u64
    ensures { result ≡ pack_size length }
{
    256 * ((length % 4294967296) as u64)
}

// The answer of read: the counts, or the refusal.
#[tactic(auto, unfolding(crate::specs::Packing::pack_counts))]
fn pack_counted(counted: Result<Counts, Refusal>) -> u64
    ensures { result ≡ pack_counts (answer counted) }
{
    counted.map_or_else(pack_refusal, pack_three)
}

// The answer of translate: the counts and above them the conflicts, or the refusal.
#[tactic(auto, unfolding(crate::specs::Packing::pack_counts, crate::specs::Packing::pack_conflicts,),)]
fn pack_translated(translated: Result<Translated, Refusal>) -> u64
    ensures { result ≡ pack_counts (told_counts translated) + pack_conflicts (told_conflicts translated) }
{
    match translated {
        Ok(found) => pack_three(found.counts) + 1099511627776 * u64::from(found.conflicts),
        Err(refusal) => pack_refusal(refusal),
    }
}

// The answer of normalize, merge or write: the length, or the refusal.
#[tactic(auto, unfolding(crate::specs::Packing::pack_length))]
fn pack_stored(stored: Result<usize, Refusal>) -> u64
    ensures { result ≡ pack_length (answer stored) }
{
    stored.map_or_else(pack_refusal, pack_size)
}

// The answer of judge: 1 above the lowest byte for kept, 0 for broken, and above that the pairs taken; or the refusal.
#[tactic(auto, unfolding(crate::specs::Packing::pack_verdict))]
fn pack_judged(judged: Result<Finding, Refusal>) -> u64
    ensures { result ≡ pack_verdict (answer judged) }
{
    match judged {
        Ok(finding) => {
            let pairs = 65536 * ((finding.pairs % 65536) as u64);
            match finding.verdict {
                Verdict::Kept => 256 + pairs,
                Verdict::Broken => pairs,
            }
        }
        Err(refusal) => pack_refusal(refusal),
    }
}

// The answer of compare, start, step or satisfies: 1 above the lowest byte for yes, 0 for no; or the refusal.
#[tactic(auto, unfolding(crate::specs::Packing::pack_bit))]
fn pack_bit(answered: Result<bool, Refusal>) -> u64
    ensures { result ≡ pack_bit (answer answered) }
{
    match answered {
        Ok(yes) => 256 * u64::from(yes),
        Err(refusal) => pack_refusal(refusal),
    }
}

// The number of a clause.
fn pack_clause(clause: usize) -> u64
    ensures { result ≡ pack_clause clause }
{
    256 * ((clause % 255) as u64 + 1)
}

// Where a part begins, of a lasso with so many letters in its stem.
fn pack_part(stem: usize, from: usize) -> u64
    ensures { result ≡ pack_part stem from }
{
    if from < stem {
        return 65536 + 16777216 * ((from % 65536) as u64);
    }
    131072 + 16777216 * (((from - stem) % 65536) as u64)
}

// The answer of explain, for a lasso with so many letters in its stem: 0 for kept, the clause that is broken and the part
// that shows where, or the clause alone; or the refusal.
#[tactic(auto, unfolding(crate::specs::Packing::pack_explained))]
fn pack_explained(explained: Result<Explanation, Refusal>, stem: usize) -> u64
    ensures { result ≡ pack_explained stem (answer explained) }
{
    match explained {
        Ok(Explanation::Kept) => 0,
        Ok(Explanation::Broken(clause, from)) => pack_clause(clause) + pack_part(stem, from),
        Ok(Explanation::NeverComes(clause)) => pack_clause(clause),
        Err(refusal) => pack_refusal(refusal),
    }
}

// The normal form of a written rule, a first-edition rule, in the buffer. Its length, or a refusal.
#[unsafe(no_mangle)]
pub extern "C" fn zimboralo_normalize(rule: &[u8], first_edition: &mut [u8]) -> u64
    ensures { packed_slice result first_edition.new
        ≡ pack_buffer (normalizes rule.now first_edition.old) }
{
    pack_stored(normalize(rule, first_edition))
}

// Two first-edition rules as one, the and of both, in the buffer. Its length, or a refusal.
#[unsafe(no_mangle)]
pub extern "C" fn zimboralo_merge(first: &[u8], second: &[u8], merged: &mut [u8]) -> u64
    ensures { packed_slice result merged.new
        ≡ pack_buffer (merges first.now second.now merged.old) }
{
    pack_stored(merge(first, second, merged))
}

// The automaton of a written rule, as records in the three tables. Its counts and conflicts, or a refusal.
#[unsafe(no_mangle)]
pub extern "C" fn zimboralo_translate(
    rule: &[u8],
    states: &mut [u8],
    transitions: &mut [u8],
    initial: &mut [u8],
) -> u64
    ensures { packed_tables result states.new transitions.new initial.new
        ≡ pack_translated (translates rule.now
        states.old transitions.old initial.old) }
{
    pack_translated(translate(rule, states, transitions, initial))
}

// Tables with their counts as an image at the buffer's start. The image's length, or a refusal.
#[unsafe(no_mangle)]
pub extern "C" fn zimboralo_write(
    states: &[u8],
    state_count: usize,
    transitions: &[u8],
    transition_count: usize,
    initial: &[u8],
    initial_count: usize,
    image: &mut [u8],
) -> u64
    ensures { packed_slice result image.new
        ≡ pack_buffer (writes (counts_of state_count transition_count initial_count)
        states.now transitions.now initial.now image.old) }
{
    let counts = Counts {
        states: state_count,
        transitions: transition_count,
        initial: initial_count,
    };
    pack_stored(write(states, transitions, initial, counts, image))
}

// An image into three tables. Its counts, or a refusal.
#[unsafe(no_mangle)]
pub extern "C" fn zimboralo_read(
    image: &[u8],
    states: &mut [u8],
    transitions: &mut [u8],
    initial: &mut [u8],
) -> u64
    ensures { packed_tables result states.new transitions.new initial.new
        ≡ pack_outcome (read_into image.now
        states.old transitions.old initial.old) }
{
    pack_counted(read(image, states, transitions, initial))
}

// A lasso, stem and cycle, against an image. The verdict on the letters that remain, or a refusal.
#[unsafe(no_mangle)]
pub extern "C" fn zimboralo_judge(image: &[u8], stem: &[u8], cycle: &[u8], work: &mut [u8]) -> u64
    ensures { packed_slice result work.new
        ≡ pack_judgement (judged image.now stem.now cycle.now work.old) }
{
    pack_judged(judge(image, &Lasso { stem, cycle }, work))
}

// A lasso against a rule: its automaton in the three tables, its image, and the verdict on the letters that remain; or
// a refusal.
#[unsafe(no_mangle)]
pub extern "C" fn zimboralo_decide(
    rule: &[u8],
    stem: &[u8],
    cycle: &[u8],
    states: &mut [u8],
    transitions: &mut [u8],
    initial: &mut [u8],
    image: &mut [u8],
    work: &mut [u8],
) -> u64
    ensures { packed_decision result states.new transitions.new initial.new
        image.new work.new
        ≡ pack_decision (decided rule.now stem.now cycle.now
        states.old transitions.old initial.old
        image.old work.old) }
{
    let lasso = Lasso { stem, cycle };
    pack_judged(decide(rule, &lasso, states, transitions, initial, image, work))
}

// Whether the letters of two lassos that remain are one word; or a refusal, at place 0 for the first lasso and 1 for
// the second.
#[unsafe(no_mangle)]
pub extern "C" fn zimboralo_same_word(
    stem: &[u8],
    cycle: &[u8],
    other_stem: &[u8],
    other_cycle: &[u8],
) -> u64
    ensures { result ≡ pack_bit (compared stem.now cycle.now
        other_stem.now other_cycle.now) }
{
    let other = Lasso {
        stem: other_stem,
        cycle: other_cycle,
    };
    pack_bit(compare(&Lasso { stem, cycle }, &other))
}

// The automaton of a written rule that the field unit takes, as of zimboralo_translate; or a refusal, 29 for an until.
#[unsafe(no_mangle)]
pub extern "C" fn zimboralo_field_translate(
    rule: &[u8],
    states: &mut [u8],
    transitions: &mut [u8],
    initial: &mut [u8],
) -> u64
    ensures { packed_tables result states.new transitions.new initial.new
        ≡ pack_translated (profile_translates rule.now
        states.old transitions.old initial.old) }
{
    pack_translated(profile::translate(rule, states, transitions, initial))
}

// The field unit's set before the first letter. Whether the alarm is raised, or a refusal.
#[unsafe(no_mangle)]
pub extern "C" fn zimboralo_field_start(image: &[u8], set: &mut [u8]) -> u64
    ensures { packed_slice result set.new ≡ pack_watch (started image.now set.old) }
{
    pack_bit(start(image, set))
}

// The field unit's set after one letter more. Whether the alarm is raised, or a refusal.
#[unsafe(no_mangle)]
pub extern "C" fn zimboralo_field_step(image: &[u8], set: &mut [u8], letter: u8) -> u64
    ensures { packed_slice result set.new
        ≡ pack_watch (stepped image.now set.old letter) }
{
    pack_bit(step(image, set, letter))
}

// The first clause of a rule that a lasso breaks, and the part of the lasso that shows where; or a refusal.
#[unsafe(no_mangle)]
pub extern "C" fn zimboralo_explain(rule: &[u8], stem: &[u8], cycle: &[u8]) -> u64
    ensures { result ≡ pack_explained (length stem.now)
        (explained rule.now stem.now cycle.now) }
{
    pack_explained(explain(rule, &Lasso { stem, cycle }), stem.len())
}

// Whether a lasso satisfies a written rule, by the meaning of rules and with no automaton; or a refusal.
#[unsafe(no_mangle)]
pub extern "C" fn zimboralo_satisfies(rule: &[u8], stem: &[u8], cycle: &[u8]) -> u64
    ensures { result ≡ pack_bit (satisfied rule.now stem.now cycle.now) }
{
    pack_bit(satisfies(rule, &Lasso { stem, cycle }))
}

// What is sent of a lasso against an image, for the rule of that number, at the start of the lent bytes. 0, whatever
// judging says, or a refusal.
#[unsafe(no_mangle)]
pub extern "C" fn zimboralo_report(
    number: u16,
    image: &[u8],
    stem: &[u8],
    cycle: &[u8],
    work: &mut [u8],
    report: &mut [u8],
) -> u64
    ensures { packed_result result work.new report.new
        ≡ sent number image.now stem.now cycle.now
        work.old report.old }
{
    if report.len() < REPORT_BYTES {
        return pack_refusal(Refusal {
            reason: Reason::TableTooShort,
            place: 0,
        });
    }
    let bytes = report::report(number, image, &Lasso { stem, cycle }, work);
    copy(report, &bytes);
    0
}
