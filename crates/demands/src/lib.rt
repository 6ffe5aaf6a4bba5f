// From a written rule and a lasso to the verdict: the calls translate, write and judge in a row.
#![tactic(auto)]

ghost use Rattle.std.specs.Prelude.{◌≡◌};
ghost use Rattle.answer.specs.Result.{answer, fine};
ghost use Rattle.translation.specs.Translate.{written_translation};
ghost use Rattle.demands.specs.Demand.{input_check, decision, concluded, decided};

use answer::{Reason, Refusal, require};
use automaton::tables_fit;
use image::{IMAGE_BYTES, write};
use judge::{Finding, WORK_BYTES, judge};
use lasso::Lasso;
use translation::translate;

// translate, write and judge in a row, where 25, 1 to 7, 26, 8, 9 and 28 refuse nothing.
fn decide_checked(
    rule: &[u8],
    lasso: &Lasso<'_>,
    states: &mut [u8],
    transitions: &mut [u8],
    initial: &mut [u8],
    image: &mut [u8],
    work: &mut [u8],
) -> Result<Finding, Refusal>
    requires { input_check rule.now lasso.now.stem.now lasso.now.cycle.now
        states.old transitions.old initial.old image.old work.old ≡ fine }
    ensures { decision (answer result) states.new transitions.new initial.new
        image.new work.new
        ≡ concluded (written_translation rule.now) lasso.now.stem.now lasso.now.cycle.now
        states.old transitions.old initial.old
        image.old work.old }
{
    let translated = translate(rule, states, transitions, initial)?;
    let length = write(states, transitions, initial, translated.counts, image)?;
    judge(&image[..length], lasso, work)
}

// What is refused before anything is stored: 25, 1 to 7 and 26 of the rule, 8, 9 and 28 of the lasso.
#[tactic(auto, unfolding(crate::specs::Demand::input_check, crate::specs::Demand::room_check, automaton::specs::Tables::table_check))]
fn check_input(
    rule: &[u8],
    lasso: &Lasso<'_>,
    states: &[u8],
    transitions: &[u8],
    initial: &[u8],
    image: &[u8],
    work: &[u8],
) -> Result<(), Refusal>
    ensures { answer result ≡ input_check rule.now lasso.now.stem.now lasso.now.cycle.now
        states.now transitions.now initial.now image.now work.now }
{
    let fit = tables_fit(states.len(), transitions.len(), initial.len());
    require(fit, Reason::TableTooShort, 0)?;
    require(IMAGE_BYTES <= image.len(), Reason::TableTooShort, 0)?;
    require(WORK_BYTES <= work.len(), Reason::TableTooShort, 0)?;
    normalform::check(rule)?;
    lasso.check()
}

// Whether what remains of the lasso satisfies the rule: the rule's automaton, its image, and the verdict of judging
// that image. What is known of the input alone is refused before anything is stored.
#[tactic(auto, unfolding(crate::specs::Demand::decided))]
pub fn decide(
    rule: &[u8],
    lasso: &Lasso<'_>,
    states: &mut [u8],
    transitions: &mut [u8],
    initial: &mut [u8],
    image: &mut [u8],
    work: &mut [u8],
) -> Result<Finding, Refusal>
    ensures { decision (answer result) states.new transitions.new initial.new
        image.new work.new
        ≡ decided rule.now lasso.now.stem.now lasso.now.cycle.now
        states.old transitions.old initial.old
        image.old work.old }
{
    check_input(rule, lasso, states, transitions, initial, image, work)?;
    decide_checked(rule, lasso, states, transitions, initial, image, work)
}
