// The field unit's profile: rules with no until, refusal 29, and their translation.
#![tactic(auto)]

ghost use Rattle.std.specs.Prelude.{◌≡◌, ◌<◌};
ghost use Rattle.answer.specs.Result.{answer};
ghost use Rattle.formula.specs.Rule.{node_count};
ghost use Rattle.automaton.specs.Tables.{TablesRoom};
ghost use Rattle.translation.specs.Conflicts.{told_with};
ghost use Rattle.profile.specs.Profile.{until_at, no_untils, profile_translates};
ghost use Rattle.profile.specs.Memory.{form_translates};

use answer::{Reason, Refusal, first_refused, require};
use automaton::tables_fit;
use formula::{Kind, MAX_BYTES, Rule};
use normalform::check_form;
use translation::{Translated, build_tabled};

// 29 for node n.
fn check_node(form: &Rule<'_>, n: usize) -> Result<(), Refusal>
    requires { n < node_count form.now.bytes.now }
    ensures { answer result ≡ until_at form.now.bytes.now n }
{
    require(form.kind(n) != Kind::Until, Reason::HasUntil, n)
}

// 29.
#[tactic(auto, unfolding(crate::specs::Profile::no_untils))]
fn check_no_untils(form: &Rule<'_>) -> Result<(), Refusal>
    ensures { answer result ≡ no_untils form.now.bytes.now }
{
    first_refused(form.count(), |n| check_node(form, n))
}

// The automaton of a first-edition rule in tables that fit, if it has no until.
fn translate_form(
    form: &Rule<'_>,
    states: &mut [u8],
    transitions: &mut [u8],
    initial: &mut [u8],
) -> Result<Translated, Refusal>
    requires { TablesRoom states.old transitions.old initial.old }
    ensures { told_with result states.new transitions.new initial.new
        ≡ form_translates form.now.bytes.now
        states.old transitions.old initial.old }
{
    check_no_untils(form)?;
    build_tabled(form, states, transitions, initial)
}

// The automaton of a written rule in three tables, if the field unit takes it. Its counts and conflicts, or a refusal.
pub fn translate(
    rule: &[u8],
    states: &mut [u8],
    transitions: &mut [u8],
    initial: &mut [u8],
) -> Result<Translated, Refusal>
    ensures { told_with result states.new transitions.new initial.new
        ≡ profile_translates rule.now
        states.old transitions.old initial.old }
{
    let fits = tables_fit(states.len(), transitions.len(), initial.len());
    require(fits, Reason::TableTooShort, 0)?;
    let mut form = [0u8; MAX_BYTES];
    let n = check_form(rule, &mut form)?;
    translate_form(&Rule::new(&form[..n]), states, transitions, initial)
}
