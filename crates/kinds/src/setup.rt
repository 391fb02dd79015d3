// The named kinds with their settings, each set up in one call.
ghost use Rattle.std.specs.Prelude.{◌≡◌, ◌<◌, ◌≤◌, true, ◌&&◌};
ghost use Rattle.chains.specs.Chains.{fair};
ghost use Rattle.chains.specs.Settings.{PrecedesHas, RespondsHas};
ghost use Rattle.encoders.specs.Settings.{HasWidth};
ghost use Rattle.patterns.specs.Places.{throughout as throughout_by, counted};
ghost use Rattle.rules.specs.Conditions.{IsCondition};
ghost use Rattle.rules.specs.Settings.{IsFreshPattern, IsFreshScope, SetUp};
ghost use Rattle.scopes.specs.Marks.{side_mark, between_mark};

use chains::precedes::Precedes;
use chains::responds::Responds;
use encoders::letters::Letters;
use patterns::counting::Counting;
use patterns::form::Form;
use patterns::throughout::Throughout;
use rules::pattern::Pattern;
use rules::refusal::SettingRefusal;
use rules::scope::Scope;
use scopes::side::Side;
use scopes::span::Span;

// Letters of so many bits.
pub fn letters(width: u8) -> Result<Letters, SettingRefusal>
    ensures { SetUp result (width ≤ 6) (λ x. HasWidth x width) }
{
    let mut letters = Letters::new();
    letters.set_width(width)?;
    Ok(letters)
}

// Before or after a condition.
pub fn side<const AFTER: bool>(condition: u8) -> Result<Side<AFTER>, SettingRefusal>
    ensures { SetUp result (IsCondition condition) (λ x. IsFreshScope ⟦<Side<AFTER> as Scope>⟧ x (side_mark AFTER condition) AFTER) }
{
    let mut scope = Side::new();
    scope.set_condition(condition)?;
    Ok(scope)
}

// Between two conditions, or after the one unless the other.
pub fn span<const UNCLOSED: bool>(
    opening: u8,
    closing: u8,
) -> Result<Span<UNCLOSED>, SettingRefusal>
    ensures { SetUp result (IsCondition opening × IsCondition closing) (λ x. IsFreshScope ⟦<Span<UNCLOSED> as Scope>⟧ x (between_mark opening closing) UNCLOSED) }
{
    let mut scope = Span::new();
    scope.set_conditions(opening, closing)?;
    Ok(scope)
}

// Always a condition, or never.
pub fn throughout<const HELD: bool>(condition: u8) -> Result<Throughout<HELD>, SettingRefusal>
    ensures { SetUp result (IsCondition condition) (λ x. IsFreshPattern ⟦<Throughout<HELD> as Pattern>⟧ x (throughout_by HELD condition)) }
{
    let mut pattern = Throughout::new();
    pattern.set_condition(condition)?;
    Ok(pattern)
}

// Eventually a condition, or precisely, so many times.
pub fn counting<const RISES: bool>(
    form: Form,
    condition: u8,
    times: u16,
) -> Result<Counting<RISES>, SettingRefusal>
    ensures { SetUp result (IsCondition condition) (λ x. IsFreshPattern ⟦<Counting<RISES> as Pattern>⟧ x (counted RISES form condition times)) }
{
    let mut pattern = Counting::new(form);
    pattern.set_condition(condition)?;
    pattern.set_times(times);
    Ok(pattern)
}

// `responds` is the same of its own type: a trait for both would be longer than the two bodies.
pub fn precedes(first: &[u8], second: &[u8]) -> Result<Precedes, SettingRefusal>
    ensures { SetUp result (fair first.now && fair second.now ≡ true) (λ x. PrecedesHas x first.now second.now) }
{
    let mut pattern = Precedes::new();
    pattern.set_chains(first, second)?;
    Ok(pattern)
}

// The response is to respond to the stimulus.
pub fn responds(stimulus: &[u8], response: &[u8]) -> Result<Responds, SettingRefusal>
    ensures { SetUp result (fair stimulus.now && fair response.now ≡ true) (λ x. RespondsHas x stimulus.now response.now) }
{
    let mut pattern = Responds::new();
    pattern.set_chains(stimulus, response)?;
    Ok(pattern)
}
