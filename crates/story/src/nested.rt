use crate::rule;
use crate::telling::{tell_feeding, tell_record};
use crate::trouble::Trouble;
use encoders::contacts::Contacts;
use kinds::setup;
use layer::over::Over;
use patterns::never::Never;
use rules::refusal::SettingRefusal;
use scopes::before::Before;
use scopes::between::Between;
use watch::watch::Watch;

// Before S, that never D between B and T.
type NestedWatch = Watch<Contacts, Over<Before, Over<Between, Never>>>;

fn nested_watch() -> Result<NestedWatch, SettingRefusal> {
    let contacts = rule::contacts()?;
    let before: Before = setup::side(rule::STOPPED)?;
    let between: Between = setup::span(rule::BREAK, rule::THREADED)?;
    let never: Never = setup::throughout(rule::DRIVEN)?;
    Ok(Watch::new(contacts, before, Over::new(between, never)))
}

pub fn tell(rt: &HostRuntime) -> Result<(), Trouble> {
    println!(rt; "Before S, never D between B and T, by a watch")?;
    let mut watch = nested_watch()?;
    tell_feeding(rt, &mut watch, &[0, 2, 1, 4])?;
    tell_feeding(rt, &mut watch, &[8])?;
    // the section stops before the tail is threaded, so the break does not end before S
    tell_record(rt, &mut watch, &[0, 2, 1, 8, 4])?;
    Ok(())
}
