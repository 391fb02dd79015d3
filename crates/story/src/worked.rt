ghost use Rattle.std.specs.Prelude.{Decides};
ghost use Rattle.layer.specs.Judged.{AcceptsEach};

use crate::rule::{BREAK, DRIVEN, THREADED};
use crate::telling::yes_or_no;
use crate::trouble::Trouble;
use kinds::setup;
use layer::judging::{judge, judge_stretches};
use layer::over::Over;
use patterns::always::Always;
use patterns::eventually::Eventually;
use patterns::form::Form;
use patterns::precisely::Precisely;
use rules::pattern::Pattern;
use rules::scope::Scope;
use scopes::before::Before;
use scopes::between::Between;
use scopes::globally::Globally;
use std::io;

// Whether each judged stretch of the words is accepted: a verdict by the call that carries the layer law.
fn is_kept<S: Scope + Drop, P: Pattern + Drop>(scope: S, pattern: P, words: &[u16]) -> bool
    ensures { Decides result (AcceptsEach (S.Scope.marks scope) (S.Scope.answers scope) (P.Pattern.meaning pattern) words.now) }
{
    judge_stretches(scope, pattern, words)
}

fn tell_verdict(rt: &HostRuntime, words: &[u16], kept: bool) -> io::Result<()> {
    println!(rt; "  {words:?}: {}", yes_or_no(kept))
}

// Judges one list of words by a scope and a pattern, and tells the verdict under the rule's title.
fn tell_stretches<S: Scope + Drop, P: Pattern + Drop>(
    rt: &HostRuntime,
    title: &str,
    scope: S,
    pattern: P,
    words: &[u16],
) -> io::Result<()> {
    println!(rt; "{title}")?;
    tell_verdict(rt, words, is_kept(scope, pattern, words))
}

// Judges lists of words by one rule, which starts anew with each, and tells each verdict under the rule's title.
fn tell_rule<R: Pattern + Drop>(
    rt: &HostRuntime,
    title: &str,
    mut rule: R,
    records: &[&[u16]],
) -> io::Result<()> {
    println!(rt; "{title}")?;
    for words in records {
        tell_verdict(rt, words, judge(&mut rule, words))?;
    }
    Ok(())
}

pub fn tell(rt: &HostRuntime) -> Result<(), Trouble> {
    let before: Before = setup::side(THREADED)?;
    let once: Eventually = setup::counting(Form::AtLeast, DRIVEN, 1)?;
    tell_stretches(
        rt,
        "Before T, eventually D at least once",
        before,
        once,
        &[0, 0],
    )?;

    // two rises of D, and three places with it
    let rises = [1, 1, 0, 1];
    let eventually: Eventually = setup::counting(Form::AtMost, DRIVEN, 2)?;
    let title = "Globally, eventually D at most 2 times";
    tell_stretches(rt, title, Globally::new(), eventually, &rises)?;
    let precisely: Precisely = setup::counting(Form::AtMost, DRIVEN, 2)?;
    let title = "Globally, precisely D at most 2 times";
    tell_stretches(rt, title, Globally::new(), precisely, &rises)?;

    let precedes = setup::precedes(&[DRIVEN], &[BREAK, THREADED])?;
    let rule = Over::new(Globally::new(), precedes);
    tell_rule(rt, "Globally, D precedes (B, T)", rule, &[&[3, 4], &[2, 0]])?;

    let between: Between = setup::span(BREAK, THREADED)?;
    let before: Before = setup::side(DRIVEN)?;
    let always: Always = setup::throughout(BREAK)?;
    let rule = Over::new(between, Over::new(before, always));
    let records: [&[u16]; 3] = [&[2, 2, 1, 0, 4], &[2, 0, 1, 4], &[2, 0, 4]];
    tell_rule(rt, "Between B and T, before D, always B", rule, &records)?;
    Ok(())
}
