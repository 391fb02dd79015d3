// The library's side: its kinds, set up as the texts say. What a setting refuses stays as it was.
use crate::reply::Refusal;
use chains::precedes::Precedes;
use chains::responds::Responds;
use encoders::contacts::Contacts;
use encoders::letters::Letters;
use encoders::moisture::Moisture;
use kinds::choice::Choice;
use patterns::always::Always;
use patterns::counting::Counting;
use patterns::eventually::Eventually;
use patterns::form::Form;
use patterns::never::Never;
use patterns::precisely::Precisely;
use patterns::throughout::Throughout;
use scopes::after::After;
use scopes::after_unless::AfterUnless;
use scopes::before::Before;
use scopes::between::Between;
use scopes::globally::Globally;
use scopes::side::Side;
use scopes::span::Span;
use second::coding::{CodingKind, Setting};
use second::pattern::{PatternText, Times};
use second::scope::ScopeText;
use tables::pattern::TablePattern;
use tables::scope::TableScope;

type Sighted = Choice<Before, After>;

type Spanned = Choice<Between, AfterUnless>;

type Whole<'a> = Choice<Globally, TableScope<'a>>;

pub type AnyScope<'a> = Choice<Whole<'a>, Choice<Sighted, Spanned>>;

type Plain = Choice<Always, Never>;

type Counted = Choice<Eventually, Precisely>;

type Chained = Choice<Precedes, Responds>;

pub type AnyPattern<'a> = Choice<Choice<Plain, TablePattern<'a>>, Choice<Counted, Chained>>;

pub type AnyEncoder = Choice<Contacts, Choice<Moisture, Letters>>;

// What takes its settings from a text of its kind.
// A trait and no closure: a `Choice` of kinds is set as the one that it holds.
pub trait Settable<T> {
    fn set(&mut self, text: T) -> Result<(), Refusal>;
}

// The kind once it was given the settings of a text, which it may have refused.
fn held<T, K: Settable<T>>(new: K, text: T) -> K {
    let mut kind = new;
    let _ = kind.set(text);
    kind
}

impl<T, A: Settable<T>, B: Settable<T>> Settable<T> for Choice<A, B> {
    fn set(&mut self, text: T) -> Result<(), Refusal> {
        match self {
            Choice::First(a) => a.set(text),
            Choice::Second(b) => b.set(text),
        }
    }
}

// Each kind is given texts of its own kind alone. Kinds that one parameter tells apart share an impl; the impls that
// remain differ in a variant and a call.
impl Settable<Setting> for Contacts {
    fn set(&mut self, text: Setting) -> Result<(), Refusal> {
        match text {
            Setting::Contacts(c) => self.set_contacts(c)?,
            Setting::ContactTerm(term) => {
                self.add_term(term.condition, term.ask.care, term.ask.want)?;
            }
            _ => {}
        }
        Ok(())
    }
}

impl Settable<Setting> for Moisture {
    fn set(&mut self, text: Setting) -> Result<(), Refusal> {
        if let Setting::EventTerm(term) = text {
            self.add_term(term.condition, term.ask.code, term.ask.low, term.ask.high)?;
        }
        Ok(())
    }
}

impl Settable<Setting> for Letters {
    fn set(&mut self, text: Setting) -> Result<(), Refusal> {
        if let Setting::Width(width) = text {
            self.set_width(width)?;
        }
        Ok(())
    }
}

// A new encoder of the kind.
pub fn new_encoder(kind: CodingKind) -> AnyEncoder {
    match kind {
        CodingKind::Contacts => Choice::First(Contacts::new()),
        CodingKind::Events => Choice::Second(Choice::First(Moisture::new())),
        CodingKind::Letters => Choice::Second(Choice::Second(Letters::new())),
    }
}

pub fn encoder_of(kind: CodingKind, settings: &[Setting]) -> AnyEncoder {
    settings.iter().fold(
        new_encoder(kind),
        |encoder, setting| held(encoder, *setting),
    )
}

// Globally has no settings.
impl<'a> Settable<ScopeText<'a>> for Globally {
    fn set(&mut self, _text: ScopeText<'a>) -> Result<(), Refusal> {
        Ok(())
    }
}

impl<'a, const AFTER: bool> Settable<ScopeText<'a>> for Side<AFTER> {
    fn set(&mut self, text: ScopeText<'a>) -> Result<(), Refusal> {
        if let ScopeText::Before(c) | ScopeText::After(c) = text {
            self.set_condition(c)?;
        }
        Ok(())
    }
}

impl<'a, const UNCLOSED: bool> Settable<ScopeText<'a>> for Span<UNCLOSED> {
    fn set(&mut self, text: ScopeText<'a>) -> Result<(), Refusal> {
        if let ScopeText::Between(q, r) | ScopeText::AfterUnless(q, r) = text {
            self.set_conditions(q, r)?;
        }
        Ok(())
    }
}

impl<'a> Settable<ScopeText<'a>> for TableScope<'a> {
    fn set(&mut self, text: ScopeText<'a>) -> Result<(), Refusal> {
        if let ScopeText::Table(table) = text {
            self.load(table.bytes)?;
        }
        Ok(())
    }
}

// A new scope of the text's kind.
pub fn new_scope<'a>(text: ScopeText<'a>) -> AnyScope<'a> {
    match text {
        ScopeText::Globally => Choice::First(Choice::First(Globally::new())),
        ScopeText::Table(_) => Choice::First(Choice::Second(TableScope::new())),
        ScopeText::Before(_) => Choice::Second(Choice::First(Choice::First(Before::new()))),
        ScopeText::After(_) => Choice::Second(Choice::First(Choice::Second(After::new()))),
        ScopeText::Between(_, _) => Choice::Second(Choice::Second(Choice::First(Between::new()))),
        ScopeText::AfterUnless(_, _) => {
            Choice::Second(Choice::Second(Choice::Second(AfterUnless::new())))
        }
    }
}

pub fn scope_of<'a>(text: ScopeText<'a>) -> AnyScope<'a> {
    held(new_scope(text), text)
}

// No `From`: neither form is of this crate.
fn form_of(times: Times) -> Form {
    match times.form {
        second::pattern::Form::Exactly => Form::Exactly,
        second::pattern::Form::AtLeast => Form::AtLeast,
        second::pattern::Form::AtMost => Form::AtMost,
    }
}

impl<'a, const HELD: bool> Settable<PatternText<'a>> for Throughout<HELD> {
    fn set(&mut self, text: PatternText<'a>) -> Result<(), Refusal> {
        if let PatternText::Always(c) | PatternText::Never(c) = text {
            self.set_condition(c)?;
        }
        Ok(())
    }
}

impl<'a, const RISES: bool> Settable<PatternText<'a>> for Counting<RISES> {
    fn set(&mut self, text: PatternText<'a>) -> Result<(), Refusal> {
        if let PatternText::Eventually(times, c) | PatternText::Precisely(times, c) = text {
            self.set_times(times.number);
            self.set_condition(c)?;
        }
        Ok(())
    }
}

impl<'a> Settable<PatternText<'a>> for Precedes {
    fn set(&mut self, text: PatternText<'a>) -> Result<(), Refusal> {
        if let PatternText::Precedes(first, second) = text {
            self.set_chains(first, second)?;
        }
        Ok(())
    }
}

impl<'a> Settable<PatternText<'a>> for Responds {
    fn set(&mut self, text: PatternText<'a>) -> Result<(), Refusal> {
        if let PatternText::Responds(first, second) = text {
            self.set_chains(first, second)?;
        }
        Ok(())
    }
}

impl<'a> Settable<PatternText<'a>> for TablePattern<'a> {
    fn set(&mut self, text: PatternText<'a>) -> Result<(), Refusal> {
        if let PatternText::Table(table) = text {
            self.load(table.bytes)?;
        }
        Ok(())
    }
}

// A new pattern of the text's kind and form.
pub fn new_pattern<'a>(text: PatternText<'a>) -> AnyPattern<'a> {
    match text {
        PatternText::Always(_) => Choice::First(Choice::First(Choice::First(Always::new()))),
        PatternText::Never(_) => Choice::First(Choice::First(Choice::Second(Never::new()))),
        PatternText::Table(_) => Choice::First(Choice::Second(TablePattern::new())),
        PatternText::Eventually(times, _) => {
            let eventually = Eventually::new(form_of(times));
            Choice::Second(Choice::First(Choice::First(eventually)))
        }
        PatternText::Precisely(times, _) => {
            let precisely = Precisely::new(form_of(times));
            Choice::Second(Choice::First(Choice::Second(precisely)))
        }
        PatternText::Precedes(_, _) => {
            Choice::Second(Choice::Second(Choice::First(Precedes::new())))
        }
        PatternText::Responds(_, _) => {
            Choice::Second(Choice::Second(Choice::Second(Responds::new())))
        }
    }
}

pub fn pattern_of<'a>(text: PatternText<'a>) -> AnyPattern<'a> {
    held(new_pattern(text), text)
}
