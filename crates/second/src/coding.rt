ghost use Rattle.std.specs.Prelude.{◌≡◌, ◌≢◌, ◌<◌, ◌⊎◌, ◌++◌, ◌∷◌, [], true, false, nat_le, Err, IfErr, OnErr, OnOk};
ghost use Rattle.second.specs.Settings.{kind_of, held, with_setting, in_range, is_term, bare, StopOf};
ghost use Rattle.second.specs.declared.refusal.Stop.TheVariants.{Refused};
ghost use Rattle.second.specs.declared.refusal.Why.TheVariants.{Range};

use crate::refusal::{Stop, Why};
use crate::words::{bit, has};
use std::alloc::{AllocError, Global};

// How many terms a condition can have.
const MOST_TERMS: usize = 8;

// What a term asks of a sample, within what is set.
pub trait Ask {
    type Limit: Copy;

    type Sample: Copy;

    fn is_fair(&self, limit: Self::Limit) -> bool;

    fn fits(&self, sample: Self::Sample) -> bool;
}

// A term: a condition, and what it asks of a sample.
#[derive(Clone, Copy, Debug)]
pub struct Term<T> {
    pub condition: u8,
    pub ask: T,
}

#[derive(Clone, Copy, Debug)]
pub struct ContactAsk {
    pub care: u8,
    pub want: u8,
}

#[derive(Clone, Copy, Debug)]
pub struct EventAsk {
    pub code: u8,
    pub low: i32,
    pub high: i32,
}

#[derive(Clone, Copy)]
pub struct Event {
    code: u8,
    hundredths: i32,
}

// A setting of an encoder.
#[derive(Clone, Copy, Debug)]
pub enum Setting {
    Contacts(u8),
    ContactTerm(Term<ContactAsk>),
    EventTerm(Term<EventAsk>),
    Width(u8),
}

#[derive(Clone, Copy, PartialEq, Debug)]
pub enum CodingKind {
    Contacts,
    Events,
    Letters,
}

// An encoder: its kind, and all that was set, in the order in which it came. A list of terms for each condition is the
// library's way. No enum with values: a setting of another kind is judged by what was set before it.
#[derive(Drop)]
pub struct Coding {
    pub kind: CodingKind,
    contacts: u8,
    width: u8,
    contact_terms: Vec<Term<ContactAsk>>,
    event_terms: Vec<Term<EventAsk>>,
}

fn contact(byte: u8, k: u8) -> bool {
    has(u16::from(byte), k)
}

// A bit of the byte is set that is not among the lowest ones.
fn has_above(byte: u8, lowest: u8) -> bool {
    (lowest..8).any(|k| contact(byte, k))
}

impl Ask for ContactAsk {
    // the number of contacts
    type Limit = u8;

    type Sample = u8;

    // Care speaks of contacts that there are, and want of contacts under care.
    fn is_fair(&self, contacts: u8) -> bool {
        !has_above(self.care, contacts)
            && (0u8..8).all(|k| contact(self.care, k) || !contact(self.want, k))
    }

    // Each contact under care stands as want has it.
    fn fits(&self, byte: u8) -> bool {
        (0u8..8).all(|k| !contact(self.care, k) || contact(byte, k) == contact(self.want, k))
    }
}

fn is_reading(hundredths: i32) -> bool {
    -10_000 <= hundredths && hundredths <= 10_000
}

// Two bytes as a reading: the number that they are, or the negative one that is the same by 65,536.
// Worked out by hand: the library reads them in one call, and this is to be another road.
fn reading(high: u8, low: u8) -> i32 {
    let plain = i32::from(high) * 256 + i32::from(low);
    if high < 128 { plain } else { plain - 65_536 }
}

impl Ask for EventAsk {
    type Limit = ();

    type Sample = Event;

    fn is_fair(&self, _none: ()) -> bool {
        self.low <= self.high && is_reading(self.low) && is_reading(self.high)
    }

    fn fits(&self, event: Event) -> bool {
        self.code == event.code && self.low <= event.hundredths && event.hundredths <= self.high
    }
}

// Adds a term. One that no word asks for is taken, too, where there is no memory to keep it.
fn add<T: Ask + Copy>(
    terms: &mut Vec<Term<T>>,
    term: Term<T>,
    limit: T::Limit,
    is_asked: bool,
) -> Result<(), Stop>
    ensures range { 15 < term.condition → result ≡ Err (Refused (bare Range)) }
    ensures stopped { IfErr result (StopOf (nat_le term.condition 15) true (is_asked ≡ true)) }
    ensures refused { OnErr result (terms.new.items ≡ terms.old.items) }
    ensures taken { OnOk result ((terms.new.items ≡ terms.old.items ++ term ∷ []) ⊎ ((is_asked ≡ false) × (terms.new.items ≡ terms.old.items))) }
{
    if term.condition > 15 {
        return Err(Stop::from(Why::Range));
    }
    if !term.ask.is_fair(limit) {
        return Err(Stop::from(Why::Term));
    }
    let same = terms
        .iter()
        .filter(|other| other.condition == term.condition)
        .count();
    if same >= MOST_TERMS {
        return Err(Stop::from(Why::ManyTerms));
    }
    match terms.push(term) {
        Err(failed) if is_asked => Err(Stop::NoMemory(AllocError::from(failed))),
        _ => Ok(()),
    }
}

// The word of the conditions of which a term asks no more than the sample is.
fn word_of<T: Ask>(terms: &[Term<T>], sample: T::Sample) -> u16 {
    terms
        .iter()
        .filter(|term| term.ask.fits(sample))
        .fold(0, |word, term| word | bit(term.condition))
}

impl Coding {
    pub fn new(heap: Global, kind: CodingKind) -> Coding {
        Coding {
            kind,
            contacts: 8,
            width: 0,
            contact_terms: Vec::new(heap),
            event_terms: Vec::new(heap),
        }
    }

    pub fn size(&self) -> usize {
        match self.kind {
            CodingKind::Contacts | CodingKind::Letters => 1,
            CodingKind::Events => 3,
        }
    }

    // Takes a setting, or refuses it. One of another kind is taken or refused alike, and changes no word: so it is
    // taken, too, where there is no memory to keep it.
    pub fn set(&mut self, setting: Setting) -> Result<(), Stop>
        ensures range { in_range setting ≡ false → result ≡ Err (Refused (bare Range)) }
        ensures stopped { IfErr result (StopOf (in_range setting) (is_term setting) (kind_of setting ≡ self.old.kind)) }
        ensures refused { OnErr result (held self.new ≡ held self.old) }
        ensures taken { OnOk result ((held self.new ≡ with_setting setting (held self.old)) ⊎ ((is_term setting ≡ true) × (kind_of setting ≢ self.old.kind) × (held self.new ≡ held self.old))) }
    {
        match setting {
            Setting::Contacts(contacts) => {
                if contacts == 0 || contacts > 8 {
                    return Err(Stop::from(Why::Range));
                }
                self.contacts = contacts;
                self.contact_terms.clear();
                Ok(())
            }
            Setting::Width(width) => {
                if width > 6 {
                    return Err(Stop::from(Why::Range));
                }
                self.width = width;
                Ok(())
            }
            Setting::ContactTerm(term) => add(
                &mut self.contact_terms,
                term,
                self.contacts,
                self.kind == CodingKind::Contacts,
            ),
            Setting::EventTerm(term) => add(
                &mut self.event_terms,
                term,
                (),
                self.kind == CodingKind::Events,
            ),
        }
    }

    // The word of a part of a record.
    pub fn word(&self, part: &[u8]) -> Result<u16, Why> {
        match (self.kind, part) {
            (CodingKind::Contacts, [byte]) => {
                if has_above(*byte, self.contacts) {
                    return Err(Why::Contact);
                }
                Ok(word_of(&self.contact_terms, *byte))
            }
            (CodingKind::Letters, [byte]) => {
                if has_above(*byte, self.width) {
                    return Err(Why::Letter);
                }
                Ok(u16::from(*byte))
            }
            (CodingKind::Events, [code, high, low]) => {
                let event = Event {
                    code: *code,
                    hundredths: reading(*high, *low),
                };
                if !is_reading(event.hundredths) {
                    return Err(Why::Reading);
                }
                Ok(word_of(&self.event_terms, event))
            }
            _ => Err(Why::SampleSize),
        }
    }
}

#[cfg(test)]
mod tests {
    use super::*;

    // What each setting of another kind comes to; with the letter 2 the word stays as it was.
    #[test]
    fn a_setting_of_another_kind_changes_no_word(rt: HostRuntime) {
        let contact = ContactAsk { care: 4, want: 4 };
        let event = EventAsk {
            code: 2,
            low: -1,
            high: 1,
        };
        let mut letters = Coding::new(rt.alloc(), CodingKind::Letters);
        let settings = [
            Setting::Width(2),
            Setting::ContactTerm(Term {
                condition: 3,
                ask: contact,
            }),
            Setting::EventTerm(Term {
                condition: 3,
                ask: event,
            }),
            Setting::Contacts(2),
        ];
        for setting in settings {
            assert!(rt; letters.set(setting).is_ok());
        }
        assert_eq!(rt; letters.word(&[2]), Ok(2));
        // judged by the two contacts set before it
        let wrong = letters
            .set(settings[1])
            .map_err(|stop| stop.refusal().map(|refusal| refusal.why));
        assert!(rt; matches!(wrong, Err(Ok(Why::Term))));
    }
}
