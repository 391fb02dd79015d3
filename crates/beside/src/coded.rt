// Encoders: settings, some of them refused, and then parts of records, some of them damaged.
use crate::dice::Dice;
use crate::library::{AnyEncoder, Settable, new_encoder};
use crate::reply::Reply;
use crate::supply::Damage;
use crate::tally::Family;
use rules::encoder::Encoder;
use second::coding::{Coding, CodingKind, ContactAsk, EventAsk, Setting, Term};
use std::alloc::{AllocError, Global};

// An encoder with its settings, and what it is asked.
#[derive(Debug, Drop)]
struct Case {
    kind: CodingKind,
    settings: Vec<Setting>,
    parts: Vec<Vec<u8>>,
}

// An encoder of either side.
trait Asked {
    fn set(&mut self, setting: Setting) -> Result<Reply, AllocError>;

    fn ask(&self, part: &[u8]) -> Reply;
}

impl Asked for AnyEncoder {
    fn set(&mut self, setting: Setting) -> Result<Reply, AllocError> {
        Ok(Reply::of(Settable::set(self, setting).map(|()| Reply::Done)))
    }

    fn ask(&self, part: &[u8]) -> Reply {
        Reply::of(Encoder::ask(self, part).map(word_reply))
    }
}

impl Asked for Coding {
    fn set(&mut self, setting: Setting) -> Result<Reply, AllocError> {
        Reply::heard(Coding::set(self, setting).map(|()| Reply::Done))
    }

    fn ask(&self, part: &[u8]) -> Reply {
        Reply::of(self.word(part).map(word_reply))
    }
}

fn word_reply(word: u16) -> Reply {
    Reply::Accepted(usize::from(word))
}

pub fn kind(dice: &mut Dice) -> CodingKind {
    let choices = [(1, CodingKind::Contacts), (1, CodingKind::Events)];
    dice.choose(3, &choices, CodingKind::Letters)
}

// A bound or a reading: small, or at one of the ends of what is taken.
fn hundredths(dice: &mut Dice) -> i16 {
    let small = i16::from(dice.byte_below(5)) - 2;
    dice.choose(8, &[(1, 10_000 + small), (1, small - 10_000)], small)
}

fn contact_setting(dice: &mut Dice, condition: u8) -> Setting {
    if dice.one_in(25) {
        return Setting::Contacts(dice.byte_below(10));
    }
    let most = if dice.one_in(3) { 255 } else { 8 };
    let care = dice.byte_below(most);
    let want = dice.byte_below(most);
    let inside = !dice.one_in(8);
    let want = if inside { want & care } else { want };
    Setting::ContactTerm(Term {
        condition,
        ask: ContactAsk { care, want },
    })
}

// A setting of a kind; it may be refused.
fn setting(dice: &mut Dice, kind: CodingKind) -> Setting {
    let condition = dice.condition();
    match kind {
        CodingKind::Contacts => contact_setting(dice, condition),
        CodingKind::Events => Setting::EventTerm(Term {
            condition,
            ask: EventAsk {
                code: dice.byte_below(3),
                low: i32::from(hundredths(dice)) - i32::from(dice.byte_below(3)),
                high: i32::from(hundredths(dice)) + i32::from(dice.byte_below(3)),
            },
        }),
        CodingKind::Letters => Setting::Width(dice.byte_below(8)),
    }
}

// Settings of a kind: a few, and now and then so many that a condition has all its terms.
pub fn settings(dice: &mut Dice, kind: CodingKind) -> Result<Vec<Setting>, AllocError> {
    let count = if dice.one_in(6) { 32 } else { dice.below(7) };
    let heap = dice.heap;
    let mut settings: Vec<Setting> = (0..count).map(|_| setting(dice, kind)).collect(heap)?;
    if let CodingKind::Letters = kind {
        if !dice.one_in(6) {
            settings.push(Setting::Width(3))?;
        }
    }
    Ok(settings)
}

// Appends the bytes of a sample of the kind, which may be refused.
pub fn push_sample(
    dice: &mut Dice,
    kind: CodingKind,
    bytes: &mut Vec<u8>,
) -> Result<(), AllocError> {
    if let CodingKind::Events = kind {
        bytes.push(dice.byte_below(3))?;
        return bytes.extend_from_slice(&hundredths(dice).to_be_bytes());
    }
    let most = if dice.one_in(12) { 255 } else { 8 };
    bytes.push(dice.byte_below(most))?;
    Ok(())
}

// A byte too few or too many, now and then.
pub fn cut_or_add(dice: &mut Dice, bytes: &mut Vec<u8>) -> Result<(), AllocError> {
    let choices = [(1, Some(Damage::Short)), (1, Some(Damage::Long))];
    match dice.choose(20, &choices, None) {
        Some(damage) => damage.harm(dice, bytes),
        None => Ok(()),
    }
}

fn part(dice: &mut Dice, kind: CodingKind) -> Result<Vec<u8>, AllocError> {
    let mut part = Vec::new(dice.heap);
    push_sample(dice, kind, &mut part)?;
    cut_or_add(dice, &mut part)?;
    Ok(part)
}

// What an encoder says to the settings, and then to the parts.
fn replies<E: Asked + Drop>(heap: Global, new: E, case: &Case) -> Result<Vec<Reply>, AllocError> {
    let mut encoder = new;
    let mut replies = Vec::new(heap);
    // a loop: each setting changes the encoder that takes the next one
    for setting in case.settings.iter() {
        replies.push(encoder.set(*setting)?)?;
    }
    replies.extend(case.parts.iter().map(|part| encoder.ask(part)))?;
    Ok(replies)
}

// Puts the settings and then the parts to an encoder of each side.
pub fn compare(family: &mut Family) -> Result<(), AllocError> {
    let heap = family.dice.heap;
    let kind = kind(&mut family.dice);
    let settings = settings(&mut family.dice, kind)?;
    let parts = (0..6)
        .map(|_| part(&mut family.dice, kind))
        .try_collect(heap)?;
    let case = Case {
        kind,
        settings,
        parts,
    };
    let ours = replies(heap, new_encoder(kind), &case)?;
    let theirs = replies(heap, Coding::new(heap, kind), &case)?;
    let words = format_args!("{case:?}");
    family
        .tally
        .hold(case.settings.len(), &ours, &theirs, words)
}
