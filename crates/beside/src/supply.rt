// Texts of rules and tables, made by dice.
use crate::dice::Dice;
use second::pattern::{Form, PatternText, Times};
use second::scope::ScopeText;
use second::table::{TableKind, TableText};
use second::text::Text;
use std::alloc::AllocError;

// The kinds alone, here and of patterns, since the dice choose a kind before its values are drawn.
#[derive(Clone, Copy)]
pub enum ScopeKind {
    Globally,
    Before,
    After,
    Between,
    AfterUnless,
    Table,
}

#[derive(Clone, Copy)]
pub enum PatternKind {
    Always,
    Never,
    Eventually,
    Precisely,
    Precedes,
    Responds,
    Table,
}

// What may be wrong with bytes.
#[derive(Clone, Copy)]
pub enum Damage {
    // one byte too few
    Short,
    // one byte too many
    Long,
    // cut off somewhere
    Cut,
    // another byte somewhere
    Other,
}

// The bytes that the texts of one case speak of.
// Four fields and no list, since a text borrows each by its name.
#[derive(Drop)]
pub struct Supply {
    first: Vec<u8>,
    second: Vec<u8>,
    pattern_table: Vec<u8>,
    scope_table: Vec<u8>,
}

// A text that speaks of the bytes of its case.
// A trait and no closures: what is drawn goes with the type of the text.
pub trait Drawn<'a>: Text {
    type Kind: Copy;

    // Any kind.
    fn kind(dice: &mut Dice) -> Self::Kind;

    // One of the kind, with settings that may be refused.
    fn drawn(dice: &mut Dice, supply: &'a Supply, kind: Self::Kind) -> Self;
}

impl Damage {
    pub fn any(dice: &mut Dice) -> Damage {
        let choices = [(1, Damage::Short), (1, Damage::Long), (1, Damage::Cut)];
        dice.choose(4, &choices, Damage::Other)
    }

    pub fn harm(self, dice: &mut Dice, bytes: &mut Vec<u8>) -> Result<(), AllocError> {
        match self {
            Damage::Short => {
                let _ = bytes.pop();
            }
            Damage::Long => bytes.push(dice.byte())?,
            Damage::Cut => bytes.truncate(dice.below(bytes.len())),
            Damage::Other => {
                let at = dice.below(bytes.len());
                let byte = dice.byte();
                if let Some(place) = bytes.get_mut(at) {
                    *place = byte;
                }
            }
        }
        Ok(())
    }
}

fn chain(dice: &mut Dice) -> Result<Vec<u8>, AllocError> {
    let length = if dice.one_in(15) {
        dice.below(6)
    } else {
        dice.below(4).saturating_add(1)
    };
    let heap = dice.heap;
    (0..length).map(|_| dice.condition()).collect(heap)
}

// A lawful table with so many states and so many letters, a power of two.
fn lawful_table(
    dice: &mut Dice,
    kind: TableKind,
    states: u8,
    width: u8,
) -> Result<Vec<u8>, AllocError> {
    let mut bytes = vec![in dice.heap; states]?;
    bytes.extend((0..states).map(|_| dice.byte_below(2)))?;
    bytes.push(width)?;
    let entries = usize::from(states).saturating_mul(1usize << (width % 8));
    bytes.extend((0..entries).map(|_| {
        let next = dice.byte_below(states);
        match kind {
            TableKind::Pattern => next,
            TableKind::Scope => next.saturating_add(dice.byte_below(4).saturating_mul(64)),
        }
    }))?;
    Ok(bytes)
}

// A table, now and then a damaged one.
pub fn table(dice: &mut Dice, kind: TableKind, most: u8, width: u8) -> Result<Vec<u8>, AllocError> {
    let states = dice.byte_below(most).saturating_add(1);
    let mut bytes = lawful_table(dice, kind, states, width)?;
    for seldom in [4, 40] {
        if dice.one_in(seldom) {
            Damage::any(dice).harm(dice, &mut bytes)?;
        }
    }
    Ok(bytes)
}

impl Supply {
    pub fn new(dice: &mut Dice) -> Result<Supply, AllocError> {
        let width = dice.byte_below(4);
        Ok(Supply {
            first: chain(dice)?,
            second: chain(dice)?,
            pattern_table: table(dice, TableKind::Pattern, 4, width)?,
            scope_table: table(dice, TableKind::Scope, 4, width)?,
        })
    }
}

impl<'a> Drawn<'a> for ScopeText<'a> {
    type Kind = ScopeKind;

    fn kind(dice: &mut Dice) -> ScopeKind {
        let choices = [
            (1, ScopeKind::Globally),
            (1, ScopeKind::Before),
            (1, ScopeKind::After),
            (2, ScopeKind::Between),
            (1, ScopeKind::AfterUnless),
        ];
        dice.choose(8, &choices, ScopeKind::Table)
    }

    fn drawn(dice: &mut Dice, supply: &'a Supply, kind: ScopeKind) -> ScopeText<'a> {
        let q = dice.condition();
        let r = dice.condition();
        match kind {
            ScopeKind::Globally => ScopeText::Globally,
            ScopeKind::Before => ScopeText::Before(r),
            ScopeKind::After => ScopeText::After(q),
            ScopeKind::Between => ScopeText::Between(q, r),
            ScopeKind::AfterUnless => ScopeText::AfterUnless(q, r),
            ScopeKind::Table => ScopeText::Table(TableText {
                kind: TableKind::Scope,
                bytes: &supply.scope_table,
            }),
        }
    }
}

impl<'a> Drawn<'a> for PatternText<'a> {
    type Kind = PatternKind;

    fn kind(dice: &mut Dice) -> PatternKind {
        let choices = [
            (1, PatternKind::Always),
            (1, PatternKind::Never),
            (1, PatternKind::Eventually),
            (1, PatternKind::Precisely),
            (2, PatternKind::Precedes),
            (2, PatternKind::Responds),
        ];
        dice.choose(9, &choices, PatternKind::Table)
    }

    fn drawn(dice: &mut Dice, supply: &'a Supply, kind: PatternKind) -> PatternText<'a> {
        let c = dice.condition();
        let (first, second) = if dice.one_in(2) {
            (&supply.first, &supply.second)
        } else {
            (&supply.second, &supply.first)
        };
        match kind {
            PatternKind::Always => PatternText::Always(c),
            PatternKind::Never => PatternText::Never(c),
            PatternKind::Eventually => PatternText::Eventually(times(dice), c),
            PatternKind::Precisely => PatternText::Precisely(times(dice), c),
            PatternKind::Precedes => PatternText::Precedes(first, second),
            PatternKind::Responds => PatternText::Responds(first, second),
            PatternKind::Table => PatternText::Table(TableText {
                kind: TableKind::Pattern,
                bytes: &supply.pattern_table,
            }),
        }
    }
}

fn times(dice: &mut Dice) -> Times {
    let number = if dice.one_in(20) {
        65_535
    } else {
        u16::from(dice.byte_below(4))
    };
    let form = dice.choose(3, &[(1, Form::Exactly), (1, Form::AtLeast)], Form::AtMost);
    Times { form, number }
}
