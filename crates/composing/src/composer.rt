mod writing;

ghost use Rattle.std.specs.Prelude.{◌≡◌, ◌+◌, ◌*◌, ◌%◌, ◌<◌, ◌≤◌, true, false, IfOk};
ghost use Rattle.std.specs.Result.{result_err};
ghost use Rattle.table_format.specs.Layout.{is_pattern, states_of, width_of, size_of, flag_of, entry_of};
ghost use Rattle.tables.specs.Runs.{mark_of};
ghost use Rattle.composing.specs.Composing.{pairing};
ghost use Rattle.composing.specs.Composed.{place_number, place_at, place_flag, lands, leads, entry_from, composed_length};

use crate::fault::ComposeFault;
use crate::place::Place;
use rules::mark::Mark;
use table_format::kind::Kind;
use tables::mark::mark_of;
use tables::table::Table;

// Two tables that compose: their widths are the same, and the composed table has few enough states. Clauses name the
// bytes of both, as the definitions take them: a model of the two would be taken apart in each.
#[derive(Clone, Copy)]
pub struct Composer<'a> {
    pattern: Table<'a>,
    scope: Table<'a>,
    // `block` and `failed` are worked out once, where they are tested
    // how many numbers there are for each scope state
    block: usize,
    // the number of the place `Failed`
    failed: usize,
    ghost plain: { is_pattern pattern.kind ≡ true },
    ghost marking: { is_pattern scope.kind ≡ false },
    ghost widths: { width_of pattern.bytes.now ≡ width_of scope.bytes.now },
    ghost same: { size_of scope.bytes.now ≡ size_of pattern.bytes.now },
    ghost blocks: { block ≡ states_of pattern.bytes.now + 1 },
    ghost highest: { failed ≡ states_of scope.bytes.now * block },
    ghost few: { failed < 250 },
}

impl<'a> Composer<'a> {
    ghost use Rattle.composing.specs.Places.{IsPlace, IsPatternState, IsScopeState, IsLetter};

    // The composer of two tables, if they have one width and few enough states.
    pub(crate) fn new(pattern: Table<'a>, scope: Table<'a>) -> Result<Composer<'a>, ComposeFault>
        requires pattern_kind { is_pattern pattern.kind ≡ true }
        requires scope_kind { is_pattern scope.kind ≡ false }
        ensures says { result_err result ≡ pairing pattern.entry.bytes.now scope.entry.bytes.now }
        ensures holds { IfOk result (λ composer. (composer.pattern ≡ pattern.entry) × (composer.scope ≡ scope.entry)) }
    {
        if pattern.width() != scope.width() {
            return Err(ComposeFault::Widths);
        }
        let block = pattern.states() + 1;
        let failed = scope.states() * block;
        let total = failed + 1;
        if total > usize::from(Kind::Pattern.most_states()) {
            return Err(ComposeFault::States);
        }
        Ok(Composer {
            pattern,
            scope,
            block,
            failed,
        })
    }

    // The length of the composed table.
    pub(crate) fn len(&self) -> usize
        ensures value { result ≡ composed_length self.now.pattern.bytes.now self.now.scope.bytes.now }
        ensures short { result ≤ 16252 }
    {
        let total = self.failed + 1;
        2 + total + total * self.pattern.size()
    }

    // The place that a number stands for. No conversion by a trait, neither here nor back: the tables are needed.
    fn place(&self, number: usize) -> Place
        requires { number ≤ self.now.failed }
        ensures value { result ≡ place_at self.now.block (states_of self.now.scope.bytes.now) number }
        ensures within { IsPlace self.now result }
    {
        if number == self.failed {
            Place::Failed
        } else if number % self.block == 0 {
            Place::Outside(number / self.block)
        } else {
            Place::Inside(number / self.block, number % self.block - 1)
        }
    }

    // No number is above `failed`, so `as` loses nothing.
    fn number(&self, place: Place) -> u8
        requires { IsPlace self.now place }
        ensures { result ≡ place_number self.now.block (states_of self.now.scope.bytes.now) place }
    {
        match place {
            Place::Failed => self.failed as u8,
            Place::Outside(s) => (s * self.block) as u8,
            Place::Inside(s, q) => (s * self.block + 1 + q) as u8,
        }
    }

    // The pattern's next state.
    fn next(&self, q: usize, letter: usize) -> usize
        requires q_bound { IsPatternState self.now q }
        requires letter_bound { IsLetter self.now letter }
        ensures value { result ≡ entry_of self.now.pattern.bytes.now q letter }
        ensures within { IsPatternState self.now result }
    {
        usize::from(self.pattern.entry(q, letter).unwrap())
    }

    // Whether the pattern accepts in a state.
    fn accepts(&self, q: usize) -> bool
        requires { IsPatternState self.now q }
        ensures { result ≡ flag_of self.now.pattern.bytes.now q }
    {
        self.pattern.flag(q).unwrap()
    }

    // The scope's entry: its next state and the mark.
    fn move_of(&self, s: usize, letter: usize) -> u8
        requires s_bound { IsScopeState self.now s }
        requires letter_bound { IsLetter self.now letter }
        ensures value { result ≡ entry_of self.now.scope.bytes.now s letter }
        ensures within { IsScopeState self.now (result % 64) }
    {
        self.scope.entry(s, letter).unwrap()
    }

    // Where a word leads at which the scope has this entry. With no stretch open, `fine` is true and `on` is `fresh`, as
    // in the definition that the clause cites.
    fn lands(&self, entry: u8, fine: bool, on: usize, fresh: usize) -> Place
        requires entry_bound { IsScopeState self.now (entry % 64) }
        requires on_bound { IsPatternState self.now on }
        requires fresh_bound { IsPatternState self.now fresh }
        ensures value { result ≡ lands self.now.pattern.bytes.now (mark_of entry) (entry % 64) fine on fresh }
        ensures within { IsPlace self.now result }
    {
        let s = usize::from(Kind::Scope.next_state(entry));
        let closes = match mark_of(entry) {
            Mark::In => return Place::Inside(s, on),
            Mark::Anew => return Place::Inside(s, fresh),
            Mark::Out => fine,
            Mark::Last => self.accepts(on),
        };
        if closes {
            Place::Outside(s)
        } else {
            Place::Failed
        }
    }

    // Where a letter leads from a place. Two arms are nearly alike: with no stretch open there is no state to go on
    // from.
    fn leads(&self, place: Place, letter: usize) -> Place
        requires placed { IsPlace self.now place }
        requires letter_bound { IsLetter self.now letter }
        ensures value { result ≡ leads self.now.pattern.bytes.now self.now.scope.bytes.now letter place }
        ensures within { IsPlace self.now result }
    {
        match place {
            Place::Failed => Place::Failed,
            Place::Outside(s) => {
                let entry = self.move_of(s, letter);
                let fresh = self.next(0, letter);
                self.lands(entry, true, fresh, fresh)
            }
            Place::Inside(s, q) => {
                let entry = self.move_of(s, letter);
                let fresh = self.next(0, letter);
                let on = self.next(q, letter);
                self.lands(entry, self.accepts(q), on, fresh)
            }
        }
    }

    fn entry(&self, place: Place, letter: usize) -> u8
        requires placed { IsPlace self.now place }
        requires letter_bound { IsLetter self.now letter }
        ensures { result ≡ entry_from self.now.pattern.bytes.now self.now.scope.bytes.now place letter }
    {
        self.number(self.leads(place, letter))
    }

    // Whether the composed table accepts in a place: an open stretch counts only where the scope says yes.
    fn flag(&self, place: Place) -> bool
        requires { IsPlace self.now place }
        ensures { result ≡ place_flag self.now.pattern.bytes.now self.now.scope.bytes.now place }
    {
        match place {
            Place::Failed => false,
            Place::Outside(_) => true,
            Place::Inside(s, q) => !self.scope.flag(s).unwrap() || self.accepts(q),
        }
    }
}
