ghost use Rattle.std.specs.Prelude.{◌≡◌, MatchResult};
ghost use Rattle.std.specs.Result.{result_err};
ghost use Rattle.rules.specs.Settings.{IsFreshPattern};
ghost use Rattle.table_format.specs.Checked.{checked};
ghost use Rattle.table_format.specs.Layout.{built_in, width_of};
ghost use Rattle.tables.specs.Runs.{accepts};
ghost use Rattle.table_format.specs.declared.kind.Kind.TheVariants.{Pattern as PatternKind};

use crate::pattern::TablePattern;
use crate::walk::Walk;
use rules::pattern::Pattern;
use table_format::fault::TableFault;
use table_format::kind::Kind;

impl<'a> TablePattern<'a> {
    // The pattern of the built-in table, at its start. Meaning and rest have a clause each, as at
    // `Over::new`.
    pub fn new() -> TablePattern<'a>
        ensures meaning { ⟦<TablePattern<'a> as Pattern>⟧.meaning result ≡ accepts (built_in PatternKind) }
        ensures fresh { ⟦<TablePattern<'a> as Pattern>⟧.rest result ≡ accepts (built_in PatternKind) }
    {
        TablePattern {
            walk: Walk::new(Kind::Pattern),
        }
    }

    // Checks the bytes, holds them in place of the table held, and starts. A refusal changes nothing.
    pub fn load(&mut self, bytes: &'a [u8]) -> Result<(), TableFault>
        ensures says { result_err result ≡ checked PatternKind bytes.now }
        ensures holds { MatchResult result (λ _. (self.new.walk.table.bytes.now ≡ bytes.now) × IsFreshPattern ⟦<TablePattern<'a> as Pattern>⟧ self.new (accepts bytes.now)) (λ _. self.new ≡ self.old) }
    {
        self.walk = self.walk.load(bytes)?;
        Ok(())
    }

    // The width of the table held.
    pub fn width(&self) -> u8
        ensures { result ≡ width_of self.now.walk.table.bytes.now }
    {
        self.walk.width()
    }
}
