ghost use Rattle.std.specs.Prelude.{◌≡◌, MatchResult};
ghost use Rattle.std.specs.Result.{result_err};
ghost use Rattle.rules.specs.Settings.{MarksAfresh};
ghost use Rattle.table_format.specs.Checked.{checked};
ghost use Rattle.table_format.specs.Layout.{built_in};
ghost use Rattle.tables.specs.Runs.{marks, says};
ghost use Rattle.table_format.specs.declared.kind.Kind.TheVariants.{Scope as ScopeKind};

use crate::scope::TableScope;
use crate::walk::Walk;
use rules::scope::Scope;
use table_format::fault::TableFault;
use table_format::kind::Kind;

impl<'a> TableScope<'a> {
    // The scope of the built-in table, at its start.
    pub fn new() -> TableScope<'a>
        ensures { MarksAfresh ⟦<TableScope<'a> as Scope>⟧ result (marks (built_in ScopeKind)) (says (built_in ScopeKind)) }
    {
        TableScope {
            walk: Walk::new(Kind::Scope),
        }
    }

    // Checks the bytes, holds them in place of the table held, and starts. A refusal changes nothing.
    pub fn load(&mut self, bytes: &'a [u8]) -> Result<(), TableFault>
        ensures says { result_err result ≡ checked ScopeKind bytes.now }
        ensures holds { MatchResult result (λ _. MarksAfresh ⟦<TableScope<'a> as Scope>⟧ self.new (marks bytes.now) (says bytes.now)) (λ _. self.new ≡ self.old) }
    {
        self.walk = self.walk.load(bytes)?;
        Ok(())
    }
}
