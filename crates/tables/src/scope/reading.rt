ghost use Rattle.tables.specs.Runs.{marks_from, says_from, marks as marks_of, says};

use crate::mark::mark_of;
use crate::scope::TableScope;
use rules::mark::Mark;
use rules::scope::Scope;
use table_format::kind::Kind;

impl<'a> Scope for TableScope<'a> {
    ghost marks = { λ s. marks_of s.walk.table.bytes.now };

    ghost answers = { λ s. says s.walk.table.bytes.now };

    ghost rest_marks = { λ s. marks_from s.walk.table.bytes.now s.walk.state };

    ghost rest_answers = { λ s. says_from s.walk.table.bytes.now s.walk.state };

    fn start(&mut self) {
        self.walk.start();
    }

    fn mark(&mut self, word: u16) -> Mark {
        let entry = self.walk.entry(word);
        self.walk.go(Kind::Scope.next_state(entry));
        mark_of(entry)
    }

    fn answer(&self) -> bool {
        self.walk.flag()
    }
}
