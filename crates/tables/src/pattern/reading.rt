ghost use Rattle.tables.specs.Runs.{accepts_from, accepts};

use crate::pattern::TablePattern;
use rules::pattern::Pattern;
use table_format::kind::Kind;

impl<'a> Pattern for TablePattern<'a> {
    ghost meaning = { λ p. accepts p.walk.table.bytes.now };

    ghost rest = { λ p. accepts_from p.walk.table.bytes.now p.walk.state };

    fn start(&mut self) {
        self.walk.start();
    }

    fn read(&mut self, word: u16) {
        let entry = self.walk.entry(word);
        self.walk.go(Kind::Pattern.next_state(entry));
    }

    fn verdict(&self) -> bool {
        self.walk.flag()
    }
}
