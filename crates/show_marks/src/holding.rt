use rules::condition::Condition;
use std::fmt;

// The numbers of the conditions that hold of a word.
#[derive(Clone, Copy)]
pub struct Holding(pub u16);

impl fmt::Display for Holding {
    fn fmt<W: fmt::Write>(&self, f: &mut fmt::Formatter<W>) -> fmt::Result {
        if self.0 == 0 {
            return write!(f, " none");
        }
        let conditions = (0..16).filter_map(|number| Condition::new(number).ok());
        for condition in conditions.filter(|condition| condition.holds(self.0)) {
            write!(f, " {}", condition.number())?;
        }
        Ok(())
    }
}
