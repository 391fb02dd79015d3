ghost use Rattle.std.specs.Prelude.{Some};
ghost use Rattle.rules.specs.Marks.{mark_name};

use std::fmt;

// What a scope says of a word: it belongs to no stretch, it belongs to one, it is the last word of one,
// or it is the first word of one that begins here whatever came before.
#[derive(Clone, Copy, PartialEq, Eq, Debug)]
pub enum Mark {
    Out,
    In,
    Last,
    Anew,
}

impl fmt::Display for Mark {
    ghost output = { λ m. Some (mark_name m) };

    fn fmt<W: fmt::Write>(&self, f: &mut fmt::Formatter<W>) -> fmt::Result {
        f.write_str(match self {
            Mark::Out => "out",
            Mark::In => "in",
            Mark::Last => "last",
            Mark::Anew => "anew",
        })
    }
}
