ghost use Rattle.std.specs.Prelude.{◌≡◌};
ghost use Rattle.composing.specs.Composing.{compose_number};

use table_format::fault::TableFault;

// Why two tables are not composed.
#[derive(Clone, Copy, PartialEq, Eq, Debug)]
pub enum ComposeFault {
    // the pattern table is not lawful
    Pattern(TableFault),
    // the scope table is not lawful
    Scope(TableFault),
    // the two widths differ
    Widths,
    // the composed table would have too many states
    States,
    // the composed table does not fit the room given
    Room,
}

impl ComposeFault {
    // The number by which the C entries name the refusal: a table's own, or one of composing.
    pub fn number(self) -> u8
        ensures { result ≡ compose_number self }
    {
        match self {
            ComposeFault::Pattern(fault) => fault.number(),
            ComposeFault::Scope(fault) => fault.number(),
            ComposeFault::Widths => 14,
            ComposeFault::States => 15,
            ComposeFault::Room => 16,
        }
    }
}
