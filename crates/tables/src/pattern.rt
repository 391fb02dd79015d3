pub mod loading;
pub mod reading;

ghost use Rattle.std.specs.Prelude.{◌≡◌, ◌<◌, true};
ghost use Rattle.table_format.specs.Layout.{is_pattern, states_of};

use crate::walk::Walk;

// A pattern that a pattern table gives: it stands in one of the table's states. Apart from `TableScope`, which is of
// another trait: all else is `Walk`'s.
#[derive(Clone, Copy)]
pub struct TablePattern<'a> {
    walk: Walk<'a>,
    ghost plain: { is_pattern walk.table.kind ≡ true },
}
