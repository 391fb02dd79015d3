pub mod loading;
pub mod reading;

ghost use Rattle.std.specs.Prelude.{◌≡◌, ◌<◌, false};
ghost use Rattle.table_format.specs.Layout.{is_pattern, states_of};

use crate::walk::Walk;

// A scope that a scope table gives: it stands in one of the table's states.
#[derive(Clone, Copy)]
pub struct TableScope<'a> {
    walk: Walk<'a>,
    ghost marking: { is_pattern walk.table.kind ≡ false },
}
