ghost use Rattle.std.specs.Prelude.{◌≡◌};
ghost use Rattle.tables.specs.Runs.{mark_of};

use rules::mark::Mark;

// The mark that a scope table's entry has above its low six bits. No `From`: neither type is of this crate.
pub fn mark_of(entry: u8) -> Mark
    ensures { result ≡ mark_of entry }
{
    match entry / 64 {
        0 => Mark::Out,
        1 => Mark::In,
        2 => Mark::Last,
        _ => Mark::Anew,
    }
}
