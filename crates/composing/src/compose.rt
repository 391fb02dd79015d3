ghost use Rattle.std.specs.Prelude.{◌≡◌, ◌≤◌, true, false, length, is_ok, IfOk, Decides, OnOk};
ghost use Rattle.composing.specs.Composed.{composed};
ghost use Rattle.composing.specs.Composing.{composing, afterwards, Composable, Composes};

use crate::composer::Composer;
use crate::fault::ComposeFault;
use table_format::kind::Kind;
use tables::table::Table;

// The length of the longest composed table: of 250 states and 64 letters.
pub const LONGEST: usize = 16_252;

// Checks both tables, the pattern's first, and composes them, if their widths, their states and the room
// allow it. Apart from `compose`, whose other clauses are laws that follow from these alone.
fn compose_bytes<'a>(
    pattern: &'a [u8],
    scope: &'a [u8],
    out: &mut [u8],
) -> Result<usize, ComposeFault>
    ensures value { result ≡ composing pattern.now scope.now (length out.old) }
    ensures short { IfOk result (λ n. n ≤ LONGEST) }
    ensures bytes { out.new ≡ afterwards result (composed pattern.now scope.now) out.old }
{
    let pattern = Table::new(Kind::Pattern, pattern).map_err(ComposeFault::Pattern)?;
    let scope = Table::new(Kind::Scope, scope).map_err(ComposeFault::Scope)?;
    let composer = Composer::new(pattern, scope)?;
    let end = composer.len();
    if out.len() < end {
        return Err(ComposeFault::Room);
    }
    composer.write(&mut out[0..end]);
    Ok(end)
}

// Composes a scope table with a pattern table: writes the composed table at the front of `out`, and gives
// its length. A refusal writes nothing.
//
// The composed table is a pattern table. It accepts a list of words exactly when the pattern table accepts
// each judged stretch that the scope table cuts out of the list. The room is the caller's: there is no heap here.
// The tables come as two slices, as C callers have them.
pub fn compose<'a>(
    pattern: &'a [u8],
    scope: &'a [u8],
    out: &mut [u8],
) -> Result<usize, ComposeFault>
    ensures value { result ≡ composing pattern.now scope.now (length out.old) }
    ensures short { IfOk result (λ n. n ≤ LONGEST) }
    ensures bytes { out.new ≡ afterwards result (composed pattern.now scope.now) out.old }
    ensures long { IfOk result (λ n. n ≡ length (composed pattern.now scope.now)) }
    ensures decided { Decides (is_ok result) (Composable pattern.now scope.now (length out.old)) }
    ensures law { OnOk result (Composes pattern.now scope.now) }
{
    compose_bytes(pattern, scope, out)
}
