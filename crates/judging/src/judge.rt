ghost use Rattle.std.specs.Prelude.{◌≡◌, length, None};
ghost use Rattle.framing.specs.Framed.{framed};
ghost use Rattle.judging.specs.Outcomes.{record_judged, input_judged, scratch_of};
ghost use Rattle.table_format.specs.Checked.{checked};
ghost use Rattle.table_format.specs.declared.kind.Kind.TheVariants.{Pattern as PatternKind};

use crate::fault::JudgeFault;
use composing::compose::compose;
use encoders::letters::Letters;
use framing::tables_of;
use scopes::globally::Globally;
use tables::pattern::TablePattern;
use watch::fault::PlayFault;
use watch::watch::Watch;

// Plays a record of letters to a new watch of the table under globally, and takes the verdict. The table comes as
// bytes, since a pattern is loaded from bytes.
fn judge_record(table: &[u8], record: &[u8]) -> Result<bool, PlayFault>
    requires { checked PatternKind table.now ≡ None }
    ensures { result ≡ record_judged table.now «record».now }
{
    let mut pattern = TablePattern::new();
    pattern.load(table).unwrap();
    let mut letters = Letters::new();
    letters.set_width(pattern.width()).unwrap();
    let mut watch = Watch::new(letters, Globally::new(), pattern);
    watch.play(record)?;
    Ok(watch.verdict())
}

// Composes the two tables of an input into the scratch, and judges the record after them. The scratch is the
// caller's, since there is no heap here.
pub fn judge_input(input: &[u8], scratch: &mut [u8]) -> Result<bool, JudgeFault>
    ensures verdict { result ≡ input_judged input.now (length scratch.old) }
    ensures scratch { scratch.new ≡ scratch_of (framed input.now) scratch.old (length scratch.old) }
{
    let parts = tables_of(input)?;
    let n = compose(parts.pattern, parts.scope, scratch)?;
    judge_record(&scratch[0..n], parts.after).map_err(JudgeFault::Record)
}
