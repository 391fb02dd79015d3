ghost use Rattle.kinds.specs.Chosen.{chosen};
ghost use Rattle.kinds.specs.declared.choice.Choice.TheVariants.{First, Second};
ghost use Rattle.std.proofs.Common.{rules};

use crate::choice::Choice;
use rules::encoder::Encoder;
use rules::mark::Mark;
use rules::pattern::Pattern;
use rules::refusal::SampleRefusal;
use rules::scope::Scope;

// A match in each method: of the eight methods of three traits, no two could be written as one.
// A choice of two patterns is a pattern, which means what the chosen one means.
impl<A: Pattern, B: Pattern> Pattern for Choice<A, B> {
    ghost meaning = { chosen A.Pattern.meaning B.Pattern.meaning };

    ghost rest = { chosen A.Pattern.rest B.Pattern.rest };

    fn start(&mut self) {
        match self {
            Choice::First(a) => a.start(),
            Choice::Second(b) => b.start(),
        }
    }

    fn read(&mut self, word: u16) {
        match self {
            Choice::First(a) => a.read(word),
            Choice::Second(b) => b.read(word),
        }
    }

    fn verdict(&self) -> bool {
        match self {
            Choice::First(a) => a.verdict(),
            Choice::Second(b) => b.verdict(),
        }
    }
}

impl<A: Scope, B: Scope> Scope for Choice<A, B> {
    ghost marks = { chosen A.Scope.marks B.Scope.marks };

    ghost answers = { chosen A.Scope.answers B.Scope.answers };

    ghost rest_marks = { chosen A.Scope.rest_marks B.Scope.rest_marks };

    ghost rest_answers = { chosen A.Scope.rest_answers B.Scope.rest_answers };

    fn start(&mut self) {
        match self {
            Choice::First(a) => a.start(),
            Choice::Second(b) => b.start(),
        }
    }

    fn mark(&mut self, word: u16) -> Mark {
        match self {
            Choice::First(a) => a.mark(word),
            Choice::Second(b) => b.mark(word),
        }
    }

    fn answer(&self) -> bool {
        match self {
            Choice::First(a) => a.answer(),
            Choice::Second(b) => b.answer(),
        }
    }
}

impl<A: Encoder, B: Encoder> Encoder for Choice<A, B> {
    ghost size = { chosen A.Encoder.size B.Encoder.size };

    ghost codes = { chosen A.Encoder.codes B.Encoder.codes };

    ghost some = { Prim.search rules };

    ghost few = { Prim.search rules };

    ghost fits = { elim [
      | First a ↦ λ part. A.Encoder.fits a part
      | Second b ↦ λ part. B.Encoder.fits b part
    ] };

    fn size(&self) -> usize {
        match self {
            Choice::First(a) => a.size(),
            Choice::Second(b) => b.size(),
        }
    }

    fn ask(&self, part: &[u8]) -> Result<u16, SampleRefusal> {
        match self {
            Choice::First(a) => a.ask(part),
            Choice::Second(b) => b.ask(part),
        }
    }
}
