ghost use Rattle.std.specs.Prelude.{◌≡◌};
ghost use Rattle.judging.specs.Outcomes.{judge_number};
ghost use Rattle.judging.specs.declared.fault.JudgeFault.TheVariants.{Input, Tables, Record};

use composing::fault::ComposeFault;
use framing::InputFault;
use watch::fault::PlayFault;

// Why an input is not judged: it is no two tables and a record, its tables do not compose, or its record is
// not played to the end.
#[derive(Clone, Copy)]
pub enum JudgeFault {
    Input(InputFault),
    Tables(ComposeFault),
    Record(PlayFault),
}

impl JudgeFault {
    // The innermost number, by which the line names the refusal.
    pub fn number(self) -> u8
        ensures { result ≡ judge_number self }
    {
        match self {
            JudgeFault::Input(fault) => fault.number(),
            JudgeFault::Tables(fault) => fault.number(),
            JudgeFault::Record(fault) => fault.number(),
        }
    }
}

// By hand, since a derived `From` does not say which fault it makes, and the contracts do.
impl From<InputFault> for JudgeFault {
    ghost from_gives = { λ f r. r ≡ Input f };

    fn from(fault: InputFault) -> JudgeFault {
        JudgeFault::Input(fault)
    }
}

impl From<ComposeFault> for JudgeFault {
    ghost from_gives = { λ f r. r ≡ Tables f };

    fn from(fault: ComposeFault) -> JudgeFault {
        JudgeFault::Tables(fault)
    }
}

impl From<PlayFault> for JudgeFault {
    ghost from_gives = { λ f r. r ≡ Record f };

    fn from(fault: PlayFault) -> JudgeFault {
        JudgeFault::Record(fault)
    }
}
