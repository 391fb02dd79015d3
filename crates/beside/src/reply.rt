use composing::fault::ComposeFault;
use judging::line::LineFault;
use rules::mark::Mark;
use rules::refusal::{SampleRefusal, SettingRefusal};
use second::refusal::{Stop, Why};
use std::alloc::AllocError;
use table_format::fault::TableFault;
use watch::fault::{PlayFault, WatchFault};

// A refusal as it is compared: its number, since each side has an enum of its own, the byte to blame, and how many
// samples were accepted before.
#[derive(Clone, Copy, PartialEq, Debug)]
pub struct Refusal {
    number: u8,
    place: Option<usize>,
    count: Option<usize>,
}

// What either side replies.
// One enum and no Result inside: a refusal is compared and printed as any other reply.
#[derive(Clone, Copy, PartialEq, Debug)]
pub enum Reply {
    Done,
    Accepted(usize),
    Marked(Mark),
    Refused(Refusal),
    Judged(bool),
}

impl Reply {
    // The reply of what may be refused.
    pub fn of<E: Into<Refusal> + Drop>(answer: Result<Reply, E>) -> Reply {
        match answer {
            Ok(reply) => reply,
            Err(refused) => Reply::Refused(refused.into()),
        }
    }

    // The same where memory may be missing.
    pub fn heard(answer: Result<Reply, Stop>) -> Result<Reply, AllocError> {
        match answer {
            Ok(reply) => Ok(reply),
            Err(stop) => Ok(Reply::Refused(Refusal::from(stop.refusal()?))),
        }
    }
}

impl Refusal {
    fn new(number: u8) -> Refusal {
        Refusal {
            number,
            place: None,
            count: None,
        }
    }
}

// One `From` for each fault: a blanket one would overlap `From<Refusal>`.
impl From<Why> for Refusal {
    fn from(why: Why) -> Refusal {
        Refusal::new(why.number())
    }
}

impl From<second::refusal::Refusal> for Refusal {
    fn from(refusal: second::refusal::Refusal) -> Refusal {
        Refusal {
            number: refusal.why.number(),
            place: refusal.place,
            count: refusal.count,
        }
    }
}

impl From<SettingRefusal> for Refusal {
    fn from(refusal: SettingRefusal) -> Refusal {
        Refusal::new(refusal.number())
    }
}

impl From<SampleRefusal> for Refusal {
    fn from(refusal: SampleRefusal) -> Refusal {
        Refusal::new(refusal.number())
    }
}

impl From<TableFault> for Refusal {
    fn from(fault: TableFault) -> Refusal {
        Refusal {
            place: fault.place(),
            ..Refusal::new(fault.number())
        }
    }
}

impl From<ComposeFault> for Refusal {
    fn from(fault: ComposeFault) -> Refusal {
        let place = match fault {
            ComposeFault::Pattern(table) | ComposeFault::Scope(table) => table.place(),
            ComposeFault::Widths | ComposeFault::States | ComposeFault::Room => None,
        };
        Refusal {
            place,
            ..Refusal::new(fault.number())
        }
    }
}

impl From<LineFault> for Refusal {
    fn from(fault: LineFault) -> Refusal {
        Refusal::new(fault.number())
    }
}

impl From<WatchFault> for Refusal {
    fn from(fault: WatchFault) -> Refusal {
        // `as`: a usize holds every u32, and the library has no `From` for it
        Refusal {
            count: Some(fault.count as usize),
            ..Refusal::new(fault.number())
        }
    }
}

impl From<PlayFault> for Refusal {
    fn from(fault: PlayFault) -> Refusal {
        match fault {
            PlayFault::Framing => Refusal::new(fault.number()),
            PlayFault::Sample { place, fault } => Refusal {
                place: Some(place),
                ..Refusal::from(fault)
            },
        }
    }
}
