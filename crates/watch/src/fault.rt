ghost use Rattle.std.specs.Prelude.{◌≡◌};
ghost use Rattle.watch.specs.Faults.{watch_number, play_number};

use rules::refusal::SampleRefusal;

// Why a watch does not take a sample: it is full, or its encoder refuses the sample.
#[derive(Clone, Copy, PartialEq, Debug)]
pub enum WatchCause {
    Full,
    Encoder(SampleRefusal),
}

// The watch's fault, with the number of samples accepted before the one that was offered.
#[derive(Clone, Copy, PartialEq, Debug)]
pub struct WatchFault {
    pub count: u32,
    pub cause: WatchCause,
}

impl WatchFault {
    // A number, since docs/REFUSALS.md promises one that never changes its meaning.
    pub fn number(self) -> u8
        ensures { result ≡ watch_number self }
    {
        match self.cause {
            WatchCause::Full => 7,
            WatchCause::Encoder(refusal) => refusal.number(),
        }
    }
}

// Why a record is not played to its end: its bytes are not what its count says, or the watch refuses the
// sample that begins at a place, the offset of the sample's first byte in the record.
#[derive(Clone, Copy, PartialEq, Debug)]
pub enum PlayFault {
    Framing,
    Sample { place: usize, fault: WatchFault },
}

impl PlayFault {
    // A number, since docs/REFUSALS.md promises one that never changes its meaning.
    pub fn number(self) -> u8
        ensures { result ≡ play_number self }
    {
        match self {
            PlayFault::Framing => 8,
            PlayFault::Sample { place: _, fault } => fault.number(),
        }
    }
}
