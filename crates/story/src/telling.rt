// How calls and answers read.
use rules::encoder::Encoder;
use rules::pattern::Pattern;
use runs::{Answer, Call};
use std::{fmt, io};
use watch::fault::{PlayFault, WatchFault};
use watch::watch::Watch;

// A function: a type of its own with `Display` would be longer and say no more.
pub fn yes_or_no(kept: bool) -> &'static str {
    if kept { "yes" } else { "no" }
}

// A call of a watch, with what it answered.
#[derive(Clone, Copy)]
struct Told<'a>(Call<'a>, Answer);

impl fmt::Display for Told<'_> {
    fn fmt<W: fmt::Write>(&self, f: &mut fmt::Formatter<W>) -> fmt::Result {
        match self.0 {
            Call::Feed(sample) => write!(f, "feed {sample:?}: ")?,
            Call::Play(bytes) => write!(f, "play {bytes:?}: ")?,
            Call::NewRecord => write!(f, "new record: ")?,
            Call::Verdict => write!(f, "verdict: ")?,
        }
        match self.1 {
            Answer::Fed(Ok(count)) => write!(f, "accepted, {count} so far"),
            Answer::Fed(Err(fault)) => write!(f, "{}", Refused(fault)),
            Answer::Played(Ok(count)) => write!(f, "played, {count} accepted"),
            Answer::Played(Err(PlayFault::Framing)) => {
                write!(f, "refused with {}", PlayFault::Framing.number())
            }
            Answer::Played(Err(PlayFault::Sample { place, fault })) => {
                write!(f, "at place {place} {}", Refused(fault))
            }
            Answer::Begun => write!(f, "begun"),
            Answer::Judged(kept) => write!(f, "{}", yes_or_no(kept)),
        }
    }
}

// What keeps a watch from taking a sample.
#[derive(Clone, Copy)]
struct Refused(WatchFault);

impl fmt::Display for Refused {
    fn fmt<W: fmt::Write>(&self, f: &mut fmt::Formatter<W>) -> fmt::Result {
        let number = self.0.number();
        write!(f, "refused with {number}, after {} accepted", self.0.count)
    }
}

pub fn tell_answer(rt: &HostRuntime, call: Call<'_>, answer: Answer) -> io::Result<()> {
    println!(rt; "  {}", Told(call, answer))
}

// Feeds samples of one byte in order, and tells each answer and the verdict after them.
pub fn tell_feeding<E: Encoder, R: Pattern>(
    rt: &HostRuntime,
    watch: &mut Watch<E, R>,
    samples: &[u8],
) -> io::Result<()> {
    for sample in samples.chunks(1) {
        tell_answer(rt, Call::Feed(sample), Answer::Fed(watch.feed(sample)))?;
    }
    tell_answer(rt, Call::Verdict, Answer::Judged(watch.verdict()))
}

// Begins a new record, and feeds it.
pub fn tell_record<E: Encoder, R: Pattern>(
    rt: &HostRuntime,
    watch: &mut Watch<E, R>,
    samples: &[u8],
) -> io::Result<()> {
    watch.new_record();
    tell_answer(rt, Call::NewRecord, Answer::Begun)?;
    tell_feeding(rt, watch, samples)
}
