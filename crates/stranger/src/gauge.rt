pub mod coding;

ghost use Rattle.std.specs.Prelude.{◌≡◌};
ghost use Rattle.stranger.specs.Gauges.{gauge_codes};

use rules::encoder::Encoder;

// Samples of two bytes: a level and its complement.
// What it says is spelled out: a stranger need know no name but the trait's.
#[derive(Clone, Copy)]
pub struct Gauge {}

impl Gauge {
    pub fn new() -> Gauge
        ensures { (⟦<Gauge as Encoder>⟧.size result ≡ 2) × (⟦<Gauge as Encoder>⟧.codes result ≡ gauge_codes) }
    {
        Gauge {}
    }
}
