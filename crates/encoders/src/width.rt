ghost use Rattle.std.specs.Prelude.{◌≡◌, ◌^◌, ◌≤◌, nat_lt};
ghost use Rattle.encoders.specs.Bytes.{byte_within};

use rules::refusal::SampleRefusal;

// How many bits of a byte are in use, the lowest: 0 to 8.
#[derive(Clone, Copy)]
pub struct Width {
    bits: u8,
    ghost few: { bits ≤ 8 },
}

impl Width {
    pub(crate) fn new(bits: u8) -> Width
        requires { bits ≤ 8 }
        ensures { result.bits ≡ bits }
    {
        Width { bits }
    }

    // Whether the byte has no bit above these.
    pub fn covers(self, byte: u8) -> bool
        ensures { result ≡ nat_lt byte (2 ^ self.bits) }
    {
        u16::from(byte) < 1 << self.bits
    }

    // The byte of a sample of one byte, unless it has a bit above these.
    pub fn byte(self, part: &[u8], above: SampleRefusal) -> Result<u8, SampleRefusal>
        ensures { result ≡ byte_within self.bits above part.now }
    {
        let [byte] = part else {
            return Err(SampleRefusal::Size);
        };
        if !self.covers(*byte) {
            return Err(above);
        }
        Ok(*byte)
    }
}
