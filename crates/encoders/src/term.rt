ghost use Rattle.std.specs.Prelude.{◌≡◌, Bool};

// A term asks something of a sample, and fits it or not. A trait and not a closure, since terms are kept and copied
// with the settings.
pub trait Term: Copy {
    // what the term looks at: a sample as it is once its bytes are read
    type Sample: Copy;

    ghost fits: { Self → Self.Sample → Bool };

    // A term for the places of a list that are not in use, since lists have no heap; nothing asks what it fits.
    fn filler() -> Self;

    fn fits(&self, sample: Self::Sample) -> bool
        ensures { result ≡ fits self.now sample };
}
