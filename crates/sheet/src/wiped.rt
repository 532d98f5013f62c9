//! A scratch that does not keep what was worked out in it.
ghost use Rattle.std.specs.Prelude.{◌≡◌, length, replicate};

/// Holds a scratch, and zeroes all of it when it goes, on every way out.
pub struct Wiped<'a> {
    pub bytes: &'a mut [u8],
}

impl Drop for Wiped<'_> {
    fn drop(self)
        ensures { self.exit.0.now ≡ replicate (length self.entry.bytes.now) 0 }
    {
        self.bytes.fill(0);
        let Wiped { bytes: _ } = self;
    }
}
