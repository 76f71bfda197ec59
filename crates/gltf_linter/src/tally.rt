//! What was found in all files together.

ghost use Rattle.std.specs.Prelude.{◌≡◌, ◌+◌};
ghost use Rattle.gltf_base.specs.Device.{saturated};
ghost use Rattle.gltf_linter.specs.Status.{status_of};

/// The exit status if a file was refused.
pub const REFUSED: u8 = 2;

/// How many files were checked or refused, and how many faults there were: reports, or findings
/// that decide the exit status. A number stops at the largest of 64 bits.
#[derive(Clone, Copy)]
pub struct Tally {
    pub files: u64,
    pub faults: u64,
    pub refused: u64,
}

impl Tally {
    /// Nothing was checked yet.
    pub fn new() -> Tally
        ensures { result ≡ record { files = 0; faults = 0; refused = 0 } }
    {
        Tally {
            files: 0,
            faults: 0,
            refused: 0,
        }
    }

    /// A file was checked, with so many faults.
    pub fn add_checked(&mut self, faults: u64)
        ensures { self.new ≡ record self.old {
          files = saturated (self.old.files + 1);
          faults = saturated (self.old.faults + faults);
        } }
    {
        self.files = self.files.saturating_add(1);
        self.faults = self.faults.saturating_add(faults);
    }

    /// A file was refused.
    pub fn add_refused(&mut self)
        ensures { self.new ≡ record self.old {
          files = saturated (self.old.files + 1);
          refused = saturated (self.old.refused + 1);
        } }
    {
        self.files = self.files.saturating_add(1);
        self.refused = self.refused.saturating_add(1);
    }

    /// The exit status: 2 if a file was refused, else 1 if there was a fault, else 0.
    pub fn status(&self) -> u8
        ensures { result ≡ status_of self.now.faults self.now.refused }
    {
        if self.refused > 0 {
            REFUSED
        } else if self.faults > 0 {
            1
        } else {
            0
        }
    }
}
