//! Devices of the system, watched.

ghost use Rattle.std.specs.Prelude.{◌≡◌, true};
ghost use Rattle.gltf_base.specs.Device.{IsFresh};
ghost use Rattle.gltf_base.specs.Watched.{device_of, seen_of};

use crate::device::{ByteIn, ByteOut, Failed};
use std::io::{Read, Write};

/// A device of std, and what its calls have shown: a [`ByteIn`] if it can be read, and a
/// [`ByteOut`] if it can be written. Any error of the device is a failure, also one that asks for
/// another try, and so is a write of something that takes no byte.
#[derive(Drop)]
pub struct Watched<D> {
    device: D,
    /// Whether a read or a write has failed.
    failed: bool,
    /// How many reads there were.
    calls: u64,
    /// How many bytes the reads gave.
    given: u64,
    /// Whether the last read gave the end.
    ended: bool,
}

impl<D> Watched<D> {
    /// Returns a device to which no call has been made yet.
    pub fn new(device: D) -> Watched<D>
        ensures device { device_of result ≡ device }
        ensures fresh { IsFresh (seen_of result) }
    {
        Watched {
            device,
            failed: false,
            calls: 0,
            given: 0,
            ended: false,
        }
    }

    /// Returns whether any call has failed.
    pub fn failed(&self) -> bool
        ensures { result ≡ (seen_of self.now).has_failed }
    {
        self.failed
    }

    /// Returns the device.
    pub fn into_inner(self) -> D
        ensures { result ≡ device_of self }
    {
        let Watched {
            device,
            failed: _,
            calls: _,
            given: _,
            ended: _,
        } = self;
        device
    }

    fn fail(&mut self) -> Failed
        ensures { self.new ≡ record self.old { failed = true } }
    {
        self.failed = true;
        Failed
    }
}

impl<D: Read> ByteIn for Watched<D> {
    ghost left = { λ watched. D.remaining (device_of watched) };

    ghost seen = { seen_of };

    fn read(&mut self, buf: &mut [u8]) -> Result<usize, Failed> {
        self.calls = self.calls.saturating_add(1);
        self.ended = false;
        match self.device.read(buf) {
            Ok(count) => {
                self.given = self.given.saturating_add(count as u64);
                self.ended = count == 0 && !buf.is_empty();
                Ok(count)
            }
            Err(_) => Err(self.fail()),
        }
    }
}

impl<D: Write> ByteOut for Watched<D> {
    ghost taken = { λ watched. D.contents (device_of watched) };

    ghost has_failed = { λ watched. (seen_of watched).has_failed };

    fn write(&mut self, buf: &[u8]) -> Result<usize, Failed> {
        match self.device.write(buf) {
            Ok(count) if count > 0 || buf.is_empty() => Ok(count),
            _ => Err(self.fail()),
        }
    }
}
