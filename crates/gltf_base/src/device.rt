//! What documents are read from and written to.

ghost use Rattle.std.specs.Prelude.{◌≡◌, ◌+◌, ◌<◌, ◌≤◌, ◌&&◌, ℕ, List, [], Bool, Option, None, true, false, nat_eq, nat_lt, length, IfOk, IfErr, OnOk, OnErr, MatchResult};
ghost use Rattle.std.specs.Io.KnownBytes.{Appends, ReadConsumes, WriteAppends};
ghost use Rattle.gltf_base.specs.Device.{Seen, saturated, IsFresh, IsWithin, IsReadToEnd, GaveUp, AppendsFront};

use crate::Error as DocumentError;
use std::alloc::Global;
use thiserror::Error;

const PIECE_LEN: usize = 65536;

/// A device failed.
#[derive(Clone, Copy, Debug, Error)]
#[error("device failed")]
pub struct Failed;

/// A reader of bytes. An implementation keeps in its fields what its calls have shown, as
/// [`Watched`](crate::Watched) does.
pub trait ByteIn {
    // The bytes that are left, where they are known.
    ghost left: { Self → Option (List ℕ) } = { λ _. None };

    // What the calls so far have shown.
    ghost seen: { Self → Seen };

    /// Reads bytes into the front of `buf` and returns how many. `Ok(0)` for a slice that isn't
    /// empty is the end. Fails if the device fails.
    fn read(&mut self, buf: &mut [u8]) -> Result<usize, Failed>
        ensures bound { IfOk result (λ n. n ≤ length buf.new) }
        ensures bytes { ReadConsumes (left self.old) (left self.new) result buf.new }
        ensures breaks { OnErr result ((seen self.new).has_failed ≡ true) }
        ensures works { OnOk result ((seen self.new).has_failed ≡ (seen self.old).has_failed) }
        ensures calls { (seen self.new).calls ≡ saturated ((seen self.old).calls + 1) }
        ensures given { MatchResult result
            (λ n. (seen self.new).given ≡ saturated ((seen self.old).given + n))
            (λ _. (seen self.new).given ≡ (seen self.old).given) }
        ensures end { MatchResult result
            (λ n. (seen self.new).has_ended ≡ (nat_eq n 0 && nat_lt 0 (length buf.new)))
            (λ _. (seen self.new).has_ended ≡ false) };
}

/// A writer of bytes. An implementation keeps in a field whether a call has failed.
pub trait ByteOut {
    // The bytes that it took so far, where they are known.
    ghost taken: { Self → Option (List ℕ) } = { λ _. None };

    // Whether a call has failed.
    ghost has_failed: { Self → Bool };

    /// Takes bytes from the front of `buf` and returns how many: at least one, if there is one.
    /// Fails if the device fails.
    fn write(&mut self, buf: &[u8]) -> Result<usize, Failed>
        ensures bound { IfOk result (λ n. n ≤ length buf.now) }
        ensures some { 0 < length buf.now → IfOk result (λ n. 0 < n) }
        ensures bytes { WriteAppends (taken self.old) (taken self.new) result buf.now }
        ensures breaks { OnErr result (has_failed self.new ≡ true) }
        ensures works { OnOk result (has_failed self.new ≡ has_failed self.old) };
}

/// Returns all bytes of a reader up to its end, read 65536 at a time. Fails with `Read` if the
/// reader fails, and with `Memory` if out of memory. Fails with `TooLong` if it gives more than
/// `most_bytes` bytes, or hasn't ended within `most_calls` calls.
pub fn read_to_end<R: ByteIn>(
    alloc: Global,
    reader: &mut R,
    most_bytes: u64,
    most_calls: u64,
) -> Result<Vec<u8>, DocumentError>
    ensures all { IfOk result (λ bytes. IsReadToEnd (R.left reader.old)
        (R.left reader.new) bytes.items) }
    ensures within { IsFresh (R.seen reader.old)
        → OnOk result (IsWithin most_bytes most_calls (R.seen reader.new)) }
    ensures gave_up { IfErr result (λ e. GaveUp most_bytes most_calls (R.seen reader.old)
        (R.seen reader.new) e) }
    ensures soon { (R.seen reader.new).calls ≤ (R.seen reader.old).calls + most_calls }
    ensures uncalled { most_calls ≡ 0 → reader.new ≡ reader.old }
{
    let mut bytes = Vec::new(alloc);
    let mut piece = vec![in alloc; 0u8; PIECE_LEN]?;
    read_to_end_into(reader, &mut bytes, &mut piece, most_bytes, most_calls)?;
    Ok(bytes)
}

/// Reads all bytes of a reader up to its end, as [`read_to_end`] does, into an empty vector. It reads
/// one piece at a time. A caller with many readers makes one piece for all of them.
// A proof that knows what a new piece holds computes all its zeros, which this one doesn't know.
#[tactic(auto, using(crate::proofs::DeviceLemmas::reads))]
pub fn read_to_end_into<R: ByteIn>(
    reader: &mut R,
    bytes: &mut Vec<u8>,
    piece: &mut [u8],
    most_bytes: u64,
    most_calls: u64,
) -> Result<(), DocumentError>
    requires room { 0 < length piece.old }
    requires empty { bytes.old.items ≡ [] }
    ensures all { OnOk result (IsReadToEnd (R.left reader.old)
        (R.left reader.new) bytes.new.items) }
    ensures within { IsFresh (R.seen reader.old)
        → OnOk result (IsWithin most_bytes most_calls (R.seen reader.new)) }
    ensures gave_up { IfErr result (λ e. GaveUp most_bytes most_calls (R.seen reader.old)
        (R.seen reader.new) e) }
    ensures soon { (R.seen reader.new).calls ≤ (R.seen reader.old).calls + most_calls }
    ensures uncalled { most_calls ≡ 0 → reader.new ≡ reader.old }
{
    for _ in 0..most_calls {
        let Ok(count) = reader.read(piece) else {
            return Err(DocumentError::Read);
        };
        if count == 0 {
            return Ok(());
        }
        if count as u64 > most_bytes - bytes.len() as u64 {
            return Err(DocumentError::TooLong);
        }
        bytes.extend_from_slice(&piece[..count])?;
    }
    Err(DocumentError::TooLong)
}

/// Writes all bytes, in as many calls as the writer needs. Fails if a call fails; the writer has
/// taken a prefix of the bytes then.
#[tactic(auto, using(crate::proofs::WriteLemmas::writes))]
pub fn write_all<W: ByteOut>(writer: &mut W, bytes: &[u8]) -> Result<(), Failed>
    ensures works { OnOk result (W.has_failed writer.new ≡ W.has_failed writer.old) }
    ensures breaks { OnErr result (W.has_failed writer.new ≡ true) }
    ensures front { AppendsFront (W.taken writer.old) (W.taken writer.new) bytes.now }
    ensures whole { OnOk result (Appends (W.taken writer.old) (W.taken writer.new) bytes.now) }
{
    let mut at = 0;
    while at < bytes.len() {
        at += writer.write(&bytes[at..])?;
    }
    Ok(())
}
