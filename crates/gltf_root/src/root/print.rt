//! Documents as values, texts and bytes, and into writers.

ghost use Rattle.std.specs.Prelude.{◌≡◌, ◌≢◌, ℕ, List, true, false, Some, IfOk, IfErr, OnOk, Err, IsUtf8, string_bytes};
ghost use Rattle.std.specs.Io.KnownBytes.{Appends};
ghost use Rattle.serde_json.specs.View.{view};
ghost use Rattle.gltf_schema.specs.Invalid.{holds_invalid};
ghost use Rattle.gltf_schema.specs.Outcome.{Writes};
ghost use Rattle.gltf_schema.specs.Plain.{is_plain};
ghost use Rattle.gltf_schema.specs.Read.{read};
ghost use Rattle.gltf_schema.specs.Write.{write};
ghost use Rattle.gltf_base.specs.Device.{AppendsFront};
ghost use Rattle.gltf_root.specs.Root.{root_kind, root_tree};
ghost use Rattle.gltf_root.specs.Written.{IsCompactOf, IsPrettyOf, IsReadBack, IsShown, IsWithheld};

use super::Root;
use gltf_base::{ByteOut, Failed, write_all};
use gltf_schema::{Error, Printing, Schema, Tokens};
use json::{Pretty, Writer};
use serde_json::Value;
use std::alloc::Global;

/// How many bytes a text has room for at first.
pub(super) const FIRST_ROOM: usize = 128;

impl Root {
    /// Encodes the document as a JSON value. Fails with `InvalidItem` if and only if it holds an
    /// invalid enum value or attribute name. Out of memory, it may fail with `Memory` instead.
    /// Indexes are written whether or not they name anything.
    pub fn to_value(&self, alloc: Global) -> Result<Value, Error>
        ensures by_table { Writes view result (write root_kind (root_tree self.now))
            (holds_invalid (root_tree self.now)) }
        ensures valid { OnOk result (holds_invalid (root_tree self.now) ≡ false) }
        // A plain document reads back as itself.
        ensures reads_back { IfOk result (λ v. is_plain root_kind (root_tree self.now) ≡ true
            → read root_kind (view v) ≡ Some (root_tree self.now)) }
    {
        self.encode(alloc)
    }

    /// Prints the document behind what `out` has taken.
    fn printed<W: Tokens>(&self, alloc: Global, out: W) -> Result<W, Error>
        ensures shown { IfOk result (λ w. IsShown (root_tree self.now) (W.written out)
            (W.written w)) }
        ensures before { IfOk result (λ w. W.before w ≡ W.before out) }
        ensures withheld { IfErr result (IsWithheld (root_tree self.now)) }
    {
        let mut printing = Printing::new(alloc, out);
        self.print(&mut printing);
        printing.finish()
    }

    /// Returns the document as compact JSON. Fails as [`Root::to_value`] does. A plain document
    /// reads back if it isn't nested deeper than 127 levels.
    pub fn to_vec(&self, alloc: Global) -> Result<Vec<u8>, Error>
        ensures printed { IfOk result (λ b. IsCompactOf (root_tree self.now) b.items) }
        ensures withheld { IfErr result (IsWithheld (root_tree self.now)) }
        ensures reads_back { IfOk result (λ b. IsReadBack (root_tree self.now) b.items) }
    {
        let out = Writer::new(Vec::with_capacity(alloc, FIRST_ROOM)?);
        Ok(self.printed(alloc, out)?.into_inner())
    }

    /// Returns the document as pretty-printed JSON: indented by two spaces a level, without a
    /// newline at the end. Fails as [`Root::to_value`] does.
    pub fn to_vec_pretty(&self, alloc: Global) -> Result<Vec<u8>, Error>
        ensures printed { IfOk result (λ b. IsPrettyOf (root_tree self.now) b.items) }
        ensures withheld { IfErr result (IsWithheld (root_tree self.now)) }
        ensures reads_back { IfOk result (λ b. IsReadBack (root_tree self.now) b.items) }
    {
        Ok(self.printed(alloc, Pretty::new(alloc))?.into_inner())
    }

    /// Returns the text of [`Root::to_vec`].
    pub fn to_string(&self, alloc: Global) -> Result<String, Error>
        ensures printed { IfOk result (λ s. IsCompactOf (root_tree self.now) (string_bytes s)) }
        ensures withheld { IfErr result (IsWithheld (root_tree self.now)) }
        ensures reads_back { IfOk result (λ s. IsReadBack (root_tree self.now) (string_bytes s)) }
    {
        Ok(text_of(self.to_vec(alloc)?))
    }

    /// Returns the text of [`Root::to_vec_pretty`].
    pub fn to_string_pretty(&self, alloc: Global) -> Result<String, Error>
        ensures printed { IfOk result (λ s. IsPrettyOf (root_tree self.now) (string_bytes s)) }
        ensures withheld { IfErr result (IsWithheld (root_tree self.now)) }
        ensures reads_back { IfOk result (λ s. IsReadBack (root_tree self.now) (string_bytes s)) }
    {
        Ok(text_of(self.to_vec_pretty(alloc)?))
    }

    /// Writes the bytes of [`Root::to_vec`], which are made before the first of them is written.
    /// Fails with `Write` if the writer fails, which then has taken a prefix of the bytes. Other
    /// errors are those of [`Root::to_value`], and after one of them the writer is as it was.
    /// Nothing is flushed.
    pub fn to_writer<W: ByteOut>(&self, alloc: Global, writer: &mut W) -> Result<(), Error>
        ensures whole { IfOk result (λ _. (bytes : List ℕ)
            × IsCompactOf (root_tree self.now) bytes × IsReadBack (root_tree self.now) bytes
            × Appends (W.taken writer.old) (W.taken writer.new) bytes) }
        ensures front { result ≡ Err Error.Write → (bytes : List ℕ)
            × IsCompactOf (root_tree self.now) bytes × IsReadBack (root_tree self.now) bytes
            × AppendsFront (W.taken writer.old) (W.taken writer.new) bytes }
        ensures withheld { IfErr result (λ e. e ≢ Error.Write
            → IsWithheld (root_tree self.now) e) }
        ensures works { OnOk result (W.has_failed writer.new ≡ W.has_failed writer.old) }
        ensures breaks { result ≡ Err Error.Write → W.has_failed writer.new ≡ true }
        ensures untouched { IfErr result (λ e. e ≢ Error.Write → writer.new ≡ writer.old) }
    {
        let bytes = self.to_vec(alloc)?;
        write_out(writer, &bytes)
    }

    /// Writes the bytes of [`Root::to_vec_pretty`], as [`Root::to_writer`] does.
    pub fn to_writer_pretty<W: ByteOut>(&self, alloc: Global, writer: &mut W) -> Result<(), Error>
        ensures whole { IfOk result (λ _. (bytes : List ℕ)
            × IsPrettyOf (root_tree self.now) bytes × IsReadBack (root_tree self.now) bytes
            × Appends (W.taken writer.old) (W.taken writer.new) bytes) }
        ensures front { result ≡ Err Error.Write → (bytes : List ℕ)
            × IsPrettyOf (root_tree self.now) bytes × IsReadBack (root_tree self.now) bytes
            × AppendsFront (W.taken writer.old) (W.taken writer.new) bytes }
        ensures withheld { IfErr result (λ e. e ≢ Error.Write
            → IsWithheld (root_tree self.now) e) }
        ensures works { OnOk result (W.has_failed writer.new ≡ W.has_failed writer.old) }
        ensures breaks { result ≡ Err Error.Write → W.has_failed writer.new ≡ true }
        ensures untouched { IfErr result (λ e. e ≢ Error.Write → writer.new ≡ writer.old) }
    {
        let bytes = self.to_vec_pretty(alloc)?;
        write_out(writer, &bytes)
    }
}

/// The text of bytes that were printed, which are not looked at again.
fn text_of(bytes: Vec<u8>) -> String
    requires { IsUtf8 bytes.items }
    ensures { string_bytes result ≡ bytes.items }
{
    // SAFETY: the bytes are UTF-8, as the clause above asks of the caller.
    unsafe { String::from_utf8_unchecked(bytes) }
}

/// Writes bytes. Fails with `Write` if the writer fails, and with nothing else.
pub(super) fn write_out<W: ByteOut>(writer: &mut W, bytes: &[u8]) -> Result<(), Error>
    ensures whole { OnOk result (Appends (W.taken writer.old) (W.taken writer.new) bytes.now) }
    ensures front { AppendsFront (W.taken writer.old) (W.taken writer.new) bytes.now }
    ensures works { OnOk result (W.has_failed writer.new ≡ W.has_failed writer.old) }
    ensures breaks { IfErr result (λ e. (e ≡ Error.Write) × (W.has_failed writer.new ≡ true)) }
{
    match write_all(writer, bytes) {
        Ok(()) => Ok(()),
        Err(Failed) => Err(Error::Write),
    }
}
