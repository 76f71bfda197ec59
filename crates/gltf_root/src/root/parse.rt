//! Documents from values, texts, bytes and readers.

ghost use Rattle.std.specs.Prelude.{◌≡◌, ◌≤◌, ◌+◌, true, None, Err, IfErr, IfOk, IfSome, IsUtf8};
ghost use Rattle.serde_json.specs.Find.{as_object};
ghost use Rattle.serde_json.specs.View.{view};
ghost use Rattle.gltf_schema.specs.Outcome.{Reads};
ghost use Rattle.gltf_schema.specs.Plain.{is_plain};
ghost use Rattle.gltf_schema.specs.Read.{read};
ghost use Rattle.gltf_root.specs.Answer.{IsAnswer, IsReadAnswer, IsReading, IsRefusal, answer, byte_limit, call_limit};
ghost use Rattle.gltf_base.specs.Device.{IsFresh};
ghost use Rattle.gltf_root.specs.Root.{root_kind, root_tree};

use super::Root;
use crate::text::decode_text;
use gltf_base::{ByteIn, read_to_end};
use gltf_schema::{Error, Schema};
use serde_json::Value;
use simdutf8::compat::from_utf8;
use std::alloc::Global;

const MOST_BYTES: u64 = 1073741824;

const MOST_CALLS: u64 = 2147483648;

impl Root {
    /// Decodes a document from a JSON value. Fails with `Schema` if and only if the value is no
    /// glTF document. Out of memory, it may fail with `Memory` instead.
    pub fn from_value(alloc: Global, value: Value) -> Result<Root, Error>
        ensures by_table { Reads root_tree result (read root_kind (view value)) }
        // What is no object needs no memory to be refused.
        ensures no_object { as_object (view value) ≡ None → result ≡ Err Error.Schema }
        ensures plain { IfOk result (λ root. is_plain root_kind (root_tree root) ≡ true) }
    {
        Root::decode(alloc, value)
    }

    /// Reads a document from bytes of JSON. Fails with `Json` if they are no JSON, and otherwise as
    /// [`Root::from_value`] does. Out of memory, it may fail with `Memory` instead.
    #[tactic(auto, using(crate::proofs::AnswerLemmas::answers))]
    pub fn from_slice(alloc: Global, bytes: &[u8]) -> Result<Root, Error>
        ensures by_bytes { IsAnswer (answer bytes.now) result }
        ensures plain { IfOk result (λ root. is_plain root_kind (root_tree root) ≡ true) }
    {
        match from_utf8(bytes) {
            Ok(text) => from_text(alloc, text),
            Err(_) => Err(Error::Json),
        }
    }

    /// Reads a document from a JSON text, as [`Root::from_slice`] does from its bytes.
    pub fn from_str(alloc: Global, text: &str) -> Result<Root, Error>
        ensures by_text { IsAnswer (answer text.now) result }
        ensures plain { IfOk result (λ root. is_plain root_kind (root_tree root) ≡ true) }
    {
        Root::from_slice(alloc, text.as_bytes())
    }

    /// Reads a document from a reader up to its end, as [`Root::from_slice`] does. Fails with
    /// `Read` if the reader fails. Fails with `TooLong` if it gives more than 1073741824 bytes, or
    /// hasn't ended within 2147483648 calls. It reads 65536 bytes a call.
    pub fn from_reader<R: ByteIn>(alloc: Global, reader: &mut R) -> Result<Root, Error>
        ensures told { IfSome (R.left reader.old) (λ bytes. IsReadAnswer (answer bytes) result) }
        ensures fresh { IsFresh (R.seen reader.old)
            → IsReading byte_limit call_limit (R.seen reader.new) result }
        ensures refused { IfErr result IsRefusal }
        ensures soon { (R.seen reader.new).calls ≤ (R.seen reader.old).calls + call_limit }
        ensures plain { IfOk result (λ root. is_plain root_kind (root_tree root) ≡ true) }
    {
        Root::from_reader_within(alloc, reader, MOST_BYTES, MOST_CALLS)
    }

    /// Reads a document from a reader within other limits, as [`Root::from_reader`] does. Fails
    /// with `TooLong` if it gives more than `most_bytes` bytes, or hasn't ended within `most_calls`
    /// calls, the call at the end among them. It reads 65536 bytes a call, so a reader may be asked
    /// for some bytes past the limit.
    #[tactic(auto, using(crate::proofs::AnswerLemmas::readings))]
    pub fn from_reader_within<R: ByteIn>(
        alloc: Global,
        reader: &mut R,
        most_bytes: u64,
        most_calls: u64,
    ) -> Result<Root, Error>
        ensures told { IfSome (R.left reader.old) (λ bytes. IsReadAnswer (answer bytes) result) }
        ensures fresh { IsFresh (R.seen reader.old)
            → IsReading most_bytes most_calls (R.seen reader.new) result }
        ensures refused { IfErr result IsRefusal }
        ensures soon { (R.seen reader.new).calls ≤ (R.seen reader.old).calls + most_calls }
        ensures uncalled { most_calls ≡ 0 → reader.new ≡ reader.old }
        ensures plain { IfOk result (λ root. is_plain root_kind (root_tree root) ≡ true) }
    {
        let text = read_to_end(alloc, reader, most_bytes, most_calls)?;
        Root::from_slice(alloc, &text)
    }
}

/// Returns the document that a text of JSON is.
fn from_text(alloc: Global, text: &str) -> Result<Root, Error>
    ensures by_text { IsUtf8 text.now → IsAnswer (answer text.now) result }
    ensures plain { IfOk result (λ root. is_plain root_kind (root_tree root) ≡ true) }
{
    decode_text(alloc, text)
}
