//! Reading, writing, cloning and collecting where growths are refused.

use super::writing::{Layout, bytes_of, is_line, write_into};
use crate::samples::{SIX, SIX_LINES, WRONG_LIGHTS};
use crate::{End, Tried, holds, refusal_count};
use gltf_base::Steps;
use gltf_json::root::Watched;
use gltf_json::validation::{self, Collect, Stop, Validate};
use gltf_json::{Error, Path, Root};
use std::alloc::Global;
use std::test::Fail;

const LIT_IN_LINES: &str =
    "{\n  \"asset\": {\n    \"version\": \"2.0\"\n  },\n  \"extensions\": {\n    \"KHR_lights_punctual\": {\n      \"lights\": [\n        {\n          \"type\": \"spot\"\n        }\n      ]\n    }\n  },\n  \"nodes\": [\n    {\n      \"extensions\": {\n        \"KHR_lights_punctual\": {\n          \"light\": 1\n        }\n      }\n    }\n  ]\n}";

/// A document with objects that keep members before, between and behind those of their rows.
const KEPT: &str =
    r#"{"asset":{"version":"2.0"},"extensions":{"A":["x",{"y":0.5}],"KHR_lights_punctual":{"lights":[{"type":"spot"}]},"Z":-1},"materials":[{"alphaMode":"OPAQUE","doubleSided":false,"emissiveTexture":{"extensions":{"KHR_texture_transform":{"texCoord":null},"a":"é"},"index":0,"texCoord":0},"pbrMetallicRoughness":{}}],"nodes":[{"extensions":{"K":null,"KHR_lights_punctual":{"light":1}}}]}"#;

const KEPT_IN_LINES: &str =
    "{\n  \"asset\": {\n    \"version\": \"2.0\"\n  },\n  \"extensions\": {\n    \"A\": [\n      \"x\",\n      {\n        \"y\": 0.5\n      }\n    ],\n    \"KHR_lights_punctual\": {\n      \"lights\": [\n        {\n          \"type\": \"spot\"\n        }\n      ]\n    },\n    \"Z\": -1\n  },\n  \"materials\": [\n    {\n      \"alphaMode\": \"OPAQUE\",\n      \"doubleSided\": false,\n      \"emissiveTexture\": {\n        \"extensions\": {\n          \"KHR_texture_transform\": {\n            \"texCoord\": null\n          },\n          \"a\": \"é\"\n        },\n        \"index\": 0,\n        \"texCoord\": 0\n      },\n      \"pbrMetallicRoughness\": {}\n    }\n  ],\n  \"nodes\": [\n    {\n      \"extensions\": {\n        \"K\": null,\n        \"KHR_lights_punctual\": {\n          \"light\": 1\n        }\n      }\n    }\n  ]\n}";

/// Reading a document from bytes, and what was read at last.
#[derive(Drop)]
struct Reading {
    read: Option<Root>,
}

impl Tried for Reading {
    fn attempt(&mut self, alloc: Global) -> End {
        match Root::from_slice(alloc, WRONG_LIGHTS.as_bytes()) {
            Ok(root) => {
                self.read = Some(root);
                End::Whole
            }
            Err(Error::Memory(_)) => End::Refused,
            Err(_) => End::Wrong,
        }
    }
}

/// Whether there is a document that is written as the one that was to be read or cloned.
fn is_lit(alloc: Global, made: &Option<Root>) -> Result<bool, Fail> {
    match made {
        Some(root) => Ok(is_line(alloc, root, WRONG_LIGHTS)?),
        None => Ok(false),
    }
}

/// Whether a reading is refused, and whole in the end.
fn is_read_in_the_end(alloc: Global) -> Result<bool, Fail> {
    let mut reading = Reading { read: None };
    let refusals = refusal_count(alloc, &mut reading)?;
    Ok(refusals > 0 && is_lit(alloc, &reading.read)?)
}

// Under `rt try` nothing is refused, and these tests fail: its allocator is another one.
#[test]
fn readings_without_memory(rt: HostRuntime) -> Result<(), Fail> {
    assert!(rt; is_read_in_the_end(rt.alloc())?);
    Ok(())
}

/// Cloning a document, and the last clone.
#[derive(Drop)]
struct Cloning {
    root: Root,
    copy: Option<Root>,
}

impl Tried for Cloning {
    fn attempt(&mut self, _alloc: Global) -> End {
        match self.root.clone() {
            Ok(copy) => {
                self.copy = Some(copy);
                End::Whole
            }
            Err(_) => End::Refused,
        }
    }
}

/// Whether a clone is refused, and whole in the end.
fn is_cloned_in_the_end(alloc: Global) -> Result<bool, Fail> {
    let root = Root::from_str(alloc, WRONG_LIGHTS)?;
    let mut cloning = Cloning { root, copy: None };
    let refusals = refusal_count(alloc, &mut cloning)?;
    Ok(refusals > 0 && is_lit(alloc, &cloning.copy)?)
}

#[test]
fn clones_without_memory(rt: HostRuntime) -> Result<(), Fail> {
    assert!(rt; is_cloned_in_the_end(rt.alloc())?);
    Ok(())
}

/// How many bytes a writer has room for.
const ROOM: usize = 4096;

/// Writing a document as bytes and into a writer that has room for it, and the text that is due.
#[derive(Drop)]
struct Writing {
    root: Root,
    layout: Layout,
    due: &'static str,
    taken: Option<Vec<u8>>,
}

impl Writing {
    /// How writing the document as bytes ends.
    fn bytes_end(&self, alloc: Global) -> End {
        match bytes_of(alloc, &self.root, self.layout) {
            Ok(bytes) if bytes.as_slice() == self.due.as_bytes() => End::Whole,
            Err(Error::Memory(_)) => End::Refused,
            _ => End::Wrong,
        }
    }

    /// How writing the document into the writer ends, which takes nothing if that is refused.
    fn writer_end(&mut self, alloc: Global) -> End {
        let Some(mut taken) = self.taken.take() else {
            return End::Wrong;
        };
        taken.clear();
        let mut writer = Watched::new(taken);
        let ended = write_into(alloc, &self.root, self.layout, &mut writer);
        let taken = writer.into_inner();
        let end = match ended {
            Ok(()) if taken.as_slice() == self.due.as_bytes() => End::Whole,
            Err(Error::Memory(_)) if taken.is_empty() => End::Refused,
            _ => End::Wrong,
        };
        self.taken = Some(taken);
        end
    }
}

impl Tried for Writing {
    fn attempt(&mut self, alloc: Global) -> End {
        match (self.bytes_end(alloc), self.writer_end(alloc)) {
            (End::Whole, End::Whole) => End::Whole,
            (End::Wrong, _) | (_, End::Wrong) => End::Wrong,
            _ => End::Refused,
        }
    }
}

/// How often writing a document in a layout is refused.
fn refused_writings(
    alloc: Global,
    line: &str,
    layout: Layout,
    due: &'static str,
) -> Result<usize, Fail> {
    let mut writing = Writing {
        root: Root::from_str(alloc, line)?,
        layout,
        due,
        taken: Some(Vec::with_capacity(alloc, ROOM)?),
    };
    refusal_count(alloc, &mut writing)
}

#[test]
fn writings_without_memory(rt: HostRuntime) -> Result<(), Fail> {
    holds(
        refused_writings(rt.alloc(), WRONG_LIGHTS, Layout::InOneLine, WRONG_LIGHTS)? > 0,
        "a document in one line",
    )?;
    holds(
        refused_writings(rt.alloc(), WRONG_LIGHTS, Layout::InLines, LIT_IN_LINES)? > 0,
        "a document in lines",
    )?;
    Ok(())
}

#[test]
fn writings_of_kept_members_without_memory(rt: HostRuntime) -> Result<(), Fail> {
    holds(
        refused_writings(rt.alloc(), KEPT, Layout::InOneLine, KEPT)? > 0,
        "kept members in one line",
    )?;
    holds(
        refused_writings(rt.alloc(), KEPT, Layout::InLines, KEPT_IN_LINES)? > 0,
        "kept members in lines",
    )?;
    Ok(())
}

/// What a text has behind the lines of reports, where it begins with them.
fn behind_reports<'a>(text: &'a str, reports: &[(Path, validation::Error)]) -> Option<&'a str> {
    let mut rest = text;
    for (place, error) in reports.iter() {
        rest = rest
            .strip_prefix(place.as_str())?
            .strip_prefix(": ")?
            .strip_prefix(text_of(*error))?
            .strip_prefix("\n")?;
    }
    Some(rest)
}

/// What is said of a fault.
fn text_of(error: validation::Error) -> &'static str {
    match error {
        validation::Error::IndexOutOfBounds => "Index out of bounds",
        validation::Error::Invalid => "Invalid value",
        validation::Error::Missing => "Missing data",
        _ => "another fault",
    }
}

/// Collecting the reports of a document.
#[derive(Drop)]
struct Collecting {
    root: Root,
}

impl Tried for Collecting {
    fn attempt(&mut self, alloc: Global) -> End {
        let mut sink = Collect::new(alloc);
        let ended = self.root.validate(&self.root, &mut Steps::new(), &mut sink);
        match (ended, behind_reports(SIX_LINES, sink.reports())) {
            (Ok(()), Some("")) => End::Whole,
            (Err(Stop::Sink(_)), Some(rest)) if !rest.is_empty() => End::Refused,
            _ => End::Wrong,
        }
    }
}

/// How often collecting is refused.
fn refused_collections(alloc: Global) -> Result<usize, Fail> {
    let root = Root::from_str(alloc, SIX)?;
    refusal_count(alloc, &mut Collecting { root })
}

#[test]
fn collections_without_memory(rt: HostRuntime) -> Result<(), Fail> {
    assert!(rt; refused_collections(rt.alloc())? > 0);
    Ok(())
}
