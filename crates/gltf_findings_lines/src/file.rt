//! A file, and where its document is.

ghost use Rattle.std.specs.Prelude.{◌≡◌, IfOk, option_map};
ghost use Rattle.gltf_buffers.specs.Reading.{Gives};
ghost use Rattle.gltf_findings_lines.specs.Parts.{container_findings, container_of, file_parts, parts_in};

use gltf_buffers::{Glb, GlbError};
use gltf_findings_files::{Container, GlbFinding, GlbFindings};
use std::alloc::{AllocError, Global};

/// A file that is checked.
#[derive(Clone, Copy)]
pub struct File<'a> {
    /// The name that lines give to the file.
    pub name: &'a str,
    /// All of its bytes.
    pub bytes: &'a [u8],
    /// Whether it is a container of binary glTF. If not, its bytes are JSON.
    pub is_container: bool,
}

/// The JSON of a file, and what it is in.
#[derive(Clone, Copy)]
pub(crate) struct Parts<'a> {
    pub(crate) json: &'a [u8],
    pub(crate) container: Container,
}

impl<'a> File<'a> {
    /// What is wrong with the container, if the file is one.
    pub(crate) fn container_findings(&self, alloc: Global) -> Result<Vec<GlbFinding>, AllocError>
        ensures { IfOk result (λ found. found.items ≡ container_findings self.now) }
    {
        if self.is_container {
            let findings = GlbFindings::of(alloc, self.bytes)?;
            Vec::from_slice(alloc, findings.as_slice())
        } else {
            Ok(Vec::new(alloc))
        }
    }

    /// The parts of the file. Fails with the first fault of the container from the left.
    pub(crate) fn parts(&self) -> Result<Parts<'a>, GlbError>
        ensures { Gives parts_in result (file_parts self.now) }
    {
        if !self.is_container {
            return Ok(Parts {
                json: self.bytes,
                container: Container::Json,
            });
        }
        let glb = Glb::from_slice(self.bytes)?;
        Ok(Parts {
            json: glb.json,
            container: container_of(glb.bin),
        })
    }
}

/// The container with a BIN chunk, if there is one.
fn container_of(bin: Option<&[u8]>) -> Container
    ensures { result ≡ container_of (option_map (λ b. b.now) bin.entry) }
{
    // derived
    match bin {
        Some(bin) => Container::Glb {
            bin_len: Some(bin.len() as u64),
        },
        None => Container::Glb { bin_len: None },
    }
}
