//! The rules for buffers and images.

ghost use Rattle.std.specs.Prelude.{◌≡◌, ◌++◌, OnOk, Option};
ghost use Rattle.gltf_findings_codes.specs.Found.{found};
ghost use Rattle.gltf_findings_files.specs.Uris.{is_uri_reference};
ghost use Rattle.gltf_findings_files.specs.Objects.{uri_rules, media_rules, stored_rules, is_stored, buffer_uri_findings, buffer_findings, image_uri_findings, image_findings};

use crate::container::Container;
use crate::uri::{is_buffer_data, is_not_relative, is_uri_reference};
use gltf_buffers::is_data_uri;
use gltf_findings_codes::{Code, Finding, Name, Object, Rules, Subject, add_found, broken};
use gltf_parts::buffer::Buffer;
use gltf_parts::image::Image;
use std::alloc::AllocError;

/// The rules for the URIs of buffers, and for the buffer that is the BIN chunk of a `.glb` file
/// (glTF 2.0, sections 2.8, 3.6.1 and 4.4.3.3).
#[derive(Clone, Copy)]
pub struct BufferUriRules(pub Container);

impl Rules<Buffer> for BufferUriRules {
    ghost findings = { λ s n buffer. buffer_findings s.0 n buffer };

    #[tactic(auto, using(std::proofs::lemmas::List::append_assoc))]
    fn add(&self, number: usize, item: &Buffer, to: &mut Vec<Finding>) -> Result<(), AllocError> {
        let place = Subject::Member(Object::Item(Name::Buffers, number), Name::Uri);
        add_found(to, &stored_rules(self.0, number, item))?;
        add_buffer_uri(to, self.0, place, &item.uri)
    }
}

/// The rules for the URIs of images (glTF 2.0, section 2.8).
#[derive(Clone, Copy)]
pub struct ImageUriRules(pub Container);

impl Rules<Image> for ImageUriRules {
    ghost findings = { λ s n image. image_findings s.0 n image };

    fn add(&self, number: usize, item: &Image, to: &mut Vec<Finding>) -> Result<(), AllocError> {
        let place = Subject::Member(Object::Item(Name::Images, number), Name::Uri);
        add_image_uri(to, self.0, place, &item.uri)
    }
}

/// Adds the findings of the URI that a buffer may have.
#[tactic(auto, using(std::proofs::lemmas::List::append_assoc))]
fn add_buffer_uri(
    to: &mut Vec<Finding>,
    container: Container,
    place: Subject,
    uri: &Option<String>,
) -> Result<(), AllocError>
    ensures { OnOk result (to.new.items
        ≡ to.old.items ++ buffer_uri_findings container place uri.now) }
{
    match uri {
        Some(uri) => {
            let is_uri = is_uri_reference(uri.as_str());
            add_found(to, &uri_rules(container, place, uri.as_str(), is_uri))?;
            add_found(to, &media_rules(place, uri.as_str(), is_uri))
        }
        None => Ok(()),
    }
}

/// Adds the findings of the URI that an image may have.
fn add_image_uri(
    to: &mut Vec<Finding>,
    container: Container,
    place: Subject,
    uri: &Option<String>,
) -> Result<(), AllocError>
    ensures { OnOk result (to.new.items
        ≡ to.old.items ++ image_uri_findings container place uri.now) }
{
    match uri {
        Some(uri) => {
            let is_uri = is_uri_reference(uri.as_str());
            add_found(to, &uri_rules(container, place, uri.as_str(), is_uri))
        }
        None => Ok(()),
    }
}

/// The rules for a text that is a URI reference, or is not.
fn uri_rules(container: Container, place: Subject, uri: &str, is_uri: bool) -> [Option<Finding>; 4]
    requires { is_uri ≡ is_uri_reference uri.now }
    ensures { result ≡ uri_rules container place uri.now }
{
    // derived
    let is_glb = container.is_glb();
    let is_data_uri = is_data_uri(uri);
    [
        broken(!is_uri, Code::InvalidUri, place),
        broken(
            is_uri && !is_data_uri && is_not_relative(uri),
            Code::NonRelativeUri,
            place,
        ),
        broken(is_uri && !is_data_uri && is_glb, Code::UriGlb, place),
        broken(is_uri && is_data_uri && is_glb, Code::DataUriGlb, place),
    ]
}

/// The rule for the media type of a buffer's data URI.
fn media_rules(place: Subject, uri: &str, is_uri: bool) -> [Option<Finding>; 1]
    requires { is_uri ≡ is_uri_reference uri.now }
    ensures { result ≡ media_rules place uri.now }
{
    // derived
    [broken(
        is_uri && is_data_uri(uri) && !is_buffer_data(uri),
        Code::BufferDataUriMimeTypeInvalid,
        place,
    )]
}

/// The rules for a buffer that is a BIN chunk.
fn stored_rules(container: Container, number: usize, buffer: &Buffer) -> [Option<Finding>; 2]
    ensures { result ≡ stored_rules container number buffer.now }
{
    // derived
    let at = Object::Item(Name::Buffers, number);
    let is_stored = is_stored(number, buffer);
    [
        broken(
            is_stored && container.is_without_bin(),
            Code::BufferMissingGlbData,
            Subject::Object(at),
        ),
        broken(
            is_stored && container.is_bin_longer(buffer.byte_length.0),
            Code::BufferGlbChunkTooBig,
            Subject::Object(at),
        ),
    ]
}

/// Whether a buffer is the BIN chunk of a `.glb` file.
fn is_stored(number: usize, buffer: &Buffer) -> bool
    ensures { result ≡ is_stored number buffer.now }
{
    // derived
    number == 0 && buffer.uri.is_none()
}
