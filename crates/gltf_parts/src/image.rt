//! Images (glTF 2.0, section 5.18).

ghost use Rattle.std.specs.Prelude.{◌≡◌, [], ◌∷◌, refl, codes};
ghost use Rattle.gltf_base.specs.Lists.{images};
ghost use Rattle.gltf_schema.specs.Kind.{Text};
ghost use Rattle.gltf_schema.specs.WithDefaults.{with_defaults};
ghost use Rattle.gltf_schema.specs.Fields.{index_tree, text_tree};
ghost use Rattle.gltf_parts.specs.Image.{image_rows, image_members, mime_type_tree};

use crate::buffer::View;
use crate::extensions;
use crate::extras::Extras;
pub use gltf_base::image::VALID_MIME_TYPES;
use gltf_base::{Index, Listed};
use gltf_schema::{Error, Refusal, Schema, Shape, Source, Stream, Strip, Tabled, Unread};
use serde_json::Value;
use std::alloc::{AllocError, Global};

mod derived;

/// The media type of an image's data, also one that `VALID_MIME_TYPES` doesn't list.
#[derive(Clone, Debug, Drop)]
pub struct MimeType(pub String);

impl Tabled for MimeType {
    ghost kind = { Text };

    ghost tree = { mime_type_tree };
}

impl Schema for MimeType {
    ghost is_never_absent = { λ _. refl };

    fn decode_from<S: Source>(alloc: Global, source: S) -> Result<MimeType, Error> {
        Ok(MimeType(String::decode_from(alloc, source)?))
    }

    fn from_token<'a>(from: &mut Stream<'a>) -> Result<MimeType, Unread> {
        Ok(MimeType(String::from_token(from)?))
    }

    fn decode_or_place<S: Source>(alloc: Global, source: S) -> Result<MimeType, Refusal> {
        Ok(MimeType(String::decode_or_place(alloc, source)?))
    }

    fn encode(&self, alloc: Global) -> Result<Value, Error> {
        self.0.encode(alloc)
    }

    fn strip(&mut self, _what: Strip) {}

    fn outline(alloc: Global, nodes: &mut Vec<Shape>) -> Result<usize, AllocError> {
        String::outline(alloc, nodes)
    }
}

/// Image data, in a buffer view or at a URI (glTF 2.0, section 5.18).
#[derive(Clone, Debug)]
pub struct Image {
    /// The buffer view with the data; an image has either this or `uri`.
    pub buffer_view: Option<Index<View>>,
    /// The media type of the data, which `buffer_view` requires.
    pub mime_type: Option<MimeType>,
    pub name: Option<String>,
    /// The URI of the data.
    pub uri: Option<String>,
    pub extensions: Option<extensions::image::Image>,
    pub extras: Extras,
}

// Written by tools/derive.py: begin
impl Drop for Image {
    #[inline(always)]
    fn drop(self) {
        let Image {
            buffer_view: _,
            mime_type: _,
            name: _,
            uri: _,
            extensions: _,
            extras: _,
        } = self;
    }
}
// Written by tools/derive.py: end

impl Image {
    /// Returns an image with its data at a URI.
    #[tactic(auto, unfolding(crate::specs::Image::image_rows, crate::specs::Image::image_members))]
    pub fn from_uri(uri: String) -> Image
        ensures { image_members result ≡ with_defaults image_rows (
            (codes "uri", text_tree uri)
            ∷ []) }
    {
        Image {
            uri: Some(uri),
            buffer_view: None,
            mime_type: None,
            name: None,
            extensions: None,
            extras: None,
        }
    }

    /// Returns an image with its data in a buffer view, of a media type such as `image/png`.
    #[tactic(auto, unfolding(crate::specs::Image::image_rows, crate::specs::Image::image_members))]
    pub fn from_view(buffer_view: Index<View>, mime_type: MimeType) -> Image
        ensures { image_members result ≡ with_defaults image_rows (
            (codes "bufferView", index_tree buffer_view)
            ∷ (codes "mimeType", mime_type_tree mime_type)
            ∷ []) }
    {
        Image {
            buffer_view: Some(buffer_view),
            mime_type: Some(mime_type),
            name: None,
            uri: None,
            extensions: None,
            extras: None,
        }
    }
}

impl Listed for Image {
    ghost list = { images };
}
