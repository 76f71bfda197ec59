//! Written by tools/derive.py from crates/gltf_parts/src/image.rt and
//! crates/gltf_parts/specs/Image.antt. Do not edit.

ghost use Rattle.gltf_parts.specs.Image.{image_members, image_rows};
ghost use Rattle.gltf_parts.specs.ImageDerived.{image_height, image_sound};
ghost use Rattle.gltf_schema.specs.Defaults.{defaults};
ghost use Rattle.serde_json.specs.Data.{no_members};
ghost use Rattle.std.proofs.Common.{lit≤};
ghost use Rattle.std.specs.Prelude.{false, ◌≡◌};

use super::Image;
use gltf_schema::{Object, ReadRows, WriteRows};
use std::alloc::Global;

impl Image {
    /// Returns an image without data, every member at its default.
    #[tactic(auto, unfolding(crate::specs::Image::image_rows, crate::specs::Image::image_members))]
    pub fn new() -> Image
        ensures { image_members result ≡ defaults image_rows }
    {
        Image {
            buffer_view: None,
            mime_type: None,
            name: None,
            uri: None,
            extensions: None,
            extras: None,
        }
    }
}

impl Object for Image {
    ghost rows = { image_rows };

    ghost keeps = { false };

    ghost members = { image_members };

    ghost unknown = { λ _. no_members };

    ghost kind_is_sound = { image_sound };

    ghost height = { 1 };

    ghost height_bounds_kind = { (image_height.1, lit≤ tt) };

    #[tactic(auto, unfolding(crate::specs::Image::image_rows, crate::specs::Image::image_members))]
    fn start(_alloc: Global) -> Image {
        Image::new()
    }

    #[tactic(auto, unfolding(crate::specs::Image::image_rows))]
    fn count_required() -> usize {
        0
    }

    fn read_rows<R: ReadRows>(&mut self, from: &mut R) {
        from.optional("bufferView", &mut self.buffer_view);
        from.optional("mimeType", &mut self.mime_type);
        from.optional("name", &mut self.name);
        from.optional("uri", &mut self.uri);
        from.optional("extensions", &mut self.extensions);
        from.optional("extras", &mut self.extras);
    }

    fn write_members<W: WriteRows>(&self, to: &mut W) {
        to.optional("bufferView", &self.buffer_view);
        to.optional("extensions", &self.extensions);
        to.optional("extras", &self.extras);
        to.optional("mimeType", &self.mime_type);
        to.optional("name", &self.name);
        to.optional("uri", &self.uri);
    }
}
