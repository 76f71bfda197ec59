//! Written by tools/derive.py from crates/gltf_parts/src/texture.rt and
//! crates/gltf_parts/specs/Texture.antt. Do not edit.

ghost use Rattle.gltf_parts.specs.Texture.{info_members, info_rows, sampler_members, sampler_rows, texture_members, texture_rows};
ghost use Rattle.gltf_parts.specs.TextureDerived.{info_height, info_sound, sampler_height, sampler_sound, texture_height, texture_sound};
ghost use Rattle.gltf_schema.specs.Defaults.{defaults};
ghost use Rattle.serde_json.specs.Data.{no_members};
ghost use Rattle.std.proofs.Common.{lit≤};
ghost use Rattle.std.specs.Prelude.{false, ◌≡◌};

use super::{Info, NO_IMAGE, Sampler, Texture};
use gltf_base::Index;
use gltf_base::texture::WrappingMode;
use gltf_base::validation::Checked;
use gltf_schema::{Object, ReadRows, StrictObject, StrictRows, WriteRows};
use std::alloc::Global;

impl Sampler {
    /// Returns a sampler with every member at its default: it repeats the texture.
    #[tactic(auto, unfolding(crate::specs::Texture::sampler_rows, crate::specs::Texture::sampler_members))]
    pub fn new() -> Sampler
        ensures { sampler_members result ≡ defaults sampler_rows }
    {
        Sampler {
            mag_filter: None,
            min_filter: None,
            name: None,
            wrap_s: Checked::Valid(WrappingMode::Repeat),
            wrap_t: Checked::Valid(WrappingMode::Repeat),
            extensions: None,
            extras: None,
        }
    }
}

impl Object for Sampler {
    ghost rows = { sampler_rows };

    ghost keeps = { false };

    ghost members = { sampler_members };

    ghost unknown = { λ _. no_members };

    ghost kind_is_sound = { sampler_sound };

    ghost height = { 1 };

    ghost height_bounds_kind = { (sampler_height.1, lit≤ tt) };

    #[tactic(auto, unfolding(crate::specs::Texture::sampler_rows, crate::specs::Texture::sampler_members))]
    fn start(_alloc: Global) -> Sampler {
        Sampler::new()
    }

    #[tactic(auto, unfolding(crate::specs::Texture::sampler_rows))]
    fn count_required() -> usize {
        0
    }

    fn read_rows<R: ReadRows>(&mut self, from: &mut R) {
        from.optional("magFilter", &mut self.mag_filter);
        from.optional("minFilter", &mut self.min_filter);
        from.optional("name", &mut self.name);
        from.or_default("wrapS", &mut self.wrap_s);
        from.or_default("wrapT", &mut self.wrap_t);
        from.optional("extensions", &mut self.extensions);
        from.optional("extras", &mut self.extras);
    }

    fn write_members<W: WriteRows>(&self, to: &mut W) {
        to.optional("extensions", &self.extensions);
        to.optional("extras", &self.extras);
        to.optional("magFilter", &self.mag_filter);
        to.optional("minFilter", &self.min_filter);
        to.optional("name", &self.name);
        to.always("wrapS", &self.wrap_s);
        to.always("wrapT", &self.wrap_t);
    }
}

impl Object for Texture {
    ghost rows = { texture_rows };

    ghost keeps = { false };

    ghost members = { texture_members };

    ghost unknown = { λ _. no_members };

    ghost kind_is_sound = { texture_sound };

    ghost height = { 1 };

    ghost height_bounds_kind = { (texture_height.1, lit≤ tt) };

    #[tactic(auto, unfolding(crate::specs::Texture::texture_rows, crate::specs::Texture::texture_members))]
    fn start(_alloc: Global) -> Texture {
        Texture {
            name: None,
            sampler: None,
            extensions: None,
            source: Index::new(NO_IMAGE),
            extras: None,
        }
    }

    #[tactic(auto, unfolding(crate::specs::Texture::texture_rows))]
    fn count_required() -> usize {
        0
    }

    fn read_rows<R: ReadRows>(&mut self, from: &mut R) {
        from.optional("name", &mut self.name);
        from.optional("sampler", &mut self.sampler);
        from.optional("extensions", &mut self.extensions);
        from.or_default("source", &mut self.source);
        from.optional("extras", &mut self.extras);
    }

    fn write_members<W: WriteRows>(&self, to: &mut W) {
        to.optional("extensions", &self.extensions);
        to.optional("extras", &self.extras);
        to.optional("name", &self.name);
        to.optional("sampler", &self.sampler);
        to.unless("source", &self.source, Index::new(NO_IMAGE));
    }
}

impl Object for Info {
    ghost rows = { info_rows };

    ghost keeps = { false };

    ghost members = { info_members };

    ghost unknown = { λ _. no_members };

    ghost kind_is_sound = { info_sound };

    ghost height = { 1 };

    ghost height_bounds_kind = { (info_height.1, lit≤ tt) };

    #[tactic(auto, unfolding(crate::specs::Texture::info_rows, crate::specs::Texture::info_members))]
    fn start(_alloc: Global) -> Info {
        Info {
            index: Index::new(0),
            tex_coord: 0,
            extensions: None,
            extras: None,
        }
    }

    #[tactic(auto, unfolding(crate::specs::Texture::info_rows))]
    fn count_required() -> usize {
        1
    }

    fn read_rows<R: ReadRows>(&mut self, from: &mut R) {
        from.required("index", &mut self.index);
        from.or_default("texCoord", &mut self.tex_coord);
        from.optional("extensions", &mut self.extensions);
        from.optional("extras", &mut self.extras);
    }

    fn write_members<W: WriteRows>(&self, to: &mut W) {
        to.optional("extensions", &self.extensions);
        to.optional("extras", &self.extras);
        to.always("index", &self.index);
        to.always("texCoord", &self.tex_coord);
    }
}

impl StrictObject for Info {
    fn write_strictly<W: StrictRows>(&self, to: &mut W) {
        to.optional_strictly("extensions", &self.extensions);
        to.optional("extras", &self.extras);
        to.always("index", &self.index);
        to.always("texCoord", &self.tex_coord);
    }
}
