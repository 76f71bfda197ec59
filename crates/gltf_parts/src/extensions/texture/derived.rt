//! Written by tools/derive.py from crates/gltf_parts/src/extensions/texture.rt and
//! crates/gltf_parts/specs/Texture.antt. Do not edit.

ghost use Rattle.gltf_parts.specs.Texture.{info_extension_members, info_extension_rows, texture_transform_members, texture_transform_rows};
ghost use Rattle.gltf_parts.specs.TextureDerived.{info_extension_height, info_extension_sound, texture_transform_height, texture_transform_sound};
ghost use Rattle.gltf_schema.specs.Defaults.{defaults};
ghost use Rattle.gltf_schema.specs.Fields.{real_tree, reals_tree};
ghost use Rattle.gltf_schema.specs.Floats.{float_or, floats_or};
ghost use Rattle.gltf_schema.specs.Kind.{Number, Numbers};
ghost use Rattle.gltf_schema.specs.Tree.{tree_or_absent};
ghost use Rattle.serde_json.specs.Data.{no_members};
ghost use Rattle.serde_json.specs.View.{members_view};
ghost use Rattle.std.proofs.Common.{lit≤};
ghost use Rattle.std.specs.Prelude.{false, true, ◌≡◌};

use super::{
    Info, TextureTransform, TextureTransformOffset, TextureTransformRotation, TextureTransformScale,
};
use gltf_schema::{Object, ReadRows, StrictObject, StrictRows, Tabled, WriteRows};
use serde_json::Map;
use std::alloc::Global;

impl TextureTransform {
    /// Returns the identity transform.
    #[tactic(auto, unfolding(crate::specs::Texture::texture_transform_rows, crate::specs::Texture::texture_transform_members))]
    pub fn new() -> TextureTransform
        ensures { texture_transform_members result ≡ defaults texture_transform_rows }
    {
        TextureTransform {
            offset: TextureTransformOffset(None),
            rotation: TextureTransformRotation(None),
            scale: TextureTransformScale(None),
            tex_coord: None,
            extras: None,
        }
    }
}

impl Object for TextureTransform {
    ghost rows = { texture_transform_rows };

    ghost keeps = { false };

    ghost members = { texture_transform_members };

    ghost unknown = { λ _. no_members };

    ghost kind_is_sound = { texture_transform_sound };

    ghost height = { 0 };

    ghost height_bounds_kind = { (texture_transform_height.1, lit≤ tt) };

    #[tactic(auto, unfolding(crate::specs::Texture::texture_transform_rows, crate::specs::Texture::texture_transform_members))]
    fn start(_alloc: Global) -> TextureTransform {
        TextureTransform::new()
    }

    #[tactic(auto, unfolding(crate::specs::Texture::texture_transform_rows))]
    fn count_required() -> usize {
        0
    }

    fn read_rows<R: ReadRows>(&mut self, from: &mut R) {
        from.sometimes("offset", &mut self.offset.0);
        from.sometimes("rotation", &mut self.rotation.0);
        from.sometimes("scale", &mut self.scale.0);
        from.optional("texCoord", &mut self.tex_coord);
        from.optional("extras", &mut self.extras);
    }

    fn write_members<W: WriteRows>(&self, to: &mut W) {
        to.optional("extras", &self.extras);
        to.optional("offset", &self.offset.0);
        to.optional("rotation", &self.rotation.0);
        to.optional("scale", &self.scale.0);
        to.or_null("texCoord", &self.tex_coord);
    }
}

impl StrictObject for TextureTransform {
    fn write_strictly<W: StrictRows>(&self, to: &mut W) {
        to.optional("extras", &self.extras);
        to.optional("offset", &self.offset.0);
        to.optional("rotation", &self.rotation.0);
        to.optional("scale", &self.scale.0);
        to.optional("texCoord", &self.tex_coord);
    }
}

impl Info {
    /// Returns an empty extension object.
    #[tactic(auto, unfolding(crate::specs::Texture::info_extension_rows, crate::specs::Texture::info_extension_members))]
    pub fn new(alloc: Global) -> Info
        ensures known { info_extension_members result ≡ defaults info_extension_rows }
        ensures unknown { members_view result.others.entries ≡ no_members }
    {
        Info {
            texture_transform: None,
            others: Map::new(alloc),
        }
    }
}

impl Object for Info {
    ghost rows = { info_extension_rows };

    ghost keeps = { true };

    ghost members = { info_extension_members };

    ghost unknown = { λ e. members_view e.others.entries };

    ghost kind_is_sound = { info_extension_sound };

    ghost height = { 0 };

    ghost height_bounds_kind = { (info_extension_height.1, lit≤ tt) };

    #[tactic(auto, unfolding(crate::specs::Texture::info_extension_rows, crate::specs::Texture::info_extension_members))]
    fn start(alloc: Global) -> Info {
        Info::new(alloc)
    }

    #[tactic(auto, unfolding(crate::specs::Texture::info_extension_rows))]
    fn count_required() -> usize {
        0
    }

    fn read_rows<R: ReadRows>(&mut self, from: &mut R) {
        from.optional("KHR_texture_transform", &mut self.texture_transform);
        from.others(&mut self.others);
    }

    fn write_members<W: WriteRows>(&self, to: &mut W) {
        to.others(&self.others);
        to.optional("KHR_texture_transform", &self.texture_transform);
    }
}

impl StrictObject for Info {
    fn write_strictly<W: StrictRows>(&self, to: &mut W) {
        to.others(&self.others);
        to.optional_strictly("KHR_texture_transform", &self.texture_transform);
    }
}

impl TextureTransformOffset {
    /// The numbers as floats, or [`TextureTransformOffset::DEFAULT`] if they are absent.
    pub fn values(&self) -> [f64; 2]
        ensures { result ≡ floats_or Self.DEFAULT self.now.0 }
    {
        match &self.0 {
            Some([x, y]) => [x.as_f64(), y.as_f64()],
            None => TextureTransformOffset::DEFAULT,
        }
    }
}

impl Tabled for TextureTransformOffset {
    ghost kind = { Numbers 2 };

    ghost tree = { λ factor. tree_or_absent reals_tree factor.0 };
}

impl TextureTransformRotation {
    /// The number as a float, or [`TextureTransformRotation::DEFAULT`] if it is absent.
    pub fn value(&self) -> f64
        ensures { result ≡ float_or Self.DEFAULT self.now.0 }
    {
        match &self.0 {
            Some(number) => number.as_f64(),
            None => TextureTransformRotation::DEFAULT,
        }
    }
}

impl Tabled for TextureTransformRotation {
    ghost kind = { Number };

    ghost tree = { λ factor. tree_or_absent real_tree factor.0 };
}

impl TextureTransformScale {
    /// The numbers as floats, or [`TextureTransformScale::DEFAULT`] if they are absent.
    pub fn values(&self) -> [f64; 2]
        ensures { result ≡ floats_or Self.DEFAULT self.now.0 }
    {
        match &self.0 {
            Some([x, y]) => [x.as_f64(), y.as_f64()],
            None => TextureTransformScale::DEFAULT,
        }
    }
}

impl Tabled for TextureTransformScale {
    ghost kind = { Numbers 2 };

    ghost tree = { λ factor. tree_or_absent reals_tree factor.0 };
}
