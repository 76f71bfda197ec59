//! Images, samplers and textures (glTF 2.0, sections 5.18, 5.26 and 5.29).

ghost use Rattle.std.specs.Prelude.{◌≡◌, length, slice_get};
ghost use Rattle.gltf_base.specs.Indexes.{index_number};
ghost use Rattle.gltf_findings_codes.specs.Found.{found};
ghost use Rattle.gltf_findings_rules.specs.Textures.{image_rules, sampler_rules, texture_rules, is_source_unresolved, names_other_type, is_other_type, is_unlisted, is_core_type, is_extension_type};

use gltf_base::Index;
use gltf_findings_codes::{
    Code, Finding, Name, Object, Rules, Subject, add_found, broken, is_invalid, is_some_invalid,
    is_some_unresolved, is_strided,
};
use gltf_parts::buffer::View;
use gltf_parts::image::{Image, MimeType};
use gltf_parts::texture::{NO_IMAGE, Sampler, Texture};
use std::alloc::AllocError;

/// The rules for images, which name buffer views.
#[derive(Clone, Copy)]
pub struct ImageRules<'a>(pub &'a [View]);

impl Rules<Image> for ImageRules<'_> {
    ghost findings = { λ s n image. found (image_rules s.0.now n image) };

    fn add(&self, number: usize, item: &Image, to: &mut Vec<Finding>) -> Result<(), AllocError> {
        add_found(to, &image_rules(self.0, number, item))
    }
}

/// The rules for one image.
fn image_rules(views: &[View], number: usize, image: &Image) -> [Option<Finding>; 5]
    ensures { result ≡ image_rules views.now number image.now }
{
    // derived
    let at = Object::Item(Name::Images, number);
    let buffer_view_at = Subject::Member(at, Name::BufferView);
    let has_buffer_view = image.buffer_view.is_some();
    let has_uri = image.uri.is_some();
    [
        broken(
            (has_buffer_view && has_uri) || (!has_buffer_view && !has_uri),
            Code::OneOfMismatch,
            Subject::Object(at),
        ),
        broken(
            is_some_unresolved(image.buffer_view, views.len()),
            Code::UnresolvedReference,
            buffer_view_at,
        ),
        broken(
            has_buffer_view && image.mime_type.is_none(),
            Code::UnsatisfiedDependency,
            buffer_view_at,
        ),
        broken(
            is_strided(views, image.buffer_view),
            Code::ImageBufferViewWithBytestride,
            buffer_view_at,
        ),
        broken(
            is_unlisted(&image.mime_type),
            Code::ValueNotInList,
            Subject::Member(at, Name::MimeType),
        ),
    ]
}

/// The rules for samplers of textures.
#[derive(Clone, Copy)]
pub struct SamplerRules;

impl Rules<Sampler> for SamplerRules {
    ghost findings = { λ s n sampler. found (sampler_rules n sampler) };

    fn add(&self, number: usize, item: &Sampler, to: &mut Vec<Finding>) -> Result<(), AllocError> {
        add_found(to, &sampler_rules(number, item))
    }
}

/// The rules for one sampler.
fn sampler_rules(number: usize, sampler: &Sampler) -> [Option<Finding>; 4]
    ensures { result ≡ sampler_rules number sampler.now }
{
    // derived
    let at = Object::Item(Name::Samplers, number);
    [
        broken(
            is_some_invalid(&sampler.mag_filter),
            Code::ValueNotInList,
            Subject::Member(at, Name::MagFilter),
        ),
        broken(
            is_some_invalid(&sampler.min_filter),
            Code::ValueNotInList,
            Subject::Member(at, Name::MinFilter),
        ),
        broken(
            is_invalid(&sampler.wrap_s),
            Code::ValueNotInList,
            Subject::Member(at, Name::WrapS),
        ),
        broken(
            is_invalid(&sampler.wrap_t),
            Code::ValueNotInList,
            Subject::Member(at, Name::WrapT),
        ),
    ]
}

/// The rules for textures, which name some of so many samplers and images.
#[derive(Clone, Copy)]
pub struct TextureRules<'a> {
    /// How many samplers there are.
    pub samplers: usize,
    /// The images of the document.
    pub images: &'a [Image],
}

impl Rules<Texture> for TextureRules<'_> {
    ghost findings = { λ s n texture. found (texture_rules s.samplers s.images.now n texture) };

    fn add(&self, number: usize, item: &Texture, to: &mut Vec<Finding>) -> Result<(), AllocError> {
        add_found(to, &texture_rules(self.samplers, self.images, number, item))
    }
}

/// The rules for one texture.
fn texture_rules(
    samplers: usize,
    images: &[Image],
    number: usize,
    texture: &Texture,
) -> [Option<Finding>; 3]
    ensures { result ≡ texture_rules samplers images.now number texture.now }
{
    // derived
    let at = Object::Item(Name::Textures, number);
    let source_at = Subject::Member(at, Name::Source);
    [
        broken(
            is_some_unresolved(texture.sampler, samplers),
            Code::UnresolvedReference,
            Subject::Member(at, Name::Sampler),
        ),
        broken(
            is_source_unresolved(texture.source, images.len()),
            Code::UnresolvedReference,
            source_at,
        ),
        broken(
            names_other_type(images, texture.source),
            Code::TextureInvalidImageMimeType,
            source_at,
        ),
    ]
}

/// Whether an index is not `NO_IMAGE`, and names none of so many images.
fn is_source_unresolved(source: Index<Image>, images: usize) -> bool
    ensures { result ≡ is_source_unresolved images source }
{
    // derived
    source.number() != NO_IMAGE && images <= source.value()
}

/// Whether an index names an image of a media type that is neither PNG nor JPEG.
fn names_other_type(images: &[Image], source: Index<Image>) -> bool
    ensures { result ≡ names_other_type (slice_get images.now (index_number source)) }
{
    // derived
    match images.get(source.value()) {
        Some(image) => is_other_type(&image.mime_type),
        None => false,
    }
}

/// Whether a media type is there and neither PNG nor JPEG.
fn is_other_type(mime_type: &Option<MimeType>) -> bool
    ensures { result ≡ is_other_type mime_type.now }
{
    // derived
    match mime_type {
        Some(mime_type) => !is_core_type(mime_type.0.as_str()),
        None => false,
    }
}

/// Whether a media type is there and none that the specification or an extension lists.
fn is_unlisted(mime_type: &Option<MimeType>) -> bool
    ensures { result ≡ is_unlisted mime_type.now }
{
    // derived
    match mime_type {
        Some(mime_type) => {
            !is_core_type(mime_type.0.as_str()) && !is_extension_type(mime_type.0.as_str())
        }
        None => false,
    }
}

/// Whether a media type is one of the specification.
fn is_core_type(name: &str) -> bool
    ensures { result ≡ is_core_type name.now }
{
    // derived
    name == "image/png" || name == "image/jpeg"
}

/// Whether a media type is one of an extension.
fn is_extension_type(name: &str) -> bool
    ensures { result ≡ is_extension_type name.now }
{
    // derived
    name == "image/ktx2"
        || name == "image/webp"
        || name == "image/avif"
        || name == "image/vnd-ms.dds"
}
