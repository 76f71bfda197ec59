//! What a primitive needs to be drawn (glTF 2.0, sections 3.7.2.1 and 5.20).

ghost use Rattle.std.specs.Prelude.{◌≡◌, Option, option_copied, length};
ghost use Rattle.std.specs.Map.{lookup};
ghost use Rattle.gltf_base.specs.Keys.{Key, key_eq};
ghost use Rattle.gltf_findings_codes.specs.Attributes.{attribute_key, attributes_in};
ghost use Rattle.gltf_findings_rules.specs.Drawing.{drawing_rules, has_attribute, drawn_count, fits_mode, does_not_fit, is_points, is_plain, has_normal_texture, lacks_tex_coords, lacks_in_material, lacks_set, info_set, normal_set, occlusion_set};

use crate::counts::count_at;
use gltf_base::mesh::Mode;
use gltf_base::validation::Checked;
use gltf_findings_codes::{Attribute, Code, Finding, Name, Object, Subject, broken};
use gltf_parts::accessor::Accessor;
use gltf_parts::material::{Material, NormalTexture, OcclusionTexture};
use gltf_parts::texture::Info;
use gltf_scene::mesh::Primitive;

/// The rules for the attributes that a primitive has and lacks.
pub fn drawing_rules(
    accessors: &[Accessor],
    materials: &[Material],
    mesh: usize,
    number: usize,
    primitive: &Primitive,
) -> [Option<Finding>; 7]
    ensures { result ≡ drawing_rules accessors.now materials.now mesh number primitive.now }
{
    // derived
    let at = Object::Nested(Name::Meshes, mesh, Name::Primitives, number);
    let attributes = Object::NestedPart(
        Name::Meshes,
        mesh,
        Name::Primitives,
        number,
        Name::Attributes,
    );
    let tangents_at = Subject::Attribute(attributes, Attribute::Tangents);
    let material_at = Subject::Member(at, Name::Material);
    let has_tangents = has_attribute(primitive, Attribute::Tangents);
    [
        broken(
            !has_attribute(primitive, Attribute::Positions),
            Code::MeshPrimitiveNoPosition,
            Subject::Object(attributes),
        ),
        broken(
            does_not_fit(primitive.mode, drawn_count(accessors, primitive)),
            Code::MeshPrimitiveIncompatibleMode,
            Subject::Object(at),
        ),
        broken(
            has_tangents && !has_attribute(primitive, Attribute::Normals),
            Code::MeshPrimitiveTangentWithoutNormal,
            tangents_at,
        ),
        broken(
            has_tangents && is_points(primitive.mode),
            Code::MeshPrimitiveTangentPoints,
            tangents_at,
        ),
        broken(
            has_tangents && is_plain(materials, primitive) && primitive.extensions.is_none(),
            Code::UnusedMeshTangent,
            tangents_at,
        ),
        broken(
            lacks_tex_coords(materials, primitive),
            Code::MeshPrimitiveTooFewTexcoords,
            material_at,
        ),
        broken(
            !has_tangents && has_normal_texture(materials, primitive),
            Code::MeshPrimitiveGeneratedTangentSpace,
            material_at,
        ),
    ]
}

/// Whether a primitive has an attribute.
fn has_attribute(primitive: &Primitive, attribute: Attribute) -> bool
    ensures { result ≡ has_attribute (attribute_key attribute)
        (attributes_in primitive.now.attributes) }
{
    // derived
    attribute.accessor_in(&primitive.attributes).is_some()
}

/// How many indices are drawn, or else vertices, if it is known.
fn drawn_count(accessors: &[Accessor], primitive: &Primitive) -> Option<u64>
    ensures { result ≡ drawn_count accessors.now primitive.now }
{
    // derived
    match primitive.indices {
        Some(indices) => count_at(accessors, Some(indices.number())),
        None => count_at(
            accessors,
            Attribute::Positions.accessor_in(&primitive.attributes),
        ),
    }
}

/// Whether a number is known and does not fit a mode.
fn does_not_fit(mode: Checked<Mode>, count: Option<u64>) -> bool
    ensures { result ≡ does_not_fit mode count }
{
    // derived
    match (mode, count) {
        (Checked::Valid(mode), Some(count)) => !fits_mode(mode, count),
        _ => false,
    }
}

/// Whether so many vertices can be drawn in a mode.
fn fits_mode(mode: Mode, count: u64) -> bool
    ensures { result ≡ fits_mode mode count }
{
    // derived
    match mode {
        Mode::Points => 1 <= count,
        Mode::Lines => 2 <= count && count % 2 == 0,
        Mode::LineLoop | Mode::LineStrip => 2 <= count,
        Mode::Triangles => 3 <= count && count % 3 == 0,
        Mode::TriangleStrip | Mode::TriangleFan => 3 <= count,
    }
}

/// Whether points are drawn.
fn is_points(mode: Checked<Mode>) -> bool
    ensures { result ≡ is_points mode }
{
    // derived
    match mode {
        Checked::Valid(Mode::Points) => true,
        _ => false,
    }
}

/// Whether the material of a primitive has a normal texture.
fn has_normal_texture(materials: &[Material], primitive: &Primitive) -> bool
    ensures { result ≡ has_normal_texture materials.now primitive.now.material }
{
    // derived
    match primitive.material {
        Some(material) => match materials.get(material.value()) {
            Some(material) => material.normal_texture.is_some(),
            None => false,
        },
        None => false,
    }
}

/// Whether a primitive has no material, or one without a normal texture and extensions.
fn is_plain(materials: &[Material], primitive: &Primitive) -> bool
    ensures { result ≡ is_plain materials.now primitive.now.material }
{
    // derived
    match primitive.material {
        Some(material) => match materials.get(material.value()) {
            Some(material) => material.normal_texture.is_none() && material.extensions.is_none(),
            None => false,
        },
        None => true,
    }
}

/// Whether the material of a primitive needs texture coordinates that the primitive lacks.
fn lacks_tex_coords(materials: &[Material], primitive: &Primitive) -> bool
    ensures { result ≡ lacks_tex_coords materials.now primitive.now }
{
    // derived
    match primitive.material {
        Some(material) => match materials.get(material.value()) {
            Some(material) => lacks_in_material(primitive, material),
            None => false,
        },
        None => false,
    }
}

/// The same for a material.
fn lacks_in_material(primitive: &Primitive, material: &Material) -> bool
    ensures { result ≡ lacks_in_material (attributes_in primitive.now.attributes) material.now }
{
    let model = &material.pbr_metallic_roughness;
    lacks_set(primitive, info_set(&model.base_color_texture))
        || lacks_set(primitive, info_set(&model.metallic_roughness_texture))
        || lacks_set(primitive, info_set(&material.emissive_texture))
        || lacks_set(primitive, normal_set(&material.normal_texture))
        || lacks_set(primitive, occlusion_set(&material.occlusion_texture))
}

/// Whether a primitive lacks a set of texture coordinates, if there is need of one.
fn lacks_set(primitive: &Primitive, set: Option<u32>) -> bool
    ensures { result ≡ lacks_set (attributes_in primitive.now.attributes) set }
{
    // derived
    match set {
        Some(set) => !has_attribute(primitive, Attribute::TexCoords(set)),
        None => false,
    }
}

/// The set that a texture needs. An extension may name another one.
fn info_set(info: &Option<Info>) -> Option<u32>
    ensures { result ≡ info_set info.now }
{
    // derived
    match info {
        Some(info) if info.extensions.is_none() => Some(info.tex_coord),
        _ => None,
    }
}

/// The same for a normal texture.
fn normal_set(info: &Option<NormalTexture>) -> Option<u32>
    ensures { result ≡ normal_set info.now }
{
    // derived
    match info {
        Some(info) if info.extensions.is_none() => Some(info.tex_coord),
        _ => None,
    }
}

/// The same for an occlusion texture.
fn occlusion_set(info: &Option<OcclusionTexture>) -> Option<u32>
    ensures { result ≡ occlusion_set info.now }
{
    // derived
    match info {
        Some(info) if info.extensions.is_none() => Some(info.tex_coord),
        _ => None,
    }
}
