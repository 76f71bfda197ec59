//! How many bytes an element takes.

ghost use Rattle.std.specs.Prelude.{◌≡◌};
ghost use Rattle.gltf_layout.specs.Sizes.{element_size};

use gltf_base::accessor::{AccessorType, ComponentType};

/// Returns the size of an element in bytes, with the padding of matrix columns (glTF 2.0, sections
/// 3.6.2.2 and 3.6.2.4).
pub fn element_size(type_: AccessorType, component_type: ComponentType) -> u64
    ensures { result ≡ element_size type_ component_type }
{
    let size = component_type.size() as u64;
    match type_ {
        AccessorType::Scalar => size,
        AccessorType::Vec2 => 2 * size,
        AccessorType::Vec3 => 3 * size,
        AccessorType::Vec4 => 4 * size,
        AccessorType::Mat2 if size == 1 => 8,
        AccessorType::Mat2 => 4 * size,
        AccessorType::Mat3 if size == 4 => 36,
        AccessorType::Mat3 => 12 * size,
        AccessorType::Mat4 => 16 * size,
    }
}
