//! The local transforms of nodes.

ghost use Rattle.std.specs.Prelude.{◌≡◌};
ghost use Rattle.gltf_accessors.specs.Values.{AreEach};
ghost use Rattle.gltf_load.specs.Transforms.{nearest, composed, IsLocalMatrix};

use gltf_base::Real;
use gltf_scene::scene::Node;
use std::num::nearest_f64_to_f32_with_nan;

/// Returns the local transform of a node as a matrix in column-major order (glTF 2.0, sections
/// 3.5.3 and 5.25): its own matrix, or T * R * S of its translation, rotation and scale. What is
/// missing leaves everything where it is. Each number of the document, and the result of each step,
/// is rounded to the nearest float of 32 bits.
pub fn local_matrix(node: &Node) -> [f32; 16]
    ensures { IsLocalMatrix node.now result }
{
    if let Some(matrix) = &node.matrix {
        return floats(matrix);
    }
    let (zero, one) = (f32::from(0u8), f32::from(1u8));
    let translation = match &node.translation {
        Some(translation) => floats(translation),
        None => [zero, zero, zero],
    };
    let rotation = match &node.rotation {
        Some(rotation) => floats(&rotation.0),
        None => [zero, zero, zero, one],
    };
    let scale = match &node.scale {
        Some(scale) => floats(scale),
        None => [one, one, one],
    };
    composed(translation, rotation, scale)
}

/// T * R * S, where R turns by the unit quaternion x, y, z, w.
fn composed(translation: [f32; 3], rotation: [f32; 4], scale: [f32; 3]) -> [f32; 16]
    ensures { result ≡ composed translation rotation scale }
{
    let [tx, ty, tz] = translation;
    let [x, y, z, w] = rotation;
    let [sx, sy, sz] = scale;
    let (x2, y2, z2) = (x + x, y + y, z + z);
    let (xx, xy, xz) = (x * x2, x * y2, x * z2);
    let (yy, yz, zz) = (y * y2, y * z2, z * z2);
    let (wx, wy, wz) = (w * x2, w * y2, w * z2);
    let (zero, one) = (f32::from(0u8), f32::from(1u8));
    [
        (one - (yy + zz)) * sx,
        (xy + wz) * sx,
        (xz - wy) * sx,
        zero,
        (xy - wz) * sy,
        (one - (xx + zz)) * sy,
        (yz + wx) * sy,
        zero,
        (xz + wy) * sz,
        (yz - wx) * sz,
        (one - (xx + yy)) * sz,
        zero,
        tx,
        ty,
        tz,
        one,
    ]
}

/// Numbers of a document as floats.
fn floats<const N: usize>(reals: &[Real; N]) -> [f32; N]
    ensures { AreEach nearest reals.now result }
{
    let mut floats = [0.0; N];
    for k in 0..N {
        floats[k] = nearest_f64_to_f32_with_nan(reals[k].as_f64());
    }
    floats
}
