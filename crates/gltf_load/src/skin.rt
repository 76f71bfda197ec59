//! The joints that a skin lists.

ghost use Rattle.std.specs.Prelude.{◌≡◌, IfOk};
ghost use Rattle.gltf_load.specs.Named.{joints_named};

use gltf_scene::skin::Skin;
use std::alloc::{AllocError, Global};

/// Returns the numbers of the joints of a skin, in order. `Forest::common_root` takes them (glTF
/// 2.0, section 3.7.3.2).
pub fn joints_of(alloc: Global, skin: &Skin) -> Result<Vec<u32>, AllocError>
    ensures { IfOk result (λ joints. joints.items ≡ joints_named skin.now) }
{
    skin.joints
        .iter()
        .map(|joint| joint.number())
        .collect(alloc)
}
