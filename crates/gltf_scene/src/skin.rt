//! Skins: joints and their inverse bind matrices (glTF 2.0, section 5.28).

ghost use Rattle.std.specs.Prelude.{◌≡◌, [], ◌∷◌, codes};
ghost use Rattle.gltf_base.specs.Lists.{skins};
ghost use Rattle.gltf_schema.specs.WithDefaults.{with_defaults};
ghost use Rattle.gltf_schema.specs.Fields.{index_tree, list_tree};
ghost use Rattle.gltf_scene.specs.Scene.{skin_rows, skin_members};

use crate::extensions;
use crate::scene::Node;
use gltf_base::{Index, Listed};
use gltf_parts::accessor::Accessor;
use gltf_parts::extras::Extras;

mod derived;

/// The joints and matrices for skinning a mesh (glTF 2.0, section 5.28).
// What takes longest to drop comes last (docs/DECISIONS.md, "Order of fields").
#[derive(Clone, Debug)]
pub struct Skin {
    /// The inverse bind matrix of each joint; if absent, each is the identity.
    pub inverse_bind_matrices: Option<Index<Accessor>>,
    /// The root node of the skeleton.
    pub skeleton: Option<Index<Node>>,
    pub name: Option<String>,
    /// The joint nodes, in the order by which vertices refer to them.
    pub joints: Vec<Index<Node>>,
    pub extensions: Option<extensions::skin::Skin>,
    pub extras: Extras,
}

// Written by tools/derive.py: begin
impl Drop for Skin {
    #[inline(always)]
    fn drop(self) {
        let Skin {
            inverse_bind_matrices: _,
            skeleton: _,
            name: _,
            joints: _,
            extensions: _,
            extras: _,
        } = self;
    }
}
// Written by tools/derive.py: end

impl Skin {
    /// Returns a skin with these joints.
    #[tactic(auto, unfolding(crate::specs::Scene::skin_rows, crate::specs::Scene::skin_members))]
    pub fn new(joints: Vec<Index<Node>>) -> Skin
        ensures { skin_members result ≡ with_defaults skin_rows (
            (codes "joints", list_tree index_tree joints.items)
            ∷ []) }
    {
        Skin {
            joints,
            inverse_bind_matrices: None,
            skeleton: None,
            name: None,
            extensions: None,
            extras: None,
        }
    }
}

impl Listed for Skin {
    ghost list = { skins };
}
