//! Types whose lists are members of the document itself.

ghost use Rattle.std.specs.Prelude.{◌≡◌, refl, true};
ghost use Rattle.gltf_root.specs.Root.{root_tree};
ghost use Rattle.gltf_validation_rules.specs.Report.{first_fault_of};
ghost use Rattle.gltf_validation.specs.Indexing.{is_member, reports_into};
ghost use Rattle.gltf_validation_rules.specs.Context.{rules_of};

use crate::fault::{fault_in_list, first_fault};
use crate::validation::SchemaObject;
use gltf_base::validation::Error;
use gltf_parts::accessor::Accessor;
use gltf_parts::buffer::{Buffer, View};
use gltf_parts::image::Image;
use gltf_parts::material::Material;
use gltf_parts::texture::{Sampler, Texture};
use gltf_root::root::{Root, TopLevel};
use gltf_scene::animation::Animation;
use gltf_scene::camera::Camera;
use gltf_scene::mesh::Mesh;
use gltf_scene::scene::{Node, Scene};
use gltf_scene::skin::Skin;
use gltf_validation_rules::Rules;

/// A type whose list is a member of the document itself, for which `Item` is implemented
/// (docs/DECISIONS.md, "Clean roots").
pub trait TopLevelItem: SchemaObject + TopLevel {
    /// Returns the fault of the first report of what has indexes into the list, or `None` if that
    /// has no report. It looks at nothing else, and takes no memory.
    fn fault_into(rules: &Rules<'_>, root: &Root) -> Option<Error>
        ensures { result ≡ first_fault_of (reports_into (rules_of rules.now) (root_tree root.now)
            Self.list) };

    // No extension object has the list.
    ghost is_own_list: { is_member Self.Listed.list ≡ true };
}

impl TopLevelItem for Accessor {
    ghost is_own_list = { refl };

    #[tactic(auto, using(crate::proofs::ShorterDocuments::first_of_both))]
    fn fault_into(rules: &Rules<'_>, root: &Root) -> Option<Error> {
        if let Some(error) = fault_in_list::<Animation>(rules, root) {
            return Some(error);
        }
        if let Some(error) = fault_in_list::<Mesh>(rules, root) {
            return Some(error);
        }
        fault_in_list::<Skin>(rules, root)
    }
}

impl TopLevelItem for Animation {
    ghost is_own_list = { refl };

    fn fault_into(_rules: &Rules<'_>, _root: &Root) -> Option<Error> {
        None
    }
}

impl TopLevelItem for Buffer {
    ghost is_own_list = { refl };

    fn fault_into(rules: &Rules<'_>, root: &Root) -> Option<Error> {
        fault_in_list::<View>(rules, root)
    }
}

impl TopLevelItem for View {
    ghost is_own_list = { refl };

    #[tactic(auto, using(crate::proofs::ShorterDocuments::first_of_both))]
    fn fault_into(rules: &Rules<'_>, root: &Root) -> Option<Error> {
        if let Some(error) = fault_in_list::<Accessor>(rules, root) {
            return Some(error);
        }
        fault_in_list::<Image>(rules, root)
    }
}

impl TopLevelItem for Camera {
    ghost is_own_list = { refl };

    fn fault_into(rules: &Rules<'_>, root: &Root) -> Option<Error> {
        fault_in_list::<Node>(rules, root)
    }
}

impl TopLevelItem for Image {
    ghost is_own_list = { refl };

    fn fault_into(rules: &Rules<'_>, root: &Root) -> Option<Error> {
        fault_in_list::<Texture>(rules, root)
    }
}

impl TopLevelItem for Material {
    ghost is_own_list = { refl };

    fn fault_into(rules: &Rules<'_>, root: &Root) -> Option<Error> {
        fault_in_list::<Mesh>(rules, root)
    }
}

impl TopLevelItem for Mesh {
    ghost is_own_list = { refl };

    fn fault_into(rules: &Rules<'_>, root: &Root) -> Option<Error> {
        fault_in_list::<Node>(rules, root)
    }
}

impl TopLevelItem for Node {
    ghost is_own_list = { refl };

    #[tactic(auto, using(crate::proofs::ShorterDocuments::first_of_both))]
    fn fault_into(rules: &Rules<'_>, root: &Root) -> Option<Error> {
        if let Some(error) = fault_in_list::<Animation>(rules, root) {
            return Some(error);
        }
        if let Some(error) = fault_in_list::<Node>(rules, root) {
            return Some(error);
        }
        if let Some(error) = fault_in_list::<Scene>(rules, root) {
            return Some(error);
        }
        fault_in_list::<Skin>(rules, root)
    }
}

impl TopLevelItem for Sampler {
    ghost is_own_list = { refl };

    fn fault_into(rules: &Rules<'_>, root: &Root) -> Option<Error> {
        fault_in_list::<Texture>(rules, root)
    }
}

impl TopLevelItem for Scene {
    ghost is_own_list = { refl };

    fn fault_into(rules: &Rules<'_>, root: &Root) -> Option<Error> {
        first_fault(&root.scene, rules, root)
    }
}

impl TopLevelItem for Skin {
    ghost is_own_list = { refl };

    fn fault_into(rules: &Rules<'_>, root: &Root) -> Option<Error> {
        fault_in_list::<Node>(rules, root)
    }
}

impl TopLevelItem for Texture {
    ghost is_own_list = { refl };

    fn fault_into(rules: &Rules<'_>, root: &Root) -> Option<Error> {
        fault_in_list::<Material>(rules, root)
    }
}
