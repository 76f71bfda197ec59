//! The root nodes that a scene lists.

ghost use Rattle.std.specs.Prelude.{◌↔◌, ℕ, List, IsTrue};
ghost use Rattle.gltf_hierarchy.specs.Forest.{forest_parents};
ghost use Rattle.gltf_hierarchy.specs.Parents.{AreParents};
ghost use Rattle.gltf_load.specs.Roots.{NameRoots, AreRoots};

use gltf_base::IndexTo;
use gltf_hierarchy::Forest;
use gltf_scene::scene::Scene;

/// Whether the nodes that a scene lists exist and are root nodes of a forest (glTF 2.0, section
/// 3.5.1).
pub fn is_scene_of(forest: &Forest, scene: &Scene) -> bool
    ensures { (nodes : List (List ℕ)) → AreParents nodes (forest_parents forest.now)
        → (IsTrue result ↔ NameRoots nodes scene.now.nodes.items) }
{
    are_roots(forest, &scene.nodes)
}

/// Whether indexes name nodes without a parent.
fn are_roots<P>(forest: &Forest, indexes: &[IndexTo<P>]) -> bool
    ensures { IsTrue result ↔ AreRoots (forest_parents forest.now) indexes.now }
{
    for place in 0..indexes.len() {
        if !forest.is_root(indexes[place].number()) {
            return false;
        }
    }
    true
}
