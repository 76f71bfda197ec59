//! Laws of the lists of documents, for code that is generic over their items.

ghost use Rattle.std.specs.Prelude.{◌≡◌};
ghost use Rattle.gltf_root.specs.Root.{root_tree};

use crate::root::{Get, Root, RootItem};

/// What [`Get`] says of a root holds of its document, for each type that a document lists, in code
/// that is generic over it.
pub fn lists_are_those_of_the_document<T: RootItem>()
    ensures document { ⟦<Root as Get<T>>⟧.document ≡ root_tree }
    ensures listed { ⟦<Root as Get<T>>⟧.listed ≡ T.items }
    ensures named { ⟦<Root as Get<T>>⟧.named ≡ T.list }
    ensures item_tree { ⟦<Root as Get<T>>⟧.item_tree ≡ T.tree }
{}
