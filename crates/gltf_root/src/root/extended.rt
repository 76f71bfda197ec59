//! The lists that are in extension objects of a document.
#![tactic(auto)]

ghost use Rattle.gltf_schema.specs.Fields.{closed_object};
ghost use Rattle.gltf_scene.specs.Light.{light_members, variant_members};
ghost use Rattle.gltf_root.specs.Items.{lights_of, put_lights, put_variants, variants_of};
ghost use Rattle.gltf_root.specs.ItemTrees.{lights_of-trees, put_lights-trees, put_variants-trees, variants_of-trees};
ghost use Rattle.gltf_root.specs.Root.{root_rows, root_members};

use super::Root;
use super::get::RootItem;
use super::mark::Mark;
use crate::extensions;
use crate::extensions::root::{KhrLightsPunctual, KhrMaterialsVariants};
use gltf_base::{Index, PushError};
use gltf_scene::extensions::scene::khr_lights_punctual::Light;
use gltf_scene::extensions::scene::khr_materials_variants::Variant;

#[tactic(auto, using(crate::proofs::Pushing::trees_push, crate::proofs::Undoing::trees_pop, crate::proofs::Undoing::last_or_pop), unfolding(crate::specs::Root::root_rows, crate::specs::Root::root_members, crate::specs::RootExtension::root_extension_members, crate::specs::RootExtension::lights_members, crate::specs::RootExtension::root_extension_rows, crate::specs::RootExtension::lights_rows))]
impl RootItem for Light {
    ghost tree = { λ x. closed_object (light_members x) };

    ghost items = { lights_of };

    ghost put = { put_lights };

    ghost tree_lists_items = { λ r. unfold root_rows root_members in lights_of-trees r };

    ghost put_replaces_list = { λ r list there. put_lights-trees r list there };

    /// Those of the extension; none if it is missing.
    fn list_of(root: &Root) -> &[Light] {
        let Some(extensions) = &root.extensions else {
            return &[];
        };
        match &extensions.khr_lights_punctual {
            Some(found) => found.lights.as_slice(),
            None => &[],
        }
    }

    fn list_of_mut(root: &mut Root) -> Option<&mut Vec<Light>> {
        let extensions = root.extensions.as_mut()?;
        let found = extensions.khr_lights_punctual.as_mut()?;
        Some(&mut found.lights)
    }

    fn push_onto(root: &mut Root, item: Light) -> Result<Index<Light>, PushError<Light>> {
        if let Some(lights) = Light::list_of_mut(root) {
            return Index::push(lights, item);
        }
        let alloc = *root.nodes.allocator();
        let mut lights = Vec::new(alloc);
        let index = Index::push(&mut lights, item)?;
        let found = Some(KhrLightsPunctual { lights });
        match &mut root.extensions {
            Some(extensions) => extensions.khr_lights_punctual = found,
            None => {
                let mut made = extensions::root::Root::new(alloc);
                made.khr_lights_punctual = found;
                root.extensions = Some(made);
            }
        }
        Ok(index)
    }

    fn mark_of(root: &Root) -> Mark {
        match &root.extensions {
            None => Mark::NoExtensions,
            Some(extensions) => match &extensions.khr_lights_punctual {
                None => Mark::NoObject,
                Some(_) => Mark::Listed,
            },
        }
    }

    fn undo_push_from(root: &mut Root, mark: Mark) -> Option<Light> {
        let item = Light::list_of_mut(root)?.pop()?;
        match mark {
            Mark::Listed => {}
            Mark::NoObject => {
                if let Some(extensions) = &mut root.extensions {
                    extensions.khr_lights_punctual = None;
                }
            }
            Mark::NoExtensions => root.extensions = None,
        }
        Some(item)
    }
}

#[tactic(auto, using(crate::proofs::Pushing::trees_push, crate::proofs::Undoing::trees_pop, crate::proofs::Undoing::last_or_pop), unfolding(crate::specs::Root::root_rows, crate::specs::Root::root_members, crate::specs::RootExtension::root_extension_members, crate::specs::RootExtension::variants_members, crate::specs::RootExtension::root_extension_rows, crate::specs::RootExtension::variants_rows))]
impl RootItem for Variant {
    ghost tree = { λ x. closed_object (variant_members x) };

    ghost items = { variants_of };

    ghost put = { put_variants };

    ghost tree_lists_items = { λ r. unfold root_rows root_members in variants_of-trees r };

    ghost put_replaces_list = { λ r list there. put_variants-trees r list there };

    /// Those of the extension; none if it is missing.
    fn list_of(root: &Root) -> &[Variant] {
        let Some(extensions) = &root.extensions else {
            return &[];
        };
        match &extensions.khr_materials_variants {
            Some(found) => found.variants.as_slice(),
            None => &[],
        }
    }

    fn list_of_mut(root: &mut Root) -> Option<&mut Vec<Variant>> {
        let extensions = root.extensions.as_mut()?;
        let found = extensions.khr_materials_variants.as_mut()?;
        Some(&mut found.variants)
    }

    fn push_onto(root: &mut Root, item: Variant) -> Result<Index<Variant>, PushError<Variant>> {
        if let Some(variants) = Variant::list_of_mut(root) {
            return Index::push(variants, item);
        }
        let alloc = *root.nodes.allocator();
        let mut variants = Vec::new(alloc);
        let index = Index::push(&mut variants, item)?;
        let found = Some(KhrMaterialsVariants { variants });
        match &mut root.extensions {
            Some(extensions) => extensions.khr_materials_variants = found,
            None => {
                let mut made = extensions::root::Root::new(alloc);
                made.khr_materials_variants = found;
                root.extensions = Some(made);
            }
        }
        Ok(index)
    }

    fn mark_of(root: &Root) -> Mark {
        match &root.extensions {
            None => Mark::NoExtensions,
            Some(extensions) => match &extensions.khr_materials_variants {
                None => Mark::NoObject,
                Some(_) => Mark::Listed,
            },
        }
    }

    fn undo_push_from(root: &mut Root, mark: Mark) -> Option<Variant> {
        let item = Variant::list_of_mut(root)?.pop()?;
        match mark {
            Mark::Listed => {}
            Mark::NoObject => {
                if let Some(extensions) = &mut root.extensions {
                    extensions.khr_materials_variants = None;
                }
            }
            Mark::NoExtensions => root.extensions = None,
        }
        Some(item)
    }
}
