//! Materials.

ghost use Rattle.gltf_parts.specs.Material.{material_kind, material_extensions, material_members, pbr_metallic_roughness_members};
ghost use Rattle.gltf_schema.specs.Fields.{closed_object};
ghost use Rattle.gltf_schema.specs.Leaves.{checked_tree, choice_of};
ghost use Rattle.gltf_schema.specs.Tree.{absent, tree_or_absent};
ghost use Rattle.gltf_validation_rules.specs.Context.{Context as SpecContext, context_of};
ghost use Rattle.gltf_validation_objects.specs.Checklist.{leaf, move_at, quiet};
ghost use Rattle.gltf_validation_objects.specs.ChecklistOf.{checklist};
ghost use Rattle.gltf_validation_objects.specs.References.{extensions_checklist, invalid_if, material_checklist, parameters_checklist};
ghost use Rattle.gltf_validation_objects.specs.ValueRefs.{checklist_of};
ghost use Rattle.gltf_validation_objects.specs.declared.value_ref.ValueRef.TheVariants.{Material as material_ref};
ghost use Rattle.std.specs.Prelude.{◌≡◌, ◌+◌, ◌<◌, ◌^◌};

use crate::event::EventBuilder;
use crate::events::Events;
use crate::member_name::MemberName;
use crate::quiet::Quiet;
use crate::references::{ReferenceState, member_state};
use crate::value_ref::ValueRef;
use crate::visitable::Visitable;
use gltf_base::Step;
use gltf_base::choice::Choice;
use gltf_base::validation::{Checked, Error};
use gltf_parts::extensions::material::Material as MaterialExtensions;
use gltf_parts::material::Material;
use gltf_validation_rules::{Context, HasContext, choice_fault};

/// What is wrong in the members of a material, but for its extensions.
// Six bytes: docs/PERFORMANCE.md says why a `ValueRef` is small.
#[derive(Clone, Copy, Drop)]
pub struct MaterialFaults {
    is_alpha_mode_invalid: bool,
    base_color: ReferenceState,
    metallic_roughness: ReferenceState,
    normal: ReferenceState,
    occlusion: ReferenceState,
    emissive: ReferenceState,
}

/// Whether a choice is none of its list.
#[tactic(auto, using(crate::proofs::Leaves::found_choice))]
fn is_invalid<T: Choice>(choice: &Checked<T>) -> bool
    ensures { (context : SpecContext) → leaf (invalid_if result)
        ≡ checklist (choice_of T.form T.spelling T.listed) (checked_tree T.spelling choice.now) context
        absent }
{
    choice_fault(choice).is_some()
}

/// What is wrong in the members of a material.
#[tactic(auto, unfolding(gltf_parts::specs::Material::material_rows, gltf_parts::specs::Texture::info_rows, gltf_parts::specs::MaterialExtension::material_extension_rows, gltf_parts::specs::Material::normal_texture_rows, gltf_parts::specs::Material::occlusion_texture_rows, gltf_parts::specs::Material::pbr_metallic_roughness_rows, gltf_parts::specs::MaterialExtension::pbr_specular_glossiness_rows, gltf_parts::specs::Material::material_members, gltf_parts::specs::Material::pbr_metallic_roughness_members))]
fn material_faults(material: &Material, context: &Context<'_>) -> MaterialFaults
    ensures { material_checklist (context_of context.now) result
        (tree_or_absent material_extensions material.now.extensions)
        ≡ checklist material_kind (closed_object (material_members material.now))
        (context_of context.now) absent }
{
    let parameters = &material.pbr_metallic_roughness;
    MaterialFaults {
        is_alpha_mode_invalid: is_invalid(&material.alpha_mode),
        base_color: member_state(&parameters.base_color_texture, context),
        metallic_roughness: member_state(&parameters.metallic_roughness_texture, context),
        normal: member_state(&material.normal_texture, context),
        occlusion: member_state(&material.occlusion_texture, context),
        emissive: member_state(&material.emissive_texture, context),
    }
}

/// The event at a number of a material with extensions, or of extensions alone.
pub fn at_material<'a, E: EventBuilder<'a>, C: HasContext>(
    faults: Option<MaterialFaults>,
    extensions: &'a MaterialExtensions,
    number: usize,
    context: &C,
) -> E
    ensures comes { E.describes_move (C.context context.now)
        (move_at (checklist_of (C.context context.now)
        (material_ref faults extensions.entry)) number) result }
    ensures small { E.is_more result → number + 1 < 2 ^ 64 }
{
    match faults {
        Some(faults) => in_material(faults, Some(extensions), number, context),
        None => extensions.event(number, context),
    }
}

/// The event at a number of a material.
#[tactic(auto, using(crate::proofs::Past::past))]
pub fn in_material<'a, E: EventBuilder<'a>, C: HasContext>(
    faults: MaterialFaults,
    extensions: Option<&'a MaterialExtensions>,
    number: usize,
    context: &C,
) -> E
    ensures comes { E.describes_move (C.context context.now) (move_at
        (material_checklist (C.context context.now) faults
        (tree_or_absent (λ e. material_extensions e.now) extensions.entry)) number) result }
    ensures small { E.is_more result → number + 1 < 2 ^ 64 }
{
    match number {
        0 => E::fault_at("alphaMode", alpha_mode_fault(faults)),
        1 => E::enter(
            Step::Field("pbrMetallicRoughness"),
            parameters_ref(faults.base_color, faults.metallic_roughness),
            are_parameters_quiet(faults.base_color, faults.metallic_roughness),
            context,
        ),
        2 => E::reference_at("normalTexture", faults.normal),
        3 => E::reference_at("occlusionTexture", faults.occlusion),
        4 => E::reference_at("emissiveTexture", faults.emissive),
        5 => match extensions {
            Some(extensions) => E::member("extensions", extensions, context),
            None => E::fault_at("extensions", None),
        },
        _ => E::end(),
    }
}

/// The fault of the alpha mode of a material.
fn alpha_mode_fault(faults: MaterialFaults) -> Option<Error>
    ensures { result ≡ invalid_if faults.is_alpha_mode_invalid }
{
    if faults.is_alpha_mode_invalid {
        Some(Error::Invalid)
    } else {
        None
    }
}

/// The parameters of the metallic-roughness model, by what was found at their references.
pub(crate) fn parameters_ref<'a>(
    base_color: ReferenceState,
    metallic_roughness: ReferenceState,
) -> ValueRef<'a>
    ensures { (context : SpecContext) → checklist_of context result
        ≡ parameters_checklist base_color metallic_roughness }
{
    ValueRef::TwoTextures(
        base_color,
        metallic_roughness,
        MemberName::BaseColorTexture,
        MemberName::MetallicRoughnessTexture,
    )
}

/// Whether nothing is wrong in the parameters of the metallic-roughness model.
fn are_parameters_quiet(base_color: ReferenceState, metallic_roughness: ReferenceState) -> bool
    ensures { result ≡ quiet (parameters_checklist base_color metallic_roughness) }
{
    base_color.is_quiet() && metallic_roughness.is_quiet()
}

/// Whether nothing is wrong in a material.
pub fn is_material_quiet<C: HasContext>(
    faults: &MaterialFaults,
    extensions: Option<&MaterialExtensions>,
    context: &C,
) -> bool
    ensures { result ≡ quiet (material_checklist (C.context context.now) faults.now
        (tree_or_absent (λ e. material_extensions e.now) extensions.entry)) }
{
    !faults.is_alpha_mode_invalid
        && are_parameters_quiet(faults.base_color, faults.metallic_roughness)
        && faults.normal.is_quiet()
        && faults.occlusion.is_quiet()
        && faults.emissive.is_quiet()
        && are_extensions_quiet(extensions, context)
}

/// Whether nothing is wrong in the extensions of a material.
fn are_extensions_quiet<C: HasContext>(extensions: Option<&MaterialExtensions>, context: &C) -> bool
    ensures { result ≡ quiet (extensions_checklist (C.context context.now)
        (tree_or_absent (λ e. material_extensions e.now) extensions.entry)) }
{
    match extensions {
        Some(extensions) => extensions.is_quiet(context),
        None => true,
    }
}

impl Visitable for Material {
    ghost kind = { material_kind };

    ghost tree = { λ v. closed_object (material_members v) };

    fn value_ref<'a>(&'a self, context: &Context<'_>) -> ValueRef<'a> {
        let faults = material_faults(self, context);
        match &self.extensions {
            Some(extensions) => ValueRef::Material(Some(faults), extensions),
            None => ValueRef::PlainMaterial(faults),
        }
    }
}

impl Quiet for Material {
    fn is_quiet<C: HasContext>(&self, context: &C) -> bool {
        is_material_quiet(
            &material_faults(self, &context.context()),
            self.extensions.as_ref(),
            context,
        )
    }
}
