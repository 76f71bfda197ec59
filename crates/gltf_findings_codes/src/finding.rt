//! Findings, and the places of a document that they are about.

ghost use Rattle.std.specs.Prelude.{◌≡◌, IfOk, map};
ghost use Rattle.std.specs.String.{string_bytes};
ghost use Rattle.gltf_base.specs.Steps.{step_of};
ghost use Rattle.gltf_base.specs.Text.{path_text};
ghost use Rattle.gltf_base.specs.Pointers.{pointer_text};
ghost use Rattle.gltf_findings_codes.specs.Attributes.{attribute_key};
ghost use Rattle.gltf_findings_codes.specs.Places.{to, object_steps, place_steps, place_name};

use crate::attribute::Attribute;
use crate::code::Code;
use crate::name::Name;
use gltf_base::{Path, Step};
use std::alloc::{AllocError, Global};

/// An object of a document. The first name is that of a list, and a number that of an item.
#[derive(Clone, Copy, Debug, PartialEq, Eq)]
pub enum Object {
    /// The document itself.
    Document,
    /// A member of the document, such as `/asset`.
    Top(Name),
    /// An item of a list, such as `/nodes/3`.
    Item(Name, usize),
    /// An object in an item, such as `/cameras/0/perspective`.
    Part(Name, usize, Name),
    /// An object in such an object, such as `/accessors/0/sparse/indices`.
    Inner(Name, usize, Name, Name),
    /// An object in an extension of an item, such as
    /// `/materials/0/extensions/KHR_materials_volume/thicknessTexture`.
    Extended(Name, usize, Name, Name),
    /// An item of a list in an item, such as `/meshes/0/primitives/1`.
    Nested(Name, usize, Name, usize),
    /// An object in such an item, such as `/animations/0/channels/1/target`.
    NestedPart(Name, usize, Name, usize, Name),
    /// A mapping of `KHR_materials_variants`, by its mesh and its primitive, such as
    /// `/meshes/0/primitives/1/extensions/KHR_materials_variants/mappings/2`.
    Mapping(usize, usize, usize),
    /// A light of `KHR_lights_punctual`.
    Light(usize),
    /// The cone of such a light.
    Spot(usize),
}

impl Object {
    /// The steps to the object.
    fn steps<'a>(&self, alloc: Global) -> Result<Vec<Step<'a>>, AllocError>
        ensures { IfOk result (λ steps. map step_of steps.items ≡ object_steps self.now) }
    {
        match self {
            Object::Document => Ok(Vec::new(alloc)),
            Object::Top(name) => Ok(vec![in alloc; to(*name)]?),
            Object::Item(list, number) => { Ok(vec![in alloc; to(*list), Step::Index(*number)]?) }
            Object::Part(list, number, part) => Ok(vec![in alloc;
                to(*list),
                Step::Index(*number),
                to(*part),
            ]?),
            Object::Inner(list, number, part, inner) => Ok(vec![in alloc;
                to(*list),
                Step::Index(*number),
                to(*part),
                to(*inner),
            ]?),
            Object::Extended(list, number, extension, part) => Ok(vec![in alloc;
                to(*list),
                Step::Index(*number),
                Step::Field("extensions"),
                to(*extension),
                to(*part),
            ]?),
            Object::Nested(list, number, inner, place) => Ok(vec![in alloc;
                to(*list),
                Step::Index(*number),
                to(*inner),
                Step::Index(*place),
            ]?),
            Object::NestedPart(list, number, inner, place, part) => Ok(vec![in alloc;
                to(*list),
                Step::Index(*number),
                to(*inner),
                Step::Index(*place),
                to(*part),
            ]?),
            Object::Mapping(mesh, primitive, number) => Ok(vec![in alloc;
                Step::Field("meshes"),
                Step::Index(*mesh),
                Step::Field("primitives"),
                Step::Index(*primitive),
                Step::Field("extensions"),
                Step::Field("KHR_materials_variants"),
                Step::Field("mappings"),
                Step::Index(*number),
            ]?),
            Object::Light(number) => light_steps(alloc, *number),
            Object::Spot(number) => {
                let mut steps = light_steps(alloc, *number)?;
                steps.push(Step::Field("spot"))?;
                Ok(steps)
            }
        }
    }
}

/// The steps to a light.
fn light_steps<'a>(alloc: Global, number: usize) -> Result<Vec<Step<'a>>, AllocError>
    ensures { IfOk result (λ steps. map step_of steps.items
        ≡ object_steps (Object.Light number)) }
{
    Ok(vec![in alloc;
        Step::Field("extensions"),
        Step::Field("KHR_lights_punctual"),
        Step::Field("lights"),
        Step::Index(number),
    ]?)
}

/// The step to a member.
fn to<'a>(name: Name) -> Step<'a>
    ensures { step_of result ≡ to name }
{
    Step::Field(name.text())
}

/// A place in a document.
#[derive(Clone, Copy, Debug, PartialEq, Eq)]
pub enum Subject {
    /// An object.
    Object(Object),
    /// A member of an object, which may be missing.
    Member(Object, Name),
    /// An entry of a list that is a member of an object.
    Entry(Object, Name, usize),
    /// An attribute in an object, such as `/meshes/0/primitives/1/attributes/TEXCOORD_0`.
    Attribute(Object, Attribute),
    /// An attribute of an item of a list in an object: of a morph target, such as
    /// `/meshes/0/primitives/1/targets/2/POSITION`.
    EntryAttribute(Object, Name, usize, Attribute),
}

impl Subject {
    /// Returns the steps to the place, by the name of its attribute. Fails only if out of memory.
    #[tactic(auto, using(std::proofs::lemmas::List::map_push))]
    fn steps<'a>(&self, alloc: Global, name: &'a str) -> Result<Vec<Step<'a>>, AllocError>
        requires { name.now ≡ place_name self.now }
        ensures { IfOk result (λ steps. map step_of steps.items ≡ place_steps self.now) }
    {
        match self {
            Subject::Object(object) => object.steps(alloc),
            Subject::Member(object, name) => object.member_steps(alloc, *name),
            Subject::Entry(object, name, number) => object.entry_steps(alloc, *name, *number),
            Subject::Attribute(object, _) => {
                let mut steps = object.steps(alloc)?;
                steps.push(Step::Field(name))?;
                Ok(steps)
            }
            Subject::EntryAttribute(object, list, number, _) => {
                let mut steps = object.entry_steps(alloc, *list, *number)?;
                steps.push(Step::Field(name))?;
                Ok(steps)
            }
        }
    }

    /// The name of the attribute that is the place, or an empty text.
    fn attribute_name(&self, alloc: Global) -> Result<String, AllocError>
        ensures { IfOk result (λ name. string_bytes name ≡ place_name self.now) }
    {
        match self {
            Subject::Attribute(_, attribute) | Subject::EntryAttribute(_, _, _, attribute) => {
                attribute.text(alloc)
            }
            _ => Ok(String::new(alloc)),
        }
    }

    /// Returns the path to the place, such as `cameras[0].perspective.yfov`. Fails only if out of
    /// memory.
    pub fn path(&self, alloc: Global) -> Result<Path, AllocError>
        ensures { IfOk result (λ path. string_bytes path.0 ≡ path_text (place_steps self.now)) }
    {
        let name = self.attribute_name(alloc)?;
        let steps = self.steps(alloc, name.as_str())?;
        Path::of_steps(alloc, &steps)
    }

    /// Returns the JSON pointer (RFC 6901) to the place, such as `/cameras/0/perspective/yfov`.
    /// Fails only if out of memory.
    pub fn pointer(&self, alloc: Global) -> Result<String, AllocError>
        ensures { IfOk result (λ pointer. string_bytes pointer
            ≡ pointer_text (place_steps self.now)) }
    {
        let name = self.attribute_name(alloc)?;
        let steps = self.steps(alloc, name.as_str())?;
        Path::pointer_of_steps(alloc, &steps)
    }
}

impl Object {
    /// The steps to a member of the object.
    #[tactic(auto, using(std::proofs::lemmas::List::map_push))]
    fn member_steps<'a>(&self, alloc: Global, name: Name) -> Result<Vec<Step<'a>>, AllocError>
        ensures { IfOk result (λ steps. map step_of steps.items
            ≡ place_steps (Subject.Member self.now name)) }
    {
        let mut steps = self.steps(alloc)?;
        steps.push(to(name))?;
        Ok(steps)
    }

    /// The steps to an entry of a list that is a member of the object.
    #[tactic(auto, using(std::proofs::lemmas::List::map_push))]
    fn entry_steps<'a>(
        &self,
        alloc: Global,
        name: Name,
        number: usize,
    ) -> Result<Vec<Step<'a>>, AllocError>
        ensures { IfOk result (λ steps. map step_of steps.items
            ≡ place_steps (Subject.Entry self.now name number)) }
    {
        let mut steps = self.member_steps(alloc, name)?;
        steps.push(Step::Index(number))?;
        Ok(steps)
    }
}

/// What is wrong at a place of a document.
#[derive(Clone, Copy, Debug, PartialEq, Eq)]
pub struct Finding {
    /// What is wrong.
    pub code: Code,
    /// Where.
    pub place: Subject,
}
