//! What a document holds beside its lists of items.

ghost use Rattle.std.specs.Prelude.{◌≡◌, ◌↔◌, ◌++◌, ◌∷◌, [], IfOk, IfErr, IsTrue, is_ok, if◌then◌else◌};
ghost use Rattle.gltf_root.specs.Root.{root_tree};
ghost use Rattle.gltf_validation_rules.specs.Context.{rules_of};
ghost use Rattle.gltf_validation.specs.Held.{rules_held, root_held};
ghost use Rattle.gltf_validation.specs.Set.{IsShown, IsRequired};

use crate::clean::Clean;
use crate::refused::Refused;
use crate::report::first_report;
use gltf_base::Index;
use gltf_base::validation::Error;
use gltf_parts::extras::Extras;
use gltf_root::root::Root;
use gltf_scene::asset::Asset;
use gltf_scene::scene::Scene;
use gltf_validation_rules::Rules;
use std::alloc::{AllocError, AllocFailed};
use std::mem;

impl<'a> Clean<'a> {
    /// Sets the default scene. It fails with `IndexOutOfBounds` if the index names no scene, and
    /// then leaves the root as it was. It takes no memory.
    pub fn set_scene(&mut self, scene: Option<Index<Scene>>) -> Result<(), Error>
        ensures rules { rules_held self.new ≡ rules_held self.old }
        ensures set { IfOk result (λ _. IsShown scene (root_held self.old)
            × (root_held self.new ≡ record (root_held self.old) { scene = scene })) }
        ensures refused { IfErr result (λ error. (¬ IsShown scene (root_held self.old))
            × (error ≡ Error.IndexOutOfBounds) × (root_held self.new ≡ root_held self.old)) }
    {
        if !lists(&self.root, scene) {
            return Err(Error::IndexOutOfBounds);
        }
        self.root.scene = scene;
        Ok(())
    }

    /// Sets the metadata about the document. Nothing in it can be wrong. It takes no memory.
    pub fn set_asset(&mut self, asset: Asset)
        ensures rules { rules_held self.new ≡ rules_held self.old }
        ensures set { root_held self.new ≡ record (root_held self.old) { asset = asset } }
    {
        self.root.asset = asset;
    }

    /// Sets the extras of the document. Nothing in them can be wrong. It takes no memory.
    pub fn set_extras(&mut self, extras: Extras)
        ensures rules { rules_held self.new ≡ rules_held self.old }
        ensures set { root_held self.new ≡ record (root_held self.old) { extras = extras } }
    {
        self.root.extras = extras;
    }

    /// Sets the names of the extensions that the document uses anywhere. Nothing in them can be
    /// wrong. It takes no memory.
    pub fn set_extensions_used(&mut self, names: Vec<String>)
        ensures rules { rules_held self.new ≡ rules_held self.old }
        ensures set { root_held self.new ≡ record (root_held self.old) { extensions_used = names } }
    {
        self.root.extensions_used = names;
    }

    /// Appends the name of an extension that the document uses. It fails only if out of memory,
    /// hands the name back then and leaves the names as they were.
    pub fn push_extension_used(&mut self, name: String) -> Result<(), AllocFailed<String>>
        ensures rules { rules_held self.new ≡ rules_held self.old }
        ensures names { (root_held self.new).extensions_used.items
            ≡ (if is_ok result then (root_held self.old).extensions_used.items ++ name ∷ []
            else (root_held self.old).extensions_used.items) }
        ensures rest { root_held self.new ≡ record (root_held self.old)
            { extensions_used = (root_held self.new).extensions_used } }
        ensures back { IfErr result (λ failed. failed.value ≡ name) }
    {
        self.root.extensions_used.push(name)
    }

    /// Sets the names of the extensions that a reader has to support, if the rules enable each.
    ///
    /// It fails with `Faulty` if they don't enable one: the report is that of the first such name.
    /// It fails with `Memory` in place of that if out of memory for the path of the report. Each
    /// refusal hands the names back, and leaves the root as it was.
    ///
    /// It validates the whole document, so it takes as long as [`Clean::of`].
    pub fn set_extensions_required(
        &mut self,
        names: Vec<String>,
    ) -> Result<(), Refused<Vec<String>>>
        ensures rules { rules_held self.new ≡ rules_held self.old }
        ensures set { IsRequired (rules_held self.old) names (root_held self.old) result
            (root_held self.new) }
    {
        require(&self.rules, &mut self.root, names)
    }
}

/// Whether a root lists a scene, if there is one.
fn lists(root: &Root, scene: Option<Index<Scene>>) -> bool
    ensures { IsTrue result ↔ IsShown scene root.now }
{
    match scene {
        Some(index) => index.value() < root.scenes.len(),
        None => true,
    }
}

/// Sets the names of the extensions that a root requires, if it has no report then.
fn require(
    rules: &Rules<'_>,
    root: &mut Root,
    names: Vec<String>,
) -> Result<(), Refused<Vec<String>>>
    ensures { IsRequired (rules_of rules.now) names root.old result root.new }
{
    let old = mem::replace(&mut root.extensions_required, names);
    match first_report(rules, root) {
        Ok(None) => Ok(()),
        Ok(Some(report)) => {
            let names = mem::replace(&mut root.extensions_required, old);
            Err(Refused::Faulty(names, report))
        }
        Err(AllocError) => {
            let names = mem::replace(&mut root.extensions_required, old);
            Err(Refused::Memory(names))
        }
    }
}
