//! The steps from a root to a place in a document, and their text.

ghost use Rattle.std.specs.Prelude.{◌≡◌, List, [], ℕ, IfOk, OnOk, map};
ghost use Rattle.std.specs.String.{string_bytes};
ghost use Rattle.gltf_base.specs.Steps.{field, item, key, value, steps_of, step_of};
ghost use Rattle.gltf_base.specs.Text.{path_text, text_with};

use crate::mesh::{Semantic, write_semantic};
use crate::validation::Checked;
use arrayvec::ArrayVec;
use std::alloc::{AllocError, Global};
use std::fmt::{self, Display, Formatter, Write};

/// One step of a path.
#[derive(Clone, Copy, Debug)]
pub enum Step<'a> {
    /// To a member of an object, by its JSON name.
    Field(&'a str),
    /// To an item of a list, by its number.
    Index(usize),
    /// To an entry of a map, by its key.
    Key(&'a str),
    /// To an attribute: the same step as `Key` of its semantic's text.
    Attribute(&'a Checked<Semantic>),
    /// The value at the place itself, shown behind its path as ` = "text"`.
    Value(&'a str),
}

impl Default for Step<'_> {
    ghost use Rattle.gltf_base.specs.Steps.{item};

    ghost is_default = { λ step. step_of step ≡ item 0 };

    fn default() -> Self {
        Step::Index(0)
    }
}

/// The steps from a root to a place.
pub type Steps<'a> = ArrayVec<Step<'a>, 16>;

/// A key of a map, and the step to its entry.
pub trait KeyStep {
    ghost key_text: { Self → List ℕ };

    /// Returns the step to the entry of this key.
    fn key_step(&self) -> Step<'_>
        ensures { step_of result ≡ key (key_text self.now) };
}

impl KeyStep for String {
    ghost key_text = { string_bytes };

    fn key_step(&self) -> Step<'_>
        ensures { step_of result ≡ key (string_bytes self.now) }
    {
        Step::Key(self.as_str())
    }
}

impl KeyStep for Checked<Semantic> {
    ghost use Rattle.gltf_base.specs.Semantics.{checked_key};
    ghost use Rattle.gltf_base.specs.Keys.{key_text as text_of_key};

    ghost key_text = { λ semantic. text_of_key (checked_key semantic) };

    fn key_step(&self) -> Step<'_> {
        Step::Attribute(self)
    }
}

/// The text of a path.
#[derive(Clone, Debug, Drop, PartialEq)]
pub struct Path(pub String);

impl Path {
    /// Returns the path of the steps, from the left. This and the calls below fail only if out of
    /// memory.
    pub fn of(alloc: Global, steps: &Steps<'_>) -> Result<Path, AllocError>
        ensures { IfOk result (λ path. string_bytes path.0 ≡ path_text (steps_of steps.now)) }
    {
        Path::of_steps(alloc, steps.as_slice())
    }

    /// Returns the path of steps in a slice, as [`Path::of`] does.
    pub fn of_steps(alloc: Global, steps: &[Step<'_>]) -> Result<Path, AllocError>
        ensures { IfOk result (λ path. string_bytes path.0 ≡ path_text (map step_of steps.now)) }
    {
        let mut written = String::new(alloc);
        for step in steps {
            write_step(&mut written, *step)?;
        }
        Ok(Path(written))
    }

    /// Returns the path of no steps.
    pub fn new(alloc: Global) -> Path
        ensures { string_bytes result.0 ≡ [] }
    {
        Path(String::new(alloc))
    }

    /// Returns the path to a member of the object at this path.
    pub fn field(&self, alloc: Global, name: &str) -> Result<Path, AllocError>
        ensures { IfOk result (λ path. string_bytes path.0
            ≡ text_with (string_bytes self.now.0) (field name.now)) }
    {
        self.with(alloc, Step::Field(name))
    }

    /// Returns the path to an item of the list at this path.
    pub fn index(&self, alloc: Global, n: usize) -> Result<Path, AllocError>
        ensures { IfOk result (λ path. string_bytes path.0
            ≡ text_with (string_bytes self.now.0) (item n)) }
    {
        self.with(alloc, Step::Index(n))
    }

    /// Returns the path to an entry of the map at this path. Nothing in the key is escaped.
    pub fn key(&self, alloc: Global, k: &str) -> Result<Path, AllocError>
        ensures { IfOk result (λ path. string_bytes path.0
            ≡ text_with (string_bytes self.now.0) (key k.now)) }
    {
        self.with(alloc, Step::Key(k))
    }

    /// Returns the path that also names the value at its end. Nothing in the value is escaped.
    pub fn value_str(&self, alloc: Global, v: &str) -> Result<Path, AllocError>
        ensures { IfOk result (λ path. string_bytes path.0
            ≡ text_with (string_bytes self.now.0) (value v.now)) }
    {
        self.with(alloc, Step::Value(v))
    }

    /// Returns the text of the path.
    pub fn as_str(&self) -> &str
        ensures { result.now ≡ string_bytes self.now.0 }
    {
        self.0.as_str()
    }

    fn with(&self, alloc: Global, step: Step<'_>) -> Result<Path, AllocError>
        ensures { IfOk result (λ path. string_bytes path.0
            ≡ text_with (string_bytes self.now.0) (step_of step.entry)) }
    {
        let mut longer = String::from_str(alloc, self.as_str())?;
        write_step(&mut longer, step)?;
        Ok(Path(longer))
    }
}

impl Display for Path {
    ghost use Rattle.std.specs.Prelude.{Some};

    ghost output = { λ path. Some (string_bytes path.0) };

    fn fmt<W: Write>(&self, f: &mut Formatter<W>) -> fmt::Result {
        f.write_str(self.as_str())
    }
}

fn write_step(path: &mut String, step: Step<'_>) -> Result<(), AllocError>
    ensures { OnOk result (string_bytes path.new
        ≡ text_with (string_bytes path.old) (step_of step.entry)) }
{
    match step {
        Step::Field(name) => {
            if !path.is_empty() {
                path.push_str(".")?;
            }
            path.push_str(name)
        }
        Step::Index(number) => write!(path, "[{number}]"),
        Step::Key(key) => write!(path, "[\"{key}\"]"),
        Step::Attribute(semantic) => {
            path.push_str("[\"")?;
            write_semantic(path, semantic)?;
            path.push_str("\"]")
        }
        Step::Value(value) => write!(path, " = \"{value}\""),
    }
}
