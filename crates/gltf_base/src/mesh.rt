//! The choices of meshes, and what their attributes mean.

ghost use Rattle.std.specs.Prelude.{◌≡◌, ◌++◌, codes, option_and_then, IsTrue, IsOk, IfOk, OnOk, [], ◌∷◌, map};
ghost use Rattle.std.specs.Option.{option_copied};
ghost use Rattle.std.specs.Fmt.{decimal};
ghost use Rattle.std.specs.String.{string_bytes};
ghost use Rattle.gltf_base.specs.Keys.{Key, key_text};
ghost use Rattle.gltf_base.specs.Names.{behind, set_number, set_key, plain_key, key_named, is_named};
ghost use Rattle.gltf_base.specs.Semantics.{semantic_key, checked_key};
ghost use Rattle.gltf_base.specs.Spelling.{by_number};
ghost use Rattle.gltf_base.specs.Choices.{mode_spelling, modes};

mod derived;

use crate::validation::Checked;
pub use derived::{
    LINE_LOOP, LINE_STRIP, LINES, POINTS, TRIANGLE_FAN, TRIANGLE_STRIP, TRIANGLES, VALID_MODES,
};
use std::alloc::{AllocError, Global};
use std::fmt::{self, Display, Formatter, Write};

/// The semantic of a vertex attribute (glTF 2.0, section 3.7.2.1).
#[derive(Clone, Debug, Drop, PartialEq, Eq, PartialOrd, Ord, Hash)]
pub enum Semantic {
    /// An application-specific attribute, by its name without the underscore.
    Extras(String),
    /// Vertex positions.
    Positions,
    /// Vertex normals.
    Normals,
    /// Vertex tangents.
    Tangents,
    /// Vertex colors, of the set with this number.
    Colors(u32),
    /// Texture coordinates, of the set with this number.
    TexCoords(u32),
    /// Joints for skinning, of the set with this number.
    Joints(u32),
    /// Weights for skinning, of the set with this number.
    Weights(u32),
}

impl Semantic {
    /// Returns the semantic that an attribute's name means (glTF 2.0, section 3.7.2.1). It takes
    /// memory only for an application-specific name. Fails only if out of memory.
    #[tactic(auto, unfolding(crate::specs::Names::key_named))]
    pub fn checked(alloc: Global, text: &str) -> Result<Checked<Semantic>, AllocError>
        ensures key { IfOk result (λ semantic. checked_key semantic ≡ key_named text.now) }
        ensures no_memory { behind (codes "_") text.now ≡ None → IsOk result }
    {
        match strip("_", text) {
            Some(name) => {
                let name = String::from_str(alloc, name)?;
                Ok(Checked::Valid(Semantic::Extras(name)))
            }
            None => Ok(plain_semantic(text)),
        }
    }

    /// Returns the attribute's name that means the semantic. [`Semantic::checked`] reads it back.
    /// Fails only if out of memory.
    pub fn to_string(&self, alloc: Global) -> Result<String, AllocError>
        ensures text { IfOk result (λ text. string_bytes text ≡ key_text (semantic_key self.now)) }
        ensures named { OnOk result (IsTrue (is_named (semantic_key self.now))) }
    {
        let mut text = String::new(alloc);
        write_valid(&mut text, self)?;
        Ok(text)
    }
}

impl Checked<Semantic> {
    /// Returns the attribute's name that means the semantic, or the text for an invalid one. Fails
    /// only if out of memory.
    pub fn to_string(&self, alloc: Global) -> Result<String, AllocError>
        ensures { IfOk result (λ text. string_bytes text ≡ key_text (checked_key self.now)) }
    {
        let mut text = String::new(alloc);
        write_semantic(&mut text, self)?;
        Ok(text)
    }
}

/// The semantic of a name that isn't an application's own.
fn plain_semantic(text: &str) -> Checked<Semantic>
    ensures { checked_key result ≡ plain_key text.now }
{
    match text {
        "POSITION" => Checked::Valid(Semantic::Positions),
        "NORMAL" => Checked::Valid(Semantic::Normals),
        "TANGENT" => Checked::Valid(Semantic::Tangents),
        _ => set_semantic(text),
    }
}

/// The semantic of a name that ends in the number of a set.
fn set_semantic(text: &str) -> Checked<Semantic>
    ensures { checked_key result ≡ set_key text.now }
{
    if let Some(set) = set_behind("COLOR_", text) {
        Checked::Valid(Semantic::Colors(set))
    } else if let Some(set) = set_behind("TEXCOORD_", text) {
        Checked::Valid(Semantic::TexCoords(set))
    } else if let Some(set) = set_behind("JOINTS_", text) {
        Checked::Valid(Semantic::Joints(set))
    } else if let Some(set) = set_behind("WEIGHTS_", text) {
        Checked::Valid(Semantic::Weights(set))
    } else {
        Checked::Invalid
    }
}

/// The number of the set, if a prefix and nothing else is before it.
fn set_behind(prefix: &str, text: &str) -> Option<u32>
    ensures { result ≡ option_and_then set_number (behind prefix.now text.now) }
{
    parse_set(strip(prefix, text)?)
}

/// What is behind a prefix.
fn strip<'a>(prefix: &str, text: &'a str) -> Option<&'a str>
    ensures { option_copied result ≡ behind prefix.now text.now }
{
    text.strip_prefix(prefix)
}

fn parse_set(text: &str) -> Option<u32>
    ensures { result ≡ set_number text.now }
{
    text.parse().ok()
}

/// Appends the text of a semantic or of none. Fails only if out of memory; part of the text may
/// have been appended then.
pub fn write_semantic(text: &mut String, semantic: &Checked<Semantic>) -> Result<(), AllocError>
    ensures { OnOk result (string_bytes text.new
        ≡ string_bytes text.old ++ key_text (checked_key semantic.now)) }
{
    match semantic {
        Checked::Valid(semantic) => write_valid(text, semantic),
        Checked::Invalid => text.push_str("<invalid semantic name>"),
    }
}

fn write_valid(text: &mut String, semantic: &Semantic) -> Result<(), AllocError>
    ensures text { OnOk result (string_bytes text.new
        ≡ string_bytes text.old ++ key_text (semantic_key semantic.now)) }
    ensures named { IsTrue (is_named (semantic_key semantic.now)) }
{
    match semantic {
        Semantic::Extras(name) => write!(text, "_{name}"),
        Semantic::Positions => text.push_str("POSITION"),
        Semantic::Normals => text.push_str("NORMAL"),
        Semantic::Tangents => text.push_str("TANGENT"),
        Semantic::Colors(set) => write_set(text, "COLOR_", *set),
        Semantic::TexCoords(set) => write_set(text, "TEXCOORD_", *set),
        Semantic::Joints(set) => write_set(text, "JOINTS_", *set),
        Semantic::Weights(set) => write_set(text, "WEIGHTS_", *set),
    }
}

/// Appends a prefix and the number of a set.
fn write_set(text: &mut String, prefix: &str, set: u32) -> Result<(), AllocError>
    ensures { OnOk result (string_bytes text.new
        ≡ string_bytes text.old ++ prefix.now ++ decimal set) }
{
    write!(text, "{prefix}{set}")
}

/// The text of each semantic is read as that semantic.
pub fn texts_are_read_back()
    ensures { (key : Key) → IsTrue (is_named key) → key_named (key_text key) ≡ key }
{}

/// The attributes that a morph target may displace (glTF 2.0, section 3.7.2.2).
pub const VALID_MORPH_TARGETS: &[&str] = &["POSITION", "NORMAL", "TANGENT"];

/// The topology type of a primitive (glTF 2.0, section 5.24.4).
#[derive(Clone, Copy, Debug, PartialEq, Eq)]
pub enum Mode {
    /// Points.
    Points = 1,
    /// Separate lines of two vertices.
    Lines,
    /// A line strip that is closed at its end.
    LineLoop,
    /// A line strip.
    LineStrip,
    /// Separate triangles of three vertices.
    Triangles,
    /// A triangle strip.
    TriangleStrip,
    /// A triangle fan around the first vertex.
    TriangleFan,
}

impl Default for Mode {
    ghost use Rattle.gltf_base.specs.declared.mesh.Mode.TheVariants.{Triangles};

    ghost is_default = { λ x. x ≡ Triangles };

    fn default() -> Mode {
        Mode::Triangles
    }
}

/// The constants of this module are those that the specification lists.
pub fn constants_are_listed()
    ensures numbers { (POINTS ≡ 0) × (LINES ≡ 1) × (LINE_LOOP ≡ 2) × (LINE_STRIP ≡ 3)
        × (TRIANGLES ≡ 4) × (TRIANGLE_STRIP ≡ 5) × (TRIANGLE_FAN ≡ 6) }
    ensures modes { map by_number VALID_MODES.now ≡ map mode_spelling modes }
    ensures morph_targets { map (λ name. name.now) VALID_MORPH_TARGETS.now
        ≡ codes "POSITION" ∷ codes "NORMAL" ∷ codes "TANGENT" ∷ [] }
{}
