//! Written by tools/derive.py from crates/gltf_base/src/mesh.rt,
//! crates/gltf_base/specs/Choices.antt and crates/gltf_base/specs/GlNames.antt. Do not edit.

ghost use Rattle.gltf_base.specs.Choices.{mode_spelling, modes};
ghost use Rattle.gltf_base.specs.GlNames.{mode_name};
ghost use Rattle.gltf_base.specs.Spelling.{by_number, item_spelled, spelling_text};
ghost use Rattle.gltf_base.specs.declared.choice.Form.TheVariants.{Number};
ghost use Rattle.std.specs.Prelude.{Some, refl, ◌≡◌};

use super::Mode;
use crate::choice::{Choice, Form, Spelling, item_of};
use crate::validation::Checked;
use std::fmt::{self, Display, Formatter, Write};

/// `GL_POINTS`.
pub const POINTS: u32 = 0;

/// `GL_LINES`.
pub const LINES: u32 = 1;

/// `GL_LINE_LOOP`.
pub const LINE_LOOP: u32 = 2;

/// `GL_LINE_STRIP`.
pub const LINE_STRIP: u32 = 3;

/// `GL_TRIANGLES`.
pub const TRIANGLES: u32 = 4;

/// `GL_TRIANGLE_STRIP`.
pub const TRIANGLE_STRIP: u32 = 5;

/// `GL_TRIANGLE_FAN`.
pub const TRIANGLE_FAN: u32 = 6;

/// The numbers of the modes.
pub const VALID_MODES: &[u32] = &[
    POINTS,
    LINES,
    LINE_LOOP,
    LINE_STRIP,
    TRIANGLES,
    TRIANGLE_STRIP,
    TRIANGLE_FAN,
];

impl Choice for Mode {
    ghost spelling = { mode_spelling };

    ghost listed = { modes };

    ghost form = { Number };

    ghost reads_back = { (refl, (refl, (refl, (refl, (refl, (refl, (refl, tt))))))) };

    fn form() -> Form {
        Form::Number
    }

    fn listed() -> &'static [Mode] {
        &[
            Mode::Points,
            Mode::Lines,
            Mode::LineLoop,
            Mode::LineStrip,
            Mode::Triangles,
            Mode::TriangleStrip,
            Mode::TriangleFan,
        ]
    }

    fn spelling(self) -> Spelling<'static> {
        Spelling::Number(u64::from(self.as_gl_enum()))
    }
}

impl Display for Mode {
    ghost output = { λ item. Some (spelling_text (mode_spelling item)) };

    fn fmt<W: Write>(&self, f: &mut Formatter<W>) -> fmt::Result {
        Display::fmt(&self.spelling(), f)
    }
}

impl Mode {
    /// Returns the mode with this number, or `Invalid` if there is none.
    pub fn from_gl_enum(number: u64) -> Checked<Mode>
        ensures { result ≡ item_spelled mode_spelling modes (by_number number) }
    {
        item_of::<Mode>(Spelling::Number(number))
    }

    /// Returns the number that stands for the mode in a document.
    pub fn as_gl_enum(self) -> u32
        ensures { by_number result ≡ mode_spelling self }
    {
        match self {
            Mode::Points => POINTS,
            Mode::Lines => LINES,
            Mode::LineLoop => LINE_LOOP,
            Mode::LineStrip => LINE_STRIP,
            Mode::Triangles => TRIANGLES,
            Mode::TriangleStrip => TRIANGLE_STRIP,
            Mode::TriangleFan => TRIANGLE_FAN,
        }
    }

    /// The name that the specification gives to the number that spells it, as `TRIANGLE_FAN`.
    pub fn name(self) -> &'static str
        ensures { result.now ≡ mode_name self }
    {
        match self {
            Mode::Points => "POINTS",
            Mode::Lines => "LINES",
            Mode::LineLoop => "LINE_LOOP",
            Mode::LineStrip => "LINE_STRIP",
            Mode::Triangles => "TRIANGLES",
            Mode::TriangleStrip => "TRIANGLE_STRIP",
            Mode::TriangleFan => "TRIANGLE_FAN",
        }
    }
}
