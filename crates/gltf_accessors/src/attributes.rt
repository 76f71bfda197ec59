//! Colors and joints of vertices.

ghost use Rattle.std.specs.Prelude.{◌≡◌, ◌<◌};
ghost use Rattle.gltf_accessors.specs.Values.{AreEach};
ghost use Rattle.gltf_accessors.specs.Vectors.{colors_len, IsColor, joints_len, AreJoints};

use crate::Accessor;
use crate::vectors::Vectors;

/// The colors of vertices (glTF 2.0, sections 3.7.2.1 and 3.9.2).
#[derive(Debug, Drop)]
pub enum Colors<'a> {
    /// Red, green and blue.
    Rgb(Vectors<'a, 3>),
    /// Red, green, blue and alpha.
    Rgba(Vectors<'a, 4>),
}

impl<'a> Colors<'a> {
    /// How many colors there are.
    #[inline(always)]
    pub fn len(&self) -> u64
        ensures { result ≡ colors_len self.now }
    {
        match self {
            Colors::Rgb(colors) => colors.len(),
            Colors::Rgba(colors) => colors.len(),
        }
    }

    /// Red, green, blue and alpha of a color. Alpha is 1 if there is none.
    #[inline(always)]
    pub fn get(&self, index: u64) -> [f32; 4]
        requires { index < colors_len self.now }
        ensures { IsColor self.now index result }
    {
        match self {
            Colors::Rgb(colors) => {
                let [red, green, blue] = colors.get(index);
                [red, green, blue, f32::from(1u8)]
            }
            Colors::Rgba(colors) => colors.get(index),
        }
    }
}

/// The joints that move vertices (glTF 2.0, sections 3.7.2.1 and 3.7.3.3).
#[derive(Debug, Drop)]
pub enum Joints<'a> {
    /// Numbers of 8 bits.
    U8(Accessor<'a, u8, 4>),
    /// Numbers of 16 bits.
    U16(Accessor<'a, u16, 4>),
}

impl<'a> Joints<'a> {
    /// For how many vertices there are joints.
    #[inline(always)]
    pub fn len(&self) -> u64
        ensures { result ≡ joints_len self.now }
    {
        match self {
            Joints::U8(joints) => joints.len(),
            Joints::U16(joints) => joints.len(),
        }
    }

    /// The joints that move a vertex, by their places among the joints of the skin.
    #[inline(always)]
    pub fn get(&self, index: u64) -> [u16; 4]
        requires { index < joints_len self.now }
        ensures { AreJoints self.now index result }
    {
        match self {
            Joints::U8(joints) => widened(joints.get(index)),
            Joints::U16(joints) => joints.get(index),
        }
    }
}

/// The same numbers, with 16 bits.
#[inline(always)]
fn widened(numbers: [u8; 4]) -> [u16; 4]
    ensures { AreEach (λ n. n) numbers result }
{
    let mut wide = [0; 4];
    for k in 0..4 {
        wide[k] = u16::from(numbers[k]);
    }
    wide
}
