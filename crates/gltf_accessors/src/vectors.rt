//! Vectors of floats, which may be stored as normalized integers.

ghost use Rattle.std.specs.Prelude.{◌≡◌, ◌<◌};
ghost use Rattle.gltf_accessors.specs.Vectors.{vectors_len, AreFloats};
ghost use Rattle.gltf_accessors.specs.Values.{AreEach};

use crate::{Accessor, Normalized};

/// Elements of N floats, by how their components are stored (glTF 2.0, section 3.6.2.2). Integers
/// are normalized.
#[derive(Debug, Drop)]
pub enum Vectors<'a, const N: usize> {
    /// Floats.
    F32(Accessor<'a, f32, N>),
    /// Signed integers of 8 bits.
    I8(Accessor<'a, i8, N>),
    /// Unsigned integers of 8 bits.
    U8(Accessor<'a, u8, N>),
    /// Signed integers of 16 bits.
    I16(Accessor<'a, i16, N>),
    /// Unsigned integers of 16 bits.
    U16(Accessor<'a, u16, N>),
}

impl<'a, const N: usize> Vectors<'a, N> {
    /// How many elements there are.
    #[inline(always)]
    pub fn len(&self) -> u64
        ensures { result ≡ vectors_len self.now }
    {
        match self {
            Vectors::F32(floats) => floats.len(),
            Vectors::I8(integers) => integers.len(),
            Vectors::U8(integers) => integers.len(),
            Vectors::I16(integers) => integers.len(),
            Vectors::U16(integers) => integers.len(),
        }
    }

    /// The components of an element. Integers are converted by the equations of section 3.6.2.2.
    #[inline(always)]
    pub fn get(&self, index: u64) -> [f32; N]
        requires { index < vectors_len self.now }
        ensures { AreFloats self.now index result }
    {
        match self {
            Vectors::F32(floats) => floats.get(index),
            Vectors::I8(integers) => to_floats(integers.get(index)),
            Vectors::U8(integers) => to_floats(integers.get(index)),
            Vectors::I16(integers) => to_floats(integers.get(index)),
            Vectors::U16(integers) => to_floats(integers.get(index)),
        }
    }
}

/// The floats that normalized integers stand for.
#[inline(always)]
fn to_floats<T: Normalized, const N: usize>(integers: [T; N]) -> [f32; N]
    ensures { AreEach T.normalized integers result }
{
    let mut floats = [0.0; N];
    for k in 0..N {
        floats[k] = integers[k].to_float();
    }
    floats
}
