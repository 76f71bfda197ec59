//! Normalized integers as floats.

ghost use Rattle.std.specs.Prelude.{◌≡◌, ◌<◌};
ghost use Rattle.std.specs.Float.{Float};
ghost use Rattle.gltf_accessors.specs.Components.{AreComponents};
ghost use Rattle.gltf_accessors.specs.Normalized.{greater, normalized_u8, normalized_i8, normalized_u16, normalized_i16};

use crate::component::Component;
use crate::components::Components;

/// An integer type that can be normalized (glTF 2.0, section 3.6.2.2).
pub trait Normalized: Component {
    /// The float that an integer stands for.
    ghost normalized: { Self → Float };

    /// Returns the float that the integer stands for, from -1 or 0 to 1.
    fn to_float(self) -> f32
        ensures { result ≡ normalized self };
}

impl Normalized for u8 {
    ghost normalized = { normalized_u8 };

    #[inline(always)]
    fn to_float(self) -> f32 {
        f32::from(self) / f32::from(255u8)
    }
}

impl Normalized for i8 {
    ghost normalized = { normalized_i8 };

    #[inline(always)]
    fn to_float(self) -> f32 {
        greater_of(f32::from(self) / f32::from(127i8), f32::from(-1i8))
    }
}

impl Normalized for u16 {
    ghost normalized = { normalized_u16 };

    #[inline(always)]
    fn to_float(self) -> f32 {
        f32::from(self) / f32::from(65535u16)
    }
}

impl Normalized for i16 {
    ghost normalized = { normalized_i16 };

    #[inline(always)]
    fn to_float(self) -> f32 {
        greater_of(f32::from(self) / f32::from(32767i16), f32::from(-1i16))
    }
}

/// The greater of two floats.
#[inline(always)]
fn greater_of(x: f32, least: f32) -> f32
    ensures { result ≡ greater x least }
{
    if x < least { least } else { x }
}

impl<'a, T: Normalized, const N: usize> Components<'a, T, N> {
    /// The components of an element as floats.
    #[inline(always)]
    pub fn normalized(&self, index: u64) -> [f32; N]
        requires { index < self.now.elements.span.count }
        ensures { AreComponents (λ bytes. T.normalized (T.number_of bytes)) T.SIZE N
            self.now.elements.bytes.now self.now.elements.span index result }
    {
        let mut floats = [0.0; N];
        let start = self.elements.start(index);
        for k in 0..N {
            floats[k] = T::read(self.elements.bytes, start + k * T::SIZE).to_float();
        }
        floats
    }
}
