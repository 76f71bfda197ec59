//! The types of components (glTF 2.0, section 3.6.2.2).

ghost use Rattle.std.specs.Prelude.{◌≡◌, ◌+◌, ◌<◌, ◌≤◌, ℕ, ℤ, pos, Bool, true, List, length, take, drop};
ghost use Rattle.std.specs.Float.{float_zero};
ghost use Rattle.gltf_accessors.specs.Numbers.{u8_of, i8_of, u16_of, i16_of, u32_of, f32_of, is_finite, is_any};

/// A type that the components of elements can have. All are stored with the least byte first.
pub trait Component: Copy + Drop {
    /// How many bytes a component has.
    const SIZE: usize;

    ghost SIZE: { ℕ };

    /// The number that bytes stand for.
    ghost number_of: { List ℕ → Self };

    /// Whether bytes may be present.
    ghost may_be: { List ℕ → Bool };

    /// What the components of an accessor without a view are (section 5.1.1).
    ghost zero: { Self };

    /// Returns 0.
    fn zero() -> Self
        ensures { result ≡ zero };

    /// Returns whether the bytes at a place may be present: a float is not NaN or infinite.
    fn may_be_at(bytes: &[u8], place: usize) -> bool
        requires { place + SIZE ≤ length bytes.now }
        ensures { result ≡ may_be (take SIZE (drop place bytes.now)) };

    /// Returns the number that the bytes at a place stand for.
    fn read(bytes: &[u8], place: usize) -> Self
        requires within { place + SIZE ≤ length bytes.now }
        requires may_be { may_be (take SIZE (drop place bytes.now)) ≡ true }
        ensures { result ≡ number_of (take SIZE (drop place bytes.now)) };
}

/// The bytes at a place.
#[inline(always)]
fn bytes_at<const N: usize>(bytes: &[u8], place: usize) -> [u8; N]
    requires { place + N ≤ length bytes.now }
    ensures { result ≡ take N (drop place bytes.now) }
{
    match bytes[place..].split_first_chunk::<N>() {
        Some((front, _)) => *front,
        None => unreachable!(),
    }
}

impl Component for u8 {
    const SIZE: usize = 1;

    ghost SIZE = { 1 };

    ghost number_of = { u8_of };

    ghost may_be = { is_any };

    ghost zero = { 0 };

    #[inline(always)]
    fn zero() -> u8 {
        0
    }

    #[inline(always)]
    fn may_be_at(_bytes: &[u8], _place: usize) -> bool {
        true
    }

    #[inline(always)]
    fn read(bytes: &[u8], place: usize) -> u8 {
        u8::from_le_bytes(bytes_at(bytes, place))
    }
}

impl Component for i8 {
    const SIZE: usize = 1;

    ghost SIZE = { 1 };

    ghost number_of = { i8_of };

    ghost may_be = { is_any };

    ghost zero = { pos 0 };

    #[inline(always)]
    fn zero() -> i8 {
        0
    }

    #[inline(always)]
    fn may_be_at(_bytes: &[u8], _place: usize) -> bool {
        true
    }

    #[inline(always)]
    fn read(bytes: &[u8], place: usize) -> i8 {
        u8::from_le_bytes(bytes_at(bytes, place)).cast_signed()
    }
}

impl Component for u16 {
    const SIZE: usize = 2;

    ghost SIZE = { 2 };

    ghost number_of = { u16_of };

    ghost may_be = { is_any };

    ghost zero = { 0 };

    #[inline(always)]
    fn zero() -> u16 {
        0
    }

    #[inline(always)]
    fn may_be_at(_bytes: &[u8], _place: usize) -> bool {
        true
    }

    #[inline(always)]
    fn read(bytes: &[u8], place: usize) -> u16 {
        u16::from_le_bytes(bytes_at(bytes, place))
    }
}

impl Component for i16 {
    const SIZE: usize = 2;

    ghost SIZE = { 2 };

    ghost number_of = { i16_of };

    ghost may_be = { is_any };

    ghost zero = { pos 0 };

    #[inline(always)]
    fn zero() -> i16 {
        0
    }

    #[inline(always)]
    fn may_be_at(_bytes: &[u8], _place: usize) -> bool {
        true
    }

    #[inline(always)]
    fn read(bytes: &[u8], place: usize) -> i16 {
        u16::from_le_bytes(bytes_at(bytes, place)).cast_signed()
    }
}

impl Component for u32 {
    const SIZE: usize = 4;

    ghost SIZE = { 4 };

    ghost number_of = { u32_of };

    ghost may_be = { is_any };

    ghost zero = { 0 };

    #[inline(always)]
    fn zero() -> u32 {
        0
    }

    #[inline(always)]
    fn may_be_at(_bytes: &[u8], _place: usize) -> bool {
        true
    }

    #[inline(always)]
    fn read(bytes: &[u8], place: usize) -> u32 {
        u32::from_le_bytes(bytes_at(bytes, place))
    }
}

impl Component for f32 {
    const SIZE: usize = 4;

    ghost SIZE = { 4 };

    ghost number_of = { f32_of };

    ghost may_be = { is_finite };

    ghost zero = { float_zero };

    #[inline(always)]
    fn zero() -> f32 {
        0.0
    }

    #[inline(always)]
    fn may_be_at(bytes: &[u8], place: usize) -> bool {
        u32::from_le_bytes(bytes_at(bytes, place)) % 0x8000_0000 < 0x7F80_0000
    }

    #[inline(always)]
    #[tactic(auto, using(std::proofs::lemmas::Float::not_nan_f32_bits))]
    fn read(bytes: &[u8], place: usize) -> f32 {
        f32::from_le_bytes(bytes_at(bytes, place))
    }
}
