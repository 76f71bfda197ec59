//! The types of indices.

ghost use Rattle.std.specs.Prelude.{◌≡◌};
ghost use Rattle.gltf_accessors.specs.Indices.{index_size, restart_of};

/// An unsigned integer, as which indices are stored (glTF 2.0, section 5.3.3).
#[derive(Clone, Copy, Debug, PartialEq, Eq)]
pub enum IndexType {
    /// 8 bits.
    U8 = 1,
    /// 16 bits.
    U16,
    /// 32 bits.
    U32,
}

impl IndexType {
    /// How many bytes an index has.
    #[inline(always)]
    pub fn size(self) -> u64
        ensures { result ≡ index_size self }
    {
        match self {
            IndexType::U8 => 1,
            IndexType::U16 => 2,
            IndexType::U32 => 4,
        }
    }

    /// The greatest index, which restarts a primitive.
    #[inline(always)]
    pub fn restart(self) -> u32
        ensures { result ≡ restart_of self }
    {
        match self {
            IndexType::U8 => 255,
            IndexType::U16 => 65535,
            IndexType::U32 => 4294967295,
        }
    }
}
