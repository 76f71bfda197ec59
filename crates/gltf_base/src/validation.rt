//! What is wrong at a place of a document, items of a choice that may be none of its values, and
//! numbers of bytes or items.

ghost use Rattle.std.specs.Prelude.{◌≡◌};

use std::fmt::{self, Display, Formatter, Write};

/// A valid item of a choice, or `Invalid`.
#[derive(Clone, Copy, Debug, Drop, PartialEq, Eq, PartialOrd, Ord, Hash)]
pub enum Checked<T> {
    /// The item.
    Valid(T),
    /// A value that the choice doesn't list.
    Invalid,
}

impl<T> Checked<T> {
    ghost use Rattle.gltf_base.specs.Checked.{IsValid, checked_copied};

    /// Returns the item as a reference.
    pub fn as_ref(&self) -> Checked<&T>
        ensures { checked_copied result ≡ self.now }
    {
        match self {
            Checked::Valid(item) => Checked::Valid(item),
            Checked::Invalid => Checked::Invalid,
        }
    }

    /// Returns the item. There must be one.
    pub fn unwrap(self) -> T
        requires { IsValid self }
        ensures { self ≡ Checked.Valid result }
    {
        match self {
            Checked::Valid(item) => item,
            Checked::Invalid => unreachable!(),
        }
    }
}

impl<T: Default> Default for Checked<T> {
    ghost use Rattle.gltf_base.specs.Checked.{IsValidAnd};

    ghost is_default = { λ checked. IsValidAnd checked T.is_default };

    fn default() -> Checked<T> {
        Checked::Valid(T::default())
    }
}

impl<T: Display> Display for Checked<T> {
    ghost use Rattle.gltf_base.specs.Checked.{checked_text};

    ghost output = { checked_text T.output };

    fn fmt<W: Write>(&self, f: &mut Formatter<W>) -> fmt::Result {
        match self {
            Checked::Valid(item) => Display::fmt(item, f),
            Checked::Invalid => f.pad("<invalid>"),
        }
    }
}

/// A fault: what is wrong with a value of a document.
#[derive(Clone, Copy, Debug, PartialEq, Eq, PartialOrd, Ord, Hash)]
pub enum Error {
    /// An index past the end of its list.
    IndexOutOfBounds,
    /// A value that the specification doesn't list, a stride that is too short or too long, or
    /// bounds of positions that aren't three numbers.
    Invalid,
    /// Required data that is missing.
    Missing,
    /// A size past what the machine can address. It is never reported, since `usize` has 64 bits.
    Oversize,
    /// An extension that a document requires and that the rules don't enable.
    Unsupported,
}

impl Error {
    ghost use Rattle.gltf_base.specs.Errors.{error_code};

    /// Returns a name of the fault for machines, in lowercase letters and hyphens. Each fault has
    /// its own.
    pub fn code(&self) -> &'static str
        ensures { result.now ≡ error_code self.now }
    {
        match self {
            Error::IndexOutOfBounds => "index-out-of-bounds",
            Error::Invalid => "invalid",
            Error::Missing => "missing",
            Error::Oversize => "oversize",
            Error::Unsupported => "unsupported",
        }
    }
}

impl Display for Error {
    ghost use Rattle.std.specs.Prelude.{Some};
    ghost use Rattle.gltf_base.specs.Errors.{error_text};

    ghost output = { λ error. Some (error_text error) };

    fn fmt<W: Write>(&self, f: &mut Formatter<W>) -> fmt::Result {
        f.write_str(match self {
            Error::IndexOutOfBounds => "Index out of bounds",
            Error::Invalid => "Invalid value",
            Error::Missing => "Missing data",
            Error::Oversize => "Size exceeds system limits",
            Error::Unsupported => "Unsupported extension",
        })
    }
}

impl std::error::Error for Error {}

/// A number of bytes or items, as in JSON.
#[derive(Clone, Copy, Debug, PartialEq, Eq, Hash)]
pub struct USize64(pub u64);

impl Default for USize64 {
    ghost is_default = { λ size. size.0 ≡ 0 };

    fn default() -> USize64 {
        USize64(0)
    }
}

impl From<u64> for USize64 {
    ghost from_gives = { λ number size. size.0 ≡ number };

    fn from(number: u64) -> USize64 {
        USize64(number)
    }
}

impl From<usize> for USize64 {
    ghost from_gives = { λ number size. size.0 ≡ number };

    fn from(number: usize) -> USize64 {
        USize64(number as u64)
    }
}
