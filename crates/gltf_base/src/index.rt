//! Indexes into the lists of a document.

ghost use Rattle.std.specs.Prelude.{◌≡◌, ◌↔◌, ◌-◌, ◌^◌, ◌≤◌, [], ◌∷◌, ◌++◌, Err, IfOk, IfErr, OnErr, vec_len};
ghost use Rattle.gltf_base.specs.Lists.{ListName};

use std::fmt::{self, Debug, Display, Formatter, Write};
use std::marker::PhantomData;

/// A type whose values a document lists.
pub trait Listed {
    ghost list: { ListName };
}

/// What the indexes into a list are written by: a pointer to what the list holds.
pub trait Names {
    /// What the list holds.
    type Item: Listed;
}

impl<T: Listed + 'static> Names for *const T {
    type Item = T;
}

/// An index into the document's list of `T`.
pub type Index<T> = IndexTo<*const T>;

/// An index into a list. It names what the list holds behind a pointer type, because a node may
/// hold indexes of nodes. No pointer is ever made.
#[derive_where(Clone, Copy, PartialEq, Eq, PartialOrd, Ord, Hash)]
pub struct IndexTo<P>(u32, PhantomData<P>);

// SAFETY: An index is a number alone. `PhantomData<P>` holds no value of `P`, and no pointer is
// ever made, so an index leads to nothing of another thread's.
unsafe impl<P> Send for IndexTo<P> {}

// SAFETY: As for `Send`: through a shared index only its number is read.
unsafe impl<P> Sync for IndexTo<P> {}

impl<T> Index<T> {
    ghost use Rattle.gltf_base.specs.Indexes.{index_number};
    ghost use Rattle.gltf_base.specs.Pushes.{IsHandedBack};

    /// Returns the index with this number.
    pub fn new(number: u32) -> Index<T>
        ensures { index_number result ≡ number }
    {
        IndexTo::from_number(number)
    }

    /// Returns the number as a `usize`, to index a slice.
    pub fn value(&self) -> usize
        ensures { result ≡ index_number self.now }
    {
        self.0 as usize
    }

    /// Appends an item to its list, and returns its index. Fails with `Full` if the list has
    /// 4294967295 items or more, before any memory is taken, and with `Memory` if the list can't
    /// grow.
    pub fn push(list: &mut Vec<T>, item: T) -> Result<Index<T>, PushError<T>>
        ensures pushed { IfOk result (λ index. (index_number index ≡ vec_len list.old)
            × (list.new.items ≡ list.old.items ++ item ∷ [])) }
        ensures full { (result ≡ Err (PushError.Full item)) ↔ (2 ^ 32 - 1 ≤ vec_len list.old) }
        ensures handed_back { IfErr result (IsHandedBack item) }
        ensures unchanged { OnErr result (list.new.items ≡ list.old.items) }
    {
        let number = list.len();
        if number >= u32::MAX as usize {
            return Err(PushError::Full(item));
        }
        match list.push(item) {
            Ok(()) => Ok(Index::new(number as u32)),
            Err(refused) => Err(PushError::Memory(refused.value)),
        }
    }
}

/// Why an item was not appended; each case hands it back.
#[derive(Debug, Drop)]
pub enum PushError<T> {
    /// The list has 4294967295 items or more.
    Full(T),
    /// Out of memory.
    Memory(T),
}

impl<T> Display for PushError<T> {
    ghost use Rattle.std.specs.Prelude.{Some};
    ghost use Rattle.gltf_base.specs.Pushes.{push_error_text};

    ghost output = { λ error. Some (push_error_text error) };

    fn fmt<W: Write>(&self, f: &mut Formatter<W>) -> fmt::Result {
        f.write_str(match self {
            PushError::Full(_) => "List is full",
            PushError::Memory(_) => "Out of memory",
        })
    }
}

impl<T: Debug + Drop> std::error::Error for PushError<T> {}

impl<P> IndexTo<P> {
    ghost use Rattle.gltf_base.specs.Indexes.{index_number};

    /// Returns the index with this number, into any list.
    pub fn from_number(number: u32) -> IndexTo<P>
        ensures { index_number result ≡ number }
    {
        IndexTo(number, PhantomData)
    }

    /// Returns the number of the index, into any list.
    pub fn number(&self) -> u32
        ensures { result ≡ index_number self.now }
    {
        self.0
    }
}

impl<P> Display for IndexTo<P> {
    ghost use Rattle.std.specs.Prelude.{Some};
    ghost use Rattle.std.specs.Fmt.{decimal};
    ghost use Rattle.gltf_base.specs.Indexes.{index_number};

    ghost output = { λ i. Some (decimal (index_number i)) };

    fn fmt<W: Write>(&self, f: &mut Formatter<W>) -> fmt::Result {
        Display::fmt(&self.0, f)
    }
}

impl<P> Debug for IndexTo<P> {
    fn fmt<W: Write>(&self, f: &mut Formatter<W>) -> fmt::Result {
        Debug::fmt(&self.0, f)
    }
}
