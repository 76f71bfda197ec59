//! Values that are compared with a row's default.

ghost use Rattle.std.specs.Prelude.{◌≡◌};
ghost use Rattle.gltf_schema.specs.Write.{is_default as is_default_tree};

use crate::schema::Schema;
use gltf_base::choice::{Choice, is_same};
use gltf_base::validation::Checked;
use gltf_base::{IndexTo, Names};

/// A type whose values are left out where they are a row's default.
pub trait Omittable: Schema {
    /// Whether the value is the default.
    fn is_default(&self, default: &Self) -> bool
        ensures { result ≡ is_default_tree (Self.tree default.now) (Self.tree self.now) };
}

impl Omittable for bool {
    fn is_default(&self, default: &bool) -> bool {
        *self == *default
    }
}

impl<P: Names> Omittable for IndexTo<P> {
    fn is_default(&self, default: &IndexTo<P>) -> bool {
        self.number() == default.number()
    }
}

impl<T: Choice> Omittable for Checked<T> {
    fn is_default(&self, default: &Checked<T>) -> bool {
        match (default, self) {
            (Checked::Valid(default), Checked::Valid(item)) => {
                is_same(default.spelling(), item.spelling())
            }
            _ => false,
        }
    }
}
