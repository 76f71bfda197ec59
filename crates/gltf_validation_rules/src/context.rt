//! What values are validated against.

ghost use Rattle.std.specs.Prelude.{◌≡◌};
ghost use Rattle.gltf_validation_rules.specs.Context.{Context as SpecContext, context_of};

use crate::rules::Rules;
use gltf_root::root::Root;

/// A document, whose items indexes name, and the rules to go by.
#[derive(Clone, Copy, Drop)]
pub struct Context<'a> {
    /// The rules.
    pub rules: &'a Rules<'a>,
    /// The document.
    pub root: &'a Root,
}

/// What has a context. Code that only hands it on, as a walk over an object's members does, asks
/// for this: it need not know that a context holds a whole document.
pub trait HasContext {
    ghost context: { Self → SpecContext };

    /// The document and the rules.
    fn context(&self) -> Context<'_>
        ensures { context_of result ≡ context self.now };
}

impl HasContext for Context<'_> {
    ghost context = { context_of };

    fn context(&self) -> Context<'_> {
        *self
    }
}
