//! What gives the bytes of files.

ghost use Rattle.std.specs.Prelude.{◌≡◌, ℕ, List, Option, Result, MatchResult, Ok, Err, length};
ghost use Rattle.gltf_buffers.specs.Limits.{Takes};

use std::alloc::Global;

/// What gives the bytes for each URI that is no data URI, as those of a file.
pub trait Resolve {
    /// Why it gives none.
    type Error: Drop;

    // What it may give for a URI from now on: bytes, or an error. `λ _ _ _. ⊤` claims nothing.
    ghost gives: { Self → List ℕ → Result (List ℕ) Self.Error → Type 0 };

    // How many bytes it gives at most from now on, for all URIs together. `λ _. None` claims
    // nothing.
    ghost most: { Self → Option ℕ };

    /// Returns the bytes for a URI, which is passed as the document has it.
    fn bytes(&mut self, alloc: Global, uri: &str) -> Result<Vec<u8>, Self::Error>
        ensures given { MatchResult result (λ v. gives self.old uri.now (Ok v.items))
            (λ e. gives self.old uri.now (Err e)) }
        // No call lets later ones give anything else.
        ensures kept { (uri : List ℕ) (given : Result (List ℕ) Self.Error)
            → gives self.new uri given → gives self.old uri given }
        // What it returns is taken from the most that it gives.
        ensures taken { MatchResult result
            (λ v. Takes (length v.items) (most self.old) (most self.new))
            (λ _. Takes 0 (most self.old) (most self.new)) };
}
