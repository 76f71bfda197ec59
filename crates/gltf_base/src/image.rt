//! What images are written in.

ghost use Rattle.std.specs.Prelude.{◌≡◌, [], ◌∷◌, map, codes};

/// The media types of images (glTF 2.0, section 5.18.2).
pub const VALID_MIME_TYPES: &[&str] = &["image/jpeg", "image/png"];

/// The constants of this module are those that the specification lists.
pub fn constants_are_listed()
    ensures { map (λ name. name.now) VALID_MIME_TYPES.now
        ≡ codes "image/jpeg" ∷ codes "image/png" ∷ [] }
{}
