//! Which extension objects a document had before a push.

/// Which of the extension objects around a list a document has.
#[derive(Clone, Copy, Debug, Drop, PartialEq, Eq)]
pub enum Mark {
    /// All of them, so the list is there.
    Listed,
    /// The extensions without the list's extension object.
    NoObject,
    /// Not even the extensions.
    NoExtensions,
}
