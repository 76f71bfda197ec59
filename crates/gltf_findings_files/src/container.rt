//! The file that a document is in.

ghost use Rattle.std.specs.Prelude.{◌≡◌};
ghost use Rattle.gltf_findings_files.specs.Containers.{is_glb, is_without_bin, is_bin_longer};

/// What kind of file a document is in.
#[derive(Clone, Copy, Debug, PartialEq, Eq)]
pub enum Container {
    /// A file of JSON, `.gltf`.
    Json,
    /// A binary file, `.glb`.
    Glb {
        /// The length of the data of the BIN chunk, in bytes, if there is such a chunk.
        bin_len: Option<u64>,
    },
}

impl Container {
    /// Whether it is a binary file.
    pub fn is_glb(self) -> bool
        ensures { result ≡ is_glb self }
    {
        // derived
        match self {
            Container::Json => false,
            Container::Glb { bin_len: _ } => true,
        }
    }

    /// Whether it is a binary file that has no BIN chunk.
    pub fn is_without_bin(self) -> bool
        ensures { result ≡ is_without_bin self }
    {
        // derived
        match self {
            Container::Json => false,
            Container::Glb { bin_len: None } => true,
            Container::Glb { bin_len: Some(_) } => false,
        }
    }

    /// Whether there is a BIN chunk, and it is more than 3 bytes longer than a buffer.
    pub fn is_bin_longer(self, byte_length: u64) -> bool
        ensures { result ≡ is_bin_longer self byte_length }
    {
        match self {
            Container::Glb { bin_len: Some(len) } => byte_length < len && 3 < len - byte_length,
            Container::Glb { bin_len: None } => false,
            Container::Json => false,
        }
    }
}
