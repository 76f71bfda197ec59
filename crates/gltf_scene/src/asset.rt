//! Metadata about the document (glTF 2.0, section 5.9).

ghost use Rattle.std.specs.Prelude.{◌≡◌, IfOk, codes, None, string_bytes};
ghost use Rattle.gltf_scene.specs.Asset.{asset_members, asset_of_version};

use crate::extensions;
use gltf_parts::extras::Extras;
use std::alloc::{AllocError, Global};

mod derived;

/// Metadata about the document.
#[derive(Clone, Debug)]
pub struct Asset {
    /// A copyright message to credit the author.
    pub copyright: Option<String>,
    /// The tool that generated the document.
    pub generator: Option<String>,
    /// The minimum glTF version that a reader has to support.
    pub min_version: Option<String>,
    /// The glTF version of the document.
    pub version: String,
    pub extensions: Option<extensions::asset::Asset>,
    pub extras: Extras,
}

// Written by tools/derive.py: begin
impl Drop for Asset {
    #[inline(always)]
    fn drop(self) {
        let Asset {
            copyright: _,
            generator: _,
            min_version: _,
            version: _,
            extensions: _,
            extras: _,
        } = self;
    }
}
// Written by tools/derive.py: end

impl Asset {
    /// Returns metadata with version `2.0` alone. Fails only if out of memory.
    #[tactic(auto, unfolding(crate::specs::Asset::asset_members))]
    pub fn new(alloc: Global) -> Result<Asset, AllocError>
        ensures { IfOk result (λ a. asset_members a ≡ asset_of_version (codes "2.0")) }
    {
        Ok(Asset::of_version(String::from_str(alloc, "2.0")?))
    }

    /// A version alone.
    #[tactic(auto, unfolding(crate::specs::Asset::asset_members))]
    fn of_version(version: String) -> Asset
        ensures { asset_members result ≡ asset_of_version (string_bytes version) }
    {
        Asset {
            copyright: None,
            generator: None,
            min_version: None,
            version,
            extensions: None,
            extras: None,
        }
    }
}
