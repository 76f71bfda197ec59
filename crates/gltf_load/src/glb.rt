//! The BIN chunk of a file, and the buffer that it is.

ghost use Rattle.std.specs.Prelude.{◌↔◌, option_map, IsTrue};
ghost use Rattle.gltf_load.specs.Glb.{FitsBuffer, FitsFirst};

use crate::document::Document;
use gltf_buffers::Glb;

/// Returns whether the BIN chunk of a file has the bytes of the first buffer, if that buffer has no
/// URI: there is a chunk, and it is as long as `byteLength`, or up to 3 bytes longer (glTF 2.0,
/// section 4.4.3.3). Any file fits a document without such a buffer.
pub fn glb_fits(glb: &Glb<'_>, document: &Document<'_>) -> bool
    ensures { IsTrue result
        ↔ FitsFirst (option_map (λ b. b.now) glb.now.bin) document.now.buffers.now }
{
    match document.buffers.first() {
        Some(buffer) if buffer.uri.is_none() => fits_buffer(glb.bin, buffer.byte_length.0),
        _ => true,
    }
}

/// Whether a chunk has the bytes of a buffer of so many.
fn fits_buffer(bin: Option<&[u8]>, byte_length: u64) -> bool
    ensures { IsTrue result ↔ FitsBuffer (option_map (λ b. b.now) bin.entry) byte_length }
{
    match bin {
        None => false,
        Some(bin) => {
            let length = bin.len() as u64;
            byte_length <= length && length - byte_length <= 3
        }
    }
}
