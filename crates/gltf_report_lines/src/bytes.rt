//! Where the JSON of a file is.

ghost use Rattle.gltf_buffers.specs.Reading.{Gives};
ghost use Rattle.gltf_report_lines.specs.Bytes.{json_of};

use gltf_buffers::{Glb, GlbError};

/// Returns the JSON of a file by its bytes: the JSON chunk of a container if they begin with
/// `glTF`, else all of them. Fails with the first fault of the container from the left. It takes no
/// memory.
pub fn json_of(bytes: &[u8]) -> Result<&[u8], GlbError>
    ensures { Gives (λ json. json.now) result (json_of bytes.now) }
{
    if !bytes.starts_with(b"glTF") {
        return Ok(bytes);
    }
    Ok(Glb::from_slice(bytes)?.json)
}
