//! The bytes of all buffers.

ghost use Rattle.std.specs.Prelude.{◌≡◌, option_map, IfOk, IfErr};
ghost use Rattle.gltf_buffers.specs.Sources.{AreContents};
ghost use Rattle.gltf_buffers.specs.Faults.{IsBufferFault};
ghost use Rattle.gltf_buffers.specs.Buffered.{bytes_at, lent};
ghost use Rattle.gltf_buffers.specs.Limits.{Takes, resolved_bytes};

use crate::content::{Content, content_of};
use crate::fault::BufferFault;
use crate::list::BufferList;
use crate::resolve::Resolve;
use std::alloc::Global;

/// The bytes of each buffer of a document (glTF 2.0, section 3.6.1). The BIN chunk of a container
/// is borrowed.
#[derive(Debug, Drop)]
pub struct Buffers<'a> {
    contents: Vec<Content<'a>>,
}

impl<'a> Buffers<'a> {
    /// Returns the bytes of each buffer: as many as its `byteLength` says. If there are more, the
    /// rest is cut off, as what pads a BIN chunk. The first buffer without a URI is `bin`. A data
    /// URI is decoded, and any other URI is passed to `resolve`.
    ///
    /// Fails with the fault of the first buffer that has one, or if memory is refused. It takes
    /// time in proportion to the buffers and their bytes, and does not recurse.
    pub fn of<D: BufferList, R: Resolve>(
        alloc: Global,
        document: &D,
        bin: Option<&'a [u8]>,
        resolve: &mut R,
    ) -> Result<Buffers<'a>, BufferFault<R::Error>>
        // What `bytes` returns.
        ensures contents { IfOk result (λ b. AreContents (R.gives resolve.old) (lent bin.entry)
            (D.listed document.now) (bytes_at b)) }
        // Where there is a limit of what `resolve` gives, it gives no more for all buffers together.
        ensures taken { IfOk result (λ _. Takes (resolved_bytes (D.listed document.now))
            (R.most resolve.old) (R.most resolve.new)) }
        // What the fault says is so, and no buffer before has one.
        ensures fault { IfErr result (IsBufferFault (R.gives resolve.old) (lent bin.entry)
            (D.listed document.now)) }
    {
        let mut contents = Vec::new(alloc);
        for number in 0..document.buffer_count() {
            let buffer = document.buffer(number);
            match content_of(alloc, number, &buffer, bin, resolve) {
                Ok(content) => {
                    if let Err(error) = contents.push(content) {
                        return Err(BufferFault::Memory(error.into()));
                    }
                }
                Err(fault) => return Err(fault),
            }
        }
        Ok(Buffers { contents })
    }

    /// Returns the bytes of a buffer. `None` if there is no such buffer.
    pub fn bytes(&self, number: usize) -> Option<&[u8]>
        ensures { option_map (λ b. b.now) result ≡ bytes_at self.now number }
    {
        match self.contents.get(number) {
            Some(content) => Some(content.as_slice()),
            None => None,
        }
    }
}
