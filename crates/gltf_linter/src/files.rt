//! What there is to check: files, and folders of files.

use crate::refusal::Refusal;
use gltf_base::{ByteIn, Error as DocumentError, Watched, read_to_end_into};
use std::alloc::{AllocError, Global};
use std::collections::BTreeMap;
use std::fs::{DirEntry, OpenFile};
use std::{fs, io};

/// The name that stands for standard input.
const STANDARD_INPUT: &str = "-";

/// The most bytes of a file: a container gives its length as a number of 32 bits.
const MOST_BYTES: u64 = 0xFFFF_FFFF;

/// The most calls that reading a file takes.
const MOST_CALLS: u64 = 0x8000_0000;

/// What is at a path.
#[derive(Clone, Copy)]
pub enum Kind {
    File,
    Folder,
}

impl Kind {
    /// What an argument names. If nothing is there, reading it as a file fails.
    pub fn of_argument(rt: &HostRuntime, name: &str) -> Kind {
        match fs::metadata(rt, name) {
            Ok(metadata) if metadata.is_dir() && name != STANDARD_INPUT => Kind::Folder,
            _ => Kind::File,
        }
    }

    /// What an entry of a folder names: a folder, or a file with the name of a document. A link to
    /// a folder is not followed, or a folder could be checked inside itself. A pipe or a device is
    /// no file here, since reading it might not end.
    fn of_entry(rt: &HostRuntime, entry: &DirEntry) -> io::Result<Option<Kind>> {
        if entry.file_type()?.is_dir() {
            return Ok(Some(Kind::Folder));
        }
        let name = entry.file_name();
        let is_document = has_extension(name, ".gltf") || has_extension(name, ".glb");
        Ok((is_document && may_be_read(rt, entry)).then_some(Kind::File))
    }
}

/// Whether a name ends so, in capitals or not.
pub fn has_extension(name: &str, extension: &str) -> bool {
    let at = name.len().saturating_sub(extension.len());
    name.as_bytes()[at..].eq_ignore_ascii_case(extension.as_bytes())
}

/// Whether an entry is a regular file, or a link to one. A link to nothing is read, and so it is
/// refused by its name.
fn may_be_read(rt: &HostRuntime, entry: &DirEntry) -> bool {
    match fs::metadata(rt, entry.path()) {
        Ok(metadata) => metadata.is_file(),
        Err(_) => true,
    }
}

/// The folders and documents of a folder, by their paths, and what could not be looked at.
#[derive(Drop)]
pub struct Entries {
    pub found: BTreeMap<String, Kind>,
    pub errors: Vec<io::Error>,
}

impl Entries {
    /// Reads what is in a folder.
    pub fn of(rt: &HostRuntime, folder: &str) -> io::Result<Entries> {
        let alloc = rt.alloc();
        let mut found = BTreeMap::new(alloc);
        let mut errors = Vec::new(alloc);
        for entry in fs::read_dir(rt, folder)? {
            match entry.and_then(|entry| Ok((Kind::of_entry(rt, &entry)?, entry))) {
                Ok((Some(kind), entry)) => {
                    found.insert(String::from_str(alloc, entry.path().as_str())?, kind)?;
                }
                Ok((None, _)) => {}
                Err(error) => errors.push(error)?,
            }
        }
        Ok(Entries { found, errors })
    }
}

/// How many bytes of a file are read at a time.
const PIECE_LEN: usize = 65536;

/// What files are read into, one after the other.
#[derive(Drop)]
pub struct Buffers {
    bytes: Vec<u8>,
    piece: Vec<u8>,
}

impl Buffers {
    pub fn new(alloc: Global) -> Result<Buffers, AllocError> {
        Ok(Buffers {
            bytes: Vec::new(alloc),
            piece: vec![in alloc; 0u8; PIECE_LEN]?,
        })
    }

    /// The bytes of a file, or of standard input.
    pub fn read(&mut self, rt: &HostRuntime, path: &str) -> Result<&[u8], Refusal> {
        if path == STANDARD_INPUT {
            return self.read_all(&mut Watched::new(rt.reader()));
        }
        let file = match fs::open(rt, path) {
            Ok(file) => file,
            Err(error) => return Err(Refusal::Unreadable(error)),
        };
        match file.metadata() {
            Ok(metadata) if metadata.len() > MOST_BYTES => {
                Err(Refusal::Unread(DocumentError::TooLong))
            }
            _ => self.read_all(&mut Watched::new(file)),
        }
    }

    /// The bytes that a reader gives.
    fn read_all<R: ByteIn>(&mut self, reader: &mut R) -> Result<&[u8], Refusal> {
        self.bytes.clear();
        if self.piece.is_empty() {
            return Err(Refusal::Memory);
        }
        match read_to_end_into(
            reader,
            &mut self.bytes,
            &mut self.piece,
            MOST_BYTES,
            MOST_CALLS,
        ) {
            Ok(()) => Ok(&self.bytes),
            Err(error) => Err(Refusal::Unread(error)),
        }
    }
}
