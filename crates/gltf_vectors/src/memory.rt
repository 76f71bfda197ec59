//! Calls that run out of memory.

use std::alloc::{AllocError, Global};
use std::test::Fail;

/// The size of a spare block, in bytes.
const SPARE_LEN: usize = 64;

/// How often something is tried at most.
const TRIES: usize = 4096;

/// Holds all memory that the process can have. Every growth is then refused.
#[derive(Drop)]
pub struct HeldMemory {
    spare_blocks: Vec<Vec<u8>>,
    _blocks: Vec<Vec<u8>>,
}

impl HeldMemory {
    /// Takes all memory, of which so many spare blocks can be freed.
    pub fn take_all(alloc: Global, spare_count: usize) -> Result<HeldMemory, AllocError> {
        let mut spare_blocks = Vec::with_capacity(alloc, spare_count)?;
        for _ in 0..spare_count {
            spare_blocks.push(Vec::with_capacity(alloc, SPARE_LEN)?)?;
        }
        let mut blocks = Vec::with_capacity(alloc, 1 << 17)?;
        let mut size: usize = 1 << 46;
        for _ in 0..1 << 17 {
            match Vec::with_capacity(alloc, size) {
                Ok(block) => blocks.push(block)?,
                Err(_) if size <= 16 => break,
                Err(_) => size /= 2,
            }
        }
        Ok(HeldMemory {
            spare_blocks,
            _blocks: blocks,
        })
    }

    /// Frees one spare block, and returns whether there was one.
    pub fn give_back(&mut self) -> bool {
        self.spare_blocks.pop().is_some()
    }
}

/// How a try ends.
#[derive(Clone, Copy)]
pub enum End {
    /// As it does with enough memory.
    Whole,
    /// Out of memory, as it should.
    Refused,
    /// As it never should.
    Wrong,
}

/// A call that is tried without memory.
pub trait Tried {
    /// Tries it, and judges how it ended. That takes no memory.
    fn attempt(&mut self, alloc: Global) -> End;
}

/// Returns how often a call is refused that is tried without memory, and each time with one more
/// free block, until it succeeds.
pub fn refusal_count<T: Tried>(alloc: Global, tried: &mut T) -> Result<usize, Fail> {
    let mut held_memory = HeldMemory::take_all(alloc, TRIES)?;
    for refusals in 0..TRIES {
        match tried.attempt(alloc) {
            End::Whole => return Ok(refusals),
            End::Wrong => return Err(Fail::from("neither whole nor refused")),
            End::Refused => {
                held_memory.give_back();
            }
        }
    }
    Err(Fail::from("never whole"))
}
