//! Pushes onto lists that can't grow, and documents that are refused without memory for a path.

use super::writing::is_line;
use crate::reading::object;
use crate::samples::{FAULTY, NEW};
use crate::{End, HeldMemory, Tried, refusal_count};
use gltf_json::extensions::scene::khr_lights_punctual::Light;
use gltf_json::root::{Get, PushError};
use gltf_json::validation::{Clean, CleanError, Item, Refused, Rules};
use gltf_json::{Buffer, Index, Root, Schema};
use std::alloc::{AllocError, Global};
use std::fmt::Debug;
use std::test::Fail;

/// A light that shines from a point, and says nothing else.
const POINT: &str = r#"{"type":"point"}"#;

/// What a document with that light alone is written as.
const ONE_LIGHT: &str =
    r#"{"asset":{"version":"2.0"},"extensions":{"KHR_lights_punctual":{"lights":[{"type":"point"}]}}}"#;

/// Pushing an item onto a new document. A refused push hands the item back for the next one.
#[derive(Drop)]
struct Pushing<T: Drop> {
    root: Root,
    item: Option<T>,
}

impl<T: Schema> Tried for Pushing<T>
where
    Root: Get<T>,
{
    fn attempt(&mut self, _alloc: Global) -> End {
        let Some(item) = self.item.take() else {
            return End::Wrong;
        };
        match self.root.push(item) {
            Ok(index) if index == Index::new(0) => End::Whole,
            Ok(_index) => End::Wrong,
            Err(PushError::Memory(item)) => {
                self.item = Some(item);
                End::Refused
            }
            Err(PushError::Full(_item)) => End::Wrong,
        }
    }
}

/// Whether a push is refused, and the document is this line once the item is pushed.
fn is_pushed_in_the_end<T: Schema + Debug>(
    alloc: Global,
    item: &str,
    line: &str,
) -> Result<bool, Fail>
where
    Root: Get<T>,
{
    let mut pushing = Pushing {
        item: Some(object::<T>(alloc, item)?),
        root: Root::new(alloc)?,
    };
    let refusals = refusal_count(alloc, &mut pushing)?;
    Ok(refusals > 0 && is_line(alloc, &pushing.root, line)?)
}

// Under `rt try` nothing is refused, and these tests fail: its allocator is another one.
#[test]
fn lights_without_memory(rt: HostRuntime) -> Result<(), Fail> {
    assert!(rt; is_pushed_in_the_end::<Light>(rt.alloc(), POINT, ONE_LIGHT)?);
    Ok(())
}

#[test]
fn buffers_without_memory(rt: HostRuntime) -> Result<(), Fail> {
    let line = r#"{"asset":{"version":"2.0"},"buffers":[{"byteLength":1}]}"#;
    assert!(rt; is_pushed_in_the_end::<Buffer>(rt.alloc(), r#"{"byteLength":1}"#, line)?);
    Ok(())
}

/// Pushes an item where there is no memory.
fn push_without_memory<T: Item>(
    alloc: Global,
    clean: &mut Clean<'_>,
    item: T,
) -> Result<Result<Index<T>, CleanError<T>>, AllocError> {
    let held_memory = HeldMemory::take_all(alloc, 0)?;
    let ended = clean.push(item);
    drop(held_memory);
    Ok(ended)
}

/// Whether a light for which there is no memory is handed back, and the root stays new.
fn is_light_handed_back(alloc: Global) -> Result<bool, Fail> {
    let mut clean = Clean::new(alloc)?;
    let light = object::<Light>(alloc, POINT)?;
    match push_without_memory(alloc, &mut clean, light)? {
        Err(CleanError::Memory(light)) => {
            let is_same = light.encode(alloc)?.to_string(alloc)?.as_str() == POINT;
            Ok(is_same && is_line(alloc, clean.root(), NEW)?)
        }
        _ => Ok(false),
    }
}

#[test]
fn lights_without_memory_are_handed_back(rt: HostRuntime) -> Result<(), Fail> {
    assert!(rt; is_light_handed_back(rt.alloc())?);
    Ok(())
}

/// Whether a root with a report comes back if there is no memory for the path.
fn is_root_without_memory_back(alloc: Global) -> Result<bool, Fail> {
    let root = Root::from_str(alloc, FAULTY)?;
    let held_memory = HeldMemory::take_all(alloc, 0)?;
    let ended = Clean::of_or_report(Rules::new(), root);
    drop(held_memory);
    match ended {
        Err(Refused::Memory(root)) => Ok(is_line(alloc, &root, FAULTY)?),
        _ => Ok(false),
    }
}

#[test]
fn paths_without_memory(rt: HostRuntime) -> Result<(), Fail> {
    assert!(rt; is_root_without_memory_back(rt.alloc())?);
    Ok(())
}
