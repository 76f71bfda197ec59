//! The tests of what loads documents: containers, buffers, layouts, elements, accessors,
//! hierarchies, documents and their readers. Their texts, files, trees, places, numbers and faults
//! are worked by hand, and memory fails. The tests are here because a crate with tests is proved
//! twice.
#![tactic(auto)]

#[cfg(test)]
mod accessors;
#[cfg(test)]
mod buffers;
#[cfg(test)]
mod child_lists;
#[cfg(test)]
mod documents;
#[cfg(test)]
mod elements;
#[cfg(test)]
mod glb;
#[cfg(test)]
mod hierarchy;
#[cfg(test)]
mod layout;
#[cfg(test)]
mod listed;
#[cfg(test)]
mod positions;
#[cfg(test)]
mod reading;
#[cfg(test)]
mod subtrees;
