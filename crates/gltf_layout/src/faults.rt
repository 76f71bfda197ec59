//! The faults of a document, one after the other.

ghost use Rattle.std.specs.Prelude.{◌≡◌, ◌↔◌, length, None, IfSome};
ghost use Rattle.gltf_layout.specs.Places.{IsPart, AreParts, HavePlaces, AreFaultless};
ghost use Rattle.gltf_layout.specs.Faults.{IsViewFault, IsNextViewFault, IsNextAccessorFault, IsNextFault, view_behind, accessor_behind};

use crate::fault::{AccessorFault, StorageFault, ViewFault};
use crate::place::place_of;
use crate::storage::{Storage, StoredView};

/// The faults of a document: of the buffer views and then of the accessors, in the order of their
/// numbers. Of each, only what is wrong first.
#[derive(Clone, Copy, Debug)]
pub struct LayoutFaults<D> {
    document: D,
    next_view: usize,
    next_accessor: usize,
}

impl<D: Storage> LayoutFaults<D> {
    /// Returns the faults of a document.
    pub fn of(document: D) -> LayoutFaults<D>
        ensures document { result.document ≡ document }
        ensures view { result.next_view ≡ 0 }
        ensures accessor { result.next_accessor ≡ 0 }
    {
        LayoutFaults {
            document,
            next_view: 0,
            next_accessor: 0,
        }
    }

    /// Returns the next fault. `None` if there is none any more. All calls together take time in
    /// proportion to the views and accessors; none takes memory.
    pub fn next_fault(&mut self) -> Option<StorageFault>
        // What it says is so, and nothing before it is at fault.
        ensures fault { IfSome result
            (IsNextFault (D.stored self.old.document) self.old.next_view self.old.next_accessor) }
        // The following call goes on behind it.
        ensures view { IfSome result (λ f. self.new.next_view
            ≡ view_behind (D.stored self.old.document) f) }
        ensures accessor { IfSome result (λ f. self.new.next_accessor
            ≡ accessor_behind self.old.next_accessor f) }
        // There is none exactly if no view and no accessor from there on is at fault.
        ensures none { result ≡ None ↔ AreFaultless (D.stored self.old.document)
            self.old.next_view self.old.next_accessor }
        ensures document { self.new.document ≡ self.old.document }
    {
        let views = self.document.view_count();
        if let Some((view, fault)) = next_view_fault(&self.document, self.next_view) {
            self.next_view = view + 1;
            return Some(StorageFault::View { view, fault });
        }
        self.next_view = views;
        let accessors = self.document.accessor_count();
        match next_accessor_fault(&self.document, self.next_accessor) {
            Some((accessor, fault)) => {
                self.next_accessor = accessor + 1;
                Some(StorageFault::Accessor { accessor, fault })
            }
            None => {
                self.next_accessor = accessors;
                None
            }
        }
    }
}

/// The first view from a number on that is no part of its buffer.
pub fn next_view_fault<D: Storage>(document: &D, from: usize) -> Option<(usize, ViewFault)>
    ensures found { IfSome result (λ f. IsNextViewFault (D.stored document.now) from f.0 f.1) }
    ensures none { result ≡ None
        → AreParts (D.stored document.now) from (length (D.stored document.now).views) }
{
    for number in from..document.view_count() {
        if let Some(view) = document.view(number) {
            if let Some(fault) = view_fault(document, &view) {
                return Some((number, fault));
            }
        }
    }
    None
}

/// Why a view is no part of its buffer, if it is none.
fn view_fault<D: Storage>(document: &D, view: &StoredView) -> Option<ViewFault>
    ensures found { IfSome result (IsViewFault (D.stored document.now) view.now) }
    ensures none { result ≡ None → IsPart (D.stored document.now) view.now }
{
    match document.buffer_length(view.buffer) {
        None => Some(ViewFault::NoSuchBuffer {
            buffer: view.buffer,
        }),
        Some(length) if view.layout.fits(length) => None,
        Some(_) => Some(ViewFault::TooLong),
    }
}

/// The first accessor from a number on that is at fault.
fn next_accessor_fault<D: Storage>(document: &D, from: usize) -> Option<(usize, AccessorFault)>
    ensures found { IfSome result (λ f. IsNextAccessorFault (D.stored document.now) from f.0 f.1) }
    ensures none { result ≡ None
        → HavePlaces (D.stored document.now) from (length (D.stored document.now).accessors) }
{
    for number in from..document.accessor_count() {
        if let Err(fault) = place_of(document, &document.accessor(number)) {
            return Some((number, fault));
        }
    }
    None
}
