//! Why an accessor doesn't fit.

use thiserror::Error;

/// Why an accessor doesn't fit its view, or the view its buffer: the first reason in this order.
#[derive(Clone, Copy, Debug, PartialEq, Eq, Error)]
pub enum Misfit {
    /// The view ends behind its buffer.
    #[error("the view ends behind its buffer")]
    ViewTooLong,
    /// The view's stride is less than the size of an element.
    #[error("the view's stride is less than the size of an element")]
    StrideTooSmall,
    /// The accessor has no element.
    #[error("the accessor has no element")]
    NoElements,
    /// The last element ends behind the view.
    #[error("the last element ends behind the view")]
    AccessorTooLong,
    /// The accessor's offset in its view is no multiple of its component's size.
    #[error("the accessor's offset in its view is no multiple of the component's size")]
    OffsetUnaligned,
    /// The accessor's offset in its buffer is no multiple of its component's size.
    #[error("the accessor's offset in its buffer is no multiple of the component's size")]
    StartUnaligned,
    /// The view's stride is no multiple of the accessor's component's size.
    #[error("the view's stride is no multiple of the component's size")]
    StrideUnaligned,
}
