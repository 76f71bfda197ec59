//! Why something was not taken into a document without reports.

use crate::report::Report;
use gltf_base::PushError;
use gltf_base::validation::Error;
use std::fmt::{self, Debug, Display, Formatter, Write};

/// Why a value was not taken; each case hands it back. The document is as it was.
#[derive(Debug, Drop)]
pub enum Refused<T> {
    /// The list has 4294967295 items or more.
    Full(T),
    /// Out of memory, for one more item or for the path of a report.
    Memory(T),
    /// The index names no item.
    NoItem(T),
    /// The document would have a report with the value: the first one.
    Faulty(T, Report),
}

impl<T> Display for Refused<T> {
    ghost use Rattle.std.specs.Prelude.{Some};
    ghost use Rattle.gltf_validation.specs.ErrorText.{refused_text};

    ghost output = { λ refused. Some (refused_text refused) };

    fn fmt<W: Write>(&self, f: &mut Formatter<W>) -> fmt::Result {
        match self {
            Refused::Full(_) => Display::fmt(&PushError::Full(()), f),
            Refused::Memory(_) => Display::fmt(&PushError::Memory(()), f),
            Refused::NoItem(_) => Display::fmt(&Error::IndexOutOfBounds, f),
            Refused::Faulty(_, report) => Display::fmt(report, f),
        }
    }
}

impl<T: Debug + Drop> std::error::Error for Refused<T> {}
