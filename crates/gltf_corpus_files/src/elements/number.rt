//! Numbers of each component type as text.

use gltf_load::{Component, Normalized};
use std::alloc::AllocError;
use std::fmt::Write;

/// A component that is printed.
pub trait Number: Component {
    /// Appends the number, or what it stands for if it is normalized.
    fn write_to(self, line: &mut String, normalized: bool) -> Result<(), AllocError>;
}

impl Number for i8 {
    fn write_to(self, line: &mut String, normalized: bool) -> Result<(), AllocError> {
        match normalized {
            true => write!(line, "{}", self.to_float()),
            false => write!(line, "{self}"),
        }
    }
}

impl Number for u8 {
    fn write_to(self, line: &mut String, normalized: bool) -> Result<(), AllocError> {
        match normalized {
            true => write!(line, "{}", self.to_float()),
            false => write!(line, "{self}"),
        }
    }
}

impl Number for i16 {
    fn write_to(self, line: &mut String, normalized: bool) -> Result<(), AllocError> {
        match normalized {
            true => write!(line, "{}", self.to_float()),
            false => write!(line, "{self}"),
        }
    }
}

impl Number for u16 {
    fn write_to(self, line: &mut String, normalized: bool) -> Result<(), AllocError> {
        match normalized {
            true => write!(line, "{}", self.to_float()),
            false => write!(line, "{self}"),
        }
    }
}

impl Number for u32 {
    fn write_to(self, line: &mut String, _normalized: bool) -> Result<(), AllocError> {
        write!(line, "{self}")
    }
}

impl Number for f32 {
    fn write_to(self, line: &mut String, _normalized: bool) -> Result<(), AllocError> {
        write!(line, "{self}")
    }
}
