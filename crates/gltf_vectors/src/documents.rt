//! Whole documents that take memory, and the example of `README.md`.

mod example;
mod found;
mod questions;
mod stripped;
mod styles;
mod undone;
