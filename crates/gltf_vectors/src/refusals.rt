//! What is refused: readers and writers that fail, limits of a caller's, and memory that there is
//! no more of.

mod devices;
mod growths;
mod limits;
mod pushes;
mod runs;
mod writers;
mod writing;
