//! Extension objects of a whole document and of its asset: the values of their member `extensions`.

pub mod root;
