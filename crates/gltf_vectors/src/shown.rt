//! What a test says that fails. An `assert!`, or a comparison of texts in the test itself, is more
//! expensive to prove.

use std::test::Fail;

/// Fails with what doesn't hold.
pub fn holds(it: bool, what: &'static str) -> Result<(), Fail> {
    if it { Ok(()) } else { Err(Fail::from(what)) }
}

/// Fails with a text if this text wasn't made.
pub fn shows<E>(made: Result<String, E>, text: &'static str) -> Result<(), Fail>
where
    Fail: From<E>,
{
    holds(made?.as_str() == text, text)
}
