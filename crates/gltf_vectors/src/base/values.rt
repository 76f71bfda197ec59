//! Paths, semantics, numbers, indexes and errors.

use crate::{holds, shows};
use gltf_base::mesh::Semantic;
use gltf_base::validation::{Checked, Error, USize64};
use gltf_base::{Index, KeyStep, Path, Real, Step, Steps};
use serde_json::Value;
use std::alloc::{AllocError, Global};
use std::collections::HashSet;
use std::test::Fail;

/// The texts of paths that grow by each step.
fn paths(alloc: Global) -> Result<String, AllocError> {
    let none = Path::new(alloc);
    let foo = none.field(alloc, "foo")?;
    let (bar, key) = (foo.field(alloc, "bar")?, foo.key(alloc, "bar")?);
    let first = foo.index(alloc, 0)?;
    let named = first.value_str(alloc, "baz")?;
    format!(in alloc; "{none} {foo} {bar} {key} {first} {named}")
}

#[test]
fn paths_grow_by_steps(rt: HostRuntime) -> Result<(), Fail> {
    shows(
        paths(rt.alloc()),
        " foo foo.bar foo[\"bar\"] foo[0] foo[0] = \"baz\"",
    )?;
    Ok(())
}

/// Whether a clone of a path is equal to it, and a longer one isn't.
fn are_paths_compared(alloc: Global) -> Result<bool, AllocError> {
    let foo = Path::new(alloc).field(alloc, "foo")?;
    let longer = foo.index(alloc, 123)?;
    Ok(foo.clone()? == foo && foo != longer && longer.as_str() == "foo[123]")
}

/// The steps to a member of an item of an attribute.
fn attribute_steps(semantic: &Checked<Semantic>) -> Result<Steps<'_>, Fail> {
    let mut steps = Steps::new();
    steps.try_push(Step::Field("a"))?;
    steps.try_push(Step::Attribute(semantic))?;
    steps.try_push(Step::Index(2))?;
    steps.try_push(Step::Field("b"))?;
    Ok(steps)
}

/// The text of the path to a member of an item of an attribute.
fn steps_shown(alloc: Global) -> Result<String, Fail> {
    let invalid = Checked::Invalid;
    let steps = attribute_steps(&invalid)?;
    let path = Path::of(alloc, &steps)?;
    Ok(format!(in alloc; "{path} {:?}", Step::default())?)
}

/// The step of a text that is a key, as it is debugged.
fn text_key_shown(alloc: Global) -> Result<String, Fail> {
    let name = String::from_str(alloc, "c")?;
    let key = name.key_step();
    Ok(format!(in alloc; "{key:?}")?)
}

/// The step of a semantic, as it is debugged.
fn attribute_key_shown(alloc: Global) -> Result<String, Fail> {
    let normals = Checked::Valid(Semantic::Normals);
    let key = normals.key_step();
    Ok(format!(in alloc; "{key:?}")?)
}

/// The pointer to a member of an item of an attribute whose name has both characters that a pointer
/// replaces, and one that looks as if it were replaced already.
fn pointer_shown(alloc: Global) -> Result<String, Fail> {
    let own = Checked::Valid(Semantic::Extras(String::from_str(alloc, "A/B~1")?));
    let steps = attribute_steps(&own)?;
    Ok(Path::pointer_of(alloc, &steps)?)
}

#[test]
fn paths_are_compared_and_made_of_steps(rt: HostRuntime) -> Result<(), Fail> {
    holds(are_paths_compared(rt.alloc())?, "paths are compared")?;
    shows(
        steps_shown(rt.alloc()),
        "a[\"<invalid semantic name>\"][2].b Index(0)",
    )?;
    shows(pointer_shown(rt.alloc()), "/a/_A~1B~01/2/b")?;
    shows(text_key_shown(rt.alloc()), "Key(\"c\")")?;
    shows(attribute_key_shown(rt.alloc()), "Attribute(Valid(Normals))")?;
    Ok(())
}

/// How the key of an attribute's name is printed and debugged.
fn key_shown(alloc: Global, name: &str) -> Result<String, AllocError> {
    let key = Semantic::checked(alloc, name)?;
    let written = key.to_string(alloc)?;
    format!(in alloc; "{written} {key:?}")
}

// What more names mean is shown by documents of `gltf_corpus`.
#[test]
fn names_of_attributes_are_read(rt: HostRuntime) -> Result<(), Fail> {
    shows(key_shown(rt.alloc(), "__+"), "__+ Valid(Extras(\"_+\"))")?;
    shows(
        key_shown(rt.alloc(), "WEIGHTS_+"),
        "<invalid semantic name> Invalid",
    )?;
    Ok(())
}

/// Whether keys are ordered, cloned, and lent as they should.
fn are_keys_values(alloc: Global) -> Result<bool, AllocError> {
    let last = Checked::Valid(Semantic::Weights(4294967295));
    let own = Checked::Valid(Semantic::Extras(String::from_str(alloc, "z")?));
    Ok(
        last < Checked::Invalid
            && own < Checked::Valid(Semantic::Positions)
            && own.clone()? == own
            && matches!(own.as_ref(), Checked::Valid(Semantic::Extras(_))),
    )
}

/// A semantic, a checked number, a default, sizes and a fault, as they are printed or debugged.
fn values_shown(alloc: Global) -> Result<String, AllocError> {
    let name = Semantic::Colors(1).to_string(alloc)?;
    let (semantic, seven) = (Semantic::Colors(1), Checked::Valid(7u32).unwrap());
    let (none, size) = (Checked::<u32>::default(), USize64::default());
    let sizes = (USize64::from(u64::MAX), USize64::from(3usize));
    format!(in alloc;
        "{name} {semantic:?} {seven} {none:?} {size:?} {sizes:?} {:?}",
        Error::Missing
    )
}

#[test]
fn keys_and_sizes_are_values(rt: HostRuntime) -> Result<(), Fail> {
    holds(are_keys_values(rt.alloc())?, "keys are values")?;
    shows(
        values_shown(rt.alloc()),
        "COLOR_1 Colors(1) 7 Valid(0) USize64(0) (USize64(18446744073709551615), USize64(3)) Missing",
    )?;
    Ok(())
}

/// The texts of the faults, in their order.
fn faults_shown(alloc: Global) -> Result<String, AllocError> {
    format!(in alloc;
        "{}, {}, {}, {}, {}",
        Error::IndexOutOfBounds,
        Error::Invalid,
        Error::Missing,
        Error::Oversize,
        Error::Unsupported
    )
}

/// Whether each fault is before the next one.
fn are_faults_ordered() -> bool {
    Error::IndexOutOfBounds < Error::Invalid
        && Error::Invalid < Error::Missing
        && Error::Missing < Error::Oversize
        && Error::Oversize < Error::Unsupported
}

#[test]
fn faults_have_texts_and_an_order(rt: HostRuntime) -> Result<(), Fail> {
    holds(are_faults_ordered(), "faults are ordered")?;
    shows(
        faults_shown(rt.alloc()),
        "Index out of bounds, Invalid value, Missing data, Size exceeds system limits, Unsupported extension",
    )?;
    Ok(())
}

/// The fraction that a JSON text is read as, if it is a number.
fn fraction(alloc: Global, text: &str) -> Result<Option<f64>, Fail> {
    match Real::from_value(Value::from_str(alloc, text)?) {
        Ok(real) => Ok(real.as_value().as_f64()),
        Err(_) => Ok(None),
    }
}

/// Whether a whole number, and a clone of it, hold it.
fn is_whole(number: i64) -> Result<bool, AllocError> {
    let real = Real::from_i64(number);
    let is_cloned = real.clone()?.as_value().as_i64() == Some(number);
    Ok(is_cloned && real.as_value().as_i64() == Some(number))
}

/// The float of a number that is made of a float, if it is made.
fn float(number: f64) -> Option<f64> {
    match Real::from_f64(number) {
        Some(real) => Some(real.as_f64()),
        None => None,
    }
}

/// The float of a number that has the digits of an `f32`, if it is made.
fn short(number: f32) -> Option<f64> {
    match Real::from_f32(number) {
        Some(real) => Some(real.as_f64()),
        None => None,
    }
}

#[test]
fn reals_have_the_digits_of_an_f32(_rt: HostRuntime) -> Result<(), Fail> {
    holds(short(0.7) == Some(0.7), "0.7")?;
    holds(short(-0.1) == Some(-0.1), "-0.1")?;
    holds(
        short(16777216.0) == Some(16777216.0),
        "the whole numbers of an f32 end",
    )?;
    holds(short(f32::MAX) == Some(3.4028235e38), "the greatest f32")?;
    holds(short(1e-45) == Some(1e-45), "the least f32 above 0")?;
    holds(short(f32::INFINITY).is_none(), "infinity is no number")?;
    holds(short(f32::NAN).is_none(), "NaN is no number")
}

#[test]
fn reals_are_numbers_alone(rt: HostRuntime) -> Result<(), Fail> {
    holds(fraction(rt.alloc(), "null")?.is_none(), "null is no number")?;
    holds(fraction(rt.alloc(), "-0.5")? == Some(-0.5), "-0.5")?;
    holds(is_whole(1)?, "1")?;
    holds(is_whole(i64::MIN)?, "the least whole number")?;
    holds(float(0.5) == Some(0.5), "0.5")?;
    holds(float(f64::INFINITY).is_none(), "infinity is no number")
}

/// Whether indexes are compared and hashed by their numbers.
fn are_indexes_numbers(alloc: Global) -> Result<bool, AllocError> {
    let (one, more) = (Index::<String>::new(1), Index::new(1234));
    let mut indexes = HashSet::new(alloc);
    indexes.insert(one)?;
    indexes.insert(more)?;
    Ok(
        one == Index::new(1)
            && one != Index::new(2)
            && one < more
            && indexes.contains(&more)
            && !indexes.contains(&Index::new(999))
            && indexes.len() == 2,
    )
}

/// Indexes of items that are pushed onto a list, and the greatest, as they are shown.
fn indexes_shown(alloc: Global) -> Result<String, Fail> {
    let mut list = Vec::new(alloc);
    let first = Index::push(&mut list, "hello")?;
    let second = Index::push(&mut list, "hello")?;
    let last = Index::<String>::new(u32::MAX);
    Ok(format!(in alloc; "{first} {second:?} {} {}", list.len(), last.value())?)
}

#[test]
fn indexes_are_numbers(rt: HostRuntime) -> Result<(), Fail> {
    holds(are_indexes_numbers(rt.alloc())?, "indexes are numbers")?;
    shows(indexes_shown(rt.alloc()), "0 1 2 4294967295")?;
    Ok(())
}
