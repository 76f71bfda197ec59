//! The versions of a document (glTF 2.0, sections 3.2 and 5.9).

ghost use Rattle.std.specs.Prelude.{◌≡◌, ◌+◌, ◌*◌, ◌-◌, ◌≤◌, min, length, Option, is_none, string_bytes};
ghost use Rattle.gltf_findings.specs.Versions.{version_of, digits_of, value_from, point_in, is_digit, asset_rules, is_other_major, is_later_minor, is_greater, numbers_of, least_of};

use gltf_findings_codes::{Code, Finding, Name, Object, Subject, broken};
use gltf_scene::asset::Asset;

/// The numbers of a version. Those from 2^64 on count as the last before.
#[derive(Clone, Copy)]
struct Version {
    major: u64,
    minor: u64,
}

/// The rules for the metadata of a document.
pub fn asset_rules(asset: &Asset) -> [Option<Finding>; 5]
    ensures { result ≡ asset_rules asset.now }
{
    // derived
    let at = Object::Top(Name::Asset);
    let version_at = Subject::Member(at, Name::Version);
    let min_version_at = Subject::Member(at, Name::MinVersion);
    let version = version_of(asset.version.as_bytes());
    let least = least_of(&asset.min_version);
    [
        broken(is_missing(version), Code::PatternMismatch, version_at),
        broken(
            asset.min_version.is_some() && is_missing(least),
            Code::PatternMismatch,
            min_version_at,
        ),
        broken(
            is_other_major(version),
            Code::UnknownAssetMajorVersion,
            version_at,
        ),
        broken(
            is_later_minor(version),
            Code::UnknownAssetMinorVersion,
            version_at,
        ),
        broken(
            is_greater(least, version),
            Code::AssetMinVersionGreaterThanVersion,
            min_version_at,
        ),
    ]
}

/// The version that a text may be.
fn least_of(text: &Option<String>) -> Option<Version>
    ensures { numbers_of result ≡ least_of text.now }
{
    match text {
        Some(text) => version_of(text.as_bytes()),
        None => None,
    }
}

/// Whether there is no version.
fn is_missing(version: Option<Version>) -> bool
    ensures { result ≡ is_none (numbers_of version) }
{
    match version {
        Some(_) => false,
        None => true,
    }
}

/// Whether a version is there and of another major version than 2.
fn is_other_major(version: Option<Version>) -> bool
    ensures { result ≡ is_other_major (numbers_of version) }
{
    // derived
    match version {
        Some(version) => version.major != 2,
        None => false,
    }
}

/// Whether a version is there and a later one than 2.0.
fn is_later_minor(version: Option<Version>) -> bool
    ensures { result ≡ is_later_minor (numbers_of version) }
{
    // derived
    match version {
        Some(version) => version.major == 2 && 0 < version.minor,
        None => false,
    }
}

/// Whether two versions are there and the first is greater.
fn is_greater(least: Option<Version>, version: Option<Version>) -> bool
    ensures { result ≡ is_greater (numbers_of least) (numbers_of version) }
{
    // derived
    match (least, version) {
        (Some(least), Some(version)) => {
            version.major < least.major
                || (version.major == least.major && version.minor < least.minor)
        }
        _ => false,
    }
}

/// The version that a text is: digits, a point, and digits.
fn version_of(text: &[u8]) -> Option<Version>
    ensures { numbers_of result ≡ version_of text.now }
{
    let point = point_in(text);
    if point == text.len() {
        return None;
    }
    match (digits_of(&text[..point]), digits_of(&text[point + 1..])) {
        (Some(major), Some(minor)) => Some(Version { major, minor }),
        _ => None,
    }
}

/// The place of the first point, or the length.
fn point_in(text: &[u8]) -> usize
    ensures place { result ≡ point_in text.now }
    ensures within { result ≤ length text.now }
{
    for place in 0..text.len() {
        if text[place] == b'.' {
            return place;
        }
    }
    text.len()
}

/// The number that some digits are, if there are digits and nothing else.
fn digits_of(text: &[u8]) -> Option<u64>
    ensures { result ≡ digits_of text.now }
{
    if text.is_empty() {
        return None;
    }
    let mut value: u64 = 0;
    for byte in text {
        if !is_digit(*byte) {
            return None;
        }
        let digit = (*byte - b'0') as u64;
        value = value.saturating_mul(10).saturating_add(digit);
    }
    Some(value)
}

/// Whether a byte is a digit.
fn is_digit(byte: u8) -> bool
    ensures { result ≡ is_digit byte }
{
    // derived
    48 <= byte && byte <= 57
}
