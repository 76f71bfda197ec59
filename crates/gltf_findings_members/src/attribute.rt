//! The names of attributes (glTF 2.0, section 3.7.2.1).

ghost use Rattle.std.specs.Prelude.{◌≡◌};
ghost use Rattle.std.specs.Option.{option_copied};
ghost use Rattle.gltf_base.specs.Names.{behind};
ghost use Rattle.gltf_findings_members.specs.Attributes.{is_attribute, is_numbered, is_set_number, all_digits, is_digit};

/// Whether a name is that of an attribute: one of the format, or an application's own.
pub(crate) fn is_attribute(name: &str) -> bool
    ensures { result ≡ is_attribute name.now }
{
    // derived
    name == "POSITION"
        || name == "NORMAL"
        || name == "TANGENT"
        || strip("_", name).is_some()
        || is_numbered("TEXCOORD_", name)
        || is_numbered("COLOR_", name)
        || is_numbered("JOINTS_", name)
        || is_numbered("WEIGHTS_", name)
}

/// What is behind a prefix.
fn strip<'a>(prefix: &str, text: &'a str) -> Option<&'a str>
    ensures { option_copied result ≡ behind prefix.now text.now }
{
    text.strip_prefix(prefix)
}

/// Whether a name is a prefix and the number of a set.
fn is_numbered(prefix: &str, name: &str) -> bool
    ensures { result ≡ is_numbered prefix.now name.now }
{
    // derived
    match strip(prefix, name) {
        Some(text) => is_set_number(text.as_bytes()),
        None => false,
    }
}

/// Whether a text is digits, and no zero is in front of others.
fn is_set_number(text: &[u8]) -> bool
    ensures { result ≡ is_set_number text.now }
{
    match text {
        [] => false,
        [only] => is_digit(*only),
        [first, ..] => *first != b'0' && all_digits(text),
    }
}

/// Whether a text has digits alone.
fn all_digits(text: &[u8]) -> bool
    ensures { result ≡ all_digits text.now }
{
    for byte in text {
        if !is_digit(*byte) {
            return false;
        }
    }
    true
}

/// Whether a byte is a digit.
fn is_digit(byte: u8) -> bool
    ensures { result ≡ is_digit byte }
{
    // derived
    48 <= byte && byte <= 57
}
