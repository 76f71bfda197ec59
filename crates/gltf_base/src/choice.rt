//! Choices: enumerations whose items a document spells as numbers or as names.

ghost use Rattle.std.specs.Prelude.{◌≡◌, List};
ghost use Rattle.std.specs.List.{AllByRecursion, Contains};
ghost use Rattle.gltf_base.specs.Spelling.{Spelling as Spelled, spelling_of, is_spelled, item_spelled};
ghost use Rattle.gltf_base.specs.declared.validation.Checked.TheVariants.{Valid};

use crate::validation::Checked;
use std::fmt::{self, Display, Formatter, Write};

/// Whether a choice is spelled by numbers or by names.
#[derive(Clone, Copy, Debug, PartialEq, Eq)]
pub enum Form {
    /// By whole numbers.
    Number,
    /// By texts.
    Name,
}

/// How a document spells one item of a choice.
#[derive(Clone, Copy, Debug)]
pub enum Spelling<'a> {
    /// By a whole number.
    Number(u64),
    /// By a text.
    Name(&'a str),
}

/// A choice: which items are read, and how each item is spelled.
pub trait Choice: Copy + 'static {
    ghost use Rattle.gltf_base.specs.declared.choice.Form.{Form};

    ghost spelling: { Self → Spelled };

    ghost listed: { List Self };

    ghost form: { Form };

    /// Whether the items are numbers or names.
    fn form() -> Form
        ensures { result ≡ form };

    /// The items that are read.
    fn listed() -> &'static [Self]
        ensures { result.now ≡ listed };

    /// How the item is spelled.
    fn spelling(self) -> Spelling<'static>
        ensures { spelling_of result ≡ spelling self };

    // Each item that is read is the one that its own spelling means.
    ghost reads_back: { AllByRecursion (λ x. item_spelled spelling listed (spelling x) ≡ Valid x)
        listed };
}

impl Display for Spelling<'_> {
    ghost use Rattle.std.specs.Prelude.{Some};
    ghost use Rattle.gltf_base.specs.Spelling.{spelling_text};

    ghost output = { λ spelling. Some (spelling_text (spelling_of spelling)) };

    fn fmt<W: Write>(&self, f: &mut Formatter<W>) -> fmt::Result {
        match self {
            Spelling::Number(number) => Display::fmt(number, f),
            Spelling::Name(name) => f.pad(name),
        }
    }
}

/// Whether two spellings are the same: two numbers, or two names, that are equal.
pub fn is_same(a: Spelling<'_>, b: Spelling<'_>) -> bool
    ensures { result ≡ is_spelled (spelling_of a.entry) (spelling_of b.entry) }
{
    match (a, b) {
        (Spelling::Number(m), Spelling::Number(n)) => m == n,
        (Spelling::Name(s), Spelling::Name(t)) => s == t,
        _ => false,
    }
}

/// Returns the item with this spelling, or `Invalid` if there is none.
pub fn item_of<T: Choice>(spelling: Spelling<'_>) -> Checked<T>
    ensures { result ≡ item_spelled T.spelling T.listed (spelling_of spelling.entry) }
{
    for item in T::listed() {
        if is_same(item.spelling(), spelling) {
            return Checked::Valid(*item);
        }
    }
    Checked::Invalid
}

/// Each item is read back from its own spelling, and what a spelling is read as has it. This holds
/// for choices by number and for choices by name.
pub fn spellings_are_read_back<T: Choice>()
    ensures listed { AllByRecursion (λ x. item_spelled T.spelling T.listed (T.spelling x) ≡ Valid x)
        T.listed }
    ensures read { (s : Spelled) (x : T) → item_spelled T.spelling T.listed s ≡ Valid x
        → (T.spelling x ≡ s) × Contains T.listed x }
{}
