//! What takes the tokens of JSON: the two writers of `json`.

ghost use Rattle.std.specs.Prelude.{◌≡◌, ℕ, List, Some, None, OnOk, [], ◌∷◌, ◌++◌, decimal, int_lt, pos, true};
ghost use Rattle.json.specs.Token.{Token as SpecToken, begin_object, end_object, begin_array, end_array, key, string, number, boolean, null};
ghost use Rattle.serde_json.specs.Data.{negative};
ghost use Rattle.serde_json.specs.Find.{as_u64, as_i64};
ghost use Rattle.serde_json.specs.Read.{number_of};
ghost use Rattle.serde_json.specs.View.{number_view};
ghost use Rattle.serde_json.specs.Written.{number_text, unless_float};

use json::{Pretty, Token, Writer};
use serde_json::Number;
use std::alloc::AllocError;

/// What takes the tokens of JSON.
///
/// Each method adds one token behind those that are there, or fails if out of memory.
pub trait Tokens: Drop {
    /// The tokens so far.
    ghost written: { Self → List SpecToken };

    /// What the buffer held before the first token.
    ghost before: { Self → List ℕ };

    /// Adds the beginning of an object.
    fn begin_object(&mut self) -> Result<(), AllocError>
        ensures ok { OnOk result (written self.new ≡ written self.old ++ begin_object ∷ []) }
        ensures before { before self.new ≡ before self.old };

    /// Adds the end of an object.
    fn end_object(&mut self) -> Result<(), AllocError>
        ensures ok { OnOk result (written self.new ≡ written self.old ++ end_object ∷ []) }
        ensures before { before self.new ≡ before self.old };

    /// Adds the beginning of an array.
    fn begin_array(&mut self) -> Result<(), AllocError>
        ensures ok { OnOk result (written self.new ≡ written self.old ++ begin_array ∷ []) }
        ensures before { before self.new ≡ before self.old };

    /// Adds the end of an array.
    fn end_array(&mut self) -> Result<(), AllocError>
        ensures ok { OnOk result (written self.new ≡ written self.old ++ end_array ∷ []) }
        ensures before { before self.new ≡ before self.old };

    /// Adds a null.
    fn null(&mut self) -> Result<(), AllocError>
        ensures ok { OnOk result (written self.new ≡ written self.old ++ null ∷ []) }
        ensures before { before self.new ≡ before self.old };

    /// Adds a truth value.
    fn truth(&mut self, b: bool) -> Result<(), AllocError>
        ensures ok { OnOk result (written self.new ≡ written self.old ++ boolean b ∷ []) }
        ensures before { before self.new ≡ before self.old };

    /// Adds the name of a member.
    fn key(&mut self, name: &str) -> Result<(), AllocError>
        ensures ok { OnOk result (written self.new ≡ written self.old ++ key name.now ∷ []) }
        ensures before { before self.new ≡ before self.old };

    /// Adds a string.
    fn text(&mut self, text: &str) -> Result<(), AllocError>
        ensures ok { OnOk result (written self.new ≡ written self.old ++ string text.now ∷ []) }
        ensures before { before self.new ≡ before self.old };

    /// Adds a number in decimal digits.
    fn whole(&mut self, n: u64) -> Result<(), AllocError>
        ensures ok { OnOk result (written self.new
            ≡ written self.old ++ number (decimal n) ∷ []) }
        ensures before { before self.new ≡ before self.old };

    /// Adds a number, by a text that reads back as it. The text of an integer is decimal.
    fn number(&mut self, n: &Number) -> Result<(), AllocError>
        ensures ok { OnOk result ((s : List ℕ)
            × (written self.new ≡ written self.old ++ number s ∷ [])
            × (number_of s ≡ Some (number_view n.now))
            × (unless_float s ≡ number_text (number_view n.now))) }
        ensures before { before self.new ≡ before self.old };
}

impl Tokens for Writer {
    ghost written = { λ w. w.tokens };

    ghost before = { λ w. w.before };

    #[inline(always)]
    fn begin_object(&mut self) -> Result<(), AllocError> {
        Writer::begin_object(self)
    }

    #[inline(always)]
    fn end_object(&mut self) -> Result<(), AllocError> {
        Writer::end_object(self)
    }

    #[inline(always)]
    fn begin_array(&mut self) -> Result<(), AllocError> {
        Writer::begin_array(self)
    }

    #[inline(always)]
    fn end_array(&mut self) -> Result<(), AllocError> {
        Writer::end_array(self)
    }

    #[inline(always)]
    fn null(&mut self) -> Result<(), AllocError> {
        Writer::null(self)
    }

    #[inline(always)]
    fn truth(&mut self, b: bool) -> Result<(), AllocError> {
        Writer::boolean(self, b)
    }

    #[inline(always)]
    fn key(&mut self, name: &str) -> Result<(), AllocError> {
        Writer::key(self, name)
    }

    #[inline(always)]
    fn text(&mut self, text: &str) -> Result<(), AllocError> {
        Writer::string(self, text)
    }

    #[inline(always)]
    fn whole(&mut self, n: u64) -> Result<(), AllocError> {
        Writer::u64(self, n)
    }

    #[inline]
    fn number(&mut self, n: &Number) -> Result<(), AllocError> {
        if let Some(whole) = n.as_u64() {
            return Writer::u64(self, whole);
        }
        match n.as_i64() {
            Some(negative) => negative_to_writer(self, negative),
            None => float_to_writer(self, n),
        }
    }
}

impl Tokens for Pretty {
    ghost written = { λ w. w };

    ghost before = { λ _. [] };

    #[inline(always)]
    fn begin_object(&mut self) -> Result<(), AllocError> {
        self.token(Token::BeginObject)
    }

    #[inline(always)]
    fn end_object(&mut self) -> Result<(), AllocError> {
        self.token(Token::EndObject)
    }

    #[inline(always)]
    fn begin_array(&mut self) -> Result<(), AllocError> {
        self.token(Token::BeginArray)
    }

    #[inline(always)]
    fn end_array(&mut self) -> Result<(), AllocError> {
        self.token(Token::EndArray)
    }

    #[inline(always)]
    fn null(&mut self) -> Result<(), AllocError> {
        self.token(Token::Null)
    }

    #[inline(always)]
    fn truth(&mut self, b: bool) -> Result<(), AllocError> {
        self.token(Token::Bool(b))
    }

    #[inline(always)]
    fn key(&mut self, name: &str) -> Result<(), AllocError> {
        self.token(Token::Key(name))
    }

    #[inline(always)]
    fn text(&mut self, text: &str) -> Result<(), AllocError> {
        self.token(Token::String(text))
    }

    #[inline]
    fn whole(&mut self, n: u64) -> Result<(), AllocError> {
        let mut buffer = itoa::Buffer::new();
        self.token(Token::Number(buffer.format(n)))
    }

    #[inline]
    fn number(&mut self, n: &Number) -> Result<(), AllocError> {
        if let Some(whole) = n.as_u64() {
            return self.whole(whole);
        }
        match n.as_i64() {
            Some(negative) => negative_to_pretty(self, negative),
            None => float_to_pretty(self, n),
        }
    }
}

/// Adds a number below zero.
#[inline]
fn negative_to_writer(out: &mut Writer, n: i64) -> Result<(), AllocError>
    requires { int_lt n (pos 0) ≡ true }
    ensures ok { OnOk result ((s : List ℕ)
        × (out.new.tokens ≡ out.old.tokens ++ number s ∷ [])
        × (number_of s ≡ Some (negative n))
        × (unless_float s ≡ number_text (negative n))) }
    ensures before { out.new.before ≡ out.old.before }
{
    out.i64(n)
}

/// Adds a float, with a sign at its exponent, as in `1e+30`.
#[inline]
fn float_to_writer(out: &mut Writer, n: &Number) -> Result<(), AllocError>
    requires { (as_u64 (number_view n.now) ≡ None) × (as_i64 (number_view n.now) ≡ None) }
    ensures ok { OnOk result ((s : List ℕ)
        × (out.new.tokens ≡ out.old.tokens ++ number s ∷ [])
        × (number_of s ≡ Some (number_view n.now))
        × (unless_float s ≡ number_text (number_view n.now))) }
    ensures before { out.new.before ≡ out.old.before }
{
    out.float_with_plus(n.as_f64().unwrap())
}

/// Adds a number below zero.
#[inline]
fn negative_to_pretty(out: &mut Pretty, n: i64) -> Result<(), AllocError>
    requires { int_lt n (pos 0) ≡ true }
    ensures ok { OnOk result ((s : List ℕ)
        × (out.new ≡ out.old ++ number s ∷ [])
        × (number_of s ≡ Some (negative n))
        × (unless_float s ≡ number_text (negative n))) }
{
    let mut buffer = itoa::Buffer::new();
    out.token(Token::Number(buffer.format(n)))
}

/// Adds a float, with a sign at its exponent, as in `1e+30`.
#[inline]
fn float_to_pretty(out: &mut Pretty, n: &Number) -> Result<(), AllocError>
    requires { (as_u64 (number_view n.now) ≡ None) × (as_i64 (number_view n.now) ≡ None) }
    ensures ok { OnOk result ((s : List ℕ)
        × (out.new ≡ out.old ++ number s ∷ [])
        × (number_of s ≡ Some (number_view n.now))
        × (unless_float s ≡ number_text (number_view n.now))) }
{
    let mut buffer = ryu::Buffer::new();
    out.token(Token::Number(buffer.format_finite_with_plus(n.as_f64().unwrap())))
}
