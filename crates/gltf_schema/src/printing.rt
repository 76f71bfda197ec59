//! JSON printed token by token, with no value in between.

ghost use Rattle.std.specs.Prelude.{◌≡◌, false, Some, option_map};
ghost use Rattle.json.specs.Token.{begin_object, end_object, begin_array, end_array, key};
ghost use Rattle.serde_json.specs.Data.{null, boolean, string, number, unsigned};
ghost use Rattle.serde_json.specs.View.{view, number_view, members_view};
ghost use Rattle.gltf_schema.specs.Printings.{Printed, printing_state, printed_or_error, Begins, Finishes, FailsWith, PrintsToken, PrintsValue, BeginsObject, EndsObject, RowPrinted, OthersKept, Gathers};

use crate::printed::{
    print_members, print_null, print_number, print_text, print_truth, print_value, print_whole,
};
use crate::put::put_value;
use crate::schema::Schema;
use crate::tokens::Tokens;
use crate::writing::{WriteRows, copied};
use gltf_base::Error;
use serde_json::{Map, Number, Value};
use std::alloc::Global;
use std::mem;

/// JSON that is printed so far, or why printing failed.
///
/// Once a method failed, the methods print nothing, and [`Printing::finish`] fails with the error.
#[derive(Drop)]
pub struct Printing<W> {
    pub(crate) alloc: Global,
    pub(crate) out: W,
    pub(crate) failed: Option<Error>,
    pub(crate) kept: Option<Map<String, Value>>,
}

/// Prints on by a call, unless an earlier one failed.
macro_rules! print_on {
    ($self:ident, $print:expr) => {
        if $self.failed.is_none() {
            if let Err(e) = $print {
                $self.failed = Some(Error::from(e));
            }
        }
    };
}

impl<W: Tokens> Printing<W> {
    /// Begins to print behind what `out` has taken.
    pub fn new(alloc: Global, out: W) -> Printing<W>
        ensures { Begins W.written W.before out (printing_state W.written W.before result) }
    {
        Printing {
            alloc,
            out,
            failed: None,
            kept: None,
        }
    }

    /// What took the tokens, or why they could not be printed.
    pub fn finish(self) -> Result<W, Error>
        ensures { Finishes W.written W.before (printing_state W.written W.before self) result }
    {
        let Printing { out, failed, .. } = self;
        match failed {
            None => Ok(out),
            Some(e) => Err(e),
        }
    }

    /// Prints nothing from here on, and finishes with the error. If printing failed before, the
    /// first error stays.
    #[inline]
    pub fn fail(&mut self, e: Error)
        ensures { FailsWith (printing_state W.written W.before self.old) e
            (printing_state W.written W.before self.new) }
    {
        if self.failed.is_none() {
            self.failed = Some(e);
        }
    }

    /// The beginning of an object.
    #[inline]
    pub fn begin_object(&mut self)
        ensures { PrintsToken (printing_state W.written W.before self.old) begin_object
            (printing_state W.written W.before self.new) }
    {
        print_on!(self, self.out.begin_object())
    }

    /// The end of an object.
    #[inline]
    pub fn end_object(&mut self)
        ensures { PrintsToken (printing_state W.written W.before self.old) end_object
            (printing_state W.written W.before self.new) }
    {
        print_on!(self, self.out.end_object())
    }

    /// The beginning of an array.
    #[inline]
    pub fn begin_array(&mut self)
        ensures { PrintsToken (printing_state W.written W.before self.old) begin_array
            (printing_state W.written W.before self.new) }
    {
        print_on!(self, self.out.begin_array())
    }

    /// The end of an array.
    #[inline]
    pub fn end_array(&mut self)
        ensures { PrintsToken (printing_state W.written W.before self.old) end_array
            (printing_state W.written W.before self.new) }
    {
        print_on!(self, self.out.end_array())
    }

    /// The name of a member.
    #[inline]
    pub fn key(&mut self, name: &str)
        ensures { PrintsToken (printing_state W.written W.before self.old) (key name.now)
            (printing_state W.written W.before self.new) }
    {
        print_on!(self, self.out.key(name))
    }

    /// A null.
    #[inline]
    pub fn null(&mut self)
        ensures { PrintsValue (printing_state W.written W.before self.old) (Some null) false
            (printing_state W.written W.before self.new) }
    {
        print_on!(self, print_null(&mut self.out))
    }

    /// A truth value.
    #[inline]
    pub fn truth(&mut self, b: bool)
        ensures { PrintsValue (printing_state W.written W.before self.old) (Some (boolean b)) false
            (printing_state W.written W.before self.new) }
    {
        print_on!(self, print_truth(b, &mut self.out))
    }

    /// A number without a sign.
    #[inline]
    pub fn whole(&mut self, n: u64)
        ensures { PrintsValue (printing_state W.written W.before self.old)
            (Some (number (unsigned n))) false (printing_state W.written W.before self.new) }
    {
        print_on!(self, print_whole(n, &mut self.out))
    }

    /// A string.
    #[inline]
    pub fn text(&mut self, s: &str)
        ensures { PrintsValue (printing_state W.written W.before self.old) (Some (string s.now))
            false (printing_state W.written W.before self.new) }
    {
        print_on!(self, print_text(s, &mut self.out))
    }

    /// A number.
    #[inline]
    pub fn number(&mut self, n: &Number)
        ensures { PrintsValue (printing_state W.written W.before self.old)
            (Some (number (number_view n.now))) false
            (printing_state W.written W.before self.new) }
    {
        print_on!(self, print_number(n, &mut self.out))
    }

    /// A value and all that is in it.
    pub fn value(&mut self, value: &Value)
        ensures { PrintsValue (printing_state W.written W.before self.old)
            (Some (view value.now)) false (printing_state W.written W.before self.new) }
    {
        print_on!(self, print_value(value, &mut self.out))
    }

    /// The beginning of an object. Returns the members that are gathered for an outer object, which
    /// are set aside.
    pub(crate) fn begin_members(&mut self) -> Option<Map<String, Value>>
        ensures { BeginsObject (printing_state W.written W.before self.old)
            (option_map (λ m. members_view m.entries) result)
            (printing_state W.written W.before self.new) }
    {
        self.begin_object();
        self.kept.take()
    }

    /// The end of an object, behind the members that were gathered for it. Those of the outer
    /// object are back.
    pub(crate) fn end_members(&mut self, outer: Option<Map<String, Value>>)
        ensures { EndsObject (printing_state W.written W.before self.old)
            (option_map (λ m. members_view m.entries) outer)
            (printing_state W.written W.before self.new) }
    {
        match mem::replace(&mut self.kept, outer) {
            Some(members) => print_on!(self, print_members(&members, &mut self.out)),
            None => self.end_object(),
        }
    }

    /// Puts a row's value into the members that are gathered, if some are.
    fn gather<T: Schema>(&mut self, name: &str, value: &T)
        ensures { Gathers (printing_state W.written W.before self.old) name.now T.kind
            (T.tree value.now) (printing_state W.written W.before self.new) }
    {
        if self.failed.is_some() {
            return;
        }
        if let Some(members) = &mut self.kept {
            if let Err(e) = put_value(self.alloc, members, name, value) {
                self.failed = Some(e);
            }
        }
    }
}

impl<W: Tokens> WriteRows for Printing<W> {
    ghost State = { Printed };

    ghost state = { λ p. printed_or_error (printing_state W.written W.before p) };

    ghost Begins = { OthersKept };

    ghost Adds = { RowPrinted };

    fn others(&mut self, others: &Map<String, Value>) {
        if self.failed.is_some() || others.is_empty() {
            return;
        }
        match copied(others) {
            Ok(others) => self.kept = Some(others),
            Err(e) => self.failed = Some(e),
        }
    }

    fn always<T: Schema>(&mut self, name: &str, value: &T) {
        if self.kept.is_some() {
            self.gather(name, value);
        } else {
            self.key(name);
            value.print(self);
        }
    }
}
