//! Documents as bytes in a style: in one line or in lines, with nulls or without them.

ghost use Rattle.std.specs.Prelude.{◌≡◌, ◌≢◌, ℕ, List, true, IfOk, IfErr, IsSomeAnd, OnOk, Err};
ghost use Rattle.std.specs.Io.KnownBytes.{Appends};
ghost use Rattle.serde_json.specs.Written.{WritesValue};
ghost use Rattle.gltf_base.specs.Device.{AppendsFront};
ghost use Rattle.gltf_root.specs.Root.{root_tree};
ghost use Rattle.gltf_root.specs.Styled.{strict_json, IsReadBackIn, IsTextIn, style_of};
ghost use Rattle.gltf_root.specs.Written.{IsWithheld};
ghost use Rattle.gltf_root.specs.declared.root.style.Nulls.TheVariants as nulls;
ghost use Rattle.gltf_root.specs.declared.root.style.Spacing.TheVariants as spacing;

use super::Root;
use super::print::{FIRST_ROOM, write_out};
use gltf_base::ByteOut;
use gltf_schema::{Error, Printing, Strict, Tokens};
use json::{Pretty, Writer};
use std::alloc::Global;

/// The blanks between the tokens of a text.
#[derive(Clone, Copy, Debug, Drop, PartialEq, Eq)]
pub enum Spacing {
    /// None: the text is one line.
    Compact,
    /// Lines that are indented by two spaces a level, without a newline at the end.
    Pretty,
}

/// What is written for an absent member that the ported crate writes as null: `texCoord` of
/// `KHR_texture_transform`.
#[derive(Clone, Copy, Debug, Drop, PartialEq, Eq)]
pub enum Nulls {
    /// A null, as the ported crate writes it.
    Kept,
    /// Nothing. The extension's schema allows no null there.
    LeftOut,
}

/// How the text of a document is written.
#[derive(Clone, Copy, Debug, Drop, PartialEq, Eq)]
pub struct Style {
    pub spacing: Spacing,
    pub nulls: Nulls,
}

impl Root {
    /// Returns the document as JSON in a style. Fails as [`Root::to_value`] does. A plain document
    /// reads back if it isn't nested deeper than 127 levels. [`Root::to_vec`] and
    /// [`Root::to_vec_pretty`] keep the nulls.
    pub fn to_vec_with(&self, alloc: Global, style: Style) -> Result<Vec<u8>, Error>
        ensures printed { IfOk result (λ b. IsTextIn style (root_tree self.now) b.items) }
        ensures withheld { IfErr result (IsWithheld (root_tree self.now)) }
        ensures reads_back { IfOk result (λ b. IsReadBackIn style (root_tree self.now) b.items) }
    {
        match style.nulls {
            Nulls::Kept => match style.spacing {
                Spacing::Compact => self.to_vec(alloc),
                Spacing::Pretty => self.to_vec_pretty(alloc),
            },
            Nulls::LeftOut => match style.spacing {
                Spacing::Compact => self.to_strict_vec(alloc),
                Spacing::Pretty => self.to_strict_vec_pretty(alloc),
            },
        }
    }

    /// Writes the bytes of [`Root::to_vec_with`], as [`Root::to_writer`] does.
    pub fn to_writer_with<W: ByteOut>(
        &self,
        alloc: Global,
        style: Style,
        writer: &mut W,
    ) -> Result<(), Error>
        ensures whole { IfOk result (λ _. (bytes : List ℕ)
            × IsTextIn style (root_tree self.now) bytes
            × IsReadBackIn style (root_tree self.now) bytes
            × Appends (W.taken writer.old) (W.taken writer.new) bytes) }
        ensures front { result ≡ Err Error.Write → (bytes : List ℕ)
            × IsTextIn style (root_tree self.now) bytes
            × IsReadBackIn style (root_tree self.now) bytes
            × AppendsFront (W.taken writer.old) (W.taken writer.new) bytes }
        ensures withheld { IfErr result (λ e. e ≢ Error.Write
            → IsWithheld (root_tree self.now) e) }
        ensures works { OnOk result (W.has_failed writer.new ≡ W.has_failed writer.old) }
        ensures breaks { result ≡ Err Error.Write → W.has_failed writer.new ≡ true }
        ensures untouched { IfErr result (λ e. e ≢ Error.Write → writer.new ≡ writer.old) }
    {
        let bytes = self.to_vec_with(alloc, style)?;
        write_out(writer, &bytes)
    }

    /// Prints the document without nulls behind what `out` has taken.
    fn strictly_printed<W: Tokens>(&self, alloc: Global, out: W) -> Result<W, Error>
        ensures shown { IfOk result (λ w. IsSomeAnd (strict_json (root_tree self.now))
            (λ d. WritesValue d (W.written out) (W.written w))) }
        ensures before { IfOk result (λ w. W.before w ≡ W.before out) }
        ensures withheld { IfErr result (IsWithheld (root_tree self.now)) }
    {
        let mut printing = Printing::new(alloc, out);
        self.print_strictly(&mut printing);
        printing.finish()
    }

    /// The document in one line, without nulls.
    fn to_strict_vec(&self, alloc: Global) -> Result<Vec<u8>, Error>
        ensures printed { IfOk result (λ b. IsTextIn (style_of spacing.Compact nulls.LeftOut)
            (root_tree self.now) b.items) }
        ensures withheld { IfErr result (IsWithheld (root_tree self.now)) }
        ensures reads_back { IfOk result (λ b. IsReadBackIn
            (style_of spacing.Compact nulls.LeftOut) (root_tree self.now) b.items) }
    {
        let out = Writer::new(Vec::with_capacity(alloc, FIRST_ROOM)?);
        Ok(self.strictly_printed(alloc, out)?.into_inner())
    }

    /// The document in lines, without nulls.
    fn to_strict_vec_pretty(&self, alloc: Global) -> Result<Vec<u8>, Error>
        ensures printed { IfOk result (λ b. IsTextIn (style_of spacing.Pretty nulls.LeftOut)
            (root_tree self.now) b.items) }
        ensures withheld { IfErr result (IsWithheld (root_tree self.now)) }
        ensures reads_back { IfOk result (λ b. IsReadBackIn
            (style_of spacing.Pretty nulls.LeftOut) (root_tree self.now) b.items) }
    {
        Ok(
            self.strictly_printed(alloc, Pretty::new(alloc))?
                .into_inner(),
        )
    }
}
