//! The findings of a file from all sources, in one list.

ghost use Rattle.std.specs.Prelude.{◌≡◌, ◌++◌, ◌||◌, [], ℕ, List, IfOk, OnOk, map, string_bytes};
ghost use Rattle.std.specs.BTreeSet.{contains_text};
ghost use Rattle.gltf_findings_members.specs.Noted.{noted};
ghost use Rattle.gltf_findings_codes.specs.declared.code.Code.{Code as OneCode};
ghost use Rattle.gltf_findings_lines.specs.Located.{located};
ghost use Rattle.gltf_findings_lines.specs.Sources.{IsSaidBy, all_located, codes_in, gathered, has_name, is_named, is_said, located_finding, located_glb, located_noted, pointed, said, said_finding, says, unsaid_in, unsaid_one};

use crate::finding::{FileFinding, FindingPlace};
use gltf_findings_codes::{Code, Finding};
use gltf_findings_files::GlbFinding;
use gltf_findings_members::Notice;
use std::alloc::{AllocError, Global};
use std::collections::BTreeSet;
use std::fmt::Write;

/// What is wrong with a file, by its source.
#[derive(Clone, Copy)]
pub(crate) struct Sources<'a> {
    /// What is wrong with the container.
    pub(crate) container: &'a [GlbFinding],
    /// What is wrong with the members of the JSON.
    pub(crate) members: &'a [Notice],
    /// What is wrong with the document.
    pub(crate) document: &'a [Finding],
}

impl<'a> Sources<'a> {
    /// All findings in order. What the members have too is left out of those of the document.
    pub(crate) fn gathered(&self, alloc: Global) -> Result<Vec<FileFinding<'a>>, AllocError>
        ensures { IfOk result (λ all. map located all.items ≡ gathered self.now) }
    {
        let mut all = Vec::new(alloc);
        add_container(&mut all, self.container)?;
        self.add_behind(alloc, &mut all)?;
        Ok(all)
    }

    /// Adds the findings of the members, and those of the document that the members don't have.
    fn add_behind(&self, alloc: Global, to: &mut Vec<FileFinding<'a>>) -> Result<(), AllocError>
        ensures { OnOk result (map located to.new.items ≡ map located to.old.items
            ++ all_located [] (map noted self.now.members.now) self.now.document.now) }
    {
        if self.members.is_empty() {
            return add_all(to, self.document);
        }
        let said = said_by(alloc, self.members)?;
        let codes = codes_of(alloc, self.members)?;
        add_members(to, self.members)?;
        add_document(alloc, to, &said, &codes, self.document)
    }
}

/// Adds the findings of a container. This and the calls below fail only if out of memory.
fn add_container(to: &mut Vec<FileFinding<'_>>, findings: &[GlbFinding]) -> Result<(), AllocError>
    ensures { OnOk result (map located to.new.items
        ≡ map located to.old.items ++ map located_glb findings.now) }
{
    for finding in findings {
        to.push(FileFinding {
            code: finding.code,
            location: FindingPlace::Byte(finding.offset),
        })?;
    }
    Ok(())
}

/// Adds the findings of members.
fn add_members<'a>(to: &mut Vec<FileFinding<'a>>, notices: &'a [Notice]) -> Result<(), AllocError>
    ensures { OnOk result (map located to.new.items
        ≡ map located to.old.items ++ map located_noted (map noted notices.now)) }
{
    for notice in notices {
        to.push(FileFinding {
            code: notice.code,
            location: FindingPlace::Pointer(&notice.pointer),
        })?;
    }
    Ok(())
}

/// Adds the findings of a document.
fn add_all(to: &mut Vec<FileFinding<'_>>, findings: &[Finding]) -> Result<(), AllocError>
    ensures { OnOk result (map located to.new.items
        ≡ map located to.old.items ++ map located_finding findings.now) }
{
    for finding in findings {
        to.push(FileFinding {
            code: finding.code,
            location: FindingPlace::Subject(finding.place),
        })?;
    }
    Ok(())
}

/// Adds the findings of a document that are not said before. What is said has one of the codes.
fn add_document(
    alloc: Global,
    to: &mut Vec<FileFinding<'_>>,
    said: &BTreeSet<String>,
    codes: &[Code],
    findings: &[Finding],
) -> Result<(), AllocError>
    requires { IsSaidBy codes.now said.now }
    ensures { OnOk result (map located to.new.items
        ≡ map located to.old.items ++ unsaid_in said.now findings.now) }
{
    for finding in findings {
        add_unsaid(alloc, to, said, codes, finding)?;
    }
    Ok(())
}

/// Adds a finding of a document, unless it is said before.
fn add_unsaid(
    alloc: Global,
    to: &mut Vec<FileFinding<'_>>,
    said: &BTreeSet<String>,
    codes: &[Code],
    finding: &Finding,
) -> Result<(), AllocError>
    requires { IsSaidBy codes.now said.now }
    ensures { OnOk result (map located to.new.items
        ≡ map located to.old.items ++ unsaid_one (contains_text said.now) finding.now) }
{
    if is_said(alloc, said, codes, finding)? {
        return Ok(());
    }
    to.push(FileFinding {
        code: finding.code,
        location: FindingPlace::Subject(finding.place),
    })?;
    Ok(())
}

/// Whether a finding of a document is said before. Most findings have a code that no notice has,
/// and no text is made of them.
fn is_said(
    alloc: Global,
    said: &BTreeSet<String>,
    codes: &[Code],
    finding: &Finding,
) -> Result<bool, AllocError>
    requires { IsSaidBy codes.now said.now }
    ensures { IfOk result (λ is. is ≡ contains_text said.now (said_finding finding.now)) }
{
    if !has_name(codes, finding.code) {
        return Ok(false);
    }
    let text = finding_text(alloc, finding)?;
    Ok(said.contains(text.as_str()))
}

/// The codes of notices, each once.
fn codes_of(alloc: Global, notices: &[Notice]) -> Result<Vec<Code>, AllocError>
    ensures { IfOk result (λ codes. (code : OneCode)
        → has_name codes.items code ≡ has_name (codes_in notices.now) code) }
{
    let mut codes = Vec::new(alloc);
    for notice in notices {
        add_code(&mut codes, notice.code)?;
    }
    Ok(codes)
}

/// Adds a code, unless it is there.
fn add_code(to: &mut Vec<Code>, code: Code) -> Result<(), AllocError>
    ensures { OnOk result ((other : OneCode) → has_name to.new.items other
        ≡ (has_name to.old.items other || is_named other code)) }
{
    if has_name(to, code) {
        return Ok(());
    }
    to.push(code)?;
    Ok(())
}

/// Whether one of some codes has the name of a code.
fn has_name(codes: &[Code], code: Code) -> bool
    ensures { result ≡ has_name codes.now code }
{
    for known in codes {
        if known.name() == code.name() {
            return true;
        }
    }
    false
}

/// What notices say, as texts.
fn said_by(alloc: Global, notices: &[Notice]) -> Result<BTreeSet<String>, AllocError>
    ensures { IfOk result (λ found. (q : List ℕ)
        → contains_text found q ≡ is_said (map noted notices.now) q) }
{
    let mut found = BTreeSet::new(alloc);
    for notice in notices {
        add_said(alloc, &mut found, notice)?;
    }
    Ok(found)
}

/// Adds what a notice says.
fn add_said(alloc: Global, to: &mut BTreeSet<String>, notice: &Notice) -> Result<(), AllocError>
    ensures { OnOk result ((q : List ℕ) → contains_text to.new q
        ≡ (contains_text to.old q || says notice.now q)) }
{
    to.insert(said(alloc, notice.code, &notice.pointer)?)?;
    Ok(())
}

/// What a finding of the document says, as a text.
fn finding_text(alloc: Global, finding: &Finding) -> Result<String, AllocError>
    ensures { IfOk result (λ text. string_bytes text ≡ said_finding finding.now) }
{
    let pointer = finding.place.pointer(alloc)?;
    said(alloc, finding.code, &pointer)
}

/// What is said of a place, as a text.
fn said(alloc: Global, code: Code, pointer: &str) -> Result<String, AllocError>
    ensures { IfOk result (λ text. string_bytes text ≡ said code pointer.now) }
{
    let mut text = String::new(alloc);
    match code {
        // A `Root` keeps no name of an attribute without a meaning, and so the places differ.
        Code::MeshPrimitiveInvalidAttribute => text.push_str(code.name())?,
        _ => push_said(&mut text, code, pointer)?,
    }
    Ok(text)
}

/// Appends a pointer and a code.
fn push_said(text: &mut String, code: Code, pointer: &str) -> Result<(), AllocError>
    ensures { OnOk result (string_bytes text.new
        ≡ string_bytes text.old ++ pointed code pointer.now) }
{
    let name = code.name();
    write!(text, "{pointer}: {name}")
}
