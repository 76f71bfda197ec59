//! What is wrong with a file, as lines.

ghost use Rattle.std.specs.Prelude.{◌≡◌, ◌-◌, ◌^◌, ◌++◌, [], IfOk, OnOk, Option, option_map, string_bytes};
ghost use Rattle.gltf_findings_codes.specs.Found.{findings_from};
ghost use Rattle.gltf_findings_files.specs.Objects.{buffer_findings, image_findings};
ghost use Rattle.gltf_schema.specs.Outline.{IsShapeOf};
ghost use Rattle.gltf_root.specs.Answer.{answer, IsAnswer};
ghost use Rattle.gltf_root.specs.Root.{root_kind};
ghost use Rattle.gltf_findings_lines.specs.Members.{held_in};
ghost use Rattle.gltf_findings_lines.specs.Checked.{AreDocumentFindings, AreMembers, IsFound, IsFoundIn, IsJsonOf, IsPrinted, IsPrintedFor, IsReportOf, refusal_of};
ghost use Rattle.gltf_findings_lines.specs.Parts.{parts_in};
ghost use Rattle.gltf_findings_lines.specs.Sources.{gathered};

use crate::choices::{Choices, Shown};
use crate::counts::Counts;
use crate::file::{File, Parts};
use crate::info::Contents;
use crate::khronos::{khronos_line, unread_line};
use crate::lines::lines_of;
use crate::members::{members_in, notices_of};
use crate::options::{FindingOptions, Style};
use crate::sources::Sources;
use gltf_buffers::GlbError;
use gltf_findings::Findings;
use gltf_findings_codes::{Finding, add_all};
use gltf_findings_files::{BufferUriRules, Container, ImageUriRules};
use gltf_findings_members::Notices;
use gltf_report_lines::LineFormat;
use gltf_root::root::Root;
use gltf_schema::{Error, Outline};
use std::alloc::{AllocError, Global};

/// Why a file holds no document.
#[derive(Clone, Copy, Debug, PartialEq, Eq)]
pub enum Unread {
    /// It is a container that can't be read.
    Container(GlbError),
    /// It is no JSON.
    NoJson,
    /// It is JSON, but no glTF document.
    NoDocument,
}

/// What was found in a file.
#[derive(Debug, Drop)]
pub struct FileFindings {
    /// What is printed, each line with a newline at its end.
    pub lines: String,
    /// How many findings there are.
    pub counts: Counts,
    /// Why the file holds no document, if it holds none.
    pub unread: Option<Unread>,
}

impl FileFindings {
    /// Returns why the file has to be refused: it holds no document, and no finding of severity
    /// error says so.
    pub fn refusal(&self) -> Option<Unread>
        ensures { result ≡ refusal_of self.now }
    {
        if self.counts.errors == 0 {
            self.unread
        } else {
            None
        }
    }
}

/// Checks files.
#[derive(Debug, Drop)]
pub struct Checker {
    /// What JSON a document is read from.
    outline: Outline,
}

impl Checker {
    /// Returns what checks files. Fails only if out of memory.
    pub fn new(alloc: Global) -> Result<Checker, AllocError>
        ensures { IfOk result (λ checker.
            IsShapeOf checker.outline.nodes.items checker.outline.root root_kind) }
    {
        Ok(Checker {
            outline: Outline::of::<Root>(alloc)?,
        })
    }

    /// Returns what is wrong with a file: with its container, with the members of its JSON, and
    /// with its document, in this order. Fails only if out of memory.
    pub fn check(
        &self,
        alloc: Global,
        options: &FindingOptions<'_>,
        file: &File<'_>,
    ) -> Result<FileFindings, AllocError>
        ensures { IfOk result (IsFound self.now.outline options.now file.now) }
    {
        let container = file.container_findings(alloc)?;
        match file.parts() {
            Ok(parts) => {
                let read = Root::from_slice(alloc, parts.json);
                let notices = self.members_of(alloc, &read, parts.json)?;
                let sources = Sources {
                    container: &container,
                    members: notices_of(&notices),
                    document: &[],
                };
                let found = check_json(alloc, options, file, &sources, &parts, read)?;
                Ok(found)
            }
            Err(error) => {
                let sources = Sources {
                    container: &container,
                    members: &[],
                    document: &[],
                };
                let unread = Unread::Container(error);
                let found = found_in(alloc, options, file, &sources, None, Some(unread))?;
                Ok(found)
            }
        }
    }

    /// What is wrong with the members of bytes that were read, if they are JSON.
    fn members_of(
        &self,
        alloc: Global,
        read: &Result<Root, Error>,
        json: &[u8],
    ) -> Result<Option<Notices>, AllocError>
        requires { IsAnswer (answer json.now) read.now }
        ensures { IfOk result (λ found. AreMembers self.now.outline json.now (held_in found)) }
    {
        match read {
            Ok(_root) => {
                let found = members_in(alloc, &self.outline, json)?;
                Ok(found)
            }
            Err(Error::Schema) => {
                let found = members_in(alloc, &self.outline, json)?;
                Ok(found)
            }
            Err(Error::Json) => Ok(None),
            Err(_) => Err(AllocError),
        }
    }
}

/// What is wrong with a file, by what is wrong with its container and its members.
fn check_json(
    alloc: Global,
    options: &FindingOptions<'_>,
    file: &File<'_>,
    sources: &Sources<'_>,
    parts: &Parts<'_>,
    read: Result<Root, Error>,
) -> Result<FileFindings, AllocError>
    requires sources { sources.now.document.now ≡ [] }
    requires read { IsAnswer (answer parts.now.json.now) read }
    ensures { IfOk result (IsFoundIn options.now file.now sources.now (parts_in parts.now)) }
{
    match read {
        Ok(root) => {
            let document = document_findings(alloc, &root, parts.container)?;
            let sources = Sources {
                document: &document,
                ..*sources
            };
            let found = found_in(alloc, options, file, &sources, Some(&root), None)?;
            Ok(found)
        }
        Err(Error::Json) => found_in(alloc, options, file, sources, None, Some(Unread::NoJson)),
        Err(Error::Schema) => {
            found_in(
                alloc,
                options,
                file,
                sources,
                None,
                Some(Unread::NoDocument),
            )
        }
        Err(_) => Err(AllocError),
    }
}

/// What is wrong with a document: by itself, and by the URIs of its buffers and images.
fn document_findings(
    alloc: Global,
    root: &Root,
    container: Container,
) -> Result<Vec<Finding>, AllocError>
    ensures { IfOk result (λ all. AreDocumentFindings root.now container all.items) }
{
    let findings = Findings::of(alloc, root)?;
    let mut all = Vec::from_slice(alloc, findings.as_slice())?;
    add_uris(&mut all, root, container)?;
    Ok(all)
}

/// Adds what is wrong with the URIs of buffers and images.
#[tactic(auto, using(std::proofs::lemmas::List::append_assoc))]
fn add_uris(to: &mut Vec<Finding>, root: &Root, container: Container) -> Result<(), AllocError>
    ensures { OnOk result (to.new.items ≡ to.old.items
        ++ findings_from (buffer_findings container) 0 root.now.buffers.items
        ++ findings_from (image_findings container) 0 root.now.images.items) }
{
    add_all(to, &BufferUriRules(container), &root.buffers)?;
    add_all(to, &ImageUriRules(container), &root.images)
}

/// What is printed for the findings from all sources, and how many there are.
fn found_in(
    alloc: Global,
    options: &FindingOptions<'_>,
    file: &File<'_>,
    sources: &Sources<'_>,
    root: Option<&Root>,
    unread: Option<Unread>,
) -> Result<FileFindings, AllocError>
    ensures { IfOk result (IsPrinted options.now file.now (gathered sources.now)
        (option_map (λ r. r.now) root.entry) unread) }
{
    let all = sources.gathered(alloc)?;
    let shown = options.choices.chosen(alloc, &all)?;
    let lines = lines_for(alloc, options, file, root, &shown)?;
    let counts = Counts::of(&shown);
    Ok(FileFindings {
        lines,
        counts,
        unread,
    })
}

/// What is printed for the findings of a file.
fn lines_for(
    alloc: Global,
    options: &FindingOptions<'_>,
    file: &File<'_>,
    root: Option<&Root>,
    shown: &[Shown<'_>],
) -> Result<String, AllocError>
    ensures { IfOk result (λ lines. IsPrintedFor options.now file.now
        (option_map (λ r. r.now) root.entry) shown.now (string_bytes lines)) }
{
    match options.style {
        Style::Lines(format) => lines_of(alloc, options, format, file, shown),
        Style::Khronos => match root {
            Some(root) => report_of(alloc, file, root, options.most, shown),
            None => unread_line(alloc, file, options.most, shown),
        },
    }
}

/// The report of a file that holds a document.
fn report_of(
    alloc: Global,
    file: &File<'_>,
    root: &Root,
    most: u64,
    shown: &[Shown<'_>],
) -> Result<String, AllocError>
    ensures { IfOk result (λ text. IsReportOf file.now root.now most shown.now
        (string_bytes text)) }
{
    let info = Contents::of(root);
    let text = khronos_line(alloc, file, &info, most, shown)?;
    Ok(text)
}

/// Returns the findings of a file as lines of JSON, all of them and with the severities of the
/// validator. Fails only if out of memory.
pub fn json_lines(alloc: Global, file: &File<'_>) -> Result<FileFindings, AllocError>
    ensures { IfOk result (IsJsonOf file.now) }
{
    let options = FindingOptions {
        choices: Choices {
            severities: &[],
            ignored: &[],
        },
        style: Style::Lines(LineFormat::Json),
        positions_up_to: u64::MAX,
        most: u64::MAX,
    };
    let checker = Checker::new(alloc)?;
    let found = checker.check(alloc, &options, file)?;
    Ok(found)
}
