//! Notices, and how a walk gathers them.

ghost use Rattle.std.specs.Prelude.{◌≡◌, ◌++◌, [], ◌∷◌, OnOk};
ghost use Rattle.gltf_base.specs.Steps.{step_of};
ghost use Rattle.gltf_findings_members.specs.Noted.{steps_in, noted_in, note, Adds, maybe_note};
ghost use Rattle.gltf_findings_members.specs.Steps.{without_last};

use gltf_base::{Path, Step};
use gltf_findings_codes::Code;
use std::alloc::{AllocError, Global};
use std::fmt::{self, Display, Formatter, Write};

/// What is wrong at a place of JSON.
#[derive(Clone, Debug, Drop, PartialEq)]
pub struct Notice {
    /// What is wrong.
    pub code: Code,
    /// Where, as a JSON pointer (RFC 6901). It may name a member that is missing.
    pub pointer: String,
}

impl Display for Notice {
    ghost use Rattle.std.specs.Prelude.{Some};
    ghost use Rattle.gltf_findings_members.specs.Noted.{notice_text};

    ghost output = { λ notice. Some (notice_text notice) };

    /// The pointer and what is wrong, as `/nodes/0/nam: UNEXPECTED_PROPERTY`.
    fn fmt<W: Write>(&self, f: &mut Formatter<W>) -> fmt::Result {
        write!(f, "{}: {}", self.pointer, self.code)
    }
}

/// Gathers notices on a walk, with the steps to the value that the walk is at.
#[derive(Drop)]
pub(crate) struct Noticing<'a> {
    alloc: Global,
    steps: Vec<Step<'a>>,
    pub(crate) notices: Vec<Notice>,
}

impl<'a> Noticing<'a> {
    /// Gathers notices from the root on.
    pub(crate) fn new(alloc: Global) -> Noticing<'a>
        ensures steps { steps_in result ≡ [] }
        ensures notices { noted_in result ≡ [] }
    {
        Noticing {
            alloc,
            steps: Vec::new(alloc),
            notices: Vec::new(alloc),
        }
    }

    /// The allocator.
    pub(crate) fn alloc(&self) -> Global {
        self.alloc
    }

    /// Goes a step down.
    pub(crate) fn enter(&mut self, step: Step<'a>) -> Result<(), AllocError>
        ensures steps { OnOk result
            (steps_in self.new ≡ steps_in self.old ++ step_of step.entry ∷ []) }
        ensures notices { OnOk result (noted_in self.new ≡ noted_in self.old) }
    {
        self.steps.push(step)?;
        Ok(())
    }

    /// Goes a step up.
    pub(crate) fn leave(&mut self)
        ensures steps { steps_in self.new ≡ without_last (steps_in self.old) }
        ensures notices { noted_in self.new ≡ noted_in self.old }
    {
        let _last = self.steps.pop();
    }

    /// Notes what is wrong at the value.
    pub(crate) fn note(&mut self, code: Code) -> Result<(), AllocError>
        ensures { Adds self.old result self.new (note (steps_in self.old) code ∷ []) }
    {
        let pointer = Path::pointer_of_steps(self.alloc, &self.steps)?;
        self.notices.push(Notice { code, pointer })?;
        Ok(())
    }

    /// Notes what may be wrong at the value.
    pub(crate) fn note_some(&mut self, code: Option<Code>) -> Result<(), AllocError>
        ensures { Adds self.old result self.new (maybe_note (steps_in self.old) code) }
    {
        match code {
            Some(code) => self.note(code),
            None => Ok(()),
        }
    }

    /// Notes what may be wrong at the end of one step more.
    pub(crate) fn note_below(
        &mut self,
        step: Step<'a>,
        code: Option<Code>,
    ) -> Result<(), AllocError>
        ensures { Adds self.old result self.new
            (maybe_note (steps_in self.old ++ step_of step.entry ∷ []) code) }
    {
        if code.is_some() {
            self.enter(step)?;
            self.note_some(code)?;
            self.leave();
        }
        Ok(())
    }
}
