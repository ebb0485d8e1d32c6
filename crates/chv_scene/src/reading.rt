// What was read of a scenario so far.
ghost use Rattle.std.specs.Prelude.{◌≡◌, List, ◌∷◌, true, false, IfOk, OnOk};
ghost use Rattle.chv_defs_scene.specs.ScenarioLines.{Line, lines_of};
ghost use Rattle.chv_scene.specs.Meanings.{before_of};
ghost use Rattle.chv_scene.specs.Reading.{before, closed, Fits, FitsOpen, GoesOn, Opened, WentInside, is_outside, nothing_done};

use crate::outside::{Opens, Passed, top_line};
use crate::script::OpenScript;
use crate::section::take_request;
use crate::steps::take_step;
use chv_defs_base::{Reason, Row};
use chv_defs_scene::{Asked, OrderStep, VcpuSection};
use std::alloc::{AllocError, Global};
use std::mem::replace;

/// The sections that have ended.
#[derive(Drop)]
pub(crate) struct Done {
    pub(crate) vcpus: Row<VcpuSection>,
    pub(crate) sessions: Row<Row<Asked>>,
    pub(crate) order: Option<Row<OrderStep>>,
    /// The lowest number that a vCPU's section can still have.
    pub(crate) next_vcpu: u64,
}

/// The section that is open.
#[derive(Drop)]
pub(crate) enum Open {
    Outside,
    Script(OpenScript),
    Session(Row<Asked>),
    Order(Row<OrderStep>),
}

/// The sections that have ended, and the one that is open.
#[derive(Drop)]
pub(crate) struct Reading {
    pub(crate) done: Done,
    pub(crate) open: Open,
}

impl Open {
    /// Whether no section is open.
    pub(crate) fn is_outside(&self) -> bool
        ensures { result ≡ is_outside self.now }
    {
        matches!(self, Open::Outside)
    }
}

impl Done {
    /// No section has ended.
    fn new(alloc: Global) -> Done
        ensures { result ≡ nothing_done }
    {
        Done {
            vcpus: Row::empty(alloc),
            sessions: Row::empty(alloc),
            order: None,
            next_vcpu: 0,
        }
    }

    // What stands before a line outside of the sections.
    fn passed(&self) -> Passed
        ensures { before_of result ≡ before self.now }
    {
        Passed {
            next_vcpu: self.next_vcpu,
            sessions: self.sessions.len(),
            has_order: self.order.is_some(),
        }
    }

    // A section that has ended.
    fn push(&mut self, ended: Open) -> Result<(), AllocError>
        ensures { OnOk result (self.new ≡ closed self.old ended) }
    {
        match ended {
            Open::Outside => Ok(()),
            Open::Script(script) => self.vcpus.push(script.section()),
            Open::Session(requests) => self.sessions.push(requests),
            Open::Order(steps) => {
                self.order = Some(steps);
                Ok(())
            }
        }
    }
}

impl Reading {
    /// Nothing was read.
    pub(crate) fn new(alloc: Global) -> Reading
        ensures done { result.done ≡ nothing_done }
        ensures open { result.open ≡ Open.Outside }
    {
        Reading {
            done: Done::new(alloc),
            open: Open::Outside,
        }
    }

    /// Reads the next line, behind which this stands, or says why it fails.
    pub(crate) fn take(
        &mut self,
        alloc: Global,
        text: &[u8],
        is_ended: bool,
        behind: &[u8],
    ) -> Result<Option<Reason>, AllocError>
        requires { Fits self.old (record { text = text.now; is_ended = is_ended } ∷ lines_of behind.now) }
        ensures { IfOk result (λ fault. GoesOn self.old self.new (record { text = text.now; is_ended = is_ended }) (lines_of behind.now) fault) }
    {
        if !is_ended {
            return Ok(Some(Reason::Unended));
        }
        if self.open.is_outside() {
            self.take_outside(alloc, text, behind)
        } else {
            self.take_inside(alloc, text)
        }
    }

    // A line outside of the sections.
    fn take_outside(
        &mut self,
        alloc: Global,
        text: &[u8],
        behind: &[u8],
    ) -> Result<Option<Reason>, AllocError>
        requires { is_outside self.old.open ≡ true }
        ensures { IfOk result (λ fault. GoesOn self.old self.new (record { text = text.now; is_ended = true }) (lines_of behind.now) fault) }
    {
        match top_line(&self.done.passed(), text) {
            Ok(opens) => {
                self.begin(alloc, opens, behind)?;
                Ok(None)
            }
            Err(fault) => Ok(Some(fault)),
        }
    }

    // Opens a section.
    fn begin(&mut self, alloc: Global, opens: Opens, behind: &[u8]) -> Result<(), AllocError>
        ensures { OnOk result (Opened self.old.done opens self.new (lines_of behind.now)) }
    {
        match opens {
            Opens::Vcpu { vcpu, fuel } => {
                let script = OpenScript::new(alloc, vcpu, fuel, behind)?;
                self.done.next_vcpu = u64::from(vcpu) + 1;
                self.open = Open::Script(script);
            }
            Opens::Session => self.open = Open::Session(Row::empty(alloc)),
            Opens::Order => self.open = Open::Order(Row::empty(alloc)),
        }
        Ok(())
    }

    // A line of the open section.
    fn take_inside(&mut self, alloc: Global, text: &[u8]) -> Result<Option<Reason>, AllocError>
        requires { is_outside self.old.open ≡ false }
        ensures { IfOk result (λ fault. (lines : List Line) → FitsOpen self.old.open (record { text = text.now; is_ended = true } ∷ lines) →
            GoesOn self.old self.new (record { text = text.now; is_ended = true }) lines fault) }
    {
        match self.next(alloc, text)? {
            Ok(true) => Ok(None),
            Ok(false) => {
                self.close()?;
                Ok(None)
            }
            Err(reason) => Ok(Some(reason)),
        }
    }

    // The next line of the open section. Whether the section goes on, or why the line fails.
    fn next(&mut self, alloc: Global, text: &[u8]) -> Result<Result<bool, Reason>, AllocError>
        requires { is_outside self.old.open ≡ false }
        ensures done { self.new.done ≡ self.old.done }
        ensures went { IfOk result (λ went. WentInside self.old.open self.new.open went text.now) }
    {
        match &mut self.open {
            Open::Outside => Ok(Ok(true)),
            Open::Script(script) => script.take(alloc, text),
            Open::Session(requests) => take_request(alloc, requests, text),
            Open::Order(steps) => take_step(steps, text),
        }
    }

    // Ends the open section.
    fn close(&mut self) -> Result<(), AllocError>
        ensures done { OnOk result (self.new.done ≡ closed self.old.done self.old.open) }
        ensures open { OnOk result (self.new.open ≡ Open.Outside) }
    {
        let open = replace(&mut self.open, Open::Outside);
        self.done.push(open)
    }
}
