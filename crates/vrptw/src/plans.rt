//! A file of the plans that a run meets, each cheaper than the one before.

ghost use Rattle.std.specs.Prelude.{◌≡◌, ◌↔◌, None, false, IsTrue, IfErr, IfOk};
ghost use Rattle.vrptw.specs.Plans.{Adds, IsDue};

use crate::progress::ProgressGate;
use incumbent_book::Gap;
use schedule::Feasible;
use std::alloc::{AllocError, Global};
use std::sync::{Mutex, Wait};
use tenths::{Device, MemorySink, Sink, Tenths, write_text};
use worker_turns::{Gate, GatePoint};

/// A file of plans, each as the text of a solution, and cheaper than the one before.
#[derive(Drop)]
pub(crate) struct PlansFile<X: Sink + Drop> {
    sink: X,
    /// The cost of the last plan that stands there.
    least: Option<Tenths>,
    /// Whether a write failed. Nothing is written behind that, since a plan may be cut there.
    has_failed: bool,
}

impl<X: Sink + Drop> PlansFile<X> {
    /// A file in which no plan stands.
    pub(crate) fn new(sink: X) -> PlansFile<X>
        ensures sink { result.sink ≡ sink }
        ensures empty { (result.least ≡ None) × (result.has_failed ≡ false) }
    {
        PlansFile {
            sink,
            least: None,
            has_failed: false,
        }
    }

    /// Whether a plan is to be added.
    fn is_due(&self, plan: &Feasible<'_>) -> bool
        ensures { IsTrue result ↔ IsDue self.now.has_failed self.now.least plan.now }
    {
        if self.has_failed {
            return false;
        }
        match self.least {
            Some(least) => plan.cost().get() < least.get(),
            None => true,
        }
    }

    /// Adds a plan that is cheaper than all that stand there, by one write of its whole text where the sink takes it
    /// so.
    /// An error where memory was refused; then nothing changed.
    fn add(&mut self, alloc: Global, plan: &Feasible<'_>) -> Result<(), AllocError>
        ensures added { IfOk result (λ _. IsDue self.old.has_failed self.old.least plan.now
            → Adds plan.now (X.held self.old.sink) (X.held self.new.sink)
            self.old.least self.new.least self.new.has_failed) }
        ensures kept { (IsDue self.old.has_failed self.old.least plan.now → ⊥)
            → self.new ≡ self.old }
        ensures memory { IfErr result (λ _. self.new ≡ self.old) }
    {
        if !self.is_due(plan) {
            return Ok(());
        }
        let mut text = MemorySink::new(alloc);
        if sol_writer::write(plan.routes(), plan.cost(), &mut text).is_err() {
            return Err(AllocError);
        }
        match write_text(text.as_slice(), &mut self.sink) {
            Ok(()) => self.least = Some(plan.cost()),
            Err(Device) => self.has_failed = true,
        }
        Ok(())
    }
}

/// A gate that holds nobody but for the time of a write: it may tell on standard error how far the turns are, and adds
/// the plans that it meets to a file, if there is one.
#[derive(Drop)]
pub(crate) struct PlansGate<'a, R: Eprint, X: Sink + Drop> {
    rt: &'a R,
    alloc: Global,
    progress: ProgressGate<'a, R>,
    plans: Option<Mutex<PlansFile<X>>>,
}

impl<'a, R: Eprint, X: Sink + Drop> PlansGate<'a, R, X> {
    /// A gate that adds plans to what this sink takes.
    pub(crate) fn new(
        rt: &'a R,
        alloc: Global,
        progress: ProgressGate<'a, R>,
        plans: Option<X>,
    ) -> PlansGate<'a, R, X> {
        let plans = match plans {
            Some(sink) => Some(Mutex::new(PlansFile::new(sink))),
            None => None,
        };
        PlansGate {
            rt,
            alloc,
            progress,
            plans,
        }
    }

    /// Ends what was told.
    pub(crate) fn end(self) {
        self.progress.end();
    }
}

impl<'a, R: Eprint + Wait, X: Sink + Drop> Gate for PlansGate<'a, R, X> {
    fn pass(&self, worker: u16, point: GatePoint) {
        self.progress.pass(worker, point);
    }

    fn tell(&self, gap: &Gap) {
        self.progress.tell(gap);
    }

    fn meet(&self, plan: &Feasible<'_>) {
        if let Some(plans) = &self.plans {
            // A plan for whose text there is no memory is left out.
            let _ = plans.lock(self.rt).add(self.alloc, plan);
        }
    }
}
