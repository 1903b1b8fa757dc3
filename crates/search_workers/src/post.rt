//! A worker with its role.

use crate::at_desk::AtDesk;
use crate::crew::ThreadWork;
use desk::{Naming, Share};
use rand_xoshiro::Xoshiro256PlusPlus;
use run_settings::Settings;
use search::HeldPlan;
use std::sync::Wait;
use worker_turns::{Gate, Nodes, Worker, lending_worker};

/// What a worker begins with: a plan, random words, and nodes. By its number it searches first or raises the bound.
#[derive(Drop)]
pub(crate) struct Role<'a, 'i> {
    pub(crate) plan: Option<HeldPlan<'i>>,
    pub(crate) random: Xoshiro256PlusPlus,
    pub(crate) nodes: Nodes<'a>,
}

/// A worker at a desk with its role: all that it takes into its thread.
#[derive(Drop)]
pub(crate) struct ReadyWorker<'a, 'i, R: Wait, J: Naming, G> {
    pub(crate) worker: Worker<'a, 'i, AtDesk<'a, 'i, R, J>, G>,
    pub(crate) settings: &'a Settings,
    pub(crate) role: Role<'a, 'i>,
}

impl<'a, 'i, R: Wait + Sync, J: Naming + Send + Sync, G: Gate + Sync> ThreadWork
    for ReadyWorker<'a, 'i, R, J, G> {
    type Back = Share<J>;

    fn work(self) -> Share<J> {
        let ReadyWorker {
            mut worker,
            settings,
            role,
        } = self;
        let Role {
            plan,
            random,
            nodes,
        } = role;
        let _made = lending_worker(&mut worker, settings, plan, random, nodes);
        worker.hub.share
    }
}
