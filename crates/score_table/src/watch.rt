//! What a run meets at its last instant.
ghost use Rattle.std.specs.Prelude.{◌≡◌, ◌≢◌, ◌<◌, ◌∷◌, ◌++◌, ◌↔◌, [], length, IfOk, IsTrue};
ghost use Rattle.dep_paths.specs.declared.path.Obligation.TheVariants.{Omc};
ghost use Rattle.dep_paths.specs.Activation.{Frames};
ghost use Rattle.dep_paths.specs.Duties.{Planned};
ghost use Rattle.op_network.specs.declared.edge.Parts.{Parts};
ghost use Rattle.score_table.specs.Watching.{IsWatchFor, IsWatchOver, MetLast, TellsMetLast, Watches};

use activation::Acts;
use cov_base::Memory;
use dep_paths::{Obligation, Plan};
use lus_causality::Ordered;
use omcdc_tags::Tags;
use op_network::Frame;
use std::alloc::Global;

/// Watches a run, instant by instant, and tells which obligations it meets at the last one. It
/// keeps no frames.
#[derive(Drop)]
pub(crate) struct Watch {
    pub(crate) acts: Acts,
    pub(crate) tags: Tags,
}

impl Watch {
    /// For the runs of a network, with obligations of a plan of it. Takes all memory that it needs:
    /// that of `Acts::new` and of `Tags::new`.
    pub(crate) fn new(alloc: Global, net: &Ordered, plan: &Plan) -> Result<Watch, Memory>
        ensures { IfOk result (IsWatchFor net.now.network plan.now) }
    {
        let acts = Acts::new(alloc, net.network(), plan)?;
        let tags = Tags::new(alloc, net, plan)?;
        Ok(Watch { acts, tags })
    }

    /// Before instant 0 of another run. In constant time.
    pub(crate) fn restart(&mut self)
        ensures { (parts : Parts) (plan : Planned) → IsWatchFor parts plan self.old →
            Watches parts plan [] self.new }
    {
        self.acts.restart();
        self.tags.restart();
    }

    /// Takes the frame of the next instant. Takes no memory.
    pub(crate) fn step(&mut self, net: &Ordered, plan: &Plan, frame: &Frame)
        requires { IsWatchFor net.now.network plan.now self.old }
        ensures { let parts = net.now.network in (frames : Frames) →
            Watches parts plan.now frames self.old →
            Watches parts plan.now (frames ++ frame.now ∷ []) self.new }
    {
        self.acts.step(net.network(), plan, frame);
        self.tags.step(net, plan, frame);
    }

    /// Whether the obligation at a place of the plan is met at the last instant. In constant time.
    pub(crate) fn is_met(&self, plan: &Plan, o: u32) -> bool
        requires made { IsWatchOver plan.now self.now }
        requires within { o < length plan.now.duties }
        ensures { (parts : Parts) (frames : Frames) → Watches parts plan.now frames self.now →
            frames ≢ [] → TellsMetLast parts plan.now frames o result }
    {
        match plan.duties()[o as usize] {
            Obligation::Bc { .. } => self.acts.active(o),
            Obligation::Ecc { .. } => self.acts.active(o),
            Obligation::Mcc { .. } => self.acts.active(o),
            Obligation::Omc { condition, value } => self.observes(plan, condition, value),
        }
    }

    /// Whether the condition at a place of the plan is observed with a value at the last instant.
    /// One that the plan lacks is not. In constant time.
    fn observes(&self, plan: &Plan, condition: u32, value: bool) -> bool
        requires made { IsWatchOver plan.now self.now }
        ensures { (parts : Parts) (frames : Frames) → Watches parts plan.now frames self.now →
            frames ≢ [] → IsTrue result
            ↔ MetLast parts plan.now frames (Omc condition value) }
    {
        (condition as usize) < plan.conditions().len() && self.tags.observed(condition, value)
    }
}
