// What a caller plans, as far as its calls have been read.
ghost use Rattle.std.specs.Prelude.{◌≡◌, [], ◌∷◌, ◌++◌, Some, None, IfOk, OnOk, option_map, false};
ghost use Rattle.caller_plans.specs.Plans.{after_call};
ghost use Rattle.caller_plans.specs.Drafts.{empty_draft, drafted, plan_ended};

use crate::plan::{Asked, Plan, PlanEnd, Plans};
use history::{Call, Control, TableCall};
use mars_base::NoMemory;
use std::alloc::Global;

/// A caller's plans so far, and the calls of the transaction that it is within.
#[derive(Drop)]
pub struct Draft {
    pub plans: Plans,
    pub begun: Option<Asked>,
}

impl Draft {
    pub fn new(alloc: Global) -> Draft
        ensures { result ≡ empty_draft }
    {
        Draft {
            plans: Plans::new(alloc),
            begun: None,
        }
    }

    /// Whether the call is outside a transaction, is a begin within one, or is a settle or a purge.
    pub fn is_stray(&self, call: &Call) -> bool
        ensures { result ≡ (after_call self.now.begun call.now).0 }
    {
        match call {
            Call::Begin => self.begun.is_some(),
            Call::Control(Control::Settle) => true,
            Call::Control(Control::Purge) => true,
            _ => self.begun.is_none(),
        }
    }

    /// Adds a call that is not stray.
    pub fn add(&mut self, alloc: Global, call: &Call) -> Result<(), NoMemory>
        requires { (after_call self.old.begun call.now).0 ≡ false }
        ensures begun { OnOk result (self.new.begun ≡ (after_call self.old.begun call.now).1) }
        ensures plans { OnOk result (self.new.plans ≡ self.old.plans ++ (after_call self.old.begun call.now).2) }
    {
        match call {
            Call::Begin => self.begin(alloc),
            Call::Table(asked) => self.ask(asked),
            Call::Control(Control::Commit) => self.end(PlanEnd::Commit),
            Call::Control(Control::Abort) => self.end(PlanEnd::Abort),
            Call::Control(Control::Offer) => self.end(PlanEnd::Offer),
            // Both are stray.
            Call::Control(Control::Settle | Control::Purge) => Ok(()),
        }
    }

    fn begin(&mut self, alloc: Global) -> Result<(), NoMemory>
        ensures plans { self.new.plans ≡ self.old.plans }
        ensures begun { self.new.begun ≡ Some [] }
    {
        self.begun = Some(Asked::new(alloc));
        Ok(())
    }

    fn ask(&mut self, call: &TableCall) -> Result<(), NoMemory>
        ensures plans { self.new.plans ≡ self.old.plans }
        ensures begun { OnOk result (self.new.begun ≡ option_map (λ made. made ++ call.now ∷ []) self.old.begun) }
    {
        if let Some(calls) = &mut self.begun {
            calls.push(*call)?;
        }
        Ok(())
    }

    fn end(&mut self, end: PlanEnd) -> Result<(), NoMemory>
        ensures plans { OnOk result (self.new.plans ≡ self.old.plans ++ plan_ended self.old.begun end) }
        ensures begun { self.new.begun ≡ None }
    {
        if let Some(calls) = self.begun.take() {
            self.plans.push(Plan { calls, end })?;
        }
        Ok(())
    }

    /// The plans of the caller, if it makes no more calls.
    pub fn ended(mut self) -> Result<Plans, NoMemory>
        ensures { IfOk result (λ plans. plans ≡ drafted 0 self []) }
    {
        self.end(PlanEnd::Unended)?;
        Ok(self.plans)
    }
}
