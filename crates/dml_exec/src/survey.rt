//! With which kinds each op is reached, one op after the other.
ghost use Rattle.std.specs.Prelude.{◌≡◌, ◌<◌, ◌≤◌, ◌^◌, [], true, length, slice_get, Some, IfOk, OnOk};
ghost use Rattle.dml_exec.specs.Verified.{rules_of};
ghost use Rattle.dml_exec.specs.inside.Arrivals.{Arrives, TakesOut, Spreads, Surveys, Visited, Found, AreUnreached, GoesWithin};

use crate::arrivals::{Arrival, arrive};
use crate::flow::{Way, flow};
use crate::kinds::Kinds;
use crate::op::Op;
use crate::pile::Pile;
use std::alloc::{AllocError, Global};
use std::mem;

/// What is known of the ops that are still to come, of the end, and of the stack.
#[derive(Drop)]
pub struct Survey {
    /// With which kinds each op is reached.
    pub arrivals: Vec<Arrival>,
    /// Whether the end was reached with one cell alone.
    pub ended: bool,
    /// How many cells the stack has at most.
    pub deepest: usize,
}

/// No op is reached yet.
#[tactic(auto, using(crate::proofs::SurveyResults::unreached_none, crate::proofs::SurveyResults::unreached_more))]
fn unreached(alloc: Global, count: usize) -> Result<Vec<Arrival>, AllocError>
    ensures { IfOk result (λ arrivals. AreUnreached arrivals.items count) }
{
    let mut arrivals = Vec::with_capacity(alloc, count)?;
    for _place in 0..count {
        arrivals.push(Arrival::Never)?;
    }
    Ok(arrivals)
}

impl Survey {
    /// A place is reached with these kinds.
    fn arrive(&mut self, place: usize, stack: Pile)
        requires { place ≤ length self.old.arrivals.items }
        ensures { Arrives self.old self.new place stack }
    {
        self.deepest = self.deepest.max(stack.len());
        if place == self.arrivals.len() {
            self.ended &= stack.len() == 1;
        } else {
            arrive(&mut self.arrivals[place], stack);
        }
    }

    /// So are all places to which a way goes.
    fn spread(&mut self, alloc: Global, at: usize, way: Way, stack: Pile) -> Result<(), AllocError>
        requires at { at < length self.old.arrivals.items }
        requires ahead { GoesWithin way (length self.old.arrivals.items) }
        ensures { OnOk result (Spreads self.old self.new at way stack) }
    {
        match way {
            Way::Next => self.arrive(at + 1, stack),
            Way::Leap(to) => self.arrive(to as usize, stack),
            Way::Fork { no, na } => {
                let (at_no, at_na) = (stack.copied(alloc)?, stack.copied(alloc)?);
                self.arrive(no as usize, at_no);
                self.arrive(na as usize, at_na);
                self.arrive(at + 1, stack);
            }
        }
        Ok(())
    }

    /// Takes out what is kept of a place.
    fn take(&mut self, at: usize) -> Arrival
        requires { at < length self.old.arrivals.items }
        ensures taken { TakesOut self.old self.new at }
        ensures was { slice_get self.old.arrivals.items at ≡ Some result }
    {
        mem::replace(&mut self.arrivals[at], Arrival::Never)
    }

    /// Looks at the op at a place, and says whether it is fine.
    fn visit(
        &mut self,
        alloc: Global,
        kinds: &Kinds,
        fixes: usize,
        ops: &[Op],
        at: usize,
    ) -> Result<bool, AllocError>
        requires within { at < length ops.now }
        requires surveys { Surveys (rules_of kinds.now fixes ops.now) at self.old }
        ensures { IfOk result (λ fine. Visited (rules_of kinds.now fixes ops.now) at self.new fine) }
    {
        let op = &ops[at];
        match self.take(at) {
            Arrival::Never => Ok(true),
            Arrival::Torn => Ok(false),
            Arrival::With(mut stack) => match flow(kinds, fixes, ops, at, op, &mut stack)? {
                Some(way) => {
                    self.spread(alloc, at, way, stack)?;
                    Ok(true)
                }
                None => Ok(false),
            },
        }
    }
}

/// How many cells the stack has at most, or else the first op that is bad, or the end.
pub fn surveyed(
    alloc: Global,
    kinds: &Kinds,
    fixes: usize,
    ops: &[Op],
) -> Result<Result<usize, usize>, AllocError>
    ensures { IfOk result (λ found. Found (rules_of kinds.now fixes ops.now) found) }
{
    let mut survey = Survey {
        arrivals: unreached(alloc, ops.len())?,
        ended: true,
        deepest: 0,
    };
    survey.arrive(0, Pile::new(alloc));
    for at in 0..ops.len() {
        if !survey.visit(alloc, kinds, fixes, ops, at)? {
            return Ok(Err(at));
        }
    }
    if !survey.ended {
        return Ok(Err(ops.len()));
    }
    Ok(Ok(survey.deepest))
}
