ghost use Rattle.std.specs.Prelude.{◌≡◌, IfOk, IfErr, length};
ghost use Rattle.dml_exec.specs.Verified.{rules_of};

use crate::fault::CodeFault;
use crate::free::free_dimensions;
use crate::kinds::{Fix, Kinds};
use crate::op::Op;
use crate::survey::surveyed;
use aw_lists::List;
use std::alloc::Global;

/// Code that was accepted: ops that never get stuck, with the values that they fix
/// (docs/ARCHITECTURE.md, "Code of expressions").
#[derive(Drop)]
pub struct Code {
    pub(crate) ops: List<Op>,
    fixes: List<Fix>,
    free: List<u16>,
    pub(crate) deepest: usize,
}

impl Code {
    ghost use Rattle.dml_exec.specs.CodeRuns.{Accepts, FaultsAt};

    /// Accepts ops over what they may name, or says which is the first bad one; where none is bad, but
    /// the end hasn't just one cell, this is the number of ops (docs/ARCHITECTURE.md, "Code of
    /// expressions").
    #[tactic(auto, using(crate::proofs::SurveyResults::fault_within, crate::proofs::SurveyResults::accepted_by))]
    pub fn verify(
        alloc: Global,
        ops: List<Op>,
        fixes: List<Fix>,
        kinds: &Kinds,
    ) -> Result<Code, CodeFault>
        ensures ops { IfOk result (λ code. code.ops ≡ ops) }
        ensures fixes { IfOk result (λ code. code.fixes ≡ fixes) }
        ensures accepted { IfOk result (λ code. Accepts kinds.now code) }
        ensures bad { IfErr result (FaultsAt (rules_of kinds.now (length fixes) ops)) }
    {
        let count = ops.len();
        if count > u32::MAX as usize {
            return Err(CodeFault::NoMemory);
        }
        match surveyed(alloc, kinds, fixes.len(), ops.as_slice())? {
            Ok(deepest) => {
                let free = free_dimensions(alloc, ops.as_slice())?;
                Ok(Code {
                    ops,
                    fixes,
                    free,
                    deepest,
                })
            }
            Err(at) => Err(CodeFault::Bad { at: at as u32 }),
        }
    }

    /// Its ops.
    pub fn ops(&self) -> &List<Op>
        ensures { result.now ≡ self.now.ops }
    {
        &self.ops
    }

    /// The values that it fixes, in the order in which its axes count them.
    pub fn fixes(&self) -> &List<Fix>
        ensures { result.now ≡ self.now.fixes }
    {
        &self.fixes
    }

    /// Its free dimensions, each once, in the order of the ops.
    pub fn free(&self) -> &List<u16>
        ensures { result.now ≡ self.now.free }
    {
        &self.free
    }
}
