//! The text of a plan, judged.
ghost use Rattle.std.specs.Prelude.{◌≡◌, ◌≤◌, [], length, IsTrue, IfOk};
ghost use Rattle.std.specs.List.{list_all};
ghost use Rattle.eon_model.specs.CheckStatus.{plan_status, status_of};
ghost use Rattle.eon_model.specs.Places.{AtRest};
ghost use Rattle.eon_model.specs.PlanCheck.{batches_ascend, first_bad};
ghost use Rattle.eon_model.specs.PlanReadings.{plan_reading};
ghost use Rattle.eon_model.specs.PlanTexts.{is_move_line};
ghost use Rattle.plan_texts.specs.Told.{moves_told, plan_told};
ghost use Rattle.plan_check.specs.VerdictTold.{verdict_told};

use crate::bad::BadMove;
use crate::judging::judge;
use plan_core::Core;
use plan_texts::{Plan, PlanRefusal, read_plan};
use std::alloc::{AllocError, Global};

/// What a text of a plan comes to.
#[derive(Clone, Copy, Debug, PartialEq, Eq)]
pub enum Verdict {
    /// No move is bad, of so many in so many batches.
    Holds { batches: u16, moves: u16 },
    /// This is the first bad move.
    Breaks(BadMove),
    /// It is no text of a plan: its first line that is wrong, counted from 1.
    Wrong { line: u32 },
}

// What the plan comes to.
fn judge_plan(core: &mut Core, plan: &Plan) -> Verdict
    requires rest { AtRest core.old.state }
    requires order { IsTrue (batches_ascend (moves_told plan.now.moves.items)) }
    requires in_range { IsTrue (list_all is_move_line (moves_told plan.now.moves.items)) }
    requires few { length plan.now.moves.items ≤ 4096 }
    ensures setup { core.new.setup ≡ core.old.setup }
    ensures verdict { verdict_told result ≡ status_of (plan_told plan.now) (first_bad core.old.setup core.old.state [] (moves_told plan.now.moves.items)) }
{
    match judge(core, &plan.moves) {
        Some(bad) => Verdict::Breaks(bad),
        None => Verdict::Holds {
            batches: plan.batches,
            moves: plan.moves.len() as u16,
        },
    }
}

/// What the text of a plan comes to against the services of the machine, which are at rest. The network stays; the services
/// are left with moves of the plan, each begun or ended.
pub fn judge_text(alloc: Global, core: &mut Core, text: &[u8]) -> Result<Verdict, AllocError>
    requires { AtRest core.old.state }
    ensures setup { core.new.setup ≡ core.old.setup }
    ensures verdict { IfOk result (λ verdict. verdict_told verdict ≡ plan_status core.old.setup core.old.state (plan_reading text.now)) }
{
    match read_plan(alloc, text) {
        Ok(plan) => Ok(judge_plan(core, &plan)),
        Err(PlanRefusal::Form { line }) => Ok(Verdict::Wrong { line }),
        Err(PlanRefusal::Memory) => Err(AllocError),
    }
}
