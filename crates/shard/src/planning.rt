//! The plan of an input of a shard that is sound.
ghost use Rattle.std.specs.Prelude.{IfOk};
ghost use Rattle.memory.specs.Kept.{IsPlanned, start_of};
ghost use Rattle.memory.specs.Plans.{plan_of};
ghost use Rattle.protocol.specs.Plan.{carried};
ghost use Rattle.protocol.specs.Showable.{IsShowable, KeepsShowable};
ghost use Rattle.protocol.specs.Sound.{IsSound};
ghost use Rattle.protocol.specs.Step.{plan_input};
ghost use Rattle.shard.specs.Due.{IsDue};

use crate::inputs::plan_input;
use memory::{State, Step};
use message::Input;
use protocol::{
    installs_above, logged_follows, step_keeps_showable, step_keeps_sound, writes_ascend,
};
use std::alloc::Global;
use truetime::Reading;
use units::Fault;

// What an input comes to. Its plan is due: it may be carried out once its record is logged, and leaves the shard sound.
pub(crate) fn plan_due(
    state: &State,
    alloc: Global,
    now: &Reading,
    input: &Input,
) -> Result<Step, Fault>
    requires sound { ∥ IsSound state.now.setup.shard state.now.facts state.now.memory ∥₁ }
    requires showable { IsShowable state.now.facts state.now.memory }
    ensures planned { IsPlanned state.now
        (plan_input state.now.setup (start_of state.now) now.now input.now) result }
    ensures due { IfOk result (IsDue state.now) }
    ensures shows { IfOk result
        (λ step. ∥ KeepsShowable state.now.facts state.now.memory step.logged
        (carried (plan_of state.now.memory.rows step) state.now.memory) ∥₁) }
{
    step_keeps_sound();
    step_keeps_showable();
    logged_follows();
    installs_above();
    writes_ascend(input);
    plan_input(state, alloc, now, input)
}
