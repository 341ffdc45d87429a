ghost use Rattle.std.specs.Prelude.{◌≡◌, IfOk, OnErr, OnOk};
ghost use Rattle.model.specs.Drafts.{new_draft};
ghost use Rattle.model.specs.Runs.{after_all, answers_along};
ghost use Rattle.history.specs.Histories.{draft_answers, answers_to, forced, history};
ghost use Rattle.register.specs.Memory.{state_of};

use crate::take::TakesCalls;
use model::call::{Answer, Call, DraftCall};
use policy::refusal::Refusal;
use register::draft::Draft;
use register::in_force::Register;
use roster::traits::Roster;
use std::alloc::{AllocError, Global};

// What a plan came to: the register, and the answer to every call.
#[derive(Drop)]
pub struct Outcome<R: Roster> {
    pub register: Register<R>,
    pub drafted: Vec<Result<(), Refusal>>,
    pub answers: Vec<Result<Answer, Refusal>>,
}

// Runs a whole plan over the roster, which is emptied first: the draft calls, then force, then the calls in force.
pub fn execute<R: Roster + Drop>(
    heap: Global,
    roster: R,
    draft_calls: &[DraftCall],
    calls: &[Call],
) -> Result<Outcome<R>, AllocError>
    ensures state { IfOk result (λ outcome. state_of outcome.register
        ≡ history draft_calls.now calls.now) }
    ensures drafted { IfOk result (λ outcome. outcome.drafted.items
        ≡ draft_answers draft_calls.now new_draft) }
    ensures answers { IfOk result (λ outcome. outcome.answers.items
        ≡ answers_to calls.now (forced draft_calls.now)) }
{
    let mut draft = Draft::begin(roster);
    let drafted = take_all(&mut draft, heap, draft_calls)?;
    let mut register = draft.force();
    let answers = take_all(&mut register, heap, calls)?;
    Ok(Outcome {
        register,
        drafted,
        answers,
    })
}

// Takes calls one after the other, some refused, and answers each. Without memory for the answers it takes none.
fn take_all<M: TakesCalls>(
    taker: &mut M,
    heap: Global,
    calls: &[M::Call],
) -> Result<Vec<Result<M::Answer, Refusal>>, AllocError>
    ensures answer { IfOk result (λ answers. answers.items
        ≡ answers_along M.answer M.next calls.now (M.state taker.old)) }
    ensures after { OnOk result (M.state taker.new
        ≡ after_all M.next calls.now (M.state taker.old)) }
    ensures kept { OnErr result (taker.new ≡ taker.old) }
{
    let mut answers = Vec::with_capacity(heap, calls.len())?;
    for call in calls {
        answers.push_reserved(taker.take(*call));
    }
    Ok(answers)
}
