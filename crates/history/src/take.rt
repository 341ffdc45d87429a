ghost use Rattle.std.specs.Prelude.{◌≡◌, OnErr, Result};
ghost use Rattle.policy.specs.declared.refusal.Refusal.{Refusal};

use model::call::{Answer, Call, DraftCall};
use policy::refusal::Refusal;
use register::draft::Draft;
use register::in_force::Register;
use roster::traits::Roster;

// What takes calls that are given as values, one after the other, and answers each: a draft, or a register in force. A call
// is data with numbers of its own, so it is matched; a closure in its place would hide what was called from the contracts.
pub trait TakesCalls {
    type Call: Copy;

    type Answer;

    // What it stands for: what it answers to a call, and what it stands for next, follow from that alone.
    ghost State: { Type 0 };

    ghost state: { Self → State };

    ghost answer: { Self.Call → State → Result Self.Answer Refusal };

    ghost next: { Self.Call → State → State };

    // Takes one call.
    fn take(&mut self, call: Self::Call) -> Result<Self::Answer, Refusal>
        ensures answer { result ≡ answer call (state self.old) }
        ensures after { state self.new ≡ next call (state self.old) }
        ensures kept { OnErr result (self.new ≡ self.old) };
}

impl<R: Roster> TakesCalls for Draft<R> {
    ghost use Rattle.model.specs.Drafts.{DraftState, draft_answer, next_draft};
    ghost use Rattle.register.specs.Memory.{draft_of};

    type Call = DraftCall;

    type Answer = ();

    ghost State = { DraftState };

    ghost state = { draft_of };

    ghost answer = { draft_answer };

    ghost next = { next_draft };

    fn take(&mut self, call: DraftCall) -> Result<(), Refusal> {
        match call {
            DraftCall::Size {
                roles,
                slots,
                persons,
            } => self.size(roles, slots, persons),
            DraftCall::Put {
                row,
                role,
                schedule,
            } => self.put(row, role, schedule),
            DraftCall::Perm { permission, mask } => self.perm(permission, mask),
            DraftCall::Rule(proposed) => self.rule(proposed).map(|_| ()),
        }
    }
}

impl<R: Roster> TakesCalls for Register<R> {
    ghost use Rattle.model.specs.Calls.{answer_to, next};
    ghost use Rattle.model.specs.States.{State};
    ghost use Rattle.register.specs.Memory.{state_of};

    type Call = Call;

    type Answer = Answer;

    ghost State = { State };

    ghost state = { state_of };

    ghost answer = { answer_to };

    ghost next = { next };

    fn take(&mut self, call: Call) -> Result<Answer, Refusal> {
        match call {
            Call::Tick => self.tick()?,
            Call::Act(act) => self.act(act)?,
            Call::May { person, permission } => {
                return self.may(person, permission).map(Answer::MayUse);
            }
        }
        Ok(Answer::Done)
    }
}
