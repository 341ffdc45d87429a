ghost use Rattle.model.specs.Held.{WithinRoles};

use crate::in_force::Register;
use policy::refusal::Refusal;
use policy::rule::ProposedRule;
use policy::sizes::Sizes;
use policy::table::PolicyTable;
use roster::traits::Roster;

// A register that is still being set up: it takes sizes, holdings, permissions and rules, and no act. What it stands for is named
// by `draft_of` and not by a model, for the reason that `Register` gives.
#[derive(Drop)]
pub struct Draft<R: Roster> {
    table: PolicyTable,
    roster: R,
    // no put, perm or rule was accepted yet, so the size may still change
    fresh: bool,
    // only roles that there are are held
    ghost within_roles: { WithinRoles table.sizes.roles (R.held roster) },
}

impl<R: Roster> Draft<R> {
    ghost use Rattle.std.specs.Prelude.{◌≡◌, length, OnErr};
    ghost use Rattle.policy.specs.Refusals.{answered};
    ghost use Rattle.policy.specs.Tables.{policy_of};
    ghost use Rattle.model.specs.Drafts.{new_draft, draft_refusal, next_draft};
    ghost use Rattle.model.specs.States.{in_force};
    ghost use Rattle.register.specs.Memory.{draft_of, state_of};
    ghost use Rattle.model.specs.declared.call.DraftCall.TheVariants.{Size, Put, Perm, Rule};

    // Empties the roster and starts with one role, one slot and one person.
    pub fn begin(mut roster: R) -> Draft<R>
        ensures { draft_of result ≡ new_draft }
    {
        roster.clear();
        Draft {
            table: PolicyTable::new(),
            roster,
            fresh: true,
        }
    }

    // Sets the number of roles, slots and persons, as long as nothing else was drafted.
    pub fn size(&mut self, roles: u32, slots: u32, persons: u32) -> Result<(), Refusal>
        ensures answer { result ≡ answered
            (draft_refusal (Size roles slots persons) (draft_of self.old)) tt }
        ensures after { draft_of self.new
            ≡ next_draft (Size roles slots persons) (draft_of self.old) }
        ensures kept { OnErr result (self.new ≡ self.old) }
    {
        if !self.fresh {
            return Err(Refusal::SizeTooLate);
        }
        let sizes = Sizes::new(roles, slots, persons)?;
        self.table = PolicyTable::blank(sizes);
        self.roster.clear();
        Ok(())
    }

    // The row holds the role from then on in the slots of the schedule.
    pub fn put(&mut self, row: u32, role: u32, schedule: u32) -> Result<(), Refusal>
        ensures answer { result ≡ answered
            (draft_refusal (Put row role schedule) (draft_of self.old)) tt }
        ensures after { draft_of self.new ≡ next_draft (Put row role schedule) (draft_of self.old) }
        ensures kept { OnErr result (self.new ≡ self.old) }
    {
        if row > self.table.sizes.persons {
            return Err(Refusal::BadRow);
        }
        if role >= self.table.sizes.roles {
            return Err(Refusal::RoleOutOfRange);
        }
        if !self.table.schedule_fits(schedule) {
            return Err(Refusal::BadSchedule);
        }
        self.roster.add(row, role, schedule);
        self.fresh = false;
        Ok(())
    }

    // Sets the mask of a permission: the roles that give it.
    pub fn perm(&mut self, permission: u32, mask: u32) -> Result<(), Refusal>
        ensures answer { result ≡ answered
            (draft_refusal (Perm permission mask) (draft_of self.old)) tt }
        ensures after { draft_of self.new ≡ next_draft (Perm permission mask) (draft_of self.old) }
        ensures kept { OnErr result (self.new ≡ self.old) }
    {
        self.table.set_permission(permission, mask)?;
        self.fresh = false;
        Ok(())
    }

    // Appends a rule, and answers its number.
    pub fn rule(&mut self, proposed: ProposedRule) -> Result<u32, Refusal>
        ensures answer { result ≡ answered (draft_refusal (Rule proposed) (draft_of self.old))
            (length (policy_of self.old.table).rules) }
        ensures after { draft_of self.new ≡ next_draft (Rule proposed) (draft_of self.old) }
        ensures kept { OnErr result (self.new ≡ self.old) }
    {
        let number = self.table.append(proposed)?;
        self.fresh = false;
        Ok(number)
    }

    // Puts the draft in force: a register with the same policy and holdings, and clock 0.
    pub fn force(self) -> Register<R>
        ensures { state_of result ≡ in_force (draft_of self) }
    {
        let Draft { table, roster, .. } = self;
        Register {
            table,
            roster,
            clock: 0,
        }
    }
}
