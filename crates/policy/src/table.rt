ghost use Rattle.std.specs.Prelude.{◌≡◌, ◌<◌, ◌≤◌, ◌^◌, length};
ghost use Rattle.policy.specs.Policies.{MasksFit, AllProper};

use crate::kind::Kind;
use crate::limits::{MAX_GRADE, MAX_RULES, PERMISSIONS};
use crate::masks::{all_below, are_apart, fits, is_inside};
use crate::refusal::Refusal;
use crate::rule::{ProposedRule, Rule};
use crate::sizes::Sizes;
use arrayvec::ArrayVec;

// A policy in fixed tables: sizes, the mask of each permission, and the rules. Nothing of it lies on a heap, so no call is
// refused for want of memory. It has no model: proofs above cite its invariant by the names of its fields, which a model
// would hide.
#[derive(Debug, PartialEq, Eq, Drop)]
pub struct PolicyTable {
    pub sizes: Sizes,
    permissions: [u16; PERMISSIONS],
    rules: ArrayVec<Rule, MAX_RULES>,
    ghost masks_fit: { MasksFit sizes.roles permissions },
    ghost proper: { AllProper sizes.roles sizes.slots rules.items },
    ghost few_rules: { length rules.items ≤ 64 },
}

impl PolicyTable {
    ghost use Rattle.std.specs.Prelude.{MatchResult, None, OnSome, slice_get};
    ghost use Rattle.policy.specs.Policies.{blank, as_proposed, permission_mask, with_rule, with_permission, with_proposed, schedule_fits, mask_fits, permission_tests, rule_tests, proposed_roles_fit, proposed_schedules_fit, proposal_tests};
    ghost use Rattle.policy.specs.Refusals.{first_failing, answered};
    ghost use Rattle.policy.specs.Tables.{policy_of};

    // A table of one role, one slot and one person, with no rule and empty permissions.
    pub fn new() -> PolicyTable
        ensures { policy_of result ≡ blank 1 1 1 }
    {
        PolicyTable::blank(Sizes::LEAST)
    }

    // A table of those sizes, with no rule and empty permissions.
    pub fn blank(sizes: Sizes) -> PolicyTable
        ensures { policy_of result ≡ blank sizes.roles sizes.slots sizes.persons }
    {
        PolicyTable {
            sizes,
            permissions: [0; PERMISSIONS],
            rules: ArrayVec::new(),
        }
    }

    // Whether the schedule is not empty and lies inside the slots.
    pub fn schedule_fits(&self, schedule: u32) -> bool
        ensures { result ≡ schedule_fits self.now.sizes.slots schedule }
    {
        schedule != 0 && fits(schedule, self.sizes.slots)
    }

    // Whether the mask lies inside the roles.
    fn mask_fits(&self, mask: u32) -> bool
        ensures { result ≡ mask_fits self.now.sizes.roles mask }
    {
        is_inside(mask, all_below(self.sizes.roles) as u32)
    }

    // The mask of a permission; a permission from 32 on has no role.
    pub fn permission_mask(&self, number: u32) -> u16
        ensures { result ≡ permission_mask (policy_of self.now) number }
    {
        self.permissions.get(number as usize).copied().unwrap_or(0)
    }

    // The rules, in the order of their numbers.
    pub fn rules(&self) -> &[Rule]
        ensures { result.now ≡ (policy_of self.now).rules }
    {
        self.rules.as_slice()
    }

    // The rule with that number.
    pub fn rule(&self, number: u32) -> Option<Rule>
        ensures answer { result ≡ slice_get (policy_of self.now).rules number }
        ensures few { OnSome result (number < 64) }
    {
        self.rules().get(number as usize).copied()
    }

    // Sets the mask of a permission.
    pub fn set_permission(&mut self, permission: u32, mask: u32) -> Result<(), Refusal>
        ensures answer { result ≡ answered
            (first_failing (permission_tests (policy_of self.old) permission mask)) tt }
        ensures after { MatchResult result (λ _. policy_of self.new
            ≡ with_permission permission mask (policy_of self.old)) (λ _. self.new ≡ self.old) }
    {
        if permission as usize >= PERMISSIONS {
            return Err(Refusal::NoSuchPermission);
        }
        if !self.mask_fits(mask) {
            return Err(Refusal::RoleOutOfRange);
        }
        self.store_permission(permission, mask);
        Ok(())
    }

    fn store_permission(&mut self, permission: u32, mask: u32)
        requires there { permission < 32 }
        requires small { mask < 2 ^ self.old.sizes.roles }
        ensures { policy_of self.new ≡ with_permission permission mask (policy_of self.old) }
    {
        self.permissions[permission as usize] = mask as u16;
    }

    // Whether all roles that the proposal names lie inside the roles.
    fn roles_fit(&self, proposed: ProposedRule) -> bool
        ensures { result ≡ proposed_roles_fit self.now.sizes.roles proposed }
    {
        proposed.officer < self.sizes.roles
            && self.mask_fits(proposed.need)
            && self.mask_fits(proposed.bar)
            && proposed.role < self.sizes.roles
    }

    // Whether both schedules of the proposal fit.
    fn schedules_fit(&self, proposed: ProposedRule) -> bool
        ensures { result ≡ proposed_schedules_fit self.now.sizes.slots proposed }
    {
        self.schedule_fits(proposed.rule_schedule) && self.schedule_fits(proposed.role_schedule)
    }

    // Refuses a proposal, whose kind is known, if anything is against it.
    fn test(&self, proposed: ProposedRule) -> Result<(), Refusal>
        ensures { result ≡ answered
            (first_failing (proposal_tests (policy_of self.now) proposed)) tt }
    {
        if !self.roles_fit(proposed) {
            return Err(Refusal::RoleOutOfRange);
        }
        if !self.schedules_fit(proposed) {
            return Err(Refusal::BadSchedule);
        }
        if !are_apart(proposed.need, proposed.bar) {
            return Err(Refusal::NeedSharesBar);
        }
        if proposed.grade > MAX_GRADE {
            return Err(Refusal::GradeTooHigh);
        }
        if self.rules.is_full() {
            return Err(Refusal::TooManyRules);
        }
        Ok(())
    }

    // Appends a rule, and answers its number.
    pub fn append(&mut self, proposed: ProposedRule) -> Result<u32, Refusal>
        ensures answer { result ≡ answered
            (first_failing (rule_tests (policy_of self.old) proposed))
            (length (policy_of self.old).rules) }
        ensures after { MatchResult result (λ _. policy_of self.new
            ≡ with_proposed proposed (policy_of self.old)) (λ _. self.new ≡ self.old) }
    {
        let kind = proposed.kind.ok_or(Refusal::UnknownKind)?;
        self.test(proposed)?;
        Ok(self.push(kind, proposed))
    }

    // Appends a proposal that nothing is against, and answers its number.
    fn push(&mut self, kind: Kind, proposed: ProposedRule) -> u32
        requires { None ≡ first_failing (proposal_tests (policy_of self.old) proposed) }
        ensures number { result ≡ length (policy_of self.old).rules }
        ensures after { policy_of self.new
            ≡ with_rule (as_proposed kind proposed) (policy_of self.old) }
    {
        let number = self.rules.len() as u32;
        self.rules.push(proposed.of_kind(kind));
        number
    }
}
