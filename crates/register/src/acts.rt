ghost use Rattle.std.specs.Prelude.{◌≡◌, ◌↔◌, IsOk, Some, None, OnErr, OnOk};
ghost use Rattle.policy.specs.Kinds.{adds};
ghost use Rattle.policy.specs.Policies.{IsRule};
ghost use Rattle.policy.specs.Tables.{policy_of};
ghost use Rattle.policy.specs.Refusals.{answered, first_failing};
ghost use Rattle.roster.specs.Holdings.{changed, mask};
ghost use Rattle.model.specs.Acts.{Allowed, ChangedBy, act_refusal, act_tests, acted, meets_at, meets_in, rows_fit};
ghost use Rattle.model.specs.States.{slot_now, tick_refusal, ticked};
ghost use Rattle.register.specs.Memory.{state_of};
ghost use Rattle.std.specs.List.{slice_get};

use crate::in_force::Register;
use model::call::OfficerAct;
use policy::limits::{ENABLED_ROW, LAST_TICK};
use policy::masks::{has_bit, is_inside};
use policy::refusal::Refusal;
use policy::rule::Rule;
use roster::traits::Roster;

impl<R: Roster> Register<R> {
    // The slot of the repeating clock.
    pub(crate) fn slot_now(&self) -> u32
        ensures { result ≡ slot_now (state_of self.now) }
    {
        self.clock % self.table.sizes.slots
    }

    // The mask of the roles that the row holds in the slot.
    pub(crate) fn mask(&self, row: u32, slot: u32) -> u16
        ensures { result ≡ mask (state_of self.now).held row slot }
    {
        self.roster.mask(row, slot)
    }

    // Whether the row holds the role in the slot.
    fn holds(&self, row: u32, slot: u32, role: u32) -> bool
        ensures { result ≡ (state_of self.now).held row slot role }
    {
        has_bit(self.mask(row, slot) as u32, role)
    }

    // Whether the target row meets the rule in the slot, if the part has that slot. An act has its rule by number; the rule that
    // was found goes beside it from here on, as in the model.
    fn meets_at(&self, rule: Rule, act: OfficerAct, slot: u32) -> bool
        ensures { result ≡ meets_at (state_of self.now).held rule act.target act.part slot }
    {
        !has_bit(act.part, slot) || rule.meets(self.mask(act.target, slot))
    }

    // Whether the target row meets the rule in every slot of the part.
    fn meets_in(&self, rule: Rule, act: OfficerAct) -> bool
        ensures { result ≡ meets_in
            (state_of self.now).held rule act.target act.part self.now.table.sizes.slots }
    {
        (0..self.table.sizes.slots).all(|slot| self.meets_at(rule, act, slot))
    }

    // Whether officer and target are rows that an act by the rule may name.
    fn rows_fit(&self, rule: Rule, act: OfficerAct) -> bool
        ensures { result ≡ rows_fit (policy_of self.now.table) rule act }
    {
        let persons = self.table.sizes.persons;
        (1..=persons).contains(&act.officer)
            && act.target <= persons
            && rule.kind.changes(act.target)
    }

    // Refuses an act by the rule, if a rule of time is against it.
    fn test(&self, rule: Rule, act: OfficerAct) -> Result<(), Refusal>
        ensures { result ≡ answered (first_failing (act_tests (state_of self.now) rule act)) tt }
    {
        if !self.rows_fit(rule, act) {
            return Err(Refusal::BadRow);
        }
        if !self.table.schedule_fits(act.part) {
            return Err(Refusal::BadSchedule);
        }
        if !is_inside(act.part, rule.role_schedule) {
            return Err(Refusal::OutsideRoleSchedule);
        }
        let slot = self.slot_now();
        if !has_bit(rule.rule_schedule, slot) {
            return Err(Refusal::OutsideRuleSchedule);
        }
        if !self.holds(act.officer, slot, rule.officer) {
            return Err(Refusal::OfficerLacksRole);
        }
        if !self.holds(ENABLED_ROW, slot, rule.officer) {
            return Err(Refusal::RoleNotEnabled);
        }
        if !self.meets_in(rule, act) {
            return Err(Refusal::NeedOrBarFails);
        }
        Ok(())
    }

    // Moves the clock on by one tick.
    pub fn tick(&mut self) -> Result<(), Refusal>
        ensures answer { result ≡ answered (tick_refusal (state_of self.old)) tt }
        ensures after { state_of self.new ≡ ticked (state_of self.old) }
        ensures kept { OnErr result (self.new ≡ self.old) }
    {
        if self.clock >= LAST_TICK {
            return Err(Refusal::ClockAtEnd);
        }
        self.clock += 1;
        Ok(())
    }

    // An officer acts by a rule: it adds or takes the rule's role in the target row for the slots of the part.
    pub fn act(&mut self, act: OfficerAct) -> Result<(), Refusal>
        ensures answer { result ≡ answered (act_refusal (state_of self.old) act) tt }
        ensures after { state_of self.new ≡ acted (state_of self.old) act }
        ensures kept { OnErr result (self.new ≡ self.old) }
        ensures allowed { IsOk result ↔ Allowed (state_of self.old) act }
        ensures changes { OnOk result ((found : Rule)
            → IsRule (policy_of self.old.table) act.rule found
            → ChangedBy found act.target act.part (state_of self.old) (state_of self.new)) }
    {
        self.attempt(act)
    }

    // Tests the act, and carries it out if no test fails.
    fn attempt(&mut self, act: OfficerAct) -> Result<(), Refusal>
        ensures answer { result ≡ answered (act_refusal (state_of self.old) act) tt }
        ensures after { state_of self.new ≡ acted (state_of self.old) act }
        ensures kept { OnErr result (self.new ≡ self.old) }
    {
        let rule = self.table.rule(act.rule).ok_or(Refusal::NoSuchRule)?;
        self.test(rule, act)?;
        self.carry_out(rule, act);
        Ok(())
    }

    // Carries out an act of which no test fails.
    fn carry_out(&mut self, rule: Rule, act: OfficerAct)
        requires is_rule { Some rule ≡ slice_get (policy_of self.old.table).rules act.rule }
        requires passes { None ≡ first_failing (act_tests (state_of self.old) rule act) }
        ensures { state_of self.new ≡ acted (state_of self.old) act }
    {
        apply(&mut self.roster, rule, act);
    }
}

// Adds or takes the rule's role in the target row for the slots of the part.
fn apply<R: Roster>(roster: &mut R, rule: Rule, act: OfficerAct)
    ensures { R.held roster.new
        ≡ changed (adds rule.kind) act.target rule.role act.part (R.held roster.old) }
{
    if rule.kind.adds() {
        roster.add(act.target, rule.role, act.part);
    } else {
        roster.take(act.target, rule.role, act.part);
    }
}
