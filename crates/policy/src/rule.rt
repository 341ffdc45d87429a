ghost use Rattle.std.specs.Prelude.{◌≡◌, ◌<◌, ◌^◌};
ghost use Rattle.policy.specs.Policies.{as_proposed};
ghost use Rattle.policy.specs.Rules.{meets};

use crate::kind::Kind;
use crate::masks::{are_apart, is_inside};

// An administrative rule: in the slots of its rule schedule, whoever holds the officer role may add or take the role, in
// slots of the role schedule, in rows that hold all roles of need and none of bar. The default stands where a table has no
// rule yet.
#[derive(Debug, Clone, Copy, PartialEq, Eq, Default)]
pub struct Rule {
    pub kind: Kind,
    pub officer: u32,
    pub rule_schedule: u32,
    pub need: u16,
    pub bar: u16,
    pub role_schedule: u32,
    pub role: u32,
    pub grade: u32,
}

impl Rule {
    // Whether the mask has all roles of need and none of bar.
    pub fn meets(self, mask: u16) -> bool
        ensures { result ≡ meets self mask }
    {
        is_inside(self.need as u32, mask as u32) && are_apart(self.bar as u32, mask as u32)
    }
}

// A rule as somebody proposes it to a draft: any numbers may stand in it, and no kind where its letter names none.
#[derive(Debug, Clone, Copy, PartialEq, Eq)]
pub struct ProposedRule {
    pub kind: Option<Kind>,
    pub officer: u32,
    pub rule_schedule: u32,
    pub need: u32,
    pub bar: u32,
    pub role_schedule: u32,
    pub role: u32,
    pub grade: u32,
}

impl ProposedRule {
    // The rule that is proposed, of that kind. No `From`, which may ask for nothing: both masks have to fit 16 bits.
    pub(crate) fn of_kind(self, kind: Kind) -> Rule
        requires need { self.need < 2 ^ 16 }
        requires bar { self.bar < 2 ^ 16 }
        ensures { result ≡ as_proposed kind self }
    {
        Rule {
            kind,
            officer: self.officer,
            rule_schedule: self.rule_schedule,
            need: self.need as u16,
            bar: self.bar as u16,
            role_schedule: self.role_schedule,
            role: self.role,
            grade: self.grade,
        }
    }
}
