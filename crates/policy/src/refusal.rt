ghost use Rattle.std.specs.Prelude.{◌≡◌};
ghost use Rattle.policy.specs.Refusals.{report};

use std::error::Error;
use std::fmt;

// Why a call was turned away. Each case has its number; those of a certificate's line have the line, and the rule.
#[derive(Debug, Clone, Copy, PartialEq, Eq)]
pub enum Refusal {
    SizeOutOfRange,
    SizeTooLate,
    UnknownKind,
    RoleOutOfRange,
    BadSchedule,
    NeedSharesBar,
    GradeTooHigh,
    BadRow,
    NoSuchPermission,
    OutsideRoleSchedule,
    BadLength,
    OtherToll,
    WatchOutOfRange,
    TooManyLines,
    BadMask { line: u32 },
    BadValue { line: Option<u32> },
    TooManyRules,
    NoSuchRule,
    ClockAtEnd,
    OutsideRuleSchedule,
    OfficerLacksRole,
    RoleNotEnabled,
    NeedOrBarFails,
    ListedMaskCarries { line: u32 },
    PresentMaskNotListed,
    StepNotListed { line: u32, rule: u32 },
    TooManyRoles,
    TableTooShort,
    BufferTooShort,
    UnreadableLine,
    WrongStage,
    TextTooLong,
    OutputTooShort,
}

impl Refusal {
    // The number by which the refusal is reported.
    pub fn number(self) -> u32
        ensures { result ≡ (report self).number }
    {
        match self {
            Refusal::SizeOutOfRange => 1,
            Refusal::SizeTooLate => 2,
            Refusal::UnknownKind => 10,
            Refusal::RoleOutOfRange => 11,
            Refusal::BadSchedule => 12,
            Refusal::NeedSharesBar => 13,
            Refusal::GradeTooHigh => 14,
            Refusal::BadRow => 15,
            Refusal::NoSuchPermission => 16,
            Refusal::OutsideRoleSchedule => 17,
            Refusal::BadLength => 20,
            Refusal::OtherToll => 21,
            Refusal::WatchOutOfRange => 22,
            Refusal::TooManyLines => 23,
            Refusal::BadMask { .. } => 24,
            Refusal::BadValue { .. } => 25,
            Refusal::TooManyRules => 30,
            Refusal::NoSuchRule => 31,
            Refusal::ClockAtEnd => 32,
            Refusal::OutsideRuleSchedule => 33,
            Refusal::OfficerLacksRole => 34,
            Refusal::RoleNotEnabled => 35,
            Refusal::NeedOrBarFails => 36,
            Refusal::ListedMaskCarries { .. } => 40,
            Refusal::PresentMaskNotListed => 41,
            Refusal::StepNotListed { .. } => 42,
            Refusal::TooManyRoles => 43,
            Refusal::TableTooShort => 44,
            Refusal::BufferTooShort => 45,
            Refusal::UnreadableLine => 50,
            Refusal::WrongStage => 51,
            Refusal::TextTooLong => 52,
            Refusal::OutputTooShort => 53,
        }
    }

    // The line of the certificate at fault, where the refusal names one.
    pub fn line(self) -> Option<u32>
        ensures { result ≡ (report self).line }
    {
        match self {
            Refusal::BadMask { line } => Some(line),
            Refusal::BadValue { line } => line,
            Refusal::ListedMaskCarries { line } => Some(line),
            Refusal::StepNotListed { line, .. } => Some(line),
            _ => None,
        }
    }

    // The rule whose step is at fault, where the refusal names one.
    pub fn rule(self) -> Option<u32>
        ensures { result ≡ (report self).rule }
    {
        match self {
            Refusal::StepNotListed { rule, .. } => Some(rule),
            _ => None,
        }
    }
}

// Printed as `refused` and the number.
impl fmt::Display for Refusal {
    ghost use Rattle.std.specs.Prelude.{Some};
    ghost use Rattle.policy.specs.Refusals.{refusal_text};

    ghost output = { λ refusal. Some (refusal_text refusal) };

    fn fmt<W: fmt::Write>(&self, f: &mut fmt::Formatter<W>) -> fmt::Result {
        let number = self.number();
        write!(f, "refused {number}")
    }
}

impl Error for Refusal {}
