use policy::rule::ProposedRule;

// A call that a draft takes.
#[derive(Debug, Clone, Copy, PartialEq, Eq)]
pub enum DraftCall {
    Size {
        roles: u32,
        slots: u32,
        persons: u32,
    },
    Put {
        row: u32,
        role: u32,
        schedule: u32,
    },
    Perm {
        permission: u32,
        mask: u32,
    },
    Rule(ProposedRule),
}

// An act of an officer: by which rule, on which target row, for which part of the slots. Its four numbers always go together;
// calls with two or three take them as they are.
#[derive(Debug, Clone, Copy, PartialEq, Eq)]
pub struct OfficerAct {
    pub rule: u32,
    pub officer: u32,
    pub target: u32,
    pub part: u32,
}

// A call that a register in force takes.
#[derive(Debug, Clone, Copy, PartialEq, Eq)]
pub enum Call {
    Tick,
    Act(OfficerAct),
    May { person: u32, permission: u32 },
}

// What a register in force answers to a call that it accepts.
#[derive(Debug, Clone, Copy, PartialEq, Eq)]
pub enum Answer {
    Done,
    MayUse(bool),
}
