ghost use Rattle.std.specs.Prelude.{◌≡◌};
ghost use Rattle.policy.specs.Kinds.{adds, changes};

use crate::limits::ENABLED_ROW;

// What a rule does with its role: enable or disable it for everybody, assign it to or revoke it from a person.
#[derive(Debug, Clone, Copy, PartialEq, Eq, Default)]
pub enum Kind {
    #[default]
    Enable,
    Disable,
    Assign,
    Revoke,
}

impl Kind {
    // Enable and assign add the role, disable and revoke take it.
    pub fn adds(self) -> bool
        ensures { result ≡ adds self }
    {
        match self {
            Kind::Enable | Kind::Assign => true,
            Kind::Disable | Kind::Revoke => false,
        }
    }

    // Enable and disable change row 0, assign and revoke a person's row.
    pub fn changes(self, row: u32) -> bool
        ensures { result ≡ changes self row }
    {
        match self {
            Kind::Enable | Kind::Disable => row == ENABLED_ROW,
            Kind::Assign | Kind::Revoke => row != ENABLED_ROW,
        }
    }
}
