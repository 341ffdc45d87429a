ghost use Rattle.std.specs.Prelude.{◌≤◌};
ghost use Rattle.model.specs.Held.{WithinRoles};

use policy::table::PolicyTable;
use roster::traits::Roster;

// A register in force: its policy stays, its clock ticks, and acts change what its roster holds. What it stands for is named
// by `state_of` and not by a model: a model's value needs a code, and what is held is a function.
#[derive(Drop)]
pub struct Register<R: Roster> {
    pub(crate) table: PolicyTable,
    pub(crate) roster: R,
    pub(crate) clock: u32,
    ghost ticking: { clock ≤ 1000000000 },
    // only roles that there are are held
    ghost within_roles: { WithinRoles table.sizes.roles (R.held roster) },
}
