ghost use Rattle.std.specs.Prelude.{◌≤◌};

use crate::command::{Command, TollKind};
use crate::reply::Reply;
use history::take::TakesCalls;
use policy::refusal::Refusal;
use policy::watch::Watch;
use register::draft::Draft;
use register::in_force::Register;
use register::surveys::Survey;
use roster::traits::Roster;
use toll::acts::Acts;
use toll::clock::Clock;
use toll::grade::Grade;
use toll::traits::Toll;

// A plan as far as it was executed: still drafted, or in force.
#[derive(Drop)]
pub enum Session<R: Roster> {
    Drafting(Draft<R>),
    InForce(Register<R>),
}

impl<R: Roster> Session<R> {
    // A plan of which nothing was executed yet; the roster is emptied.
    pub fn begin(roster: R) -> Session<R> {
        Session::Drafting(Draft::begin(roster))
    }

    // Executes a line's command and answers it. A survey fills the table.
    pub fn execute(mut self, command: Command, table: &mut [Option<u64>]) -> (Session<R>, Reply) {
        let reply = self.take(command, table);
        if matches!(command, Command::Force) {
            self = self.put_in_force();
        }
        (self, reply)
    }

    // Takes a command in place and answers it; whoever takes `force` then puts the plan in force. Stage and command are matched:
    // each case holds a value of its own type.
    pub(crate) fn take(&mut self, command: Command, table: &mut [Option<u64>]) -> Reply {
        let reply = match self {
            Session::Drafting(draft) => take_drafting(draft, command),
            Session::InForce(register) => take_in_force(register, command, table),
        };
        reply.into()
    }

    // The plan in force. Only this moves a draft or a register, some three kilobytes.
    pub(crate) fn put_in_force(self) -> Session<R> {
        match self {
            Session::Drafting(draft) => Session::InForce(draft.force()),
            Session::InForce(register) => Session::InForce(register),
        }
    }
}

fn take_drafting<R: Roster>(draft: &mut Draft<R>, command: Command) -> Result<Reply, Refusal> {
    match command {
        Command::Draft(call) => draft.take(call).map(|()| Reply::Done),
        Command::Force => Ok(Reply::Done),
        Command::InForce(_) | Command::Survey { .. } => Err(Refusal::WrongStage),
    }
}

// A kind of toll is a type, so each has its own arm; a closure cannot take a type.
fn take_in_force<R: Roster>(
    register: &mut Register<R>,
    command: Command,
    table: &mut [Option<u64>],
) -> Result<Reply, Refusal> {
    match command {
        Command::InForce(call) => register.take(call).map(Reply::from),
        Command::Survey { toll, watch } => match toll {
            TollKind::Acts => surveyed::<R, Acts>(register, watch, table),
            TollKind::Grade => surveyed::<R, Grade>(register, watch, table),
            TollKind::Clock => surveyed::<R, Clock>(register, watch, table),
        },
        Command::Draft(_) | Command::Force => Err(Refusal::WrongStage),
    }
}

// A survey by one kind of toll, whose codes fit 32 bits.
fn surveyed<R: Roster, K: Toll>(
    register: &Register<R>,
    watch: Watch,
    table: &mut [Option<u64>],
) -> Result<Reply, Refusal>
    requires { K.kind.width ≤ 32 }
{
    let survey = register.survey::<K>(watch, table)?;
    Ok(reply_of(survey))
}

// No `From`, which may ask for nothing: the codes have to fit 32 bits here.
fn reply_of<K: Toll>(survey: Survey<K>) -> Reply
    requires { K.kind.width ≤ 32 }
{
    let reached = survey.reached;
    match survey.bound {
        Some(bound) => Reply::Bound {
            code: bound.code() as u32,
            reached,
        },
        None => Reply::Never { reached },
    }
}
