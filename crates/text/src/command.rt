ghost use Rattle.std.specs.Prelude.{◌≡◌, ◌≤◌, ◌∷◌, [], ◌++◌, codes, decimal, length, map, IfSome, OnSome};
ghost use Rattle.text.specs.Commands.{Spells, SpellsCall, SpellsDraft};
ghost use Rattle.text.specs.Pieces.{words_left, words_of};

use crate::line::Line;
use crate::word::Word;
use model::call::{Call, DraftCall, OfficerAct};
use policy::kind::Kind;
use policy::rule::ProposedRule;
use policy::watch::Watch;

// The kind of toll that a survey asks for.
#[derive(Debug, Clone, Copy, PartialEq, Eq)]
pub enum TollKind {
    Acts,
    Grade,
    Clock,
}

// What a readable line asks for.
#[derive(Debug, Clone, Copy, PartialEq, Eq)]
pub enum Command {
    Draft(DraftCall),
    Force,
    InForce(Call),
    Survey { toll: TollKind, watch: Watch },
}

impl Command {
    // The command that the line spells, if it is readable. No command is shorter than `tick`.
    pub fn read(bytes: &[u8], number: u32) -> Option<Command>
        ensures long { OnSome result (4 ≤ length bytes.now) }
        ensures spelled { IfSome result (λ command. Spells command (words_of bytes.now) []) }
    {
        if bytes.len() < 4 {
            return None;
        }
        let mut line = Line::new(bytes, number);
        let Word::Name { part, .. } = line.next()? else {
            return None;
        };
        let command = named(part, &mut line)?;
        line.is_over().then_some(command)
    }
}

// The command of that name, with what the line says of it. A match, since the commands hold calls of three sorts; a table of
// functions would need one type for all, and a search for the name.
fn named(name: &[u8], line: &mut Line) -> Option<Command>
    ensures { IfSome result (λ command. Spells command (name.now ∷ words_left line.old.rest)
        (words_left line.new.rest)) }
{
    match name {
        b"size" => size(line).map(Command::Draft),
        b"put" => put(line).map(Command::Draft),
        b"perm" => perm(line).map(Command::Draft),
        b"rule" => rule(line).map(Command::Draft),
        b"force" => Some(Command::Force),
        b"tick" => Some(Command::InForce(Call::Tick)),
        b"act" => act(line).map(Command::InForce),
        b"may" => may(line).map(Command::InForce),
        b"survey" => survey(line),
        _ => None,
    }
}

// One reader for each command with numbers: which number is what is all that it says.

fn size(line: &mut Line) -> Option<DraftCall>
    ensures { IfSome result (λ call. SpellsDraft call (codes "size" ∷ words_left line.old.rest)
        (words_left line.new.rest)) }
{
    let [roles, slots, persons] = line.numbers::<3>()?;
    Some(DraftCall::Size {
        roles,
        slots,
        persons,
    })
}

fn put(line: &mut Line) -> Option<DraftCall>
    ensures { IfSome result (λ call. SpellsDraft call (codes "put" ∷ words_left line.old.rest)
        (words_left line.new.rest)) }
{
    let [row, role, schedule] = line.numbers::<3>()?;
    Some(DraftCall::Put {
        row,
        role,
        schedule,
    })
}

fn perm(line: &mut Line) -> Option<DraftCall>
    ensures { IfSome result (λ call. SpellsDraft call (codes "perm" ∷ words_left line.old.rest)
        (words_left line.new.rest)) }
{
    let [permission, mask] = line.numbers::<2>()?;
    Some(DraftCall::Perm { permission, mask })
}

// A letter that names no kind is readable, and the draft refuses it.
fn rule(line: &mut Line) -> Option<DraftCall>
    ensures { IfSome result (λ call. SpellsDraft call (codes "rule" ∷ words_left line.old.rest)
        (words_left line.new.rest)) }
{
    let kind = Kind::try_from(line.letter()?).ok();
    let [
        officer,
        rule_schedule,
        need,
        bar,
        role_schedule,
        role,
        grade,
    ] = line.numbers::<7>()?;
    Some(DraftCall::Rule(ProposedRule {
        kind,
        officer,
        rule_schedule,
        need,
        bar,
        role_schedule,
        role,
        grade,
    }))
}

fn act(line: &mut Line) -> Option<Call>
    ensures { IfSome result (λ call. SpellsCall call (codes "act" ∷ words_left line.old.rest)
        (words_left line.new.rest)) }
{
    let [rule, officer, target, part] = line.numbers::<4>()?;
    Some(Call::Act(OfficerAct {
        rule,
        officer,
        target,
        part,
    }))
}

fn may(line: &mut Line) -> Option<Call>
    ensures { IfSome result (λ call. SpellsCall call (codes "may" ∷ words_left line.old.rest)
        (words_left line.new.rest)) }
{
    let [person, permission] = line.numbers::<2>()?;
    Some(Call::May { person, permission })
}

// A letter that names no kind of toll is unreadable.
fn survey(line: &mut Line) -> Option<Command>
    ensures { IfSome result (λ command. Spells command (codes "survey" ∷ words_left line.old.rest)
        (words_left line.new.rest)) }
{
    let toll = TollKind::try_from(line.letter()?).ok()?;
    let [row, slot, permission] = line.numbers::<3>()?;
    Some(Command::Survey {
        toll,
        watch: Watch {
            row,
            slot,
            permission,
        },
    })
}
