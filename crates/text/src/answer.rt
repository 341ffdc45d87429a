ghost use Rattle.std.specs.Prelude.{◌≡◌, ◌+◌, ◌*◌, ◌<◌, ◌≤◌, max, length, drop, IfOk, OnErr, MatchResult, Some, None};
ghost use Rattle.text.specs.Pages.{HasRoom, Continues};
ghost use Rattle.text.specs.Texts.{text_refusal};

use crate::command::Command;
use crate::lines::Lines;
use crate::page::Page;
use crate::reply::Reply;
use crate::session::Session;
use policy::refusal::Refusal;
use roster::traits::Roster;

// the longest text that is answered, in bytes
pub const MAX_TEXT: usize = 5000;
// the bytes of output that each byte of text may need
pub const OUTPUT_PER_BYTE: usize = 11;
// the entries of the table that surveys fill, one for each mask of 12 roles; the search, which has that limit, is none of the
// crates that this one knows
const SURVEY_TABLE: usize = 4096;

// Executes a plan line by line over the roster, which is emptied first, and writes a line of output for each. Answers how
// many bytes were written.
pub fn answer<R: Roster + Drop>(roster: R, text: &[u8], out: &mut [u8]) -> Result<usize, Refusal>
    ensures answer { MatchResult result
        (λ _. None ≡ text_refusal (length text.now) (length out.old))
        (λ refusal. Some refusal ≡ text_refusal (length text.now) (length out.old)) }
    ensures written { IfOk result (λ written. written ≤ length out.new) }
    ensures rest { IfOk result (λ written. drop written out.new ≡ drop written out.old) }
    ensures kept { OnErr result (out.new ≡ out.old) }
{
    if text.len() > MAX_TEXT {
        return Err(Refusal::TextTooLong);
    }
    if out.len() < OUTPUT_PER_BYTE * text.len() {
        return Err(Refusal::OutputTooShort);
    }
    Ok(answer_lines(Session::begin(roster), text, out))
}

// Executes every line of the text, one after the other.
fn answer_lines<R: Roster + Drop>(mut session: Session<R>, text: &[u8], out: &mut [u8]) -> usize
    requires { 11 * length text.now ≤ length out.old }
    ensures written { result ≤ length out.new }
    ensures rest { drop result out.new ≡ drop result out.old }
{
    let mut table = [None; SURVEY_TABLE];
    let mut page = Page::new(out);
    for (number, line) in Lines(text).enumerate() {
        let number = u32::try_from(number).unwrap_or(u32::MAX);
        let forces = answer_line(&mut session, line, number, &mut table, &mut page);
        if forces {
            session = session.put_in_force();
        }
    }
    page.written()
}

// Executes one line, and writes its outcome. Whether the plan is to be put in force.
fn answer_line<R: Roster>(
    session: &mut Session<R>,
    line: &[u8],
    number: u32,
    table: &mut [Option<u64>],
    page: &mut Page,
) -> bool
    requires { HasRoom page.old (11 * max 1 (length line.now)) }
    ensures place { page.new.written ≤ page.old.written + 11 * max 1 (length line.now) }
    ensures page { Continues page.old page.new }
{
    let Some(command) = Command::read(line, number) else {
        Reply::Refused(Refusal::UnreadableLine).write(page);
        return false;
    };
    session.take(command, table).write(page);
    matches!(command, Command::Force)
}
