ghost use Rattle.std.specs.Prelude.{◌+◌, ◌<◌, ◌≤◌};
ghost use Rattle.text.specs.Pages.{Appends, HasRoom};
ghost use Rattle.text.specs.Replies.{reply_line, reply_room, reply_text};

use crate::page::Page;
use model::call::Answer;
use policy::refusal::Refusal;

// What is printed for a line: a case for each form that a line of output has.
#[derive(Debug, Clone, Copy, PartialEq, Eq)]
pub enum Reply {
    Done,
    May(bool),
    // the bound of a survey, by its code, and how many masks are reached
    Bound { code: u32, reached: u32 },
    // no bound: nothing leads there
    Never { reached: u32 },
    Refused(Refusal),
}

impl Reply {
    // Writes the reply and a line's end. No `Display`, for the reason that `Page` gives.
    pub(crate) fn write(self, page: &mut Page)
        requires { HasRoom page.old (reply_room self) }
        ensures line { Appends page.old (reply_line self) page.new }
        ensures place { page.new.written ≤ page.old.written + reply_room self }
    {
        self.write_text(page);
        page.push(b"\n");
    }

    // The room is for the line's end too.
    fn write_text(self, page: &mut Page)
        requires { HasRoom page.old (reply_room self) }
        ensures text { Appends page.old (reply_text self) page.new }
        ensures place { page.new.written < page.old.written + reply_room self }
    {
        match self {
            Reply::Done => page.push(b"ok"),
            Reply::May(true) => page.push(b"may 1"),
            Reply::May(false) => page.push(b"may 0"),
            Reply::Bound { code, reached } => {
                page.push_labelled(b"bound ", code);
                page.push_labelled(b" reached ", reached);
            }
            Reply::Never { reached } => page.push_labelled(b"never reached ", reached),
            Reply::Refused(refusal) => page.push_labelled(b"refused ", refusal.number()),
        }
    }
}

impl From<Answer> for Reply {
    ghost use Rattle.std.specs.Prelude.{◌≡◌};
    ghost use Rattle.text.specs.Replies.{reply_to};

    ghost from_gives = { λ answer reply. reply ≡ reply_to answer };

    fn from(answer: Answer) -> Reply {
        match answer {
            Answer::Done => Reply::Done,
            Answer::MayUse(may) => Reply::May(may),
        }
    }
}

impl From<Result<Reply, Refusal>> for Reply {
    ghost use Rattle.std.specs.Prelude.{◌≡◌};
    ghost use Rattle.text.specs.Replies.{reply_or_refused};

    ghost from_gives = { λ answered reply. reply ≡ reply_or_refused answered };

    fn from(answered: Result<Reply, Refusal>) -> Reply {
        answered.unwrap_or_else(Reply::Refused)
    }
}
