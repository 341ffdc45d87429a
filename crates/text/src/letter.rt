ghost use Rattle.text.specs.Letters.{NamedBy, kind_letter, toll_letter};

use crate::command::TollKind;
use policy::kind::Kind;
use policy::refusal::Refusal;

// A word of a single byte, by which a line names a kind of rule or of toll: a table of letters for each of the two.
#[derive(Debug, Clone, Copy, PartialEq, Eq)]
pub struct Letter(pub char);

impl TryFrom<Letter> for Kind {
    type Error = Refusal;

    ghost try_from_gives = { λ letter. NamedBy kind_letter letter.0 };

    fn try_from(letter: Letter) -> Result<Kind, Refusal> {
        match letter.0 {
            'e' => Ok(Kind::Enable),
            'd' => Ok(Kind::Disable),
            'a' => Ok(Kind::Assign),
            'r' => Ok(Kind::Revoke),
            _ => Err(Refusal::UnknownKind),
        }
    }
}

impl TryFrom<Letter> for TollKind {
    type Error = Refusal;

    ghost try_from_gives = { λ letter. NamedBy toll_letter letter.0 };

    fn try_from(letter: Letter) -> Result<TollKind, Refusal> {
        match letter.0 {
            'a' => Ok(TollKind::Acts),
            'g' => Ok(TollKind::Grade),
            'c' => Ok(TollKind::Clock),
            _ => Err(Refusal::UnreadableLine),
        }
    }
}
