// What a run writes for a record.
ghost use Rattle.std.specs.Prelude.{◌≡◌};
ghost use Rattle.run.specs.Meanings.{unread_reply};

use crate::record::Unreadable;
use crate::refusal::Refusal;
use methods::Divisor;

// Nothing; or a register and its divisor; or a record's kind, and why it is refused. The kind is a byte, since it may be one that
// no record has. A Result of an Option of a pair would number what has names here.
#[derive(Clone, Copy, Debug, PartialEq, Eq, Hash)]
pub enum Reply {
    Silent,
    Shown(u8, Divisor),
    Refused(u8, Refusal),
}

// What is written where a sheet has no record more but bytes.
impl From<Unreadable> for Reply {
    ghost from_gives = { λ why reply. reply ≡ unread_reply why };

    fn from(why: Unreadable) -> Reply {
        match why {
            Unreadable::Short(kind) => Reply::Refused(kind, Refusal::Short),
            Unreadable::Unknown(kind) => Reply::Refused(kind, Refusal::Unknown),
        }
    }
}
