//! The length that stands in front of a body, and the body behind it.
ghost use Rattle.std.specs.Prelude.{◌≡◌, ◌≤◌};
ghost use Rattle.pg_messages.specs.Calls.{seen, IsJudged};
ghost use Rattle.pg_messages.specs.Fronts.{frame_at};

use crate::field_fault::FieldFault;
use crate::read::Read;
use pool_base::NoMemory;

/// The most that a message may state as its length, in bytes. The length counts itself and the
/// body, not the type.
pub const MESSAGE_LIMIT: u32 = 1_048_576;

/// The most that a start message may state as its length, in bytes.
pub const START_LIMIT: u32 = 10_000;

/// Where the length stands, and which lengths may be stated.
#[derive(Clone, Copy)]
pub struct Layout {
    pub place: usize,
    pub least: u32,
    pub most: u32,
}

/// A message behind the first one: the length stands behind a type, and counts itself and the body.
pub const MESSAGE: Layout = Layout {
    place: 1,
    least: 4,
    most: MESSAGE_LIMIT,
};

/// The first message of a connection: the length stands at the front, and a code or version
/// follows.
pub const START: Layout = Layout {
    place: 0,
    least: 8,
    most: START_LIMIT,
};

/// The body that the length in front of it tells, and the bytes that the message takes with its
/// type.
#[tactic(auto, unfolding(crate::specs::Fronts::frame_at))]
pub fn frame_of(layout: Layout, bytes: &[u8]) -> Read<&[u8]>
    requires place { layout.place ≤ 1 }
    requires least { 4 ≤ layout.least }
    ensures { seen result ≡ frame_at layout bytes.now }
{
    if bytes.len() < 4 {
        return Read::More;
    }
    let (front, rest) = bytes.split_at(4);
    let stated = u32::from_be_bytes([front[0], front[1], front[2], front[3]]);
    if stated < layout.least {
        return Read::Bad {
            place: layout.place,
        };
    }
    if layout.most < stated {
        return Read::TooLong { stated };
    }
    let length = stated as usize;
    if rest.len() < length - 4 {
        return Read::More;
    }
    let (body, _) = rest.split_at(length - 4);
    Read::Whole {
        message: body,
        length: layout.place + length,
    }
}

/// What the reading of a body says of the message.
pub fn judged<M: Drop>(
    layout: Layout,
    length: usize,
    read: Result<M, FieldFault>,
) -> Result<Read<M>, NoMemory>
    requires { layout.place ≤ 1 }
    ensures { IsJudged layout length read result }
{
    match read {
        Ok(message) => Ok(Read::Whole { message, length }),
        Err(FieldFault::NoMemory) => Err(NoMemory),
        Err(FieldFault::Malformed) => Ok(Read::Bad {
            place: layout.place + 4,
        }),
    }
}
