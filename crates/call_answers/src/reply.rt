// Answers as a number with two values, and how they are written to the caller's memory.
ghost use Rattle.std.specs.Prelude.{◌≡◌, [], ◌∷◌, ◌<◌};
ghost use Rattle.measure.specs.Sizes.{size_code};
ghost use Rattle.tessellate.specs.Answers.{list_code};
ghost use Rattle.tessellate.specs.Refusals.{refusal_of, refusal_code};
ghost use Rattle.answer_codes.specs.AnswerCode.{refused, drew_both};
ghost use Rattle.call_answers.specs.Replies.{IsReply, unknown_setting, bad_top};

use measure::cut::NotDrawn;
use measure::size::Size;
use tessellate::refusal::DrawRefusal;

// A value that the answer lacks is 0.
// Kept: a number and two values in place of an enum, as the C interface answers by a number and words.
#[derive(Clone, Copy, Debug, PartialEq, Eq, Drop)]
pub struct Reply {
    pub number: u32,
    pub first: u32,
    pub second: u32,
}

// A number without values.
pub fn refusal(number: u32) -> Reply
    ensures { IsReply (refused number) result }
{
    Reply {
        number,
        first: 0,
        second: 0,
    }
}

// The number 0 with two values.
pub fn success(first: u32, second: u32) -> Reply
    ensures { IsReply (drew_both first second) result }
{
    Reply {
        number: 0,
        first,
        second,
    }
}

pub fn bad_top() -> Reply
    ensures { IsReply bad_top result }
{
    refusal(11)
}

pub fn unknown_setting(place: usize) -> Reply
    requires { place < 5 }
    ensures { IsReply (unknown_setting place) result }
{
    Reply {
        number: 8,
        first: place as u32,
        second: 0,
    }
}

impl From<DrawRefusal> for Reply {
    ghost from_gives = { λ reason reply. IsReply (refusal_code reason) reply };

    fn from(reason: DrawRefusal) -> Reply {
        match reason {
            DrawRefusal::Discarded => refusal(1),
            DrawRefusal::NoRoomForVertices => refusal(3),
            DrawRefusal::NoRoomForIndices => refusal(4),
            DrawRefusal::BadTop => bad_top(),
        }
    }
}

impl From<NotDrawn> for Reply {
    ghost from_gives = { λ reason reply. IsReply (refusal_code (refusal_of reason)) reply };

    fn from(reason: NotDrawn) -> Reply {
        Reply::from(DrawRefusal::from(reason))
    }
}

// The answer of one drawing operation, with the count of its list.
pub fn of_drawn(answer: Result<u32, DrawRefusal>) -> Reply
    ensures { IsReply (list_code answer) result }
{
    match answer {
        Ok(count) => success(count, 0),
        Err(reason) => Reply::from(reason),
    }
}

pub fn of_size(answer: Result<Size, NotDrawn>) -> Reply
    ensures { IsReply (size_code answer) result }
{
    match answer {
        Ok(size) => success(size.points, size.indices),
        Err(reason) => Reply::from(reason),
    }
}

// Writes both values, whatever the answer is.
pub fn say_two(reply: Reply, counts: &mut [u32; 2]) -> u32
    ensures { (result ≡ reply.number) × (counts.new ≡ reply.first ∷ reply.second ∷ []) }
{
    *counts = [reply.first, reply.second];
    reply.number
}

// Writes the value of an answer that has only one.
pub fn say_one(reply: Reply, count: &mut [u32; 1]) -> u32
    ensures { (result ≡ reply.number) × (count.new ≡ reply.first ∷ []) }
{
    *count = [reply.first];
    reply.number
}
