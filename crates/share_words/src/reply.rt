// Answers as numbers.
ghost use Rattle.call_answers.specs.Replies.{IsReply};
ghost use Rattle.share_answers.specs.Answers.{draw_code};

use call_answers::reply::{Reply, bad_top, refusal, success};
use measure::size::DrawnCounts;
use share_answers::answer::ShareRefusal;

pub fn of_draw(answer: Result<DrawnCounts, ShareRefusal>) -> Reply
    ensures { IsReply (draw_code answer) result }
{
    match answer {
        Ok(counts) => success(counts.points, counts.indices),
        Err(ShareRefusal::Discarded) => refusal(1),
        Err(ShareRefusal::NoRoomForVertices) => refusal(3),
        Err(ShareRefusal::NoRoomForIndices) => refusal(4),
        Err(ShareRefusal::BadTop) => bad_top(),
        Err(ShareRefusal::TooManyPoints) => refusal(13),
        Err(ShareRefusal::BadState) => refusal(14),
    }
}
