// Why drawing into a designer's part is refused.
ghost use Rattle.std.specs.Prelude.{◌≡◌};
ghost use Rattle.share_answers.specs.Refusals.{share_refusal_of};

use measure::cut::NotDrawn;

#[derive(Clone, Copy, Debug, PartialEq, Eq, Drop)]
pub enum ShareRefusal {
    Discarded,
    NoRoomForVertices,
    NoRoomForIndices,
    BadTop,
    TooManyPoints,
    BadState,
}

impl From<NotDrawn> for ShareRefusal {
    ghost from_gives = { λ reason refusal. refusal ≡ share_refusal_of reason };

    fn from(reason: NotDrawn) -> ShareRefusal {
        match reason {
            NotDrawn::BadTop => ShareRefusal::BadTop,
            NotDrawn::Discarded => ShareRefusal::Discarded,
        }
    }
}
