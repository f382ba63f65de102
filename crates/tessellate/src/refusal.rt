// Why nothing was drawn.
ghost use Rattle.std.specs.Prelude.{◌≡◌};
ghost use Rattle.tessellate.specs.Refusals.{refusal_of};

use measure::cut::NotDrawn;

#[derive(Clone, Copy, Debug, PartialEq, Eq, Drop)]
pub enum DrawRefusal {
    BadTop,
    Discarded,
    NoRoomForVertices,
    NoRoomForIndices,
}

impl From<NotDrawn> for DrawRefusal {
    ghost from_gives = { λ reason refusal. refusal ≡ refusal_of reason };

    fn from(reason: NotDrawn) -> DrawRefusal {
        match reason {
            NotDrawn::BadTop => DrawRefusal::BadTop,
            NotDrawn::Discarded => DrawRefusal::Discarded,
        }
    }
}
