// Why nothing was drawn into the three lists.
ghost use Rattle.std.specs.Prelude.{◌≡◌};
ghost use Rattle.draw_floats.specs.Answers.{floats_refusal_of};

use measure::cut::NotDrawn;

// Kept: four of the names of `tessellate::refusal::DrawRefusal` stand here again, as that type has no refusal for the room for floats.
#[derive(Clone, Copy, Debug, PartialEq, Eq, Drop)]
pub enum FloatsRefusal {
    BadTop,
    Discarded,
    NoRoomForVertices,
    NoRoomForIndices,
    NoRoomForFloats,
}

impl From<NotDrawn> for FloatsRefusal {
    ghost from_gives = { λ reason refusal. refusal ≡ floats_refusal_of reason };

    fn from(reason: NotDrawn) -> FloatsRefusal {
        match reason {
            NotDrawn::BadTop => FloatsRefusal::BadTop,
            NotDrawn::Discarded => FloatsRefusal::Discarded,
        }
    }
}
