// Answers as numbers with two places, and how they are written to the caller's memory.
ghost use Rattle.std.specs.Prelude.{◌≡◌, [], ◌∷◌};
ghost use Rattle.check_soundness.specs.Numbers.{verdict_code};
ghost use Rattle.check_words.specs.Founds.{Finds};

use call_answers::reply::Reply;
use check_verdict::fault::Fault;

// A place that the answer lacks is 0.
#[derive(Clone, Copy, Drop)]
pub struct PlacedReply {
    pub number: u32,
    pub first: u64,
    pub second: u64,
}

// A number with places.
fn told(number: u32, first: usize, second: usize) -> PlacedReply
    ensures { (result.number ≡ number) × (result.first ≡ first) × (result.second ≡ second) }
{
    PlacedReply {
        number,
        first: first as u64,
        second: second as u64,
    }
}

impl From<Reply> for PlacedReply {
    ghost from_gives = { λ reply placed. (placed.number ≡ reply.number) × (placed.first ≡ reply.first) × (placed.second ≡ reply.second) };

    // Returns a refusal's number and values.
    fn from(reply: Reply) -> PlacedReply {
        told(reply.number, reply.first as usize, reply.second as usize)
    }
}

impl From<Result<(), Fault>> for PlacedReply {
    ghost from_gives = { λ verdict placed. Finds (verdict_code verdict) placed };

    fn from(verdict: Result<(), Fault>) -> PlacedReply {
        match verdict {
            Ok(()) => told(0, 0, 0),
            Err(Fault::BadTop) => told(11, 0, 0),
            Err(Fault::Isolines) => told(20, 0, 0),
            Err(Fault::Dots) => told(21, 0, 0),
            Err(Fault::ShouldBeDiscarded) => told(22, 0, 0),
            Err(Fault::NotThrees) => told(23, 0, 0),
            Err(Fault::UnknownIndex { place }) => told(24, place, 0),
            Err(Fault::Outside { point }) => told(25, point, 0),
            Err(Fault::EqualPoints { first, second }) => told(26, first, second),
            Err(Fault::Turned { triangle }) => told(27, triangle, 0),
            Err(Fault::SideTwice { first, second }) => told(28, first, second),
            Err(Fault::OpenSide { triangle, corner }) => told(29, triangle, corner),
            Err(Fault::MissingPiece { piece }) => told(30, piece, 0),
        }
    }
}

// Writes both places, whatever the answer is.
pub fn say(found: PlacedReply, places: &mut [u64; 2]) -> u32
    ensures { (result ≡ found.number) × (places.new ≡ found.first ∷ found.second ∷ []) }
{
    *places = [found.first, found.second];
    found.number
}
