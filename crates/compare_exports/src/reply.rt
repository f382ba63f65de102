// The answers of comparing as numbers, each with the number of differences, or 0.
ghost use Rattle.std.specs.Prelude.{◌≡◌, ◌+◌};
ghost use Rattle.compare_meshes.specs.Answers.{comparison_code};
ghost use Rattle.compare_exports.specs.Calls.{comparison_reply, shift_of};

use compare_meshes::answer::{CompareRefusal, Fault};

#[derive(Clone, Copy, Drop)]
pub struct CountReply {
    pub number: u32,
    pub count: u64,
}

// The position of a fault among the three numbers of its side.
// Kept: a function, since only the crate of `Fault` may say how `From` makes a `u32` of it.
fn shift_of(fault: Fault) -> u32
    ensures { result ≡ shift_of fault }
{
    match fault {
        Fault::NotThrees => 0,
        Fault::UnknownIndex => 1,
        Fault::EqualPoints => 2,
    }
}

impl From<Result<usize, CompareRefusal>> for CountReply {
    ghost from_gives = { λ answer reply. reply ≡ comparison_reply (comparison_code answer) };

    fn from(answer: Result<usize, CompareRefusal>) -> CountReply {
        match answer {
            Ok(n) => CountReply {
                number: 0,
                count: n as u64,
            },
            Err(CompareRefusal::NoRoom(n)) => CountReply {
                number: 40,
                count: n as u64,
            },
            Err(CompareRefusal::Left(fault)) => CountReply {
                number: 41 + shift_of(fault),
                count: 0,
            },
            Err(CompareRefusal::Right(fault)) => CountReply {
                number: 44 + shift_of(fault),
                count: 0,
            },
        }
    }
}
