// An answer as a number, and as the words in memory.
ghost use Rattle.std.specs.Prelude.{◌≡◌, Err};
ghost use Rattle.replay.specs.ReplayCode.{replay_code};
ghost use Rattle.replay_exports.specs.Calls.{call_number, seven_words};

use replay::answer::ReplayFailure;
use replay_entry::outcome::Outcome;

pub(crate) fn number_of(answer: Result<u64, ReplayFailure>) -> u32
    ensures { result ≡ call_number answer }
{
    match answer {
        Ok(_) => 0,
        Err(ReplayFailure::Differs { .. }) => 60,
        Err(ReplayFailure::NotARecording) => 5,
        Err(ReplayFailure::UnknownVersion) => 6,
        Err(ReplayFailure::CutEntry) => 7,
    }
}

// The words for an entry and both its answers.
fn seven_words(entry: u64, recorded: Outcome, replayed: Outcome) -> [u64; 7]
    ensures { result ≡ seven_words (replay_code (Err (ReplayFailure.Differs entry recorded replayed))).values }
{
    [
        entry,
        recorded.answer as u64,
        recorded.points as u64,
        recorded.indices as u64,
        replayed.answer as u64,
        replayed.points as u64,
        replayed.indices as u64,
    ]
}

pub(crate) fn words_of(answer: Result<u64, ReplayFailure>) -> [u64; 7]
    ensures { result ≡ seven_words (replay_code answer).values }
{
    match answer {
        Ok(entries) => [entries, 0, 0, 0, 0, 0, 0],
        Err(
            ReplayFailure::Differs {
                entry,
                recorded,
                replayed,
            },
        ) => seven_words(entry, recorded, replayed),
        Err(ReplayFailure::NotARecording) => [0; 7],
        Err(ReplayFailure::UnknownVersion) => [0; 7],
        Err(ReplayFailure::CutEntry) => [0; 7],
    }
}
