// A version by its number.
ghost use Rattle.std.specs.Prelude.{◌≡◌};
ghost use Rattle.job_words.specs.Inputs.{known_version, version_of_number};

use job_fields::version::Version;

// Returns the version with the number 1 or 2, or none for any other number.
#[tactic(auto, unfolding(crate::specs::Inputs::is_version, crate::specs::Inputs::version_of_number))]
pub fn known_version(number: u32) -> Option<Version>
    ensures { result ≡ known_version number }
{
    Version::try_from(number).ok()
}

// Returns the version with the number 1 or 2; any other number gives version 2.
pub fn version_in(number: u32) -> Version
    ensures { result ≡ version_of_number number }
{
    match number {
        1 => Version::One,
        _ => Version::Two,
    }
}
