//! Profiles of the log.
ghost use Rattle.std.specs.Prelude.{◌≡◌};
ghost use Rattle.nn_types.specs.Profile.{profile_number, profile_of, is_lower};

/// Which edits a segment of the log may have. Its start mark names the profile.
#[derive(Clone, Copy, Debug, PartialEq, Eq)]
pub enum Profile {
    /// All edits except `Append`.
    One,
    /// All edits.
    Two,
}

impl Profile {
    /// The profile of a number, which is 1 or 2.
    pub fn new(number: u64) -> Option<Profile>
        ensures { result ≡ profile_of number }
    {
        match number {
            1 => Some(Profile::One),
            2 => Some(Profile::Two),
            _ => None,
        }
    }

    /// The profile's number, as start marks name it.
    pub fn number(self) -> u64
        ensures { result ≡ profile_number self }
    {
        match self {
            Profile::One => 1,
            Profile::Two => 2,
        }
    }

    /// Whether the other one is higher.
    pub fn is_lower(self, other: Profile) -> bool
        ensures { result ≡ is_lower self other }
    {
        matches!((self, other), (Profile::One, Profile::Two))
    }
}
