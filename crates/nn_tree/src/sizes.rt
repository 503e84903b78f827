//! How many files and how many directories there are.
ghost use Rattle.std.specs.Prelude.{◌≡◌, ◌+◌, IfSome};
ghost use Rattle.nn_tree.specs.Sizes.{plus};

/// How many files there are, and how many directories.
#[derive(Clone, Copy, Debug)]
pub(crate) struct Sizes {
    pub(crate) files: u64,
    pub(crate) directories: u64,
}

impl Sizes {
    /// Those of the root alone.
    pub(crate) fn of_root() -> Sizes
        ensures { result ≡ record { files = 0; directories = 1 } }
    {
        Sizes {
            files: 0,
            directories: 1,
        }
    }

    /// With one more file, if a `u64` holds them.
    pub(crate) fn with_file(self) -> Option<Sizes>
        ensures { IfSome result (λ more. more ≡ plus (record { files = 1; directories = 0 }) self) }
    {
        let files = self.files.checked_add(1)?;
        Some(Sizes { files, ..self })
    }

    /// With one more directory, if a `u64` holds them.
    pub(crate) fn with_directory(self) -> Option<Sizes>
        ensures { IfSome result (λ more. more ≡ plus (record { files = 0; directories = 1 }) self) }
    {
        let directories = self.directories.checked_add(1)?;
        Some(Sizes {
            directories,
            ..self
        })
    }
}
