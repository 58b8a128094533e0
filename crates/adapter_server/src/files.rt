//! Which files paths lead to.
ghost use Rattle.std.specs.Prelude.{◌≡◌, List, ℕ, Option};
ghost use Rattle.adapter_server.specs.declared.files.FileNumber.{FileNumber};

/// A file, by its number on its device.
#[derive(Clone, Copy, Debug, PartialEq, Eq)]
pub struct FileNumber {
    pub device: u64,
    pub number: u64,
}

/// Finds files by their paths.
pub trait FileFinder {
    // Whether a path may be told to lead to a file, or to none.
    ghost leads: { Self → (path : List ℕ) → Option FileNumber → Type 0 };

    /// The file that a path leads to, through folders and links; none where it leads to no file.
    fn file_at(&self, path: &str) -> Option<FileNumber>
        ensures { leads self.now path.now result };
}
