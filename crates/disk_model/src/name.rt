//! The names of files.
ghost use Rattle.std.specs.Prelude.{◌≡◌};
ghost use Rattle.disk_model.specs.Files.{number_in};

/// What a file is for.
#[derive(Clone, Copy, Debug, PartialEq, Eq, PartialOrd, Ord)]
pub enum Kind {
    /// Pages of a memory.
    Page,
    /// A published height.
    Mark,
    /// A mark that is being written.
    Draft,
    /// Chunks that a sync has taken.
    Stage,
}

/// The name of a file: its kind and a number.
#[derive(Clone, Copy, Debug, PartialEq, Eq, PartialOrd, Ord)]
pub enum Name {
    Page(u64),
    Mark(u64),
    Draft(u64),
    Stage(u64),
}

impl Name {
    /// The number of a name of this kind.
    pub fn number_in(self, kind: Kind) -> Option<u64>
        ensures { result ≡ number_in kind self }
    {
        match (kind, self) {
            (Kind::Page, Name::Page(n))
            | (Kind::Mark, Name::Mark(n))
            | (Kind::Draft, Name::Draft(n))
            | (Kind::Stage, Name::Stage(n)) => Some(n),
            _ => None,
        }
    }
}
