//! Paths in commands.

ghost use Rattle.std.specs.Prelude.{◌≡◌};

use std::marker::Model;
use sys_state::Path;

/// A list of paths in a command.
#[derive(Debug, Drop)]
pub struct Paths(Vec<Path>);

impl Model for Paths {
    ghost use Rattle.std.specs.Prelude.{List, ℕ};

    ghost Value = { List (List (List ℕ)) };

    ghost view = { λ paths. paths.0.items };
}

impl Paths {
    /// These paths.
    pub fn new(paths: Vec<Path>) -> Paths
        ensures { result ≡ paths.items }
    {
        Paths(paths)
    }

    /// The paths.
    pub fn as_slice(&self) -> &[Path]
        ensures { result.now ≡ self.now }
    {
        &self.0
    }
}
