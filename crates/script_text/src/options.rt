//! What the words of the command line say.

ghost use Rattle.std.specs.Prelude.{◌≡◌, map, string_bytes};
ghost use Rattle.script_text.specs.Options.{options_of as options_in};

/// How a run is set up.
#[derive(Clone, Copy, Debug, PartialEq, Eq)]
pub struct Options {
    /// How many pages a cache may hold, from 1 to 65,536.
    pub cache: u32,
}

/// The options that the words behind the program's name give. None where a word is no option; so far no word is one.
pub fn options_of(words: &[String]) -> Option<Options>
    ensures { result ≡ options_in (map (λ word. string_bytes word) words.now) }
{
    if words.is_empty() {
        Some(Options { cache: 256 })
    } else {
        None
    }
}
