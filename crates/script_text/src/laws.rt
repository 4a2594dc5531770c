//! What lines spell.

ghost use Rattle.format_spec.specs.Bytes.{Bytes};
ghost use Rattle.script_text.specs.Commands.{SpellsCommand, parsed_line};

/// A line that is a command spells one in the sizes of its form, whose fields are what their types hold, whatever the line's bytes.
pub fn lines_spell_commands()
    ensures { (line : Bytes) → SpellsCommand (parsed_line line) }
{}
