//! Laws over spellings, each the contract of a function without a body.

ghost use Rattle.dvi_commands.specs.Reading.{CommandsFirst, NothingAfterTheLast, PlacedFirst};
ghost use Rattle.dvi_commands.specs.SpellingLaws.{NoSpellingBeginsAnother, NoSpellingIsAProperPrefix, ShortestIsLeast, SpelledIsNotRefused, SpellingDeterminesTheCommand, UnrefusedIsSpelled, WrittenIsReadBack};

/// No spelling of a command is a proper prefix of another spelling, a spelling determines its
/// command, what spells a command is not refused where the command is allowed, and bytes that are
/// not refused begin with a spelling of a command.
pub fn spellings()
    ensures apart { NoSpellingBeginsAnother }
    ensures no_prefix { NoSpellingIsAProperPrefix }
    ensures determined { SpellingDeterminesTheCommand }
    ensures accepted { SpelledIsNotRefused }
    ensures spelled { UnrefusedIsSpelled }
{}

/// The shortest spelling is one, and no other is shorter.
pub fn shortest_spelling()
    ensures { ShortestIsLeast }
{}

/// A command that was written is read back, wherever it is allowed and whatever follows.
pub fn written_commands()
    ensures { WrittenIsReadBack }
{}

/// Bytes that begin with a spelling of a command are that command and then those of the rest, and
/// no bytes are no commands.
pub fn first_command()
    ensures placed { PlacedFirst }
    ensures commands { CommandsFirst }
    ensures end { NothingAfterTheLast }
{}
