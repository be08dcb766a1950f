//! Theorems about scripts.

ghost use Rattle.mq_cli.specs.Laws.{CutChangesNoOtherLine, ReadsBack, SpelledOneWay};
ghost use Rattle.mq_cli.specs.ThreadsLaws.{ThreadsReadBack, ThreadsSpelledOneWay};

/// Each call whose numbers and text fit a line is read back from its spelling.
pub fn a_spelled_command_is_read_back()
    ensures { ReadsBack }
{}

/// A line that asks for a call is the spelling of that call: there is no other.
pub fn a_command_is_spelled_one_way()
    ensures { SpelledOneWay }
{}

/// Over each system and for all lines: with a comment in the place of each `cut`, every other line
/// writes word for word the same, and the run ends at the same fault.
pub fn a_cut_changes_no_other_line()
    ensures { CutChangesNoOtherLine }
{}

/// Each line that can stand at its place in a threads script is read back from its spelling.
pub fn a_spelled_threads_line_is_read_back()
    ensures { ThreadsReadBack }
{}

/// A line of a threads script that says something is the spelling of that: there is no other.
pub fn a_threads_line_is_spelled_one_way()
    ensures { ThreadsSpelledOneWay }
{}
