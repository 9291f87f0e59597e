ghost use Rattle.std.specs.Prelude.{◌≡◌, ◌≤◌, ◌∷◌, ◌++◌, ℕ, Ok};
ghost use Rattle.std.specs.Fmt.{decimal};
ghost use Rattle.cl_base.specs.Limits.{most_nodes_at_first};
ghost use Rattle.pgr_device.specs.Allowed.{IsAllowed};
ghost use Rattle.pgr_device.specs.declared.command.PrCommand.{PrCommand};
ghost use Rattle.schedule_text.specs.Lines.{pr_line_of};
ghost use Rattle.schedule_text.specs.declared.line.PrLine.TheVariants.{Command};
ghost use Rattle.status_report.specs.Entries.{IsPrCommand};
ghost use Rattle.status_report.specs.PrAnswers.{command_text};
ghost use Rattle.grammar_laws.specs.Reads.{CommandsFitTheirLines, EventsAreAllowed, HeadsAreAllowed, SecondsFit, ServersAreNotRead};

/// The words in which the trace tells a command to a device are, behind the number of a sender and a
/// space (32), the line of a reservation schedule that gives this command.
pub fn printed_commands_are_read()
    ensures read { (sender : ℕ) (c : PrCommand) → 1 ≤ sender → sender ≤ most_nodes_at_first → IsAllowed c → IsPrCommand c
        → pr_line_of (decimal sender ++ 32 ∷ command_text c) ≡ Ok (Command sender c) }
{}

/// An event that a line of a cluster schedule is read as is one that the lines before it and the header allow: its nodes and
/// devices are the header's, its numbers are in their ranges, its names are names, and the words of a command hold no newline.
pub fn read_lines_are_allowed()
    ensures allowed { EventsAreAllowed }
    ensures seconds { SecondsFit }
{}

/// The words of a command that a line of a cluster schedule is read as are no longer than the line.
pub fn read_commands_fit_their_lines()
    ensures { CommandsFitTheirLines }
{}

/// A header that lines lead to from the beginning is allowed: the id of its cluster, its nodes and its devices are in their
/// ranges, the nodes that it configures and attaches are its own, and none of its devices is a server.
pub fn read_headers_are_allowed()
    ensures allowed { HeadsAreAllowed }
    ensures servers { ServersAreNotRead }
{}
