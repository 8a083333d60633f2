//! The commands, each with its word, its options and its operands.
ghost use Rattle.std.specs.Prelude.{◌≡◌, ◌≢◌, MatchOption};
ghost use Rattle.rbbi_command.specs.Words as spec;
ghost use Rattle.rbbi_command.specs.declared.words.command.Command.{Command};

use crate::Role;

/// A command of the program.
#[derive(Clone, Copy)]
pub enum Command {
    /// Report whether a rule file has a fault, and how many rules it has.
    Check,
    /// Write the table file of a rule file.
    Compile,
    /// Rewrite a table file in the newest version.
    Upgrade,
    /// Report whether two rule files have the same marks after every text, or a text after which
    /// they differ.
    Same,
    /// Print the boundaries of a text.
    Breaks,
    /// Reply to the commands of a script over a text.
    Run,
    /// Compare the boundaries of tests with their marks.
    Conform,
    /// Count the segments of a text by status, and again after each edit of a script.
    Tally,
    /// Summarize a session over a random text.
    Demo,
}

/// Which options a command takes.
#[derive(Clone, Copy)]
pub(crate) enum Takes {
    /// None.
    NoOptions,
    /// Those on rule files.
    RuleOptions,
    /// Those on rule files; or the one that says that the first operand is a table file.
    RuleOptionsOrTable,
    /// These, and besides one on how boundaries are reported.
    RuleOptionsOrTableAndTelling,
}

/// What an operand of a command is.
#[derive(Clone, Copy)]
pub enum Operand {
    /// A file that is read in this role.
    Read(Role),
    /// A file that is written.
    Written,
    /// A number of characters, from 1 to 1,000,000.
    Count,
}

impl Command {
    /// Which options it takes.
    pub(crate) fn takes(self) -> Takes
        ensures { result ≡ spec.taken_by self }
    {
        match self {
            Command::Check | Command::Compile | Command::Same => Takes::RuleOptions,
            Command::Breaks | Command::Run => Takes::RuleOptionsOrTableAndTelling,
            Command::Conform | Command::Tally => Takes::RuleOptionsOrTable,
            Command::Upgrade | Command::Demo => Takes::NoOptions,
        }
    }

    /// What each operand is, in order, where the first is a table file or isn't.
    pub fn operands(self, by_table: bool) -> &'static [Operand]
        ensures { result.now ≡ spec.operands_of self by_table }
    {
        match (self, by_table) {
            (Command::Check, _) => &[Operand::Read(Role::Rules)],
            (Command::Compile, _) => &[Operand::Read(Role::Rules), Operand::Written],
            (Command::Upgrade, _) => &[Operand::Read(Role::Table), Operand::Written],
            (Command::Same, _) => &[Operand::Read(Role::Rules), Operand::Read(Role::OtherRules)],
            (Command::Breaks, false) => &[Operand::Read(Role::Rules), Operand::Read(Role::Text)],
            (Command::Breaks, true) => &[Operand::Read(Role::Table), Operand::Read(Role::Text)],
            (Command::Run | Command::Tally, false) => &[
                Operand::Read(Role::Rules),
                Operand::Read(Role::Text),
                Operand::Read(Role::Script),
            ],
            (Command::Run | Command::Tally, true) => &[
                Operand::Read(Role::Table),
                Operand::Read(Role::Text),
                Operand::Read(Role::Script),
            ],
            (Command::Conform, false) => &[Operand::Read(Role::Rules), Operand::Read(Role::Tests)],
            (Command::Conform, true) => &[Operand::Read(Role::Table), Operand::Read(Role::Tests)],
            (Command::Demo, _) => &[Operand::Count],
        }
    }
}

/// The command of this word.
pub(crate) fn command_of(word: &str) -> Option<Command>
    ensures { MatchOption result ((command : Command) → word.now ≢ spec.name_of command)
        (λ command. word.now ≡ spec.name_of command) }
{
    match word {
        "check" => Some(Command::Check),
        "compile" => Some(Command::Compile),
        "upgrade" => Some(Command::Upgrade),
        "same" => Some(Command::Same),
        "breaks" => Some(Command::Breaks),
        "run" => Some(Command::Run),
        "conform" => Some(Command::Conform),
        "tally" => Some(Command::Tally),
        "demo" => Some(Command::Demo),
        _ => None,
    }
}
