//! A command of a script, and the list of a script's commands.
use rbbi_text::{Values, Word};

/// A command: a question, an edit, or a request for the text. Numbers count the unit of the session
/// that performs it, places from 0.
#[derive(Drop)]
pub enum Command {
    /// To the first boundary.
    First,
    /// To the last boundary.
    Last,
    /// To the first boundary past the cursor.
    Next,
    /// To the last boundary before the cursor.
    Previous,
    /// Where the cursor is.
    Current,
    /// The greatest status at the cursor.
    Status,
    /// All statuses at the cursor.
    Statuses,
    /// To the first boundary past a place.
    Following(u32),
    /// To the last boundary before a place.
    Preceding(u32),
    /// Whether a place is a boundary.
    Is(u32),
    /// The text in place of so much of the unit from `at` on.
    Replace { at: u32, remove: u32, text: Word },
    /// All boundaries.
    Breaks,
    /// The text.
    Text,
}

/// The commands of a script, in order. Contracts see it as their list.
pub type Commands = Values<Command>;

impl Command {
    ghost use Rattle.rbbi_model.specs.Scripts.{InsertsText};
    ghost use Rattle.rbbi_script.specs.Meaning.{meaning};

    /// That what the command inserts is characters. It is there for proofs, and does nothing when
    /// it runs.
    pub(crate) fn inserts_text(&self)
        ensures { InsertsText (meaning self.now) }
    {
        if let Command::Replace { text, .. } = self {
            let _characters = text.as_str();
        }
    }
}
