//! Questions, and their answers read off a whole list of boundaries.

/// A question.
#[derive(Clone, Copy, PartialEq, Eq)]
pub(crate) enum Question {
    First,
    Last,
    Next,
    Previous,
    Following(u32),
    Preceding(u32),
    IsBoundary(u32),
}

/// A boundary: its place and the number of its status list.
#[derive(Clone, Copy)]
pub(crate) struct Boundary {
    pub(crate) at: u32,
    pub(crate) status: u16,
}

/// The reply to a question, and where the cursor is then.
#[derive(Clone, Copy, PartialEq, Eq)]
pub(crate) struct Answer {
    /// The place, or None where there is none; of a test 1 for yes and 0 for no.
    pub(crate) reply: Option<u32>,
    pub(crate) cursor: u32,
}

/// The first boundary that isn't before a place.
fn from(boundaries: &[Boundary], place: u64) -> Option<u32> {
    for boundary in boundaries {
        if u64::from(boundary.at) >= place {
            return Some(boundary.at);
        }
    }
    None
}

/// The first boundary past a place.
fn past(boundaries: &[Boundary], place: u32) -> Option<u32> {
    from(boundaries, u64::from(place) + 1)
}

/// The last boundary before a place.
fn before(boundaries: &[Boundary], place: u32) -> Option<u32> {
    let mut last = None;
    for boundary in boundaries {
        if boundary.at < place {
            last = Some(boundary.at);
        }
    }
    last
}

/// The answer to a question on all boundaries of a text of this length, from this cursor.
pub(crate) fn answer_on(
    boundaries: &[Boundary],
    len: u32,
    cursor: u32,
    question: Question,
) -> Answer {
    let (reply, otherwise) = match question {
        Question::First => (Some(0), 0),
        Question::Last => (Some(len), len),
        Question::Next => (past(boundaries, cursor), cursor),
        Question::Previous => (before(boundaries, cursor), cursor),
        Question::Following(place) => (past(boundaries, place), len),
        Question::Preceding(place) => (before(boundaries, place), 0),
        Question::IsBoundary(place) => {
            let here = from(boundaries, u64::from(place));
            return Answer {
                reply: Some(u32::from(here == Some(place))),
                cursor: here.unwrap_or(len),
            };
        }
    };
    Answer {
        reply,
        cursor: reply.unwrap_or(otherwise),
    }
}
