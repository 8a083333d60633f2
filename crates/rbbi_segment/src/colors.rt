//! Colours of a terminal.
ghost use Rattle.std.specs.Prelude.{◌≡◌, ◌++◌, OnOk};
ghost use Rattle.rbbi_segment.specs.Lines.{color_begin, color_end, colors_for};

use crate::streaming::Sizes;
use rbbi_text::append;
use std::alloc::AllocError;

/// When output has colours.
#[derive(Clone, Copy, PartialEq, Eq)]
pub(crate) enum When {
    /// Where it goes to a terminal, and the surroundings don't ask for none.
    Auto,
    Always,
    Never,
}

/// What the program is run in.
#[derive(Clone, Copy)]
pub struct Surroundings {
    /// Whether the standard output goes to a terminal.
    pub output_is_terminal: bool,
    /// Whether the standard error goes to a terminal.
    pub errors_are_on_terminal: bool,
    /// Whether no colours are asked for: the variable `NO_COLOR` is set, and not empty, or `TERM`
    /// is `dumb`.
    pub no_color: bool,
    /// How much of a text is held.
    pub sizes: Sizes,
}

impl Surroundings {
    /// The colours of what is printed.
    pub(crate) fn output_colors(&self, when: When) -> Colors
        ensures { result ≡ colors_for when self.now.output_is_terminal self.now.no_color }
    {
        Colors::new(when, self.output_is_terminal, self.no_color)
    }

    /// The colours of what is reported.
    pub(crate) fn fault_colors(&self, when: When) -> Colors {
        Colors::new(when, self.errors_are_on_terminal, self.no_color)
    }
}

/// Whether there are colours.
#[derive(Clone, Copy)]
pub(crate) struct Colors {
    pub(crate) are_on: bool,
}

/// What a colour is for.
#[derive(Clone, Copy)]
pub(crate) enum Color {
    /// What is about the text and isn't part of it.
    Faint,
    /// A mark in the text.
    Mark,
    /// What is wrong.
    Fault,
}

impl Colors {
    /// The colours of what goes to a terminal, or not to one.
    pub(crate) fn new(when: When, is_terminal: bool, no_color: bool) -> Colors
        ensures { result ≡ colors_for when is_terminal no_color }
    {
        let are_on = match when {
            When::Auto => is_terminal && !no_color,
            When::Always => true,
            When::Never => false,
        };
        Colors { are_on }
    }

    /// Appends bytes in a colour.
    pub(crate) fn append(
        &self,
        color: Color,
        bytes: &[u8],
        out: &mut Vec<u8>,
    ) -> Result<(), AllocError> {
        self.begin(color, out)?;
        append(bytes, out)?;
        self.end(out)
    }

    /// Begins a colour.
    pub(crate) fn begin(&self, color: Color, out: &mut Vec<u8>) -> Result<(), AllocError>
        ensures { OnOk result (out.new.items ≡ out.old.items ++ color_begin self.now color) }
    {
        if !self.are_on {
            return Ok(());
        }
        match color {
            Color::Faint => append(b"\x1b[2m", out),
            Color::Mark => append(b"\x1b[1;36m", out),
            Color::Fault => append(b"\x1b[1;31m", out),
        }
    }

    /// Ends a colour.
    pub(crate) fn end(&self, out: &mut Vec<u8>) -> Result<(), AllocError>
        ensures { OnOk result (out.new.items ≡ out.old.items ++ color_end self.now) }
    {
        if self.are_on {
            append(b"\x1b[0m", out)
        } else {
            Ok(())
        }
    }
}
