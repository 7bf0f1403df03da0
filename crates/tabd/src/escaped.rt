//! What is told on a line of standard error.
use std::fmt;
use std::fmt::{Display, Formatter, Write};

/// What `{:#}` shows of a value, with an escape for each control character, as `\n` or `\u{1b}`. The name of a file may have some: so what is told of
/// it stays on its line, and steers no terminal.
#[derive(Drop)]
pub struct Escaped<'a, T>(pub &'a T);

impl<T: Display> Display for Escaped<'_, T> {
    fn fmt<W: fmt::Write>(&self, f: &mut Formatter<W>) -> fmt::Result {
        let mut escaping = Escaping { to: f };
        write!(escaping, "{:#}", self.0)
    }
}

// A writer that passes a text on with its control characters escaped.
#[derive(Drop)]
struct Escaping<'f, F> {
    to: &'f mut F,
}

impl<F: fmt::Write> fmt::Write for Escaping<'_, F> {
    fn write_str(&mut self, text: &str) -> fmt::Result {
        for letter in text.chars() {
            if letter.is_control() {
                write!(self.to, "{}", letter.escape_debug())?;
            } else {
                self.to.write_char(letter)?;
            }
        }
        Ok(())
    }
}
