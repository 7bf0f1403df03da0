//! The lines that name a file.
ghost use Rattle.std.specs.Prelude.{◌≡◌, string_bytes};
ghost use Rattle.std.specs.Option.{option_map};
ghost use Rattle.std.specs.Str.{is_utf8};
ghost use Rattle.tab_lines.specs.Fields.{only_if};

use std::marker::Model;

/// What a line asks for with its file.
#[derive(Clone, Copy, Debug, PartialEq, Eq)]
pub enum FileKind {
    /// To save an image of everything to it.
    Save,
    /// To load the image in it in place of everything.
    Load,
}

/// The name of a file: bytes that are UTF-8, also none. A contract sees it as the list of its bytes.
#[derive(Drop)]
pub struct FileName {
    text: String,
}

impl Model for FileName {
    ghost use Rattle.std.specs.Prelude.{ℕ, List, string_bytes};

    ghost Value = { List ℕ };

    ghost view = { λ n. string_bytes n.text };
}

impl FileName {
    /// The name of these bytes, if they are UTF-8. It takes no memory.
    pub fn new(bytes: Vec<u8>) -> Option<FileName>
        ensures { result ≡ only_if is_utf8 bytes.items }
    {
        let text = text_of(bytes)?;
        Some(FileName { text })
    }

    /// The name as text.
    pub fn as_str(&self) -> &str
        ensures { result.now ≡ self.now }
    {
        self.text.as_str()
    }
}

// The text of these bytes, if they are UTF-8.
fn text_of(bytes: Vec<u8>) -> Option<String>
    ensures { option_map string_bytes result ≡ only_if is_utf8 bytes.items }
{
    String::from_utf8(bytes).ok()
}

/// A line that names a file, and what it asks for.
#[derive(Drop)]
pub struct FileLine {
    /// What is asked for.
    pub kind: FileKind,
    /// The file.
    pub name: FileName,
}
