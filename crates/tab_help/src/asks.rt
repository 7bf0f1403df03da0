//! Which lines are asked for.

/// Which lines are asked for.
#[derive(Clone, Copy, Debug, PartialEq, Eq)]
pub enum Asks {
    /// Those of a script, in which a line may say who asks from then on.
    Script,
    /// Those of a script over a folder, which keeps what they do.
    KeptScript,
    /// Those of a shell, which lacks a script's own lines.
    Shell,
}

impl Asks {
    /// Whether the line of this command is one.
    pub fn has(self, command: &[u8]) -> bool {
        match command {
            b"as" | b"at" | b"begin" | b"merge" | b"install" | b"splitsize" | b"save" | b"load" => {
                self != Asks::Shell
            }
            _ => true,
        }
    }
}
