//! A file's mode, as it is written.
ghost use Rattle.tab_socket.specs.Modes.{ReadsMode};

// The greatest mode: all may read, write and run.
const ALL: u32 = 0o777;

/// The mode that a text of octal digits writes, as `660`: at most 777. None where it is anything else.
pub fn mode_of(text: &str) -> Option<u32>
    ensures { ReadsMode text.now result }
{
    if text.starts_with('+') {
        return None;
    }
    match u32::from_str_radix(text, 8) {
        Ok(mode) if mode <= ALL => Some(mode),
        _ => None,
    }
}
