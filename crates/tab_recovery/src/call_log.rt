//! The calls of a file, for contracts alone.
ghost use Rattle.std.specs.Prelude.{◌≡◌, ◌∷◌, [], map};

use crate::file_call::{Asked, FileCall};
use http_server::Log;

/// The calls of a file, and the bytes that were read or were to be put. It takes no memory, and is there for contracts alone.
#[derive(Drop)]
pub struct CallLog {
    calls: Log<FileCall, Log<u8, ()>>,
}

impl CallLog {
    ghost use Rattle.tab_recovery.specs.CallLogs.{calls_in};

    /// No call yet.
    pub fn new() -> CallLog
        ensures { calls_in result ≡ [] }
    {
        CallLog { calls: Log::new() }
    }

    /// These calls and one more: what was asked, whether it went well, and the bytes that were read or were to be put.
    pub fn and(&self, asked: Asked, is_ok: bool, bytes: &[u8]) -> CallLog
        ensures { calls_in result ≡ (asked, is_ok, bytes.now) ∷ calls_in self.now }
    {
        CallLog {
            calls: self.calls.and(&FileCall { asked, is_ok }, &noted(bytes)),
        }
    }
}

// These bytes, for contracts.
fn noted(bytes: &[u8]) -> Log<u8, ()>
    ensures { map (λ x. x.0) result.items ≡ bytes.now }
{
    let mut log = Log::new();
    for byte in bytes {
        log = log.and(byte, &());
    }
    log
}
