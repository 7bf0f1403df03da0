//! What the system tells of the program itself.
use std::fs;

// What getrlimit is asked for how long a file may grow.
const FILE_SIZE: i32 = 1;

// The bit of SIGXFSZ, the signal that ends a program that writes more, in a set of signals.
const FILE_SIZE_SIGNAL: u64 = 1 << 24;

/// The word after this one in what the system tells of the program; none where it doesn't tell, or memory lacks.
pub fn status_word(rt: &HostRuntime, name: &str) -> Option<String> {
    let status = fs::read_to_string(rt, "/proc/self/status").ok()?;
    let line = status.as_str().lines().find(|line| line.starts_with(name))?;
    String::from_str(rt.alloc(), line.split_whitespace().nth(1)?).ok()
}

/// Says on standard error where a file may grow so far only, and a write beyond ends the program by a signal, in place of failing.
pub fn tell_file_limit(rt: &HostRuntime) {
    let Some(most) = file_limit() else {
        return;
    };
    if ignored_signals(rt).unwrap_or(0) & FILE_SIZE_SIGNAL == 0 {
        let _ = eprintln!(rt;
            "note: no file may have more than {most} bytes here, and SIGXFSZ isn't ignored: a write beyond ends the program without a word"
        );
    }
}

// The signals that the program ignores, a bit for each.
fn ignored_signals(rt: &HostRuntime) -> Option<u64> {
    let word = status_word(rt, "SigIgn:")?;
    u64::from_str_radix(word.as_str(), 16).ok()
}

// How many bytes a file may have, where that is limited.
fn file_limit() -> Option<u64> {
    let mut limit = libc::types::rlimit {
        rlim_cur: u64::MAX,
        rlim_max: u64::MAX,
    };
    let status = libc::getrlimit(FILE_SIZE, &mut limit);
    if status != 0 || limit.rlim_cur == u64::MAX {
        return None;
    }
    Some(limit.rlim_cur)
}
