//! Escapes between quotes, read without building anything.
ghost use Rattle.std.specs.Prelude.{◌≡◌};
ghost use Rattle.tab_key.specs.Bytes.{bytes_cmp};
ghost use Rattle.tab_label.specs.Judging.{unescaped};

use std::cmp::Ordering;

/// How a byte string compares, by unsigned bytes, to what the bytes between two quotes stand for, which is never built.
pub fn compare(member: &[u8], quoted: &[u8]) -> Ordering
    ensures { result ≡ bytes_cmp member.now (unescaped quoted.now) }
{
    let mut at = 0;
    let mut escaping = false;
    for i in 0..quoted.len() {
        let b = quoted[i];
        if !escaping && b == b'\\' {
            escaping = true;
        } else {
            if at == member.len() {
                return Ordering::Less;
            }
            match member[at].cmp(&b) {
                Ordering::Equal => {}
                unequal => return unequal,
            }
            at += 1;
            escaping = false;
        }
    }
    if at < member.len() {
        Ordering::Greater
    } else {
        Ordering::Equal
    }
}
