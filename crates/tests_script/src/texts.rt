//! Digits and plain bytes of texts, which nothing above asks for by themselves.
use tab_text::{hex_value, is_plain, laws};

#[test]
fn reads_digits_and_plain_bytes(rt: HostRuntime) {
    assert!(rt; hex_value(b'a') == Some(10));
    assert!(rt; hex_value(b'F').is_none());
    assert!(rt; is_plain(b'a'));
    assert!(rt; !is_plain(b'\\'));
    laws::written_word(b"a b");
    laws::read_word(b"a", b"a");
}
