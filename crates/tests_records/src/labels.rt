//! Labels as trees: how deep they nest, and how a tree and a fault are printed.
use std::alloc::Global;
use std::process::Abort;
use tab_label::{Label, LabelFault};

// Whether the text is a label.
fn is_label(alloc: Global, text: &[u8]) -> bool {
    Label::parse(alloc, text).is_ok()
}

const DEEPEST: &[u8] =
    b"((((((((((((((((((((((((((((((((((((((((((((((((((((((((((((((((a))))))))))))))))))))))))))))))))))))))))))))))))))))))))))))))))";

const TOO_DEEP: &[u8] =
    b"(((((((((((((((((((((((((((((((((((((((((((((((((((((((((((((((((a)))))))))))))))))))))))))))))))))))))))))))))))))))))))))))))))))";

#[test]
fn depths(rt: HostRuntime) {
    assert!(rt; is_label(rt.alloc(), b""));
    assert!(rt; is_label(rt.alloc(), DEEPEST));
    assert!(rt; !is_label(rt.alloc(), TOO_DEEP));
}

// How the label's tree is printed.
fn expect_tree(rt: &impl Abort, alloc: Global, text: &[u8], want: &str) {
    let label = Label::parse(alloc, text).expect(rt, "a label");
    let shown = format!(in alloc; "{label:?}").expect(rt, "memory");
    assert!(rt; shown.as_str() == want)
}

#[test]
fn trees(rt: HostRuntime) {
    let want = "Only(Join(And, [Term([97]), Join(Or, [Term([98]), Term([99, 34, 100])])]))";
    expect_tree(&rt, rt.alloc(), b"a&(b|\"c\\\"d\")", want);
}

#[test]
fn tells_a_fault(rt: HostRuntime) {
    let told = format!(in rt.alloc(); "{}", LabelFault::Malformed(3)).expect(&rt, "memory");
    assert!(rt; told.as_str() == "malformed label at 3");
}
