//! Moments that are listed before.
use tab_serve::{ListedMoments, Moments};

#[test]
fn repeats_the_last_moment(rt: HostRuntime) {
    let mut moments = Vec::new(rt.alloc());
    moments.push(5).expect(&rt, "memory");
    moments.push(-3).expect(&rt, "memory");
    let mut listed = ListedMoments::new(moments);
    assert!(rt; listed.next() == 5);
    assert!(rt; listed.next() == -3);
    assert!(rt; listed.next() == -3);
    let mut none = ListedMoments::new(Vec::new(rt.alloc()));
    assert!(rt; none.next() == 0);
}
