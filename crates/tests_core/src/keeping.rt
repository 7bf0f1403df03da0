//! What is kept for a user: found once something was kept, and his alone.

use std::alloc::Global;
use std::process::Abort;
use tab_core::Sessions;
use tab_key::Name;

// Opens and closes a session without a number for the user, if one can be opened.
fn count_scan(rt: &impl Abort, alloc: Global, sessions: &mut Sessions, user: &Name) {
    let kept = sessions.kept_for(alloc, user).expect(rt, "memory");
    if !kept.is_spent() {
        kept.count_scan();
    }
}

// Whether no session can be opened any more for this user, if something is kept for him.
fn is_spent(sessions: &mut Sessions, user: &Name) -> Option<bool> {
    let kept = sessions.get_mut(user)?;
    Some(kept.is_spent())
}

#[test]
fn what_is_kept_is_found(rt: HostRuntime) {
    let alloc = rt.alloc();
    let ada = Name::new(b"ada").expect(&rt, "a name");
    let bob = Name::new(b"bob").expect(&rt, "a name");
    let mut sessions = Sessions::new(alloc);
    assert!(rt; is_spent(&mut sessions, &ada) == None);
    count_scan(&rt, alloc, &mut sessions, &ada);
    assert!(rt; is_spent(&mut sessions, &ada) == Some(false));
    assert!(rt; is_spent(&mut sessions, &bob) == None);
    count_scan(&rt, alloc, &mut sessions, &bob);
    assert!(rt; is_spent(&mut sessions, &bob) == Some(false))
}
