//! Copies of a policy: alike at first, and apart from then on. Who is admitted, at once or by the whole decision.
use std::alloc::Global;
use std::process::Abort;
use tab_key::Name;
use tab_label::AuthSet;
use tab_policy::{
    Action, Permission, Policy, ServerAction, SystemPermission, TableAction, TablePermission,
};

// The name of these bytes.
fn name(rt: &impl Abort, bytes: &[u8]) -> Name {
    Name::new(bytes).expect(rt, "a name")
}

// The permission on the table `logs`.
fn on_logs(rt: &impl Abort, permission: TablePermission) -> Permission {
    Permission::OfTable(permission, name(rt, b"logs"))
}

// Makes the user.
fn create(rt: &impl Abort, policy: &mut Policy, user: &[u8]) {
    policy.create_user(&name(rt, user)).expect(rt, "memory")
}

// Grants the permission to the user.
fn grant(rt: &impl Abort, policy: &mut Policy, user: &[u8], permission: &Permission) {
    let granted = policy.grant(&name(rt, user), permission);
    granted.expect(rt, "memory")
}

// The set of the one authorization `a`.
fn only_a(rt: &impl Abort, alloc: Global) -> AuthSet {
    let mut terms = Vec::new(alloc);
    terms
        .push(b"a".to_vec(alloc).expect(rt, "memory"))
        .expect(rt, "memory");
    AuthSet::new(terms)
}

// Root's table `logs`. Ada may read it, could write to it once, and has the authorization `a`. Bob, who could read it, was dropped and made again.
fn people(rt: &impl Abort, alloc: Global, policy: &mut Policy) {
    let made = policy.create_table(&name(rt, b"root"), &name(rt, b"logs"));
    made.expect(rt, "memory");
    create(rt, policy, b"ada");
    grant(rt, policy, b"ada", &on_logs(rt, TablePermission::Read));
    grant(rt, policy, b"ada", &on_logs(rt, TablePermission::Write));
    policy.revoke(&name(rt, b"ada"), &on_logs(rt, TablePermission::Write));
    grant(
        rt,
        policy,
        b"ada",
        &Permission::OfSystem(SystemPermission::CreateTable),
    );
    policy.set_auths(&name(rt, b"ada"), only_a(rt, alloc));
    create(rt, policy, b"bob");
    grant(rt, policy, b"bob", &on_logs(rt, TablePermission::Read));
    policy.drop_user(&name(rt, b"bob"));
    create(rt, policy, b"bob");
}

// Whether the user has the permission on the table `logs`.
fn has(rt: &impl Abort, policy: &Policy, user: &[u8], permission: TablePermission) -> bool {
    match policy.rights_on(&name(rt, b"logs"), &name(rt, user)) {
        Some(rights) => rights.contains(permission),
        None => false,
    }
}

// Whether the user has the system permission to create tables.
fn creates_tables(rt: &impl Abort, policy: &Policy, user: &[u8]) -> bool {
    match policy.system_of(&name(rt, user)) {
        Some(system) => system.contains(SystemPermission::CreateTable),
        None => false,
    }
}

// Whether the user has the authorization `a`.
fn sees_a(rt: &impl Abort, policy: &Policy, user: &[u8]) -> bool {
    match policy.auths_of(&name(rt, user)) {
        Some(auths) => auths.contains(b"a"),
        None => false,
    }
}

// The policy is as `people` left it.
fn expect_people(rt: &impl Abort, policy: &Policy) {
    assert!(rt; policy.user_count() == 3);
    assert!(rt; has(rt, policy, b"root", TablePermission::DropTable));
    assert!(rt; has(rt, policy, b"ada", TablePermission::Read));
    assert!(rt; !has(rt, policy, b"ada", TablePermission::Write));
    assert!(rt; !has(rt, policy, b"bob", TablePermission::Read));
    assert!(rt; creates_tables(rt, policy, b"ada"));
    assert!(rt; !creates_tables(rt, policy, b"bob"));
    assert!(rt; sees_a(rt, policy, b"ada"));
    assert!(rt; !sees_a(rt, policy, b"bob"))
}

// Eve comes, and may read `logs`; bob goes, and Ada's authorization and her right to read.
fn change(rt: &impl Abort, alloc: Global, policy: &mut Policy) {
    create(rt, policy, b"eve");
    grant(rt, policy, b"eve", &on_logs(rt, TablePermission::Read));
    policy.drop_user(&name(rt, b"bob"));
    policy.set_auths(&name(rt, b"ada"), AuthSet::empty(alloc));
    policy.revoke(&name(rt, b"ada"), &on_logs(rt, TablePermission::Read))
}

// The policy is as `change` left it.
fn expect_changed(rt: &impl Abort, policy: &Policy) {
    assert!(rt; !policy.user_exists(&name(rt, b"bob")));
    assert!(rt; has(rt, policy, b"eve", TablePermission::Read));
    assert!(rt; !has(rt, policy, b"ada", TablePermission::Read));
    assert!(rt; !sees_a(rt, policy, b"ada"))
}

// The two are alike, and neither sees what is changed in the other.
fn expect_apart(rt: &impl Abort, alloc: Global, first: &mut Policy, second: &mut Policy) {
    expect_people(rt, first);
    expect_people(rt, second);
    change(rt, alloc, first);
    expect_changed(rt, first);
    expect_people(rt, second);
    second.drop_table(&name(rt, b"logs"));
    expect_changed(rt, first);
    assert!(rt; !second.table_exists(&name(rt, b"logs")))
}

#[test]
fn a_change_of_the_source(rt: HostRuntime) {
    let mut policy = Policy::new(rt.alloc()).expect(&rt, "memory");
    people(&rt, rt.alloc(), &mut policy);
    let mut copy = policy.clone().expect(&rt, "memory");
    expect_apart(&rt, rt.alloc(), &mut policy, &mut copy)
}

#[test]
fn a_change_of_the_copy(rt: HostRuntime) {
    let mut policy = Policy::new(rt.alloc()).expect(&rt, "memory");
    people(&rt, rt.alloc(), &mut policy);
    let mut copy = policy.clone().expect(&rt, "memory");
    expect_apart(&rt, rt.alloc(), &mut copy, &mut policy)
}

// Whether the policy admits the user's action on the table, and whether it decides the same.
fn expect_admitted(
    rt: &impl Abort,
    policy: &Policy,
    user: &[u8],
    table: &[u8],
    action: TableAction,
    admits: bool,
) {
    let user = name(rt, user);
    let table = name(rt, table);
    let asked = Action::OnTable(action, &table);
    assert!(rt; policy.admitted(&user, &asked).is_some() == admits);
    assert!(rt; policy.decide(&user, &asked).is_ok() == admits)
}

// Whether an admitted caller holds the authorization `a`.
fn holds_a(rt: &impl Abort, policy: &Policy, user: &[u8]) -> bool {
    let table = name(rt, b"logs");
    let asked = Action::OnTable(TableAction::Open, &table);
    match policy.admitted(&name(rt, user), &asked) {
        Some(caller) => caller.authorizations.contains(b"a"),
        None => false,
    }
}

#[test]
fn who_is_admitted(rt: HostRuntime) {
    let mut policy = Policy::new(rt.alloc()).expect(&rt, "memory");
    people(&rt, rt.alloc(), &mut policy);
    let opens = TableAction::Open;
    let writes = TableAction::Write;
    let rights = TableAction::Rights;
    expect_admitted(&rt, &policy, b"root", b"logs", opens, true);
    expect_admitted(&rt, &policy, b"ada", b"logs", opens, true);
    expect_admitted(&rt, &policy, b"ada", b"logs", writes, false);
    expect_admitted(&rt, &policy, b"ada", b"logs", rights, true);
    expect_admitted(&rt, &policy, b"ada", b"none", opens, false);
    expect_admitted(&rt, &policy, b"bob", b"logs", opens, false);
    expect_admitted(&rt, &policy, b"eve", b"logs", opens, false);
    let creates = Action::OnServer(ServerAction::CreateTable);
    assert!(rt; policy.admitted(&name(&rt, b"ada"), &creates).is_some());
    assert!(rt; policy.admitted(&name(&rt, b"bob"), &creates).is_none());
    assert!(rt; holds_a(&rt, &policy, b"ada"));
    assert!(rt; !holds_a(&rt, &policy, b"root"))
}
