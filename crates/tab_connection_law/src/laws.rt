//! What two connections are replied. It is the contract of a function that does nothing, so that it is proved.
ghost use Rattle.tab_connection_law.specs.SameReplies.{SameReplies};

/// Where the same is asked on two connections, the events are told the same, with the same whole list where a session is opened, and memory
/// lacks for nothing that is asked of a session, the bytes that are replied are the same.
pub fn same_replies()
    ensures { SameReplies }
{}
