//! The first byte of a request.
ghost use Rattle.std.specs.Prelude.{◌≡◌, slice_get};
ghost use Rattle.tab_wire.specs.Requests.{opcode_of, is_in_turn};

/// What a frame asks for, as its first byte says: 1 to 23, in this order.
#[derive(Clone, Copy, Debug, PartialEq, Eq)]
pub enum Opcode {
    /// 1: who asks.
    Hello,
    /// 2: make a table.
    CreateTable,
    /// 3: take a table away.
    DropTable,
    /// 4: make a user.
    CreateUser,
    /// 5: take a user away.
    DropUser,
    /// 6: give a user authorizations.
    SetAuths,
    /// 7: grant a permission.
    Grant,
    /// 8: revoke a permission.
    Revoke,
    /// 9: set a table's constraints.
    SetConstraints,
    /// 10: apply a mutation.
    Write,
    /// 11: open a session.
    Open,
    /// 12: the next cells of a session.
    Next,
    /// 13: some ranges of a session.
    Many,
    /// 14: close a session.
    Close,
    /// 15: a minor compaction.
    Flush,
    /// 16: a major compaction.
    Compact,
    /// 17: split a tablet at a row.
    AddSplit,
    /// 18: tell the end rows.
    Splits,
    /// 19: count tablets, sources and records.
    Status,
    /// 20: tell the caller's own rights.
    Rights,
    /// 21: show fewer versions of a table's columns.
    SetVersions,
    /// 22: raise a table's horizon.
    SetHorizon,
    /// 23: hand out the history so far.
    Rotate,
}

// The opcode at this place, counted from 0.
fn nth(opcodes: &[Opcode], place: u8) -> Option<Opcode>
    ensures { result ≡ slice_get opcodes.now place }
{
    opcodes.get(place as usize).copied()
}

impl Opcode {
    /// All of them, from 1 on.
    pub const ALL: [Opcode; 23] = [
        Opcode::Hello,
        Opcode::CreateTable,
        Opcode::DropTable,
        Opcode::CreateUser,
        Opcode::DropUser,
        Opcode::SetAuths,
        Opcode::Grant,
        Opcode::Revoke,
        Opcode::SetConstraints,
        Opcode::Write,
        Opcode::Open,
        Opcode::Next,
        Opcode::Many,
        Opcode::Close,
        Opcode::Flush,
        Opcode::Compact,
        Opcode::AddSplit,
        Opcode::Splits,
        Opcode::Status,
        Opcode::Rights,
        Opcode::SetVersions,
        Opcode::SetHorizon,
        Opcode::Rotate,
    ];

    /// The opcode of this byte, if it is one.
    pub fn from_byte(byte: u8) -> Option<Opcode>
        ensures { result ≡ opcode_of byte }
    {
        if byte == 0 {
            return None;
        }
        nth(&Opcode::ALL, byte - 1)
    }

    /// Whether the connection may ask so now: Hello where nobody has said it, and every other one behind it.
    pub fn is_in_turn(self, greeted: bool) -> bool
        ensures { result ≡ is_in_turn greeted self }
    {
        match self {
            Opcode::Hello => !greeted,
            _ => greeted,
        }
    }
}
