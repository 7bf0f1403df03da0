//! The first words of lines.
ghost use Rattle.std.specs.Prelude.{◌≡◌};
ghost use Rattle.tab_lines.specs.Lines.{command_of};

/// The first word of a line: what it asks for.
#[derive(Clone, Copy)]
pub enum Command {
    /// `as`
    As,
    /// `at`
    At,
    /// `createtable`
    CreateTable,
    /// `droptable`
    DropTable,
    /// `createuser`
    CreateUser,
    /// `dropuser`
    DropUser,
    /// `setauths`
    SetAuths,
    /// `grant`
    Grant,
    /// `revoke`
    Revoke,
    /// `rights`
    Rights,
    /// `constraints`
    Constraints,
    /// `versions`
    Versions,
    /// `horizon`
    Horizon,
    /// `insert`
    Insert,
    /// `delete`
    Delete,
    /// `mutate`
    Mutate,
    /// `scan`
    Scan,
    /// `open`
    Open,
    /// `next`
    Next,
    /// `many`
    Many,
    /// `close`
    Close,
    /// `flush`
    Flush,
    /// `compact`
    Compact,
    /// `begin`
    Begin,
    /// `merge`
    Merge,
    /// `install`
    Install,
    /// `status`
    Status,
    /// `addsplit`
    AddSplit,
    /// `splitsize`
    SplitSize,
    /// `splits`
    Splits,
    /// `save`
    Save,
    /// `load`
    Load,
    /// `rotate`
    Rotate,
}

/// The command that a word is. Commands are literal: nothing in them may be escaped.
pub fn command_of(word: &[u8]) -> Option<Command>
    ensures { result ≡ command_of word.now }
{
    match word {
        b"as" => Some(Command::As),
        b"at" => Some(Command::At),
        b"createtable" => Some(Command::CreateTable),
        b"droptable" => Some(Command::DropTable),
        b"createuser" => Some(Command::CreateUser),
        b"dropuser" => Some(Command::DropUser),
        b"setauths" => Some(Command::SetAuths),
        b"grant" => Some(Command::Grant),
        b"revoke" => Some(Command::Revoke),
        b"rights" => Some(Command::Rights),
        b"constraints" => Some(Command::Constraints),
        b"versions" => Some(Command::Versions),
        b"horizon" => Some(Command::Horizon),
        b"insert" => Some(Command::Insert),
        b"delete" => Some(Command::Delete),
        b"mutate" => Some(Command::Mutate),
        b"scan" => Some(Command::Scan),
        b"open" => Some(Command::Open),
        b"next" => Some(Command::Next),
        b"many" => Some(Command::Many),
        b"close" => Some(Command::Close),
        b"flush" => Some(Command::Flush),
        b"compact" => Some(Command::Compact),
        b"begin" => Some(Command::Begin),
        b"merge" => Some(Command::Merge),
        b"install" => Some(Command::Install),
        b"status" => Some(Command::Status),
        b"addsplit" => Some(Command::AddSplit),
        b"splitsize" => Some(Command::SplitSize),
        b"splits" => Some(Command::Splits),
        b"save" => Some(Command::Save),
        b"load" => Some(Command::Load),
        b"rotate" => Some(Command::Rotate),
        _ => None,
    }
}
