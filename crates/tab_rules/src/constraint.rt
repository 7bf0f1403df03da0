//! The constraints that a table can have.
ghost use Rattle.std.specs.Prelude.{◌≡◌, ◌↔◌, Some};
ghost use Rattle.tab_rules.specs.Constraints.{constraint_number, constraint_name, constraint_named, text_of};

/// A constraint on the mutations of a table.
#[derive(Clone, Copy, Debug, PartialEq, Eq)]
pub enum Constraint {
    /// `keysize`, number 1. Code 1: the row, family, qualifier and label of an update have together
    /// more than 1,048,576 bytes.
    KeySize,
    /// `alphanum`, number 2. A byte of the row (code 1), the family (code 2) or the qualifier (code
    /// 3) is no ASCII letter or digit. Empty ones pass.
    Alphanumeric,
    /// `numeric`, number 3. Code 1: a put's value isn't an optional `-` and then one or more ASCII
    /// digits. Deletes pass.
    Numeric,
    /// `visibility`, number 4. Code 2: the label doesn't hold under all authorizations that the
    /// writer holds. The empty label passes.
    Visibility,
}

impl Constraint {
    /// The number, 1 to 4.
    pub fn number(self) -> u8
        ensures { result ≡ constraint_number self }
    {
        match self {
            Constraint::KeySize => 1,
            Constraint::Alphanumeric => 2,
            Constraint::Numeric => 3,
            Constraint::Visibility => 4,
        }
    }

    /// The name.
    pub fn name(self) -> &'static str
        ensures { result.now ≡ constraint_name self }
    {
        match self {
            Constraint::KeySize => "keysize",
            Constraint::Alphanumeric => "alphanum",
            Constraint::Numeric => "numeric",
            Constraint::Visibility => "visibility",
        }
    }

    /// The constraint of this name, if there is one.
    pub fn from_name(name: &[u8]) -> Option<Constraint>
        ensures value { result ≡ constraint_named name.now }
        ensures exact { (c : _) → (result ≡ Some c) ↔ (name.now ≡ constraint_name c) }
    {
        if name == b"keysize".as_slice() {
            Some(Constraint::KeySize)
        } else if name == b"alphanum".as_slice() {
            Some(Constraint::Alphanumeric)
        } else if name == b"numeric".as_slice() {
            Some(Constraint::Numeric)
        } else if name == b"visibility".as_slice() {
            Some(Constraint::Visibility)
        } else {
            None
        }
    }
}

/// What the constraint number and the code of a violation mean.
///
/// It is the constraint's name, the empty text for an unknown number, and a sentence for the
/// number 4 with the code 2.
pub fn text(number: u32, code: u32) -> &'static str
    ensures { result.now ≡ text_of number code }
{
    match (number, code) {
        (4, 2) => "User does not have authorization on column visibility",
        (1, _) => Constraint::KeySize.name(),
        (2, _) => Constraint::Alphanumeric.name(),
        (3, _) => Constraint::Numeric.name(),
        (4, _) => Constraint::Visibility.name(),
        _ => "",
    }
}
