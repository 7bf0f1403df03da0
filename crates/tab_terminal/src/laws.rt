//! What holds of typed and shown words: laws, each proved as what a function with an empty body ensures.
ghost use Rattle.std.specs.Prelude.{◌≡◌, ◌++◌, ◌∷◌, [], Ok, Bool};
ghost use Rattle.tab_text.specs.Words.{word};
ghost use Rattle.tab_terminal.specs.Showing.{shown};
ghost use Rattle.tab_terminal.specs.Typing.{sent, behind};

use crate::LinePosition;

/// What is shown of some bytes, typed, is sent as the one word that scripts have for them: at the end of a line, and in front of others.
pub fn shown_is_typed(bytes: &[u8])
    ensures last { (drawn : Bool) → sent LinePosition.Between (shown drawn bytes.now) ≡ Ok (word bytes.now) }
    ensures first { (drawn : Bool) (rest : _) → sent LinePosition.Between (shown drawn bytes.now ++ 32 ∷ rest) ≡ behind (word bytes.now ++ 32 ∷ []) (sent LinePosition.Between rest) }
{}
