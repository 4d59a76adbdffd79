ghost use Rattle.std.specs.Prelude.{ℕ, ◌≡◌, ◌⊎◌, List};
ghost use Rattle.std.specs.Str.{IsUtf8};
ghost use Rattle.cm_tree.specs.declared.tokens.Tokens.{Tokens};
ghost use Rattle.cm_tree.specs.Tokens.{IsTokens};
ghost use Rattle.cm_lexer.specs.Answer.{HasTokens, HasFault, HasNoFault};

/// A file has one list of tokens at most.
pub fn tokens_are_unique()
    ensures { (file : ℕ) (bytes : List ℕ) (tokens others : Tokens) → IsTokens file bytes tokens → IsTokens file bytes others → tokens ≡ others }
{}

/// A file that has tokens has no lexing fault.
pub fn no_fault_beside_tokens()
    ensures { (file : ℕ) (bytes : List ℕ) (tokens : Tokens) → IsTokens file bytes tokens → HasNoFault file bytes }
{}

/// Each text has tokens or a lexing fault.
pub fn tokens_or_fault()
    ensures { (file : ℕ) (bytes : List ℕ) → IsUtf8 bytes → HasTokens file bytes ⊎ HasFault file bytes }
{}
