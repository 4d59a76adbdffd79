//! Where tokens stand in their file: a law, whose body does nothing. Layers that tell names by their places rest on it.
#![tactic(auto)]

ghost use Rattle.token_places.specs.Rising.{TokensRise};

/// Each token of a file stands before all that follow it.
pub fn tokens_rise()
    ensures { TokensRise }
{}
