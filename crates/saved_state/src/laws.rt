ghost use Rattle.std.specs.Prelude.{◌≡◌, ℕ, ℤ, List};
ghost use Rattle.cm_base.specs.declared.host.HostEnd.{HostEnd};
ghost use Rattle.cm_base.specs.HostEnds.{IsLawful};
ghost use Rattle.cm_base.specs.Scripts.{AreSaved};
ghost use Rattle.saved_state.specs.Applied.{AreValues, values_of, saved_with};
ghost use Rattle.saved_state.specs.declared.state.State.{State};
ghost use Rattle.saved_state.specs.declared.state.Version2.{Version2};
ghost use Rattle.saved_state.specs.declared.state.State.TheVariants as states;
ghost use Rattle.saved_state.specs.State.{IsState};
ghost use Rattle.saved_state.specs.Version2.{IsVersion2};

/// What is written reads back as the same state: the bytes that a state of version 2 is written as have that state and
/// no other. The function is a theorem and does nothing.
pub fn reads_back()
    ensures { (bytes : List ℕ) (state : Version2) (found : State) → IsVersion2 bytes state → IsState bytes found → found ≡ states.Version2 state }
{}

/// The values of parameters that are saved are in their ranges, and are applied again as they are. The function is a
/// theorem and does nothing.
pub fn applies_again()
    ensures in_range { (ends : List HostEnd) (values : List ℤ) → IsLawful ends → AreValues ends values → AreSaved ends (saved_with ends values) }
    ensures same { (ends : List HostEnd) (values : List ℤ) → IsLawful ends → AreValues ends values → values_of ends (saved_with ends values) ≡ values }
{}
