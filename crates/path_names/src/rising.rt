ghost use Rattle.std.specs.Prelude.{◌≡◌, ℕ, ◌<◌, ◌≤◌, ◌-◌, ◌↔◌, length, false, true, ◌≢◌, IsTrue, None, Some, slice_get};
ghost use Rattle.path_names.specs.Rising.{AreRising, comes_before};

use crate::id::Use;
use cm_base::Place;

// Whether a place comes before another.
fn is_before(a: Place, b: Place) -> bool
    ensures { result ≡ comes_before a b }
{
    if a.file == b.file {
        if a.line == b.line {
            a.column < b.column
        } else {
            a.line < b.line
        }
    } else {
        a.file < b.file
    }
}

/// Whether each of these stands before all that follow it.
pub fn are_rising(uses: &[Use]) -> bool
    ensures { IsTrue result ↔ AreRising uses.now }
{
    for index in 1..uses.len() {
        if !is_before(uses[index - 1].place, uses[index].place) {
            return false;
        }
    }
    true
}

/// A number of these up to which the last one doesn't stand behind the place, and from which on the first one does.
pub fn first_past(uses: &[Use], place: Place) -> usize
    ensures within { result ≤ length uses.now }
    ensures before { (u : Use) → 0 < result → slice_get uses.now (result - 1) ≡ Some u → comes_before place u.place ≡ false }
    ensures behind { (u : Use) → slice_get uses.now result ≡ Some u → comes_before place u.place ≡ true }
{
    let mut low = 0;
    let mut high = uses.len();
    while low < high {
        let middle = low + (high - low) / 2;
        if is_before(place, uses[middle].place) {
            high = middle;
        } else {
            low = middle + 1;
        }
    }
    low
}

/// The one of these that stands at a place, if one does.
pub fn use_at(uses: &[Use], place: Place) -> Option<Use>
    requires { AreRising uses.now }
    ensures there { (k : ℕ) (u : Use) → slice_get uses.now k ≡ Some u → u.place ≡ place → result ≡ Some u }
    ensures none { ((k : ℕ) (u : Use) → slice_get uses.now k ≡ Some u → u.place ≢ place) → result ≡ None }
{
    let past = first_past(uses, place);
    if past == 0 {
        return None;
    }
    let found = uses[past - 1];
    if is_before(found.place, place) {
        None
    } else {
        Some(found)
    }
}
