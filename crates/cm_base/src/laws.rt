ghost use Rattle.cm_base.specs.Tasks.{TasksFit};

/// The tasks of a run hold what they are to: a value that is set and an event that is sent go to an input of
/// their kind that takes them, and the streams of each frame have their shapes. This holds for endpoints that
/// can belong to a patch, saved parameters in their ranges, and a script for these endpoints of any length.
pub fn tasks_fit()
    ensures { TasksFit }
{}
