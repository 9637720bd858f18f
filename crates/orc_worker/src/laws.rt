//! What holds of each worker. The functions do nothing: their contracts are the laws.
ghost use Rattle.orc_worker.specs.Courses.{CoursesAreThese};
ghost use Rattle.orc_worker.specs.Workers.{OperationIsDue, WorkersStaySound};

/// An operation is due for a worker except where it waits for the decision or has ended.
pub fn operation_is_due()
    ensures { OperationIsDue }
{}

/// A new worker has an outcome exactly where its stage is to have one, and replies and the decision
/// keep it so. Such a worker reports nothing exactly where a reply brings no outcome and is no fault.
pub fn workers_stay_sound()
    ensures { WorkersStaySound }
{}

/// Along all replies a worker prepares its device operation by operation, as long as each is done, and
/// closes the session after a refusal; then it ends by the decision what it prepared, or cancels what
/// it lost.
pub fn courses_are_these()
    ensures { CoursesAreThese }
{}
