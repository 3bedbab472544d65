// Laws of waits.
ghost use Rattle.hb_wait.specs.Courses.{WaitsFollow};

/// Where the manager answers as it may, the calls of a course are those of its talk.
pub fn waits_follow()
    ensures { WaitsFollow }
{}
