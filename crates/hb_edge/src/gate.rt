// A gate for the threads of sessions.

/// Where a session's thread may be held before a request.
pub trait Gate {
    /// Called by a session's thread before its nth request of the phase, from 1 on. It returns once the thread may go on.
    fn pass(&self, session: u8, nth: u64);
}
