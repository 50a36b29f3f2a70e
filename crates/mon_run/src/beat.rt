/// A hook by which tests hold a thread or the controller. It has no effect on what a run promises.
pub trait Beat {
    /// The thread is about to enter.
    fn polled(&self, thread: u8);

    /// The script's call was made, or found no memory.
    fn called(&self, script: u8);
}
