// What judging a task's windows answers where nothing is refused; a refusal is an `Err`.

// The answer about all windows of a task.
#[derive(Clone, Copy, Debug, PartialEq, Eq)]
pub enum Windows {
    // how many of the task's jobs are open
    Passes(u32),
    // of the first window that fails the number of its first job and its misses; how many of the task's jobs are open
    Fails(u32, u32, u32),
}
