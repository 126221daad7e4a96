// What every call is given beside a schedule.

// A task table, a job list and a horizon.
#[derive(Clone, Copy, Debug, PartialEq, Eq)]
pub(crate) struct Plan<'a> {
    pub tasks: &'a [u32],
    pub jobs: &'a [u32],
    pub horizon: u32,
}
