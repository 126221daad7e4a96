// What a batch is given beside the schedule.
use zsrm::Mode;

// One table in one mode, the flat list, the job counts, one horizon.
#[derive(Clone, Copy)]
pub(crate) struct Offer<'a> {
    pub mode: Mode,
    pub tasks: &'a [u32],
    pub jobs: &'a [u32],
    pub counts: &'a [u32],
    pub horizon: u32,
}
