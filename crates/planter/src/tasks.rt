// The planter's three tasks, by their numbers in the table, and the table.

// Presses the seed units into the ground.
pub const DOWN_FORCE: u32 = 0;

// Estimates the seed depth.
pub const DEPTH: u32 = 1;

// Writes the day's log.
pub const LOG: u32 = 2;

// Seven numbers per task, in document 01's order: period, deadline, nominal time, overload time, criticality, priority, zero-slack offset.
pub(crate) const TABLE: [u32; 21] = [
    // down-force
    20, 20, 4, 8, 3, 2, 12,
    // depth
    10, 10, 3, 4, 2, 3, 6,
    // log
    40, 40, 6, 6, 1, 1, 30,
];
