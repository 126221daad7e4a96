// What tasks and jobs are read from, once for all: a list of numbers, or bytes that spell them, four for each.
ghost use Rattle.std.specs.Prelude.{◌≡◌, List, ℕ, length};
ghost use Rattle.tables.specs.Fields.{task_at, job_at};
ghost use Rattle.tables.specs.Bytes.{numbers_in};

use crate::bytes::{job_in, task_in};
use crate::fields::{Job, Task, job_at, task_at};

pub(crate) trait Listed: Copy {
    // the numbers that are read
    ghost numbers: { Self → List ℕ };

    // How many they are.
    fn size(self) -> usize
        ensures { result ≡ length (numbers self) };

    // The fields of task k, 0 past the end.
    fn task(self, k: u32) -> Task
        ensures { result ≡ task_at (numbers self) k };

    // The fields of job j, 0 past the end.
    fn job(self, j: u32) -> Job
        ensures { result ≡ job_at (numbers self) j };
}

impl Listed for &[u32] {
    ghost numbers = { λ s. s.now };

    fn size(self) -> usize {
        self.len()
    }

    fn task(self, k: u32) -> Task {
        task_at(self, k)
    }

    fn job(self, j: u32) -> Job {
        job_at(self, j)
    }
}

impl Listed for &[u8] {
    ghost numbers = { λ s. numbers_in 4 s.now };

    fn size(self) -> usize {
        self.len() / 4
    }

    fn task(self, k: u32) -> Task {
        task_in(self, k)
    }

    fn job(self, j: u32) -> Job {
        job_in(self, j)
    }
}
