// A simulator that leaps from one instant at which something can change to the next: an arrival, a zero-slack instant, a finish, in SE
// the reaching of C. It keeps what each job has left, holds the suspended back by a bar, and knows from the start when a job without
// work finishes.
use drawn::list::{ARRIVAL, CRITICALITY, Case, EXECUTION, NOMINAL, OFFSET, PRIORITY};
use zsrm::{Mode, Standing, Tie};

// The ways to choose among equals: the two of our run; the last; and the way of mending, whoever ran before where no instant falls on the
// present, else the first.
#[derive(Clone, Copy)]
pub(crate) enum Way {
    Our(Tie),
    Last,
    Mending,
}

// What has become of a job. Absent is one that no list has, and, in a record, one that is yet to come.
#[derive(Clone, Copy, PartialEq, Eq)]
pub(crate) enum Fate {
    Absent,
    Open,
    // with its instant
    Finished(u32),
    // with its tick
    Ended(u32),
}

impl From<Standing> for Fate {
    fn from(standing: Standing) -> Fate {
        match standing {
            Standing::NotArrived => Fate::Absent,
            Standing::Unfinished => Fate::Open,
            Standing::Finished(f) => Fate::Finished(u32::from(f)),
            Standing::Ended(e) => Fate::Ended(u32::from(e)),
        }
    }
}

// What is left of a job, its fate, and of its time how many ticks it has been held below the bar and has waited for others that ran.
#[derive(Clone, Copy)]
pub(crate) struct Progress {
    pub left: u32,
    pub fate: Fate,
    pub held: u32,
    pub waited: u32,
}

// An instant, and each job at it. A turn is an instant at which the job that ran finished or, in SE, reached C; cut has a bit for each job
// that the tick before ended, and ran is the job of that tick.
#[derive(Clone, Copy)]
pub(crate) struct Sim {
    pub now: u32,
    pub turn: bool,
    pub cut: u64,
    pub ran: Option<usize>,
    pub jobs: [Progress; 64],
}

// Where a job stands: below the bar, or able to run, or neither, where it has not come or is over with.
#[derive(Clone, Copy, PartialEq, Eq)]
enum Stand {
    Away,
    Below,
    Able,
}

// The jobs that may run: the first and the last of the highest priority, that priority, and all their priorities as bits, with how many
// they are.
#[derive(Clone, Copy)]
pub(crate) struct Ready {
    pub first: Option<usize>,
    pub last: Option<usize>,
    pub top: u32,
    pub word: u64,
    pub ones: u32,
}

impl Ready {
    // One more job that may run.
    fn add(&mut self, j: usize, priority: u32) {
        let p = priority % 64;
        if (self.word >> p) % 2 == 0 {
            self.word |= 1 << p;
            self.ones = self.ones % 64 + 1;
        }
        if self.first.is_none() | (self.top < p) {
            self.first = Some(j);
            self.last = Some(j);
            self.top = p;
        } else if self.top == p {
            self.last = Some(j);
        }
    }
}

// What the job of the tick before has come to, as a report counts it.
#[derive(Clone, Copy)]
pub(crate) enum After {
    Idle,
    MayRun,
    Finished,
    Ended,
    ToCome,
    Suspended,
    Lower,
}

// The next arrival or zero-slack instant, or the limit where it comes first.
fn soonest(case: Case, now: u32, limit: u32) -> u64 {
    let present = now as u64;
    let mut next = limit as u64;
    for j in 0..case.job_count().min(64) {
        let arrival = u64::from(case.job(j, ARRIVAL));
        let zero = arrival + u64::from(case.task_of(j, OFFSET));
        let instant = if present < arrival { arrival } else { zero };
        if present < instant {
            next = next.min(instant);
        }
    }
    next
}

// Whether an arrival or a zero-slack instant falls on the present.
pub(crate) fn fixed_instant(case: Case, now: u32) -> bool {
    (now == 0) || (soonest(case, now - 1, 65536) == (now as u64))
}

impl Sim {
    // The criticality of a job that presses, which is open and has its zero-slack instant behind it.
    fn pressure(&self, case: Case, j: usize) -> Option<u32> {
        let zero = u64::from(case.job(j, ARRIVAL)) + u64::from(case.task_of(j, OFFSET));
        if (self.jobs[j % 64].fate == Fate::Open) & (zero <= (self.now as u64)) {
            Some(case.task_of(j, CRITICALITY))
        } else {
            None
        }
    }

    // The greatest pressure: who stands below this bar is held back.
    fn bar(&self, case: Case) -> Option<u32> {
        (0..64).filter_map(|j| self.pressure(case, j)).max()
    }

    // Whether a job's work exceeds C once the present tick has begun, in which it may run.
    fn exceeds(&self, case: Case, j: usize, runs: bool) -> bool {
        let left = self.jobs[j % 64].left;
        let begun = u64::from(case.task_of(j, NOMINAL)) + u64::from(left);
        let work = u64::from(case.job(j, EXECUTION));
        (begun < work) | (begun == work) & runs
    }

    // The greatest pressure of a job whose work exceeds C, with the job x running.
    fn greatest_excess(&self, case: Case, x: Option<usize>) -> Option<u32> {
        let excessive = (0..64).filter(|j| self.exceeds(case, *j, x == Some(*j)));
        excessive.filter_map(|j| self.pressure(case, j)).max()
    }

    fn stand(&self, case: Case, j: usize, bar: Option<u32>) -> Stand {
        if (self.jobs[j % 64].fate != Fate::Open) | (self.now < case.job(j, ARRIVAL)) {
            return Stand::Away;
        }
        match bar {
            Some(bar) if case.task_of(j, CRITICALITY) < bar => Stand::Below,
            _ => Stand::Able,
        }
    }

    pub(crate) fn ready(&self, case: Case) -> Ready {
        let bar = self.bar(case);
        let mut ready = Ready {
            first: None,
            last: None,
            top: 0,
            word: 0,
            ones: 0,
        };
        for j in 0..64 {
            if self.stand(case, j, bar) == Stand::Able {
                ready.add(j, case.task_of(j, PRIORITY));
            }
        }
        ready
    }

    // Whether a job may run, as one of the highest priority, or, for none, whether none may.
    pub(crate) fn may(&self, case: Case, x: Option<usize>) -> bool {
        let ready = self.ready(case);
        match x {
            Some(x) if x < 64 => {
                let able = self.stand(case, x, self.bar(case)) == Stand::Able;
                able & (case.task_of(x, PRIORITY) == ready.top)
            }
            Some(_) => false,
            None => ready.first.is_none(),
        }
    }

    // What the job of the tick before has come to.
    pub(crate) fn after(&self, case: Case) -> After {
        let Some(x) = self.ran else {
            return After::Idle;
        };
        if self.may(case, self.ran) {
            return After::MayRun;
        }
        if self.now < case.job(x, ARRIVAL) {
            return After::ToCome;
        }
        match self.jobs[x % 64].fate {
            Fate::Finished(_) => After::Finished,
            Fate::Ended(_) | Fate::Absent => After::Ended,
            Fate::Open if self.stand(case, x, self.bar(case)) == Stand::Below => After::Suspended,
            Fate::Open => After::Lower,
        }
    }

    // Who runs.
    pub(crate) fn chosen(&self, case: Case, way: Way) -> Option<usize> {
        let ready = self.ready(case);
        match way {
            Way::Our(Tie::Stay) if self.ran.is_some() & self.may(case, self.ran) => self.ran,
            Way::Mending if !self.turn & !fixed_instant(case, self.now) => self.ran,
            Way::Last => ready.last,
            _ => ready.first,
        }
    }

    // When the job that runs finishes or, in SE, reaches C; an instant beyond every horizon where none runs.
    fn runs_until(&self, case: Case, x: Option<usize>) -> u64 {
        let Some(x) = x else {
            return 1099511627776;
        };
        let now = u64::from(self.now);
        let finish = now + u64::from(self.jobs[x % 64].left);
        let work = u64::from(case.job(x, EXECUTION));
        let reach = finish + u64::from(case.task_of(x, NOMINAL));
        match case.mode {
            Mode::SE if now + work < reach => finish.min(reach - work),
            _ => finish,
        }
    }

    // Every job below the bar is ended in the present tick, which is one more in which it is held.
    fn cut_down(&mut self, case: Case, bar: Option<u32>) {
        self.cut = 0;
        for j in 0..64 {
            if self.stand(case, j, bar) == Stand::Below {
                self.jobs[j].fate = Fate::Ended(self.now);
                self.jobs[j].held = self.jobs[j].held % 65536 + 1;
                self.cut |= 1 << j;
            }
        }
    }

    // What the stretch up to an instant, with the job x running, costs the jobs that have come and are not over with: no instant lies
    // inside it, so each stands where it stands at its beginning. A job that the present tick ends is over with, its tick counted.
    fn bide(&mut self, case: Case, x: Option<usize>, until: u32) {
        let bar = self.bar(case);
        let stretch = until.saturating_sub(self.now) % 65536;
        for j in 0..64 {
            let stand = self.stand(case, j, bar);
            let own = &mut self.jobs[j];
            match stand {
                Stand::Below => own.held = own.held % 65536 + stretch,
                Stand::Able if x.is_some() & (x != Some(j)) => {
                    own.waited = own.waited % 65536 + stretch;
                }
                _ => {}
            }
        }
    }

    // The job x runs up to an instant.
    fn spend(&mut self, case: Case, x: Option<usize>, until: u32) {
        let now = self.now;
        self.now = until;
        self.turn = false;
        self.ran = x;
        let Some(x) = x else {
            return;
        };
        let own = &mut self.jobs[x % 64];
        let rest = u64::from(own.left) + u64::from(now);
        if (until as u64) < rest {
            let remains = ((rest - (until as u64)) % 4294967296) as u32;
            let begun = u64::from(case.task_of(x, NOMINAL)) + u64::from(remains);
            let reached = begun == u64::from(case.job(x, EXECUTION));
            own.left = remains;
            self.turn = matches!(case.mode, Mode::SE) & reached;
        } else {
            own.left = 0;
            own.fate = Fate::Finished(until);
            self.turn = true;
        }
    }

    // From the present to the next instant, or to the limit, with the job x running, or none. A tick that ends a job is passed alone.
    pub(crate) fn leap(self, case: Case, x: Option<usize>, limit: u32) -> Sim {
        let over = match case.mode {
            Mode::SE => self.greatest_excess(case, x),
            Mode::S => None,
        };
        let instant = soonest(case, self.now, limit).min(self.runs_until(case, x));
        let mut next = self;
        next.cut_down(case, over);
        let until = if next.cut == 0 {
            instant
        } else {
            u64::from(self.now) + 1
        };
        let to = (until % 4294967296) as u32;
        next.bide(case, x, to);
        next.spend(case, x, to);
        next
    }
}
