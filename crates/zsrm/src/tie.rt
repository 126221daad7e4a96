// Request Nine: where several jobs are candidates, our run stays with the job of the previous tick, or takes the lowest job number.
ghost use Rattle.std.specs.Prelude.{◌≡◌};
ghost use Rattle.zsrm.specs.Tick.{is_stay};

#[derive(Clone, Copy, Debug, PartialEq, Eq)]
pub enum Tie {
    // the job of the previous tick if it is still a candidate, else the lowest number
    Stay,
    Lowest,
}

// Whether the run stays with the job of the previous tick.
pub(crate) fn is_stay(tie: Tie) -> bool
    ensures { result ≡ is_stay tie }
{
    matches!(tie, Tie::Stay)
}
