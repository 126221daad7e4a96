// The two schedulers: ZSRM-S suspends; ZSRM-SE suspends and ends.
ghost use Rattle.std.specs.Prelude.{◌≡◌};
ghost use Rattle.zsrm.specs.Given.{is_se};

#[derive(Clone, Copy, Debug, PartialEq, Eq)]
pub enum Mode {
    S,
    SE,
}

// Whether the mode is SE.
pub(crate) fn is_se(mode: Mode) -> bool
    ensures { result ≡ is_se mode }
{
    matches!(mode, Mode::SE)
}
