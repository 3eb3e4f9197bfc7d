// What a phase and a level say.
ghost use Rattle.std.specs.Prelude.{◌≡◌};
ghost use Rattle.seeing.specs.Phases.{phase_to_others, stamped_by, busy_after, is_serializable, is_active, is_preparing, if_preparing, if_validated, is_aborted, is_over};

use crate::{Level, Phase};

impl Level {
    pub fn is_serializable(self) -> bool
        ensures { result ≡ is_serializable self }
    {
        self == Level::Serializable
    }
}

impl Phase {
    /// The phase as others take it: a doomed transaction counts as aborted, a validated one as preparing.
    pub fn to_others(self, doomed: bool) -> Phase
        ensures { result ≡ phase_to_others doomed self }
    {
        if doomed {
            return Phase::Aborted;
        }
        match self {
            Phase::Validated(e) => Phase::Preparing(e),
            phase => phase,
        }
    }

    /// Preparing or committed, with an end stamp not above the time.
    pub fn is_stamped_by(self, time: u64) -> bool
        ensures { result ≡ stamped_by time self }
    {
        matches!(self, Phase::Preparing(e) | Phase::Validated(e) | Phase::Committed(e) if e <= time)
    }

    /// Active, or preparing or committed with an end stamp above the time.
    pub fn is_busy_after(self, time: u64) -> bool
        ensures { result ≡ busy_after time self }
    {
        match self {
            Phase::Active => true,
            Phase::Preparing(e) | Phase::Validated(e) | Phase::Committed(e) => time < e,
            Phase::Aborted => false,
        }
    }

    pub fn is_active(self) -> bool
        ensures { result ≡ is_active self }
    {
        matches!(self, Phase::Active)
    }

    /// Preparing, or validated.
    pub fn is_preparing(self) -> bool
        ensures { result ≡ is_preparing self }
    {
        matches!(self, Phase::Preparing(_) | Phase::Validated(_))
    }

    pub fn is_aborted(self) -> bool
        ensures { result ≡ is_aborted self }
    {
        matches!(self, Phase::Aborted)
    }

    /// The end stamp of a transaction that is to be validated.
    pub fn if_preparing(self) -> Option<u64>
        ensures { result ≡ if_preparing self }
    {
        match self {
            Phase::Preparing(end) => Some(end),
            _ => None,
        }
    }

    /// The end stamp of a transaction that is to be committed.
    // Shaped as the one above: a case of an enum can't be a parameter.
    pub fn if_validated(self) -> Option<u64>
        ensures { result ≡ if_validated self }
    {
        match self {
            Phase::Validated(end) => Some(end),
            _ => None,
        }
    }

    /// Committed or aborted.
    pub fn is_over(self) -> bool
        ensures { result ≡ is_over self }
    {
        matches!(self, Phase::Committed(_) | Phase::Aborted)
    }
}
