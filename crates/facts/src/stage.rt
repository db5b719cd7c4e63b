//! How far one is in a log, as far as the kinds of a renewed log's head ask for it.

/// How far one is in a log. `Head`: before any record, or after the base and the versions that it lists. `Early`:
/// after other records, before the first opening. `Open`: after an opening.
#[derive(Clone, Copy)]
pub enum Stage {
    Head,
    Early,
    Open,
}

impl Stage {
    ghost use Rattle.std.specs.Prelude.{◌≡◌};
    ghost use Rattle.facts.specs.Stages.{past_head, is_head, is_open};

    /// Tells whether a version may come, as far as this tells.
    pub(crate) fn is_head(self) -> bool
        ensures { result ≡ is_head self }
    {
        match self {
            Stage::Head => true,
            Stage::Early | Stage::Open => false,
        }
    }

    /// Tells whether an opening came.
    pub(crate) fn is_open(self) -> bool
        ensures { result ≡ is_open self }
    {
        match self {
            Stage::Open => true,
            Stage::Head | Stage::Early => false,
        }
    }

    /// Gives the stage after a record that is none of the head's and no opening.
    pub(crate) fn past_head(self) -> Stage
        ensures { result ≡ past_head self }
    {
        match self {
            Stage::Head | Stage::Early => Stage::Early,
            Stage::Open => Stage::Open,
        }
    }
}
