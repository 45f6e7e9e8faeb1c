//! The sorts of lines after `begin`.
ghost use Rattle.std.specs.Prelude.{◌≡◌};
ghost use Rattle.tr_session.specs.Answering as spec;
ghost use Rattle.tr_session.specs.Answering.{behind_sort, sort_ends_steps};

use tr_grammar::Meaning;

/// The sort of a line after `begin`.
#[derive(Clone, Copy, Debug, PartialEq, Eq)]
pub(crate) enum LineSort {
    /// A silent line, or one of the opening.
    Nothing,
    Step,
    Sync,
    Report,
    End,
}

/// The sort of a line with this meaning.
pub(crate) fn sort_of(said: &Option<Meaning>) -> LineSort
    ensures { result ≡ spec.meaning_sort said.now }
{
    match said {
        Some(Meaning::Step { .. }) => LineSort::Step,
        Some(Meaning::Sync) => LineSort::Sync,
        Some(Meaning::Report(_)) => LineSort::Report,
        Some(Meaning::End) => LineSort::End,
        _ => LineSort::Nothing,
    }
}

impl LineSort {
    /// Whether the last line made a step, once this line is taken too.
    pub(crate) fn is_behind_step(self, before: bool) -> bool
        ensures { result ≡ behind_sort self before }
    {
        match self {
            LineSort::Nothing => before,
            LineSort::Step => true,
            LineSort::Sync | LineSort::Report | LineSort::End => false,
        }
    }

    /// Whether a script has a sync between a step and this line.
    pub(crate) fn ends_steps(self) -> bool
        ensures { result ≡ sort_ends_steps self }
    {
        matches!(self, LineSort::Report | LineSort::End)
    }
}
