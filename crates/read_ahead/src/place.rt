//! Where an input is.

ghost use Rattle.std.specs.Prelude.{◌≡◌};
ghost use Rattle.read_ahead.specs.inside.Places.{is_lost};

/// Where an input is.
#[derive(Drop)]
pub(crate) enum Place<I: Drop> {
    /// With the reader itself.
    Here(I),
    /// With the second thread.
    Away,
    /// Nowhere: it failed.
    Lost,
}

impl<I: Drop> Place<I> {
    pub(crate) fn is_lost(&self) -> bool
        ensures { result ≡ is_lost self.now }
    {
        matches!(self, Place::Lost)
    }
}
