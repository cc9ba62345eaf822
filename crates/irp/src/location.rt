//! A stack location.

ghost use Rattle.std.specs.Prelude.{◌≡◌};
ghost use Rattle.irp.specs.Climb.{asks};
ghost use Rattle.irp.specs.Packet.{handed_to, with_routine};

use crate::{Control, Driver, LocationFlags, MajorFunction, StackLocation};
use bitflags::Flags;
use sector::Extent;

impl StackLocation {
    /// Whether the location's routine is called: for a success, for an error, or since the packet is cancelled.
    pub fn asks(&self, success: bool, cancelled: bool) -> bool
        ensures { result ≡ asks success cancelled self.now }
    {
        success && self.control.contains(Control::INVOKE_ON_SUCCESS)
            || !success && self.control.contains(Control::INVOKE_ON_ERROR)
            || cancelled && self.control.contains(Control::INVOKE_ON_CANCEL)
    }

    /// The location as the next driver gets it: with no control flags.
    pub(crate) fn handed_to(self, driver: Driver) -> StackLocation
        ensures { result ≡ handed_to driver self }
    {
        StackLocation {
            driver,
            control: Control(0),
            ..self
        }
    }

    /// The location with the flags of a completion routine, and no others.
    pub(crate) fn with_routine(
        self,
        on_success: bool,
        on_error: bool,
        on_cancel: bool,
    ) -> StackLocation
        ensures { result ≡ with_routine on_success on_error on_cancel self }
    {
        let mut control = Control(0);
        if on_success {
            control.insert(Control::INVOKE_ON_SUCCESS);
        }
        if on_error {
            control.insert(Control::INVOKE_ON_ERROR);
        }
        if on_cancel {
            control.insert(Control::INVOKE_ON_CANCEL);
        }
        StackLocation { control, ..self }
    }
}

/// What stands in a location that no driver has taken yet; nobody reads it.
impl Default for StackLocation {
    fn default() -> StackLocation {
        StackLocation {
            driver: Driver::Port,
            major: MajorFunction::Create,
            minor: None,
            control: Control(0),
            flags: LocationFlags(0),
            volume: 0,
            extent: Extent { first: 0, count: 0 },
        }
    }
}
