//! The packet.

ghost use Rattle.std.specs.Prelude.{◌≡◌, ◌<◌, ◌≤◌, ◌+◌, [], ◌∷◌, ◌++◌, List, Bool, ◌&&◌, ◌||◌, Some, None, true, false, not};
ghost use Rattle.arrayvec.specs.ArrayVec.{array_vec_len};
ghost use Rattle.irp.specs.declared.StackLocation.{StackLocation};
ghost use Rattle.irp.specs.Climb.{above, asks};
ghost use Rattle.irp.specs.Packet.{HasOwn, KeepsAllButLocations, handed_to, with_routine, cancel_routine_of, with_cancel_routine};

use crate::{CancelRoutine, Driver, IoStatus, Irp, Payload, StackLocation};
use arrayvec::ArrayVec;
use ntstatus::NtStatus;

impl Irp {
    /// A packet with no stack location yet, not cancelled, with no cancel routine. Until it is completed its status is
    /// PENDING and its information 0.
    pub fn new(number: u128, payload: Payload) -> Irp
        ensures number { result.number ≡ number }
        ensures payload { result.payload ≡ payload }
        ensures cancelled { result.cancelled ≡ false }
        ensures status { result.io_status ≡ record { status = NtStatus.Pending; information = 0 } }
        ensures locations { result.locations.items ≡ [] }
        ensures cancel_routine { cancel_routine_of result ≡ None }
    {
        Irp {
            number,
            payload,
            cancelled: false,
            io_status: IoStatus {
                status: NtStatus::Pending,
                information: 0,
            },
            locations: ArrayVec::new(),
            cancel_routine: None,
        }
    }

    /// The packet goes to the next driver, which has this location as its own. A packet has at most four (WDK:
    /// IoGetNextIrpStackLocation).
    pub fn next_location(&mut self, location: StackLocation)
        requires { array_vec_len self.old.locations < 4 }
        ensures locations { HasOwn self.new self.old.locations.items location }
        ensures length { array_vec_len self.new.locations ≡ array_vec_len self.old.locations + 1 }
        ensures kept { KeepsAllButLocations self.old self.new }
    {
        self.locations.push(location);
    }

    /// The packet goes to the next driver, with a copy of the current driver's own location in all but the control
    /// flags (WDK: IoCopyCurrentIrpStackLocationToNext). It has one to three.
    pub fn copy_to_next(&mut self, driver: Driver)
        requires own { 0 < array_vec_len self.old.locations }
        requires place { array_vec_len self.old.locations < 4 }
        ensures locations { (higher : List StackLocation) (own : StackLocation)
            → HasOwn self.old higher own → HasOwn self.new (higher ++ own ∷ []) (handed_to driver own) }
        ensures length { array_vec_len self.new.locations ≡ array_vec_len self.old.locations + 1 }
        ensures kept { KeepsAllButLocations self.old self.new }
    {
        let own = self.own_location();
        self.locations.push(own.handed_to(driver));
    }

    /// The packet goes to the next driver with the current driver's own location, which is no longer that driver's: it
    /// has no completion routine (WDK: IoSkipCurrentIrpStackLocation).
    pub fn skip(&mut self, driver: Driver)
        requires { 0 < array_vec_len self.old.locations }
        ensures locations { (higher : List StackLocation) (own : StackLocation)
            → HasOwn self.old higher own → HasOwn self.new higher (handed_to driver own) }
        ensures length { array_vec_len self.new.locations ≡ array_vec_len self.old.locations }
        ensures kept { KeepsAllButLocations self.old self.new }
    {
        let own = self.own_location();
        self.put_own(own.handed_to(driver));
    }

    /// Before the current driver passes the packet on, it marks its own location: its routine is called when the packet
    /// comes back as a success, as an error, or as a cancelled packet with whichever status. The other control flags
    /// of its own location are cleared, where IoSetCompletionRoutine of the WDK clears those of the next.
    pub fn set_completion(&mut self, on_success: bool, on_error: bool, on_cancel: bool)
        requires { 0 < array_vec_len self.old.locations }
        ensures locations { (higher : List StackLocation) (own : StackLocation)
            → HasOwn self.old higher own → HasOwn self.new higher (with_routine on_success on_error on_cancel own) }
        ensures asks { (success cancelled : Bool) (higher : List StackLocation) (own : StackLocation)
            → HasOwn self.new higher own
            → asks success cancelled own ≡ ((success && on_success) || (not success && on_error) || (cancelled && on_cancel)) }
        ensures length { array_vec_len self.new.locations ≡ array_vec_len self.old.locations }
        ensures kept { KeepsAllButLocations self.old self.new }
    {
        let own = self.own_location();
        self.put_own(own.with_routine(on_success, on_error, on_cancel));
    }

    /// Installs this driver's cancel routine in place of any other (WDK: IoSetCancelRoutine).
    pub fn set_cancel_routine(&mut self, routine: CancelRoutine)
        ensures { self.new ≡ with_cancel_routine (Some routine) self.old }
    {
        self.cancel_routine = Some(routine);
    }

    /// Takes the cancel routine out (WDK: IoSetCancelRoutine with NULL). Whoever gets it goes on with the packet: of a
    /// canceller and a driver that releases the packet, only the first does.
    pub fn take_cancel_routine(&mut self) -> Option<CancelRoutine>
        ensures value { result ≡ cancel_routine_of self.old }
        ensures once { cancel_routine_of self.new ≡ None }
        ensures kept { self.new ≡ with_cancel_routine None self.old }
    {
        self.cancel_routine.take()
    }

    /// Marks the packet as cancelled.
    pub fn mark_cancelled(&mut self)
        ensures { self.new ≡ record self.old { cancelled = true } }
    {
        self.cancelled = true;
    }

    /// The current driver's own location.
    fn own_location(&self) -> StackLocation
        requires { 0 < array_vec_len self.now.locations }
        ensures own { HasOwn self.now (above self.now) result }
        ensures fits { array_vec_len self.now.locations ≤ 4 }
    {
        let Some(own) = self.locations.last() else {
            unreachable!()
        };
        *own
    }

    /// Changes the current driver's own location.
    fn put_own(&mut self, own: StackLocation)
        requires some { 0 < array_vec_len self.old.locations }
        requires fits { array_vec_len self.old.locations ≤ 4 }
        ensures locations { HasOwn self.new (above self.old) own }
        ensures length { array_vec_len self.new.locations ≡ array_vec_len self.old.locations }
        ensures kept { KeepsAllButLocations self.old self.new }
    {
        self.locations.pop();
        self.locations.push(own);
    }
}
