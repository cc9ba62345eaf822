//! Climbs through four drivers, and a packet on its way down.

ghost use Rattle.std.specs.Prelude.{◌≡◌, ◌<◌, ◌+◌};
ghost use Rattle.arrayvec.specs.ArrayVec.{array_vec_len};

use crate::expect::{same, same_at};
use irp::{
    CancelRoutine, Climb, Control, Done, Driver, IoStatus, Irp, LocationFlags, MajorFunction,
    Payload, StackLocation, complete, resume,
};
use ntstatus::NtStatus;
use sector::{Bytes, Extent};
use srb::Srb;
use std::alloc::{AllocError, Global};
use std::process::Abort;
use std::test::Fail;

/// The outcomes for which a routine is asked: success, error, cancel.
type Asked = (bool, bool, bool);

const NEVER: Asked = (false, false, false);

const ON_ERROR: Asked = (false, true, false);

const ON_CANCEL: Asked = (false, false, true);

const ON_BOTH: Asked = (true, true, false);

fn location(driver: Driver) -> StackLocation {
    StackLocation {
        driver,
        major: MajorFunction::Read,
        minor: None,
        control: Control(0),
        flags: LocationFlags(0),
        volume: 1,
        extent: Extent {
            first: 16,
            count: 1,
        },
    }
}

/// Passes the packet on to this driver, which asks for a routine.
fn pass_to(irp: &mut Irp, driver: Driver, asked: Asked)
    requires { array_vec_len irp.old.locations < 4 }
    ensures { array_vec_len irp.new.locations ≡ array_vec_len irp.old.locations + 1 }
{
    irp.next_location(location(driver));
    irp.set_completion(asked.0, asked.1, asked.2);
}

/// A packet that has come down to the port, past three drivers that ask for these routines.
fn packet_at_port(payload: Payload, partition: Asked, filter: Asked, class: Asked) -> Irp {
    let mut irp = Irp::new(7, payload);
    pass_to(&mut irp, Driver::Partition, partition);
    pass_to(&mut irp, Driver::Filter, filter);
    pass_to(&mut irp, Driver::Class, class);
    irp.next_location(location(Driver::Port));
    irp
}

/// The driver whose routine is called, and its packet.
fn routine_of(rt: &impl Abort, climb: Climb) -> (Driver, Irp) {
    match climb {
        Climb::Routine { driver, irp } => (driver, irp),
        Climb::Finished(_done) => panic!(rt; "no routine is called"),
    }
}

/// The packet that no routine is called for.
fn done_of(rt: &impl Abort, climb: Climb) -> Done {
    match climb {
        Climb::Routine { driver, irp: _irp } => panic!(rt; "the routine of {driver:?} is called"),
        Climb::Finished(done) => done,
    }
}

/// The bytes of a client's packet.
fn bytes_of(rt: &impl Abort, payload: Payload) -> Bytes {
    match payload {
        Payload::Buffer(bytes) => bytes,
        other => panic!(rt; "the payload is another: {other:?}"),
    }
}

/// Has a packet climb, and checks which routines it meets and how it ends.
fn climbs(rt: &impl Abort, irp: Irp, status: NtStatus, called: &[Driver]) {
    let mut climb = complete(irp, status, 512);
    for driver in called {
        let (reached, irp) = routine_of(rt, climb);
        same_at(rt, &reached, driver, &status);
        climb = resume(irp);
    }
    let done = done_of(rt, climb);
    same(rt, &done.number, &7);
    same(rt, &done.status, &status);
    same(rt, &done.information, &512);
    let bytes = bytes_of(rt, done.payload);
    same(rt, &bytes.as_slice(), &[0xA5, 0x5A].as_slice());
}

fn payload(alloc: Global) -> Result<Payload, AllocError> {
    Ok(Payload::Buffer(Bytes::new([0xA5, 0x5A].to_vec(alloc)?)))
}

#[test]
fn packets_climb_to_the_routines_that_ask(rt: HostRuntime) -> Result<(), Fail> {
    let irp = packet_at_port(payload(rt.alloc())?, ON_BOTH, ON_BOTH, ON_ERROR);
    let all = [Driver::Class, Driver::Filter, Driver::Partition];
    climbs(&rt, irp, NtStatus::IoDeviceError, &all);
    let mut irp = packet_at_port(payload(rt.alloc())?, NEVER, NEVER, ON_CANCEL);
    irp.mark_cancelled();
    climbs(&rt, irp, NtStatus::Success, &[Driver::Class]);
    Ok(())
}

#[test]
fn a_packet_goes_down(rt: HostRuntime) {
    let mut irp = Irp::new(7, Payload::Buffer(Bytes::new(Vec::new(rt.alloc()))));
    pass_to(&mut irp, Driver::Partition, ON_BOTH);
    irp.copy_to_next(Driver::Filter);
    irp.set_completion(true, true, true);
    irp.skip(Driver::Class);
    let mut partition = location(Driver::Partition);
    partition.control = Control(0xC0);
    let expected = [partition, location(Driver::Class)];
    same(&rt, &irp.locations.as_slice(), &expected.as_slice());
    let (reached, mut irp) = routine_of(&rt, complete(irp, NtStatus::Success, 0));
    same_at(
        &rt,
        &reached,
        &Driver::Partition,
        &"the filter has no routine",
    );
    let routine = CancelRoutine {
        driver: Driver::Partition,
    };
    irp.set_cancel_routine(routine);
    same(&rt, &irp.take_cancel_routine(), &Some(routine));
    same(&rt, &irp.take_cancel_routine(), &None);
}
