//! How labels fit behind each other, and which sectors a request moves.

ghost use Rattle.std.specs.Prelude.{◌≡◌, IfOk};

use history_fitting::{Known, Misfit, Place, Service, contents_of};
use machine::{ClientRequest, Kind, Label};
use ntstatus::NtStatus;
use sector::{Bytes, Extent};
use std::alloc::{AllocError, Global};
use std::test::Fail;

/// A service of sectors of two bytes, the four of whose partition begin at its second sector.
fn service(alloc: Global) -> Result<Service, AllocError>
    ensures { IfOk result (λ service. service.sector_size ≡ 2) }
{
    Ok(Service {
        sector_size: 2,
        partitions: Vec::from_slice(alloc, &[Extent { first: 1, count: 4 }])?,
        longest: 3,
    })
}

fn request(
    alloc: Global,
    kind: Kind,
    offset: u64,
    length: u64,
    bytes: &[u8],
) -> Result<ClientRequest, AllocError> {
    Ok(ClientRequest {
        partition: Some(0),
        kind,
        offset,
        length,
        through: false,
        bytes: Bytes::new(Vec::from_slice(alloc, bytes)?),
    })
}

fn answer(
    alloc: Global,
    number: u64,
    status: NtStatus,
    information: u64,
    bytes: &[u8],
) -> Result<Label, AllocError> {
    Ok(Label::Answer {
        number,
        status,
        information,
        bytes: Bytes::new(Vec::from_slice(alloc, bytes)?),
    })
}

#[test]
fn requests_move_sectors(rt: HostRuntime) -> Result<(), Fail> {
    let alloc = rt.alloc();
    let service = service(alloc)?;
    let second = Place {
        partition: 0,
        sector: 1,
    };
    let read = request(alloc, Kind::Read, 2, 4, &[])?;
    assert!(&rt; service.is_in_bounds(&read));
    assert!(&rt; service.has_sector(second, &read));
    assert_eq!(&rt; service.moved(&read), Some(Extent { first: 1, count: 2 }));
    let behind = request(alloc, Kind::Read, 4, 4, &[])?;
    assert!(&rt; !service.has_sector(second, &behind));
    let torn = request(alloc, Kind::Read, 1, 4, &[])?;
    assert!(&rt; !service.is_in_bounds(&torn));
    let long = request(alloc, Kind::Read, 0, 8, &[])?;
    assert!(&rt; !service.is_in_bounds(&long));
    let flush = request(alloc, Kind::Flush, 0, 0, &[])?;
    assert_eq!(&rt; service.moved(&flush), None);
    Ok(())
}

#[test]
fn contents_are_of_one_sector(rt: HostRuntime) -> Result<(), Fail> {
    let alloc = rt.alloc();
    let bytes = [1, 2, 3, 4];
    let second = contents_of(alloc, 2, &bytes, 1)?;
    assert_eq!(&rt; second.as_slice(), [3, 4].as_slice());
    assert!(&rt; contents_of(alloc, 2, &bytes, 2)?.is_none());
    Ok(())
}

#[test]
fn labels_come_in_turn(rt: HostRuntime) -> Result<(), Fail> {
    let alloc = rt.alloc();
    let service = service(alloc)?;
    let mut known = Known::new(alloc);
    let write = Label::Call {
        number: 1,
        request: request(alloc, Kind::Write, 0, 2, &[5, 6])?,
    };
    assert!(&rt; known.may_come(&service, &write));
    assert!(&rt; !known.may_come_blank(&write));
    let early = answer(alloc, 1, NtStatus::Success, 2, &[])?;
    assert!(&rt; !known.may_come(&service, &early));
    assert_eq!(&rt; known.why_not(&early), Misfit::NotOpen);
    known.take(alloc, &service, &write)?;
    assert!(&rt; known.request(1).is_some());
    assert!(&rt; known.may_come(&service, &early));
    assert_eq!(&rt; known.why_not(&write), Misfit::Number);
    known.take(alloc, &service, &early)?;
    assert!(&rt; known.request(1).is_none());
    Ok(())
}

#[test]
fn refused_calls_are_answered_at_once(rt: HostRuntime) -> Result<(), Fail> {
    let alloc = rt.alloc();
    let service = service(alloc)?;
    let mut known = Known::new(alloc);
    let torn = Label::Call {
        number: 1,
        request: request(alloc, Kind::Read, 1, 2, &[])?,
    };
    assert!(&rt; known.may_come(&service, &torn));
    known.take(alloc, &service, &torn)?;
    let next = Label::Call {
        number: 2,
        request: request(alloc, Kind::Read, 0, 2, &[])?,
    };
    assert!(&rt; !known.may_come(&service, &next));
    assert_eq!(&rt; known.why_not(&next), Misfit::Owing);
    let other = answer(alloc, 1, NtStatus::Success, 2, &[0, 0])?;
    assert_eq!(&rt; known.why_not(&other), Misfit::Answer);
    let owed = answer(alloc, 1, NtStatus::InvalidParameter, 0, &[])?;
    assert!(&rt; known.may_come(&service, &owed));
    Ok(())
}

#[test]
fn blank_labels_come_with_what_is_due(rt: HostRuntime) -> Result<(), Fail> {
    let alloc = rt.alloc();
    let service = service(alloc)?;
    let mut known = Known::new(alloc);
    let write = Label::Call {
        number: 1,
        request: request(alloc, Kind::Write, 0, 2, &[])?,
    };
    assert!(&rt; !known.may_come(&service, &write));
    assert_eq!(&rt; known.why_not(&write), Misfit::Bytes);
    assert!(&rt; known.may_come_blank(&write));
    known.take(alloc, &service, &write)?;
    let read = Label::Call {
        number: 2,
        request: request(alloc, Kind::Read, 0, 2, &[])?,
    };
    known.take(alloc, &service, &read)?;
    let good = answer(alloc, 2, NtStatus::Success, 2, &[])?;
    assert!(&rt; !known.may_come(&service, &good));
    assert!(&rt; known.may_come_blank(&good));
    let short = answer(alloc, 2, NtStatus::Success, 1, &[])?;
    assert!(&rt; !known.may_come_blank(&short));
    Ok(())
}
