//! What goes on beside a thread that is held: at its turnstile, or within the transfer of its piece.

ghost use Rattle.std.specs.Prelude.{◌≡◌, IfOk};

use crate::desk::{Company, Keeps};
use crate::disks::disk;
use crate::holding::Holding;
use crate::opening::ready_over;
use crate::scenes::{Held, Setting, Want, play_scene};
use crate::texts;
use crate::user::{Caller, read, told_of};
use cancel_marks::Marking;
use disk::{BadSector, Medium, NoMemory};
use host::Answered;
use script::Order;
use sector::Extent;
use std::alloc::{AllocError, Global};
use std::marker::Brand;
use std::process::Abort;
use std::sync::Wait;
use std::test::Fail;
use std::thread::Threads;
use std::time::Clock;

/// What clients do while a thread is held, and what they see.
#[derive(Clone, Copy)]
pub(crate) enum Scene {
    /// A read is held within its transfer. Its client marks it, and the other client is refused a read past the partition.
    Transfer,
    /// A read's lane is held at its turnstile while the adapter is reset.
    Reset,
    /// A read's lane is held at its turnstile, while the other client reads and is answered.
    Turnstile,
    /// The lane that has the turn is held, and the worker with the first item of its queue, which has one place, while a client
    /// reads four sectors. The queue hands back what the last lane puts, which finishes its piece itself and lets them go.
    FullQueue,
}

/// A medium that holds each thread that reads.
#[derive(Drop)]
struct HoldsReads<'a, M: Medium, C: Clock, W: Wait> {
    medium: M,
    holding: &'a Holding<'a, C>,
    rt: &'a W,
}

impl<'a, M: Medium, C: Clock, W: Wait> Medium for HoldsReads<'a, M, C, W> {
    ghost view = { λ m. M.view m.medium };

    fn sector_size(&self) -> u32 {
        self.medium.sector_size()
    }

    fn sectors(&self) -> u64 {
        self.medium.sectors()
    }

    fn failures(&self) -> u128 {
        self.medium.failures()
    }

    fn reserve(&mut self, extent: Extent) -> Result<(), NoMemory> {
        self.medium.reserve(extent)
    }

    fn read(&mut self, extent: Extent, buffer: &mut [u8]) -> Result<(), BadSector> {
        self.holding.hold(self.rt);
        self.medium.read(extent, buffer)
    }

    fn write(&mut self, extent: Extent, bytes: &[u8]) -> Result<(), BadSector> {
        self.medium.write(extent, bytes)
    }

    ghost whole = { λ m. M.whole m.medium };
}

// A client reads the sector at an offset.
pub(crate) fn read_at<C: Caller>(
    alloc: Global,
    client: &mut C,
    offset: u64,
) -> Result<C::Ticket, AllocError>
    ensures client { C.number client.new ≡ C.number client.old }
    ensures ticket { IfOk result (λ t. C.owner t ≡ C.number client.new) }
{
    let call = read(alloc, offset, 512)?;
    match client.issue(call) {
        Ok(ticket) => Ok(ticket),
        Err(_) => Err(AllocError),
    }
}

// A client reads a sector that lies past its partition. Returns why it may not.
fn read_past<C: Caller>(alloc: Global, client: &mut C) -> Result<String, AllocError> {
    let call = read(alloc, 524_288, 512)?;
    match client.issue(call) {
        Ok(_) => Err(AllocError),
        Err(refusal) => told_of(alloc, &refusal),
    }
}

// A client reads the first sector, and waits for the answer.
fn read_and_wait<C: Caller>(alloc: Global, client: &mut C) -> Result<String, AllocError> {
    let ticket = read_at(alloc, client, 0)?;
    texts::answered(alloc, client.wait(ticket))
}

// What was seen, one after the other.
fn seen(
    alloc: Global,
    first: &str,
    second: Result<String, AllocError>,
    answered: Answered,
) -> Result<String, AllocError> {
    let second = second?;
    let answered = texts::answered(alloc, answered)?;
    let mut text = String::new(alloc);
    write!(text, "{first} / {second} / {answered}")?;
    Ok(text)
}

fn beside_transfer<C: Caller, R: Wait, T: Clock>(
    rt: &R,
    alloc: Global,
    holding: &Holding<'_, T>,
    first: &mut C,
    second: &mut C,
) -> Result<String, AllocError> {
    let ticket = read_at(alloc, first, 0)?;
    holding.await_held(rt);
    let marking = first.mark(&ticket);
    let refused = read_past(alloc, second);
    holding.let_go(rt);
    let answered = first.wait(ticket);
    let marked = if marking == Marking::Marked {
        "marked"
    } else {
        "not marked"
    };
    seen(alloc, marked, refused, answered)
}

fn beside_reset<C: Caller, K: Keeps, R: Wait, T: Clock>(
    rt: &R,
    alloc: Global,
    holding: &Holding<'_, T>,
    keeper: &mut K,
    first: &mut C,
) -> Result<String, AllocError> {
    let ticket = read_at(alloc, first, 0)?;
    holding.await_held(rt);
    let reply = keeper.take(Order::Reset);
    holding.let_go(rt);
    let answered = first.wait(ticket);
    seen(alloc, "reset", texts::reply(alloc, &reply), answered)
}

fn beside_turnstile<C: Caller, R: Wait, T: Clock>(
    rt: &R,
    alloc: Global,
    holding: &Holding<'_, T>,
    first: &mut C,
    second: &mut C,
) -> Result<String, AllocError> {
    let ticket = read_at(alloc, first, 0)?;
    holding.await_held(rt);
    let free = read_and_wait(alloc, second);
    holding.let_go(rt);
    let answered = first.wait(ticket);
    seen(alloc, "held", free, answered)
}

// Waits for the answer to a read, where it was issued.
pub(crate) fn answer_to<C: Caller>(
    alloc: Global,
    client: &mut C,
    issued: Result<C::Ticket, AllocError>,
) -> Result<String, AllocError>
    requires { IfOk issued (λ t. C.owner t ≡ C.number client.old) }
    ensures { C.number client.new ≡ C.number client.old }
{
    let answered = client.wait(issued?);
    texts::answer(alloc, answered.answer)
}

// A client reads four sectors at once, and is told of each. Nobody is held where a read can't be issued.
fn read_four<C: Caller, R: Wait, T: Clock>(
    rt: &R,
    alloc: Global,
    holding: &Holding<'_, T>,
    client: &mut C,
) -> Result<String, AllocError> {
    let one = read_at(alloc, client, 0);
    let two = read_at(alloc, client, 512);
    let three = read_at(alloc, client, 1024);
    let four = read_at(alloc, client, 1536);
    if one.is_err() | two.is_err() | three.is_err() | four.is_err() {
        holding.let_go(rt);
    }
    let one = answer_to(alloc, client, one);
    let two = answer_to(alloc, client, two);
    let three = answer_to(alloc, client, three);
    let four = answer_to(alloc, client, four);
    let (one, two, three, four) = (one?, two?, three?, four?);
    format!(in alloc; "{one} / {two} / {three} / {four}")
}

/// Plays the scene of a setting.
pub(crate) fn play<C: Caller, K: Keeps, R: Wait, T: Clock>(
    rt: &R,
    alloc: Global,
    setting: &Setting<'_, T>,
    company: &mut Company<K, C>,
) -> Result<String, AllocError> {
    let holding = setting.holding;
    let (first, second) = (&mut company.first, &mut company.second);
    match setting.scene {
        Scene::Transfer => beside_transfer(rt, alloc, holding, first, second),
        Scene::Reset => beside_reset(rt, alloc, holding, &mut company.keeper, first),
        Scene::Turnstile => beside_turnstile(rt, alloc, holding, first, second),
        Scene::FullQueue => read_four(rt, alloc, holding, first),
    }
}

// A scene on a host of this medium.
fn run_over<M: Medium + Send, R: Threads + Wait + Sync + Abort, C: Clock + Sync>(
    rt: &R,
    alloc: Global,
    medium: M,
    setting: &Setting<'_, C>,
    want: &Want,
) -> Result<(), AllocError> {
    let ready = ready_over(rt, alloc, medium, 4, &[0, 0])?;
    play_scene::<M, Brand, R, C>(rt, alloc, ready, setting, want)
}

// The mark is carried out before the call that comes after it, while the piece is transferred; its act comes behind
// both.
const TRANSFER: Want = Want {
    seen: "marked / InvalidParameter 512 at 3, 4 / answer 1 SUCCESS 512 00*512 at 0, 7",
    trace: Some(
        "call 1 read 0 512 of 0 / start 1 tag 0 28000000080000000100 / cancel 1 / call 2 read 524288 512 of 1 / answer 2 INVALID_PARAMETER 0 of 1 / act 1 / return 1 good / answer 1 SUCCESS 512 00*512 of 0 / pause / remove / removed",
    ),
    entries: 1,
};

#[test]
fn transfer_beside_call(rt: HostRuntime) -> Result<(), Fail> {
    let alloc = rt.alloc();
    let holding = Holding::new(&rt);
    let medium = HoldsReads {
        medium: disk(alloc, &[])?,
        holding: &holding,
        rt: &rt,
    };
    let setting = Setting {
        scene: Scene::Transfer,
        holding: &holding,
        at_lanes: Held::Nobody,
        at_worker: Held::Nobody,
    };
    run_over(&rt, alloc, medium, &setting, &TRANSFER)?;
    assert!(rt; !holding.has_given_up(&rt), "the turns have run out");
    Ok(())
}

// The piece fails by the reset, and acts no more.
const RESET: Want = Want {
    seen: "reset / ok / answer 1 IO_DEVICE_ERROR 0 at 0, 4",
    trace: Some(
        "call 1 read 0 512 of 0 / start 1 tag 0 28000000080000000100 / fault 1 / return 1 bad / answer 1 IO_DEVICE_ERROR 0 of 0 / pause / remove / removed",
    ),
    entries: 0,
};

// The second client is answered while the lane of the first is held.
const TURNSTILE: Want = Want {
    seen: "held / answer 2 SUCCESS 512 00*512 at 2, 6 / answer 1 SUCCESS 512 00*512 at 0, 9",
    trace: Some(
        "call 1 read 0 512 of 0 / start 1 tag 0 28000000080000000100 / call 2 read 0 512 of 1 / start 2 tag 1 28000000080000000100 / act 2 / return 2 good / answer 2 SUCCESS 512 00*512 of 1 / act 1 / return 1 good / answer 1 SUCCESS 512 00*512 of 0 / pause / remove / removed",
    ),
    entries: 2,
};

// All four reads are answered.
const FULL_QUEUE: Want = Want {
    seen: "answer 1 SUCCESS 512 00*512 / answer 2 SUCCESS 512 00*512 / answer 3 SUCCESS 512 00*512 / answer 4 SUCCESS 512 00*512",
    trace: None,
    entries: 4,
};

// A scene in which a lane or the worker is held.
fn run_held<R: Threads + Wait + Sync + Abort + Clock>(
    rt: &R,
    alloc: Global,
    scene: Scene,
    held: (Held, Held),
    want: &Want,
) -> Result<(), AllocError> {
    let holding = Holding::new(rt);
    let (at_lanes, at_worker) = held;
    let setting = Setting {
        scene,
        holding: &holding,
        at_lanes,
        at_worker,
    };
    run_over(rt, alloc, disk(alloc, &[])?, &setting, want)?;
    assert!(rt; !holding.has_given_up(rt), "the turns have run out");
    Ok(())
}

#[test]
fn others_go_on_beside_one_that_is_held(rt: HostRuntime) -> Result<(), Fail> {
    let alloc = rt.alloc();
    run_held(&rt, alloc, Scene::Reset, (Held::Tag0, Held::Nobody), &RESET)?;
    run_held(
        &rt,
        alloc,
        Scene::Turnstile,
        (Held::Tag0, Held::Nobody),
        &TURNSTILE,
    )?;
    run_held(
        &rt,
        alloc,
        Scene::FullQueue,
        (Held::Nobody, Held::Anyone),
        &FULL_QUEUE,
    )?;
    Ok(())
}
