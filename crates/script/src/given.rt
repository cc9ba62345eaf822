//! Handles and requests by their numbers, as replies gave them.

ghost use Rattle.std.specs.Prelude.{◌≡◌, ◌≤◌, ◌<◌, ℕ, [], None, OnErr, OnOk, length, vec_capacity};
ghost use Rattle.std.specs.BTreeMap.{IsEmpty, get};
ghost use Rattle.std.specs.Ordering.{nat_cmp};
ghost use Rattle.script.specs.Events.{AreNamed, HandlesAreNamed, Keeps, KeepsHandle, KeepsRequest, RequestsAreNamed, TakesMemory, given_as, handle_of, id_of, target_of};

use compose::{Handle, Id, Reply};
use std::alloc::{AllocError, Global};
use std::collections::BTreeMap;

/// The handles and the requests that were given so far, each under its own number: all calls require that, and after an
/// error of [`Given::keep`] it is not promised.
#[derive(Drop)]
pub struct Given {
    pub handles: BTreeMap<u64, Handle>,
    /// Each request at the place of its number, which the manager counts.
    pub requests: Vec<Option<Id>>,
}

impl Given {
    /// No handles and no requests yet.
    pub fn new(alloc: Global) -> Given
        ensures handles { IsEmpty result.handles }
        ensures requests { result.requests.items ≡ [] }
        ensures named { AreNamed result }
    {
        Given {
            handles: BTreeMap::new(alloc),
            requests: Vec::new(alloc),
        }
    }

    /// Keeps the handle or the request that a reply gives, if it gives one.
    ///
    /// # Errors
    ///
    /// [`AllocError`] where memory for a new handle, or for a request past the places that there are, was refused.
    pub fn keep(&mut self, reply: &Reply) -> Result<(), AllocError>
        requires { AreNamed self.old }
        ensures named { OnOk result (AreNamed self.new) }
        ensures keeps { OnOk result (Keeps reply.now self.old self.new) }
        ensures refused { OnErr result (TakesMemory reply.now self.old) }
    {
        match reply {
            Reply::Handle(handle) => keep_handle(&mut self.handles, *handle),
            Reply::Request(id) => keep_request(&mut self.requests, *id),
            _ => Ok(()),
        }
    }

    /// The handle of a number. Where the number was not given out, it is a handle that isn't open.
    pub fn handle(&self, number: u64) -> Handle
        requires { AreNamed self.now }
        ensures handle { result ≡ handle_of self.now.handles number }
        ensures number { result.number ≡ number }
    {
        match self.handles.get(&number) {
            Some(handle) => *handle,
            None => Handle { slot: 0, number },
        }
    }

    /// The request of a number. Where the number was not given out, it is a request that isn't open.
    pub fn request(&self, number: u64) -> Id
        requires { AreNamed self.now }
        ensures request { result ≡ id_of self.now.requests.items number }
        ensures number { result.number ≡ number }
    {
        given_as(self.requests.as_slice(), number).unwrap_or(Id { slot: 0, number })
    }

    /// Returns the request that a cancel names, if any.
    pub fn target(&self, request: Option<u64>) -> Option<Id>
        requires { AreNamed self.now }
        ensures { result ≡ target_of self.now.requests.items request }
    {
        Some(self.request(request?))
    }
}

/// Keeps a handle under its number.
fn keep_handle(handles: &mut BTreeMap<u64, Handle>, handle: Handle) -> Result<(), AllocError>
    requires { HandlesAreNamed handles.old }
    ensures named { OnOk result (HandlesAreNamed handles.new) }
    ensures kept { OnOk result (KeepsHandle handle handles.old handles.new) }
    ensures refused { OnErr result (get nat_cmp handles.old handle.number ≡ None) }
{
    handles.insert(handle.number, handle)?;
    Ok(())
}

/// The request that was given under a number, if one was.
fn given_as(requests: &[Option<Id>], number: u64) -> Option<Id>
    ensures { result ≡ given_as requests.now number }
{
    match requests.get(number as usize) {
        Some(place) => *place,
        None => None,
    }
}

/// Keeps a request at the place of its number.
fn keep_request(requests: &mut Vec<Option<Id>>, id: Id) -> Result<(), AllocError>
    requires { RequestsAreNamed requests.old.items }
    ensures named { OnOk result (RequestsAreNamed requests.new.items) }
    ensures kept { OnOk result (KeepsRequest id requests.old.items requests.new.items) }
    ensures refused { OnErr result (vec_capacity requests.old ≤ id.number) }
{
    make_place(requests, id.number as usize)?;
    requests[id.number as usize] = Some(id);
    Ok(())
}

/// Makes a place of this number, where there is none.
fn make_place(requests: &mut Vec<Option<Id>>, number: usize) -> Result<(), AllocError>
    ensures place { OnOk result (number < length requests.new.items) }
    ensures same { OnOk result ((n : ℕ) → given_as requests.new.items n ≡ given_as requests.old.items n) }
    ensures refused { OnErr result (vec_capacity requests.old ≤ number) }
{
    if number < requests.len() {
        return Ok(());
    }
    requests.resize(number, None)?;
    requests.push(None)?;
    Ok(())
}
