//! Starts, which several requests may make.

ghost use Rattle.std.specs.Prelude.{◌≡◌, ◌<◌, ◌++◌, IfOk, OnOk, length, slice_index_or};
ghost use Rattle.std.specs.List.{flat_map, remove};
ghost use Rattle.machine.specs.State.{OpenRequest};
ghost use Rattle.judge.specs.Picking.{choices};
ghost use Rattle.judge.specs.StartRuling.{startable};
ghost use Rattle.judge.specs.Next.{started_by, started_of, started_each, started};
ghost use Rattle.judge.specs.Starting.{IsPending, pending_states, choice_at};
ghost use Rattle.judge.specs.Views.{rules_of};

use crate::NoVerdict;
use crate::copies::Copied;
use crate::machine_state::Machine;
use crate::open::Open;
use crate::pieces::Started;
use crate::reading::Told;
use crate::rules::MachineRules;
use cdb::Cdb;
use sector::Extent;
use std::alloc::Global;

/// A start on a tag.
#[derive(Clone, Copy)]
struct Start {
    tag: u8,
    /// The number of the request that its line names.
    owner: Option<u64>,
    command: Cdb,
}

/// A start that is found and not made yet.
#[derive(Clone, Copy)]
struct Pending {
    /// The place of its request among those that are open.
    at: usize,
    places: Extent,
}

impl Machine {
    /// Returns how many requests are open.
    fn open_count(&self) -> usize
        ensures { result ≡ length self.now.requests }
    {
        self.requests.len()
    }

    /// The places of the request that may be started now by this command, where it may be the request that is told.
    pub(crate) fn startable(
        &self,
        rules: &MachineRules,
        owner: Option<u64>,
        command: Cdb,
        entry: &Open,
    ) -> Option<Extent>
        ensures { result ≡ startable (rules_of rules.now) self.now owner command entry.now }
    {
        let places = entry.asked(rules, owner, command)?;
        if self.hindrance_of(rules, entry, places).is_some() {
            None
        } else {
            Some(places)
        }
    }

    /// The machine after a start of these places of a request that was taken out.
    fn started_with(
        mut self,
        alloc: Global,
        tag: u8,
        entry: Open,
        places: Extent,
    ) -> Result<Machine, NoVerdict>
        ensures { IfOk result (λ m. m ≡ started_by self tag entry self.requests places) }
    {
        let number = self.next_piece;
        let Some(after) = number.checked_add(1) else {
            return Err(NoVerdict::NoMemory);
        };
        self.next_piece = after;
        let piece = Started::new(number, tag, entry.number(), places);
        self.put_open(entry.sent(alloc, places)?)?;
        self.put_started(piece)?;
        Ok(self)
    }

    /// Adds the machine after a start that was found.
    fn add_start(
        mut self,
        alloc: Global,
        tag: u8,
        start: Pending,
        found: &mut Vec<Machine>,
    ) -> Result<(), NoVerdict>
        requires { start.at < length self.requests }
        ensures { OnOk result (found.new.items ≡ found.old.items ++ pending_states self tag (Some start)) }
    {
        let entry = self.remove_open(start.at);
        found.push(self.started_with(alloc, tag, entry, start.places)?)?;
        Ok(())
    }

    /// Adds a copy of the machine after the start that was found before, if there was one.
    fn add_pending(
        &self,
        alloc: Global,
        tag: u8,
        pending: Option<Pending>,
        found: &mut Vec<Machine>,
    ) -> Result<(), NoVerdict>
        requires { IsPending self.now pending }
        ensures { OnOk result (found.new.items ≡ found.old.items ++ pending_states self.now tag pending) }
    {
        let Some(start) = pending else {
            return Ok(());
        };
        self.copied(alloc)?.add_start(alloc, tag, start, found)?;
        Ok(())
    }

    /// Adds the machine itself after the start that was found last, if there was one.
    fn add_last(
        self,
        alloc: Global,
        tag: u8,
        pending: Option<Pending>,
        found: &mut Vec<Machine>,
    ) -> Result<(), NoVerdict>
        requires { IsPending self pending }
        ensures { OnOk result (found.new.items ≡ found.old.items ++ pending_states self tag pending) }
    {
        let Some(start) = pending else {
            return Ok(());
        };
        self.add_start(alloc, tag, start, found)?;
        Ok(())
    }

    /// The start that the request at this place may make, if it may.
    fn start_at(&self, rules: &MachineRules, start: Start, at: usize) -> Option<Pending>
        requires { at < length self.now.requests }
        ensures pending { IsPending self.now result }
        ensures starts { pending_states self.now start.tag result
            ≡ flat_map (started_each (rules_of rules.now) self.now start.tag start.owner start.command) (choice_at self.now at) }
    {
        let places = self.startable(rules, start.owner, start.command, &self.requests[at])?;
        Some(Pending { at, places })
    }

    /// Adds the machine after a start by each request that may make it. Where one alone may, nothing is copied.
    fn add_starts(
        self,
        alloc: Global,
        rules: &MachineRules,
        start: Start,
        found: &mut Vec<Machine>,
    ) -> Result<(), NoVerdict>
        ensures { OnOk result (found.new.items ≡ found.old.items
            ++ flat_map (started_each (rules_of rules.now) self start.tag start.owner start.command) (choices self.requests)) }
    {
        let mut pending = None;
        for at in 0..self.open_count() {
            let next = self.start_at(rules, start, at);
            if next.is_some() {
                self.add_pending(alloc, start.tag, pending, found)?;
                pending = next;
            }
        }
        self.add_last(alloc, start.tag, pending, found)?;
        Ok(())
    }

    /// Adds each machine that a start on this tag leads to, where it breaks no rule.
    pub(crate) fn add_started(
        self,
        alloc: Global,
        rules: &MachineRules,
        tag: u8,
        told: Told,
        found: &mut Vec<Machine>,
    ) -> Result<(), NoVerdict>
        ensures { OnOk result (found.new.items
            ≡ found.old.items ++ started (rules_of rules.now) self tag told.owner told.read) }
    {
        match told.read {
            Ok(command) => {
                let owner = told.owner;
                self.add_starts(
                    alloc,
                    rules,
                    Start {
                        tag,
                        owner,
                        command,
                    },
                    found,
                )
            }
            Err(_) => Ok(()),
        }
    }
}
