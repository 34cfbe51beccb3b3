//! The simulation of a schedule, from its first turn to its last: the sites of one log, and all messages so far.
ghost use Rattle.std.specs.Prelude.{◌≡◌, ◌∷◌, [], ◌++◌, length, OnOk, IfOk, IfErr, reverse, Ok};
ghost use Rattle.cadf_join.specs.Sets as set;
ghost use Rattle.cadf_rehearsal.specs.Schedule.{start, World, after};
ghost use Rattle.cadf_rehearsal.specs.Federation.{IsOneLog, HasOneLog, IsLater, TurnsTo, IsTurnFault, world_of, IsFaultDue, left_by};
ghost use Rattle.cadf_rehearsal.specs.declared.turn.Turn.TheVariants as turn;
ghost use Rattle.cadf_line.specs.Digest.{atom_digest};

use crate::fault::RehearseFault;
use crate::turn::Turn;
use cadf_event::{Document, Name};
use cadf_json::Memory;
use cadf_set::{Inventory, Replica, ReplicaFault};
use std::alloc::Global;

/// A message that a site sent.
#[derive(Drop)]
pub(crate) enum Message {
    /// The inventory of the site of that number, which asks for a delta.
    Asked(usize, Inventory),
    /// The delta for the site of that number, by its inventory.
    PartFor(usize, Replica),
    /// A copy of the sender's replica, as it was when it sent the message.
    Whole(Replica),
}

/// The sites, and all messages so far.
#[derive(Drop)]
pub(crate) struct Federation {
    pub(crate) sites: Vec<Replica>,
    messages: Vec<Message>,
}

impl Federation {
    /// Appends a message. `Memory` if an allocation fails.
    fn post(&mut self, message: Message) -> Result<(), Memory>
        ensures ok { OnOk result (self.new.messages.items ≡ self.old.messages.items ++ message ∷ []) }
        ensures rest { self.new.sites ≡ self.old.sites }
    {
        self.messages.push(message)?;
        Ok(())
    }

    /// Makes a federation of `count` sites of the log, without atoms and messages. `Memory` if an allocation fails.
    pub(crate) fn new(alloc: Global, log: &Name, count: usize) -> Result<Federation, Memory>
        ensures ok { IfOk result (λ f. length f.sites.items ≡ count) }
        ensures start { IfOk result (λ f. world_of f ≡ start) }
        ensures one_log { IfOk result (IsOneLog log.now) }
    {
        let mut sites = Vec::new(alloc);
        for _ in 0..count {
            sites.push(Replica::new(alloc, log.copy(alloc)?))?;
        }
        Ok(Federation {
            sites,
            messages: Vec::new(alloc),
        })
    }

    /// Adds a document to the site. `NoSite` or `OtherLog` if the turn fails.
    fn learn(
        &mut self,
        number: usize,
        site: usize,
        document: &Document,
    ) -> Result<(), RehearseFault>
        ensures ok { OnOk result (TurnsTo self.old number (turn.Learn site document.now) self.new) }
        ensures later { OnOk result (IsLater self.old self.new) }
        ensures err { IfErr result (IsTurnFault self.old number (turn.Learn site document.now)) }
    {
        if site >= self.sites.len() {
            return Err(RehearseFault::NoSite(number));
        }
        match self.sites[site].take_document(document) {
            Ok(()) => Ok(()),
            Err(ReplicaFault::OtherLog) => Err(RehearseFault::OtherLog(number)),
            Err(ReplicaFault::Ungrounded) => unreachable!(),
            Err(ReplicaFault::Memory) => Err(RehearseFault::Memory),
        }
    }

    /// Posts the inventory of the site. `NoSite` if there is no such site.
    fn ask(&mut self, number: usize, site: usize) -> Result<(), RehearseFault>
        ensures ok { OnOk result (TurnsTo self.old number (turn.Ask site) self.new) }
        ensures later { OnOk result (IsLater self.old self.new) }
        ensures err { IfErr result (IsTurnFault self.old number (turn.Ask site)) }
    {
        if site >= self.sites.len() {
            return Err(RehearseFault::NoSite(number));
        }
        let held = self.sites[site].inventory()?;
        self.post(Message::Asked(site, held))?;
        Ok(())
    }

    /// Posts a copy of the site's replica. `NoSite` if there is no such site.
    fn send(&mut self, number: usize, site: usize) -> Result<(), RehearseFault>
        ensures ok { OnOk result (TurnsTo self.old number (turn.Send site) self.new) }
        ensures later { OnOk result (IsLater self.old self.new) }
        ensures err { IfErr result (IsTurnFault self.old number (turn.Send site)) }
    {
        if site >= self.sites.len() {
            return Err(RehearseFault::NoSite(number));
        }
        let copy = self.sites[site].copy()?;
        self.post(Message::Whole(copy))?;
        Ok(())
    }

    /// Posts the delta for the site whose inventory the message is. `NoSite`, `NoMessage` or `NotInventory` if the turn
    /// fails.
    fn answer(&mut self, number: usize, site: usize, message: usize) -> Result<(), RehearseFault>
        requires { HasOneLog self.old }
        ensures ok { OnOk result (TurnsTo self.old number (turn.Answer site message) self.new) }
        ensures later { OnOk result (IsLater self.old self.new) }
        ensures err { IfErr result (IsTurnFault self.old number (turn.Answer site message)) }
    {
        if site >= self.sites.len() {
            return Err(RehearseFault::NoSite(number));
        }
        if message == 0 || message > self.messages.len() {
            return Err(RehearseFault::NoMessage(number));
        }
        let answer = match &self.messages[message - 1] {
            Message::Asked(asker, held) => match self.sites[site].missing_by(held) {
                Ok(part) => Message::PartFor(*asker, part),
                Err(ReplicaFault::OtherLog) => unreachable!(),
                Err(ReplicaFault::Ungrounded) => unreachable!(),
                Err(ReplicaFault::Memory) => return Err(RehearseFault::Memory),
            },
            _ => return Err(RehearseFault::NotInventory(number)),
        };
        self.post(answer)?;
        Ok(())
    }

    /// Joins the replica in the message into the site. An inventory changes nothing. `NoSite`, `NoMessage` or
    /// `WrongAddressee` if the turn fails.
    fn deliver(&mut self, number: usize, message: usize, site: usize) -> Result<(), RehearseFault>
        requires { HasOneLog self.old }
        ensures ok { OnOk result (TurnsTo self.old number (turn.Deliver message site) self.new) }
        ensures later { OnOk result (IsLater self.old self.new) }
        ensures err { IfErr result (IsTurnFault self.old number (turn.Deliver message site)) }
    {
        if site >= self.sites.len() {
            return Err(RehearseFault::NoSite(number));
        }
        if message == 0 || message > self.messages.len() {
            return Err(RehearseFault::NoMessage(number));
        }
        match &self.messages[message - 1] {
            Message::Asked(_, _) => Ok(()),
            Message::PartFor(asker, part) => {
                if *asker != site {
                    return Err(RehearseFault::WrongAddressee(number));
                }
                joined(&mut self.sites[site], part)?;
                Ok(())
            }
            Message::Whole(whole) => {
                joined(&mut self.sites[site], whole)?;
                Ok(())
            }
        }
    }

    /// Performs the turn `number`. `Err`: why it fails.
    pub(crate) fn take(&mut self, number: usize, turn: &Turn) -> Result<(), RehearseFault>
        requires { HasOneLog self.old }
        ensures ok { OnOk result (TurnsTo self.old number turn.now self.new) }
        ensures later { OnOk result (IsLater self.old self.new) }
        ensures err { IfErr result (IsTurnFault self.old number turn.now) }
    {
        match turn {
            Turn::Learn(site, document) => self.learn(number, *site, document),
            Turn::Ask(site) => self.ask(number, *site),
            Turn::Answer(site, message) => self.answer(number, *site, *message),
            Turn::Send(site) => self.send(number, *site),
            Turn::Deliver(message, site) => self.deliver(number, *message, *site),
        }
    }
}

/// Joins a replica of the same log into the site. If an allocation fails, tries once more.
fn joined(site: &mut Replica, part: &Replica) -> Result<(), Memory>
    requires { part.now.log ≡ site.old.log }
    ensures log { site.new.log ≡ site.old.log }
    ensures ok { OnOk result (site.new.atoms ≡ set.union site.old.atoms part.now.atoms) }
{
    match site.join_twice(part) {
        Ok(()) => Ok(()),
        Err(ReplicaFault::OtherLog | ReplicaFault::Ungrounded) => unreachable!(),
        Err(ReplicaFault::Memory) => Err(Memory),
    }
}

/// Simulates the turns in order over `sites` sites of the log, which begin without atoms. Returns the replicas of the
/// sites after the last turn. `Err`: the fault of the first turn that fails.
///
/// A delta is computed at its turn, for the inventory that it answers. If an allocation fails in the join of a
/// delivery, the join is tried once more.
pub fn rehearse(
    alloc: Global,
    log: &Name,
    sites: usize,
    turns: &[Turn],
) -> Result<Vec<Replica>, RehearseFault>
    ensures ok { IfOk result (λ left. (world : World)
        × (after atom_digest log.now sites (reverse turns.now) ≡ Ok world) × (left.items ≡ left_by log.now sites world)) }
    ensures err { IfErr result (λ fault. IsFaultDue fault (after atom_digest log.now sites (reverse turns.now))) }
{
    let mut federation = Federation::new(alloc, log, sites)?;
    for (i, turn) in turns.iter().enumerate() {
        federation.take(i + 1, turn)?;
    }
    Ok(federation.sites)
}
