//! What a node does with each kind of message, write by write as far as the budget goes.

ghost use Rattle.std.specs.Prelude.{◌≡◌, if◌then◌else◌, Some, None};
ghost use Rattle.model.specs.Handling.{queried, acknowledged as acknowledging, replied, inquired, is_settled, is_oldest};
ghost use Rattle.std.specs.Option.{option_map};
ghost use Rattle.model.specs.Journal.{is_empty, has_entry, is_forced_full, oldest as oldest_of};
ghost use Rattle.journal.specs.Entries.{entry_meaning};
ghost use Rattle.nodes.specs.Effects.{Reacts};
ghost use Rattle.nodes.specs.Nodes.{volatile_meaning, node_meaning};
ghost use Rattle.nodes.specs.Responses.{sent_meaning};

use crate::budget::Budget;
use crate::envelope::Envelope;
use crate::promises::force_abort;
use crate::response::{Content, Reaction, Response};
use crate::state::Node;
use journal::bounds::forced_full;
use journal::journal::Journal;
use journal::lookup::{entry_of, place_of};
use journal::view::EntryView;
use memory::Memory;
use model::participants::mark_node;
use model::party::Party;

impl<M: Memory, J: Journal> Node<M, J> {
    /// Whether nothing of a minitransaction depends on this journal any more.
    fn is_settled(&self, tid: u16) -> bool
        ensures { result ≡ is_settled (J.log self.now.journal) tid }
    {
        entry_of(&self.journal, tid).is_none_or(|entry| entry.running <= self.journal.pointer())
    }

    /// A query: settled is sent back where nothing depends on this journal any more.
    pub(crate) fn answer_query(&self, query: Envelope) -> Option<Response>
        ensures { sent_meaning result ≡ (queried query.me (node_meaning M.bytes J.log self.now) query.tid query.sender).sent }
    {
        self.is_settled(query.tid)
            .then_some(query.answer(Content::Settled))
    }

    /// The oldest entry, if there is one.
    pub(crate) fn oldest(&self) -> Option<EntryView<'_>>
        ensures { option_map entry_meaning result ≡ (if is_empty (J.log self.now.journal) then None else Some (oldest_of (J.log self.now.journal))) }
    {
        self.journal.entry(self.journal.place(0)?)
    }

    /// Whether a minitransaction is the oldest entry's.
    fn is_oldest(&self, tid: u16) -> bool
        ensures { result ≡ is_oldest (J.log self.now.journal) tid }
    {
        self.oldest().is_some_and(|entry| entry.tid == tid)
    }

    /// A settled message: its sender has the oldest entry durably applied.
    pub(crate) fn acknowledge(&mut self, tid: u16, sender: Party)
        ensures memory { self.new.memory ≡ self.old.memory }
        ensures journal { self.new.journal ≡ self.old.journal }
        ensures volatile { volatile_meaning self.new.volatile ≡ (acknowledging (node_meaning M.bytes J.log self.old) tid sender).volatile }
    {
        if !self.is_oldest(tid) {
            return;
        }
        if let Party::Node(node) = sender {
            mark_node(&mut self.volatile.acknowledged, node);
        }
    }

    /// A reply while recovering: it may resolve an entry without outcome.
    pub(crate) fn hear_reply(&mut self, reply: Envelope, stands: bool)
        ensures memory { self.new.memory ≡ self.old.memory }
        ensures journal { self.new.journal ≡ self.old.journal }
        ensures volatile { volatile_meaning self.new.volatile ≡ (replied reply.me (node_meaning M.bytes J.log self.old) reply.tid reply.sender stands).volatile }
    {
        let Some((place, found)) = self.volatile.unresolved.get(reply.tid) else {
            return;
        };
        if found.is_open() {
            let heard = found.heard(reply.me, reply.sender, stands);
            self.volatile.unresolved.replace(place, heard);
        }
    }

    /// Whether the yes entry of a minitransaction stands.
    fn has_entry(&self, tid: u16) -> bool
        ensures { result ≡ has_entry (J.log self.now.journal) tid }
    {
        place_of(&self.journal, tid).is_some()
    }

    /// Whether there is no room for another forced abort.
    fn is_forced_full(&self) -> bool
        ensures { result ≡ is_forced_full (J.log self.now.journal) }
    {
        forced_full(self.journal.places(), self.journal.forced_count())
    }

    /// An inquiry: a no is a promise never to vote yes, and is kept in the journal before it is given.
    pub(crate) fn answer_inquiry(&mut self, inquiry: Envelope, budget: &mut Budget) -> Reaction
        ensures { Reacts budget.old.left (inquired inquiry.me (node_meaning M.bytes J.log self.old) inquiry.tid inquiry.sender) (node_meaning M.bytes J.log self.old) (M.durable self.old.memory) result budget.new.left (node_meaning M.bytes J.log self.new) (M.durable self.new.memory) }
    {
        if self.has_entry(inquiry.tid) {
            return inquiry.replying(true);
        }
        if self.journal.is_forced(inquiry.tid) {
            return inquiry.replying(false);
        }
        if self.is_forced_full() {
            return Reaction::Lost;
        }
        force_abort(&mut self.journal, inquiry.tid, budget);
        inquiry.replying(false)
    }
}
