ghost use Rattle.std.specs.Prelude.{◌≡◌, ◌≢◌, ◌⊎◌, ◌<◌, ◌≤◌, ◌+◌, ◌++◌, ◌∷◌, [], Ok, Some, None, IfOk, IfErr, OnOk, OnErr};
ghost use Rattle.std.specs.Prelude.{◌↔◌, IsTrue, true, false, option_map, drop, length, slice_get};
ghost use Rattle.std.specs.Option.{option_copied};
ghost use Rattle.la_object.specs.Objects.{kind_of};
ghost use Rattle.la_object.specs.Shelves.{kind_at, answer_at, tags_at};
ghost use Rattle.la_object.specs.Refusals.{IsAddRefusal, IsAskRefusal};
ghost use Rattle.la_node.specs.Configs.{IsConfig};
ghost use Rattle.la_node.specs.Links.{known_of, letters_sent};
ghost use Rattle.la_node.specs.Nodes.{node_at_start, returned_by, IsStartRefusal};
ghost use Rattle.std.specs.VecDeque.{deque_len, deque_capacity};
ghost use Rattle.la_wire.specs.Calls.{called, Submit, Decide, Receive};
ghost use Rattle.la_wire.specs.CallLines.{named_call, may_stand};
ghost use Rattle.la_wire.specs.Messages.{letter_message};
ghost use Rattle.la_wire.specs.Writable.{IsCall};
ghost use Rattle.la_durable.specs.Nodes.{empty_shelf};
ghost use Rattle.la_durable.specs.Errors.{IsActRefusal};
ghost use Rattle.la_set.specs.ObjectOps.{object_op_of, update_of};
ghost use Rattle.la_proposer.specs.ProposerState.{op_on};
ghost use Rattle.la_set.specs.Histories.{object_op_number};
ghost use Rattle.la_proposer.specs.Inputs.{all_submitted};
ghost use Rattle.la_embed.specs.Journals.{JournalState, AllIsKept, MakesRecord, IsJournaled, IsRecovered, IsNotRecovered};
ghost use Rattle.la_embed.specs.Journals.{IsRefusedOver, record_in, journal_synced};
ghost use Rattle.la_embed.specs.Keepers.{state_kept, journal_in, is_own_call};
ghost use Rattle.la_embed.specs.Numbers.{SubmitsUnder, IsNumberRefusal, IsNotSubmitted, RefusesToSubmit, RefusesToPropose, submitted_as};
ghost use Rattle.la_embed.specs.Learnt.{IsNextLearnt, handed_noting};
ghost use Rattle.la_embed.specs.Hosts.{host_of, host_over, shelf_now, submitted_by, with_handed, with_journal, with_mail};
ghost use Rattle.la_embed.specs.Hosts.{TakesCall, IsSent, IsPosted, IsToldBack, IsPutAgain, IsPostedAgain, IsMended, IsUnseen};
ghost use Rattle.la_embed.specs.Hosts.{with_letter, with_letters, with_noted, with_lost, lost_once, with_objects};
ghost use Rattle.la_node.specs.declared.link.Sending.TheVariants.{Lack};
ghost use Rattle.la_embed.specs.Receiving.{Answers, TakesHostLine, TakesLetter, TakesByLine, RefusesHere, IsLineRefusal, BringsOwn};
ghost use Rattle.la_embed.specs.Receiving.{own_first};
ghost use Rattle.la_embed.specs.Receiving.{is_for_host};

use crate::journal::Journal;
use crate::keeper::Keeper;
use crate::keeping::line_of;
use crate::learnt::{handed_with, next_id};
use crate::{HostError, NumberError, Outgoing, Unrecovered};
use la_commit::Outcome;
use la_durable::{NodeError, NodeMachine};
use la_node::{Config, Done, Letter, Links, Received, Sending, Standing, WorldError};
use la_object::{Answer, Query, Replicated, Shelf, ShelfError};
use la_proposer::{Proposer, laws};
use la_replica::{Mail, Progress};
use la_set::{Counts, Op, Tags, Update, UpdateId, UpdateSet};
use la_wire::{Call, put_letter, read_bounded};
use std::alloc::{AllocError, Global};
use std::collections::VecDeque;
use std::marker::Model;

/// A node of a group with a shelf of objects, what waits to be sent, and what of its view was handed on.
#[derive(Drop)]
pub struct Host<B: Replicated> {
    alloc: Global,
    keeper: Keeper,
    shelf: Shelf<B>,
    links: Links,
    mail: VecDeque<Outgoing>,
    lost: u64,
    handed: Counts,
}

impl<B: Replicated> Model for Host<B> {
    ghost use Rattle.la_embed.specs.Keepers.{state_kept, journal_in};
    ghost use Rattle.la_embed.specs.Hosts.{HostState, IsHost};

    ghost Value = { HostState };

    ghost view = { λ h. record {
      kept = state_kept h.keeper;
      shelf = h.shelf;
      links = h.links;
      mail = h.mail.items;
      lost = h.lost;
      handed = h.handed;
      journal = journal_in h.keeper;
    } };

    ghost invariant = { λ h. IsHost (record {
      kept = state_kept h.keeper;
      shelf = h.shelf;
      links = h.links;
      mail = h.mail.items;
      lost = h.lost;
      handed = h.handed;
      journal = journal_in h.keeper;
    }) };
}

impl<B: Replicated> Host<B> {
    /// Replica `own` of a group, in which nothing has happened, without objects.
    ///
    /// In this order: `BadConfig` where a value of the group is out of its range; `NoSuchReplica`; `Memory`.
    pub fn new(alloc: Global, config: Config, own: u8) -> Result<Host<B>, WorldError>
        ensures start { IfOk result (λ host. host ≡ host_of (node_at_start config own empty_shelf).replica) }
        ensures group { OnOk result (IsConfig config) }
        ensures error { IfErr result (IsStartRefusal config own empty_shelf) }
    {
        Ok(Host::over(alloc, Keeper::Alone(NodeMachine::new(alloc, config, own)?)))
    }

    /// The same replica of the same group as before, by what is found in its journal: a file of the program's, which
    /// has the calls that the node took. It answers how many of these bytes the file is to keep; where they are fewer,
    /// a crash left the rest of a record that was not told to be on the disk. No byte at all is no journal: a new one
    /// begins with the bytes of [`first_journal`](la_durable::first_journal), once. Objects, what was heard and what was
    /// handed on are not kept. Linear in the bytes, which are let go.
    ///
    /// What was found counts as kept: over a whole journal the host may tell at once what that leads to. But what a
    /// program reads from its file need not be on the disk yet, if the process that wrote it was killed before its
    /// sync. So the program syncs the file before it asks the host anything, or puts a new one in its place.
    ///
    /// From then on nothing may be told before it is on the disk: the program puts what [`Host::make_record`] makes
    /// behind the file's bytes, has it on the disk, and says so by [`Host::synced`].
    ///
    /// `Group` comes as the errors of [`Host::new`], `Journal` where the bytes are no journal of this replica, are
    /// damaged, or want memory, and else `Memory`.
    pub fn recover(
        alloc: Global,
        config: Config,
        own: u8,
        found: Vec<u8>,
    ) -> Result<(Host<B>, usize), Unrecovered>
        ensures ok { IfOk result (λ made. (j : JournalState)
            × IsRecovered config own found.items made.1 made.0.kept j × (made.0 ≡ host_over (Some j) made.0.kept)) }
        ensures error { IfErr result (IsNotRecovered config own found.items) }
    {
        let (journal, keep) = Journal::recover(alloc, config, own, found)?;
        Ok((Host::over(alloc, Keeper::Over(journal)), keep))
    }

    // A host without objects and mail, which has heard nothing.
    fn over(alloc: Global, keeper: Keeper) -> Host<B>
        requires { IsJournaled (journal_in keeper) (state_kept keeper) }
        ensures { result ≡ host_over (journal_in keeper) (state_kept keeper) }
    {
        let links = Links::over(keeper.node().progress());
        Host {
            alloc,
            keeper,
            shelf: Shelf::new(alloc),
            links,
            mail: VecDeque::new(alloc),
            lost: 0,
            handed: Counts::zero(),
        }
    }

    /// Whether all that the node took is on the disk, so that it may be told. Without a journal it is always so.
    pub fn is_kept(&self) -> bool
        ensures { IsTrue result ↔ AllIsKept self.now.journal }
    {
        self.keeper.is_kept()
    }

    /// Makes the next record: the lines of all calls that were taken since the last one, as one group. Where the program
    /// did not say yet that the last one is on the disk, it stays.
    pub fn make_record(&mut self)
        ensures record { MakesRecord self.old.journal self.new.journal }
        ensures same { self.new ≡ with_journal self.old self.new.journal }
    {
        self.keeper.make_record();
    }

    /// The bytes of the record, which the program has to put behind those of its file: none where no call was taken, and
    /// without a journal. A crash while they are put there may leave any part of them.
    pub fn record(&self) -> &[u8]
        ensures { result.now ≡ record_in self.now.journal }
    {
        self.keeper.record()
    }

    /// Takes note that the bytes of the last record are behind those of the file, on the disk. Where that failed it is
    /// not to be called: the node has to be recovered anew, by another host.
    pub fn synced(&mut self)
        ensures { self.new ≡ with_journal self.old (journal_synced self.old.journal) }
    {
        self.keeper.synced();
    }

    /// Which replica of its group it is, from 0 on.
    pub fn own(&self) -> u8
        ensures { result ≡ self.now.kept.own }
    {
        self.keeper.node().own()
    }

    /// How many replicas its group has: at most 8.
    pub fn replicas(&self) -> u8
        ensures { result ≡ length self.now.kept.votes }
    {
        self.keeper.node().replicas()
    }

    /// The set of updates that it answers questions from.
    pub fn view(&self) -> &UpdateSet
        requires { AllIsKept self.now.journal }
        ensures { result.now ≡ self.now.kept.view }
    {
        self.keeper.node().view()
    }

    /// How often something that was to be sent was lost, because memory for it was refused, since the host was made. Where
    /// it has grown since it was last asked, a transport has in effect lost that: a timer's [`Host::again`] makes up for
    /// it. It counts up to 2^64 - 1.
    pub fn lost(&self) -> u64
        ensures { result ≡ self.now.lost }
    {
        self.lost
    }

    /// How many updates it has submitted: the number of the last.
    pub fn submitted(&self) -> u32
        requires { AllIsKept self.now.journal }
        ensures { result ≡ submitted_by self.now }
    {
        self.count()
    }

    // How many updates it has submitted, on the disk or not.
    fn count(&self) -> u32
        ensures { result ≡ submitted_by self.now }
    {
        self.keeper.node().submitted(0).unwrap_or(0)
    }

    /// How far another replica is at least, as far as was heard; of itself, as far as it has heard that from itself.
    pub fn known(&self, replica: u8) -> Progress
        requires { AllIsKept self.now.journal }
        ensures { result ≡ known_of self.now.links replica }
    {
        self.links.known(replica)
    }

    /// What it returned from an adopt-commit object; `None` where it has not, or there is no such object.
    pub fn outcome(&self, commit: u8) -> Option<Outcome>
        requires { AllIsKept self.now.journal }
        ensures { result ≡ returned_by commit self.now.kept }
    {
        self.keeper.node().outcome(commit)
    }

    /// Adds an object under a number, as [`Shelf::add`] does.
    pub fn add(&mut self, number: u16, object: B) -> Result<(), ShelfError>
        ensures ok { OnOk result (self.new ≡ with_objects self.old (record self.old.shelf {
          objects = self.old.shelf.objects ++ (number, kind_of (B.state object)) ∷ [];
        })) }
        ensures error { IfErr result (IsAddRefusal (kind_at self.old.shelf.objects number) (B.state object)) }
        ensures err { OnErr result (self.new ≡ self.old) }
    {
        self.shelf.add(number, object)
    }

    // Puts of mail of the node what is sent to what waits, as letters, and takes note of them.
    fn send(&mut self, mail: Mail, why: Sending) -> Result<(), AllocError>
        ensures ok { OnOk result (IsSent self.old.links self.old.kept.own
            (letters_sent self.old.links self.old.kept why mail) self.old.mail self.new.mail self.new.links) }
        ensures same { self.new ≡ with_noted self.old self.new.mail self.new.links }
        ensures err { OnErr result (self.new ≡ self.old) }
    {
        let own = self.own();
        let node = self.keeper.node();
        let letters = self.links.letters(self.alloc, node, mail, why)?;
        self.mail.reserve(letters.len())?;
        self.links.note_all(&letters);
        put_letters(&mut self.mail, own, letters);
        Ok(())
    }

    // Counts that something which was to be sent is lost.
    fn lose(&mut self)
        ensures { self.new ≡ with_lost self.old (lost_once self.old.lost) }
    {
        self.lost = self.lost.saturating_add(1);
    }

    // Puts mail of the node to what waits. Where there is no memory it is lost, as a transport may lose it.
    fn post(&mut self, mail: Mail)
        ensures mail { IsPosted self.old.links self.old.kept mail self.old.mail self.new.mail self.new.links self.old.lost self.new.lost }
        ensures same { self.new ≡ with_noted (with_lost self.old self.new.lost) self.new.mail self.new.links }
    {
        if self.send(mail, Sending::Call).is_err() {
            self.lose();
        }
    }

    // Tells a replica anew what it lacks, where it said so. Where there is no memory that is lost.
    fn mend(&mut self, replica: u8)
        ensures mail { IsMended self.old.kept self.old.links replica self.old.mail self.new.mail self.new.links self.old.lost self.new.lost }
        ensures same { self.new ≡ with_noted (with_lost self.old self.new.lost) self.new.mail self.new.links }
    {
        if !self.links.is_lacked(replica) {
            return;
        }
        if self.send_lacked(replica).is_err() {
            self.lose();
        }
    }

    // Puts what waits for an answer to what is to be sent once more, for a replica that lacks it.
    fn send_lacked(&mut self, replica: u8) -> Result<(), AllocError>
        ensures ok { OnOk result (IsPutAgain self.old.kept self.old.links (Lack replica) self.old.mail self.new.mail self.new.links) }
        ensures same { self.new ≡ with_noted self.old self.new.mail self.new.links }
        ensures err { OnErr result (self.new ≡ self.old) }
    {
        let mail = self.keeper.node().again()?;
        self.send(mail, Sending::Lack(replica))
    }

    // Takes a call, by its line where there is a journal: one step of the node.
    fn act(&mut self, call: Call, line: &[u8]) -> Result<(), NodeError>
        requires { self.old.journal ≢ None → named_call line.now ≡ Some (called call) }
        ensures step { IfOk result (λ _. TakesCall self.old self.old.links (called call) self.new) }
        ensures refusal { IfErr result (IsRefusedOver self.old.journal (may_stand line.now ≡ false)
            (IsActRefusal self.old.kept call)) }
        ensures err { OnErr result (self.new ≡ self.old) }
    {
        let Received { done, .. } = self.keeper.act(self.alloc, call, line)?;
        let Done { mail, .. } = done;
        self.post(mail);
        Ok(())
    }

    // Takes a call of the program's own, of which a line is written first where there is a journal.
    fn call(&mut self, call: Call) -> Result<(), NodeError>
        requires { is_own_call (called call) ≡ true }
        ensures step { IfOk result (λ _. TakesCall self.old self.old.links (called call) self.new) }
        ensures refusal { IfErr result (IsRefusedOver self.old.journal (IsCall (called call) → ⊥)
            (IsActRefusal self.old.kept call)) }
        ensures err { OnErr result (self.new ≡ self.old) }
    {
        if !self.keeper.has_journal() {
            return self.act(call, &[]);
        }
        // a hint to the prover: of lines that are written
        la_wire::laws::calls_may_stand_in_files();
        match line_of(self.alloc, &call)? {
            Some(line) => self.act(call, &line),
            None => Err(NodeError::Unkept),
        }
    }

    /// Submits an operation on an object, whether or not its shelf has one under the number, and answers the update's
    /// number. What is to be sent of it waits from then on, or is lost for want of memory, as a transport may lose it, and
    /// [`Host::lost`] has grown.
    ///
    /// The errors are the node's: `Replica` with `Full` where it has submitted its cap, or with `BallotsSpent` where no
    /// ballot is left, and `Memory`; over a journal also `Unkept`, for an operation that no line says: a vote. After each
    /// the host is as before. Over a journal the number is not to be told before it is on the disk.
    pub fn submit(&mut self, object: u16, op: Op) -> Result<u32, NodeError>
        ensures step { IfOk result (λ _.
            TakesCall self.old self.old.links (Submit self.old.kept.own object op) self.new) }
        ensures number { IfOk result (λ number. number ≡ submitted_by self.new) }
        ensures error { IfErr result (RefusesToSubmit self.old (op_on object op)) }
        ensures err { OnErr result (self.new ≡ self.old) }
    {
        self.call(Call::Submit {
            replica: self.own(),
            object,
            op,
        })?;
        Ok(self.count())
    }

    /// Submits an operation as the update with this number, so that it counts once, however often it is asked for:
    /// under the next number it is submitted as by [`Host::submit`], and under one that has this very operation nothing
    /// changes. The cost is that of a submission, and logarithmic in how many were submitted.
    ///
    /// In this order: `Stale` where another submission has this number; `Gap` where it is neither the next nor
    /// submitted; `Node` as [`Host::submit`] is refused.
    pub fn submit_at(&mut self, number: u32, object: u16, op: Op) -> Result<(), NumberError>
        ensures ok { OnOk result (SubmitsUnder self.old number (op_on object op) self.new) }
        ensures error { IfErr result (IsNumberRefusal self.old number (op_on object op)) }
        ensures err { OnErr result (self.new ≡ self.old) }
    {
        if number.checked_sub(1) == Some(self.count()) {
            return match self.submit(object, op) {
                Ok(_number) => Ok(()),
                Err(refused) => Err(NumberError::Node(refused)),
            };
        }
        self.find_submitted(number, object, &op)
    }

    // Whether this operation was submitted under the number.
    fn find_submitted(&self, number: u32, object: u16, op: &Op) -> Result<(), NumberError>
        ensures ok { OnOk result (submitted_as self.now.kept number ≡ Some (op_on object op.now)) }
        ensures error { IfErr result (IsNotSubmitted self.now.kept number (op_on object op.now)) }
    {
        let Some(first) = self.keeper.node().replica().instances().first() else {
            return Err(NumberError::Gap);
        };
        match submitted_under(&first.proposer, number) {
            Some(update) if does(update, object, op) => Ok(()),
            Some(_) => Err(NumberError::Stale),
            None => Err(NumberError::Gap),
        }
    }

    /// Proposes a value to an adopt-commit object. What is to be sent waits, as that of a submission does.
    ///
    /// The errors are the node's: `Proposal` where there is no such object or it has proposed to it, and `Memory`.
    pub fn propose(&mut self, commit: u8, value: u64) -> Result<(), NodeError>
        ensures step { IfOk result (λ _.
            TakesCall self.old self.old.links (Decide self.old.kept.own commit value) self.new) }
        ensures error { IfErr result (RefusesToPropose self.old commit value) }
        ensures err { OnErr result (self.new ≡ self.old) }
    {
        self.call(Call::Decide {
            replica: self.own(),
            commit,
            value,
        })
    }

    // Answers another's letter that is not received by how far the host is. Where there is no memory the answer is lost,
    // as a transport may lose it.
    fn tell_back(&mut self, standing: Standing)
        ensures mail { IsToldBack standing self.old.mail self.new.mail self.old.lost self.new.lost }
        ensures same { self.new ≡ with_mail (with_lost self.old self.new.lost) self.new.mail }
    {
        let Ok(()) = self.mail.reserve(1) else {
            self.lose();
            return;
        };
        self.mail.push_back_reserved(Outgoing::Standing(standing));
    }

    // Tells another how far the host is; where it would tell itself, it hears it at once.
    fn answer(&mut self, standing: Standing)
        ensures { Answers self.old standing self.new }
    {
        if standing.to == self.own() {
            self.links.hear_answer(&standing);
            self.mend(standing.from);
        } else {
            self.tell_back(standing);
        }
    }

    // Takes a letter, by its line where there is a journal.
    fn take(&mut self, letter: Letter, line: &[u8]) -> Result<(), HostError>
        requires { self.old.journal ≢ None → named_call line.now ≡ Some (Receive (letter_message letter)) }
        ensures ok { OnOk result (TakesLetter self.old letter self.new) }
        ensures error { IfErr result (RefusesHere self.old (may_stand line.now ≡ false) letter) }
        ensures err { OnErr result (self.new ≡ self.old) }
    {
        if !is_for_host(&self.keeper, letter.replicas, letter.parcel.to) {
            return Err(HostError::Node(NodeError::Elsewhere));
        }
        let before = self.links;
        self.links.hear(letter.parcel.from, letter.progress);
        let node = self.keeper.node();
        if node.wants_standing(&letter.parcel) {
            let standing = node.standing(&letter.parcel);
            self.answer(standing);
            return Ok(());
        }
        if let Err(refused) = self.act(Call::Receive(letter), line) {
            self.links = before;
            return Err(HostError::from(refused));
        }
        Ok(())
    }

    /// Takes a line of another replica's, without its end, honest or not: a message, which is a step of the node, or
    /// how far another is. A message that tells nothing new, or over more than this one has, is answered by how far this
    /// one is; and another that lacks what a letter of this one was told over is told that at once. What is to be sent
    /// waits, as that of a submission does.
    ///
    /// In this order: `Line` where the line has a fault; `NoMessage` where it is something that clients ask;
    /// `Node(Elsewhere)` where it is for another replica or group; `Node` where the node refuses the message, as no
    /// honest peer's is refused, and over a journal with `Unkept` where that may not have the line, as one with a byte 0.
    /// `Memory` may come at any line. After each the host is as before.
    pub fn receive(&mut self, line: &[u8]) -> Result<(), HostError>
        ensures ok { OnOk result (TakesHostLine self.old line.now self.new) }
        ensures error { IfErr result (IsLineRefusal self.old line.now) }
        ensures err { OnErr result (self.new ≡ self.old) }
    {
        match read_bounded(self.alloc, line)? {
            Call::Receive(letter) => self.take(letter, line),
            Call::Known(standing) => {
                if !is_for_host(&self.keeper, standing.replicas, standing.to) {
                    return Err(HostError::Node(NodeError::Elsewhere));
                }
                self.links.hear_answer(&standing);
                self.mend(standing.from);
                Ok(())
            }
            Call::Submit { .. } | Call::Decide { .. } | Call::Ask { .. } | Call::Tick => {
                Err(HostError::NoMessage)
            }
        }
    }

    /// Puts what waits for an answer behind what is to be sent once more, but for sets that their receivers are known
    /// to have: what a timer is to call. To a replica of which more than [`MOST_UNHEARD`](la_node::MOST_UNHEARD) updates
    /// are unheard it only puts what asks how far that is. After a refusal nothing has changed.
    pub fn again(&mut self) -> Result<(), AllocError>
        ensures ok { OnOk result (IsPostedAgain self.old self.new.mail self.new.links) }
        ensures same { self.new ≡ with_noted self.old self.new.mail self.new.links }
        ensures err { OnErr result (self.new ≡ self.old) }
    {
        let node = self.keeper.node();
        let mail = node.again()?;
        let before = self.links;
        self.links = before.asked(node.progress());
        if let Err(refused) = self.send(mail, Sending::Timer) {
            self.links = before;
            return Err(refused);
        }
        Ok(())
    }

    /// What is to be sent next: what is for this node itself, and then the oldest.
    pub fn next_mail(&self) -> Option<&Outgoing>
        requires { AllIsKept self.now.journal }
        ensures { option_copied result ≡ slice_get self.now.mail 0 }
    {
        self.mail.front()
    }

    /// Drops what was to be sent next: it was sent, or is lost, as a transport may lose it.
    pub fn sent(&mut self)
        ensures { self.new ≡ with_mail self.old (drop 1 self.old.mail) }
    {
        let _sent = self.mail.pop_front();
    }

    /// Takes what is to be sent next, where it is for this node itself, as a transport would bring it, and answers
    /// whether it is. Where the node refuses it, for want of memory, it is lost, as a transport may lose it.
    pub fn bring_own(&mut self) -> bool
        ensures { BringsOwn self.old (own_first self.old.kept self.old.mail) result self.new }
    {
        let own = self.own();
        match self.mail.front() {
            Some(Outgoing::Letter(letter)) if letter.parcel.to == own => {}
            _ => return false,
        }
        if let Some(Outgoing::Letter(letter)) = self.mail.pop_front() {
            if self.take_own(letter).is_err() {
                self.lose();
            }
        }
        true
    }

    // Takes a letter from itself, by its line where there is a journal.
    fn take_own(&mut self, letter: Letter) -> Result<(), HostError>
        ensures ok { OnOk result (TakesLetter self.old letter self.new ⊎ TakesByLine self.old letter self.new) }
        ensures err { OnErr result (self.new ≡ self.old) }
    {
        if self.keeper.has_journal() {
            self.take_by_line(&letter)
        } else {
            self.take(letter, &[])
        }
    }

    // Takes a letter by the line that is put of it.
    fn take_by_line(&mut self, letter: &Letter) -> Result<(), HostError>
        ensures ok { OnOk result (TakesByLine self.old letter.now self.new) }
        ensures err { OnErr result (self.new ≡ self.old) }
    {
        let mut line = Vec::new(self.alloc);
        let Ok(()) = put_letter(&mut line, letter) else {
            return Err(HostError::Memory);
        };
        self.receive(&line)
    }

    /// The update of the view that was not yet handed on and comes next: each is handed on once, of each replica in
    /// the order of numbers. `None` once all of the view were. It is the same until
    /// [`Host::handed_on`], or until the view grows. The cost is logarithmic.
    pub fn next_learnt(&self) -> Option<&Update>
        requires { AllIsKept self.now.journal }
        ensures { IsNextLearnt self.now.handed self.now.kept.view (option_copied result) }
    {
        self.view().get(next_id(self.handed, self.view())?)
    }

    /// Takes note that the update with this id, which [`Host::next_learnt`] gave, was handed on, whatever was received
    /// meanwhile. An update that is not the next of its replica is not noted.
    pub fn handed_on(&mut self, id: UpdateId)
        ensures { self.new ≡ with_handed self.old (handed_noting self.old.handed id) }
    {
        if self.handed.of(id.replica).checked_add(1) == Some(id.number) {
            self.handed = handed_with(self.handed, id);
        }
    }

    /// Asks an object on the shelf, which first absorbs what the view gained since the last question: the cost is that
    /// of the gain, and of the answer.
    ///
    /// `NoSuchObject` comes where there is none under the number; else `Memory`, after which the shelf may have
    /// absorbed some of the view, by which no later answer differs.
    pub fn ask(&mut self, object: u16, query: &Query) -> Result<Answer, ShelfError>
        requires { AllIsKept self.old.journal }
        ensures ok { IfOk result (λ answer. answer_at (shelf_now self.old) object query.now ≡ Some answer) }
        ensures error { IfErr result (IsAskRefusal (kind_at self.old.shelf.objects object)) }
        ensures objects { self.new.shelf.objects ≡ self.old.shelf.objects }
        ensures same { self.new ≡ with_objects self.old self.new.shelf }
    {
        self.shelf.ask_by(self.keeper.node().view(), object, query)
    }

    /// The live tags of an element of an object on the shelf, by the view, which the shelf absorbs first: what a
    /// `Remove` of it submitted here is to name. The cost is that of a question. Over a journal they may be of what is not
    /// on the disk yet, and are not to be told before it is.
    ///
    /// `NoSuchObject` comes where there is none under the number; else `TooManyTags` where they are more than a remove
    /// may name, or `Memory`. After each the shelf may have absorbed some of the view, by which no later answer
    /// differs.
    pub fn observed(&mut self, object: u16, element: u64) -> Result<Tags, ShelfError>
        ensures ok { IfOk result (λ tags. tags_at (shelf_now self.old) object element ≡ Some tags) }
        ensures error { IfErr result (IsUnseen (tags_at (shelf_now self.old) object element)) }
        ensures objects { self.new.shelf.objects ≡ self.old.shelf.objects }
        ensures same { self.new ≡ with_objects self.old self.new.shelf }
    {
        // what it answers is not looked at: the shelf has the view then
        let _absorbed = self
            .shelf
            .ask_by(self.keeper.node().view(), object, &Query::Size)?;
        self.shelf.observed(object, element)
    }
}

// What a proposer has submitted under a number.
fn submitted_under(proposer: &Proposer, number: u32) -> Option<&Update>
    ensures { option_copied result ≡ option_map (update_of proposer.now.own number)
        (object_op_number (all_submitted proposer.now) number) }
{
    // a hint to the prover: the proposer is one of eight
    laws::proposers_may_be_resumed();
    proposer.submissions().get(UpdateId {
        replica: proposer.own(),
        number,
    })
}

// Whether an update does this to this object.
fn does(update: &Update, object: u16, op: &Op) -> bool
    ensures { IsTrue result ↔ (object_op_of update.now ≡ op_on object op.now) }
{
    update.object == object && update.op.same(op)
}

// Puts letters before what waits that are for this replica itself, and others behind it, where there is room.
fn put_letters(mail: &mut VecDeque<Outgoing>, own: u8, letters: Vec<Letter>)
    requires { deque_len mail.old + length letters.items ≤ deque_capacity mail.old }
    ensures { mail.new.items ≡ with_letters own mail.old.items letters.items }
{
    for letter in letters {
        put_reserved(mail, own, letter);
    }
}

// Puts a letter there, where there is room for one more.
fn put_reserved(mail: &mut VecDeque<Outgoing>, own: u8, letter: Letter)
    requires { deque_len mail.old < deque_capacity mail.old }
    ensures mail { mail.new.items ≡ with_letter own mail.old.items letter }
    ensures len { deque_len mail.new ≡ deque_len mail.old + 1 }
    ensures room { deque_capacity mail.new ≡ deque_capacity mail.old }
{
    if letter.parcel.to == own {
        mail.push_front_reserved(Outgoing::Letter(letter));
    } else {
        mail.push_back_reserved(Outgoing::Letter(letter));
    }
}

// Whether a message is for this replica of this group.
fn is_for_host(keeper: &Keeper, replicas: u8, to: u8) -> bool
    ensures { result ≡ is_for_host (state_kept keeper.now) replicas to }
{
    let node = keeper.node();
    replicas == node.replicas() && to == node.own()
}
