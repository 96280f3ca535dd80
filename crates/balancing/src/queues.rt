//! The queues, one for each balancing group, and the busy terminals.
ghost use Rattle.std.specs.Option.{option_copied};
ghost use Rattle.std.specs.Prelude.{◌≡◌, ◌≤◌, ◌-◌, ◌*◌, ◌^◌, ◌++◌, ◌∷◌, [], true, false, length, drop, replicate, slice_get, slice_set, sum_by, Ok, IfOk, OnOk, OnErr, IsNone, IsTrue, ◌↔◌};
ghost use Rattle.fp_model.specs.Machine.{is_among, queued_at};
ghost use Rattle.balancing.specs.Backlog.{AreSame, group_for, queue_of, spelled, without};

use fp_exits::Router;
use fp_model::{Message, Name};
use std::alloc::{AllocError, Global};
use std::collections::{BTreeSet, VecDeque};
use std::marker::Model;

/// What became of a message that was offered.
#[derive(PartialEq, Eq, Drop)]
pub enum Offer {
    /// It is the last of this group's queue.
    Queued(u8),
    /// Its terminal waits for a reply, so the message comes back.
    TerminalBusy(Message),
}

/// The messages of each balancing group, oldest first, and the terminals that wait for a reply.
#[derive(Drop)]
pub struct Queues {
    /// The queue of group g stands at place g - 1.
    queues: Vec<VecDeque<Message>>,
    /// Each terminal that waits, as the number that its name spells: numbers are compared at once.
    waiting: BTreeSet<u64>,
}

// The number that the bytes of a name spell.
fn number_of(name: Name) -> u64
    ensures { spelled result ≡ name }
{
    u64::from_be_bytes(name.0)
}

impl Model for Queues {
    ghost use Rattle.std.specs.List.{All};
    ghost use Rattle.std.specs.Prelude.{◌<◌, ◌≤◌, ◌^◌, length, map};
    ghost use Rattle.balancing.specs.Backlog.{Backlog, spelled};

    ghost Value = { Backlog };

    ghost view = { λ q. record {
      queues = map (λ queue. queue.items) q.queues.items;
      busy = map spelled q.waiting.keys;
    } };

    ghost invariant = { λ q. (1 ≤ length q.queues.items) × (length q.queues.items ≤ 16)
        × All (λ n. n < 2 ^ 64) q.waiting.keys };
}

impl Queues {
    /// An empty queue for each of 1 to 16 groups, and no busy terminal.
    pub fn new(alloc: Global, groups: u8) -> Result<Queues, AllocError>
        requires some { 1 ≤ groups }
        requires most { groups ≤ 16 }

        ensures queues { IfOk result (λ made. made.queues ≡ replicate groups []) }
        ensures free { IfOk result (λ made. made.busy ≡ []) }
    {
        let mut queues = Vec::with_capacity(alloc, usize::from(groups))?;
        for _ in 0..groups {
            queues.push(VecDeque::new(alloc))?;
        }
        Ok(Queues {
            queues,
            waiting: BTreeSet::new(alloc),
        })
    }

    /// Puts a message at the end of the queue of its group, which the router picks, and makes its terminal busy.
    /// A message of a busy terminal comes back. Want of memory drops the message and changes nothing else.
    pub fn offer(&mut self, message: Message, router: &Router) -> Result<Offer, AllocError>
        // A terminal that waits gets its message back, and nothing changes.
        ensures waits { is_among self.old.busy message.lterm ≡ true → result ≡ Ok (Offer.TerminalBusy message) }
        ensures stays { is_among self.old.busy message.lterm ≡ true → self.new ≡ self.old }

        // Any other message is the last of its group's queue, and its terminal waits.
        ensures group { is_among self.old.busy message.lterm ≡ false
            → IfOk result (λ offer. offer ≡ Offer.Queued (group_for router.now.kind message self.old)) }
        ensures queued { is_among self.old.busy message.lterm ≡ false
            → OnOk result (self.new.queues ≡ queued_at (group_for router.now.kind message self.old - 1) message
            self.old.queues) }
        ensures marked { is_among self.old.busy message.lterm ≡ false
            → OnOk result (AreSame self.new.busy (self.old.busy ++ message.lterm ∷ [])) }

        ensures groups { length self.new.queues ≡ length self.old.queues }

        // Want of memory changes nothing.
        ensures err { OnErr result (self.new ≡ self.old) }
    {
        if self.busy(&message.lterm) {
            return Ok(Offer::TerminalBusy(message));
        }
        let place = router.group(&message.tran, self.queues.len() as u64);
        let queue = &mut self.queues[place as usize];
        queue.reserve(1)?;
        self.waiting.insert(number_of(message.lterm))?;
        queue.push_back_reserved(message);
        Ok(Offer::Queued(place as u8 + 1))
    }

    /// Takes the oldest message of a group; `None` exactly where the group has none.
    pub fn take(&mut self, group: u8) -> Option<Message>
        requires some { 1 ≤ group }
        requires within { group ≤ length self.old.queues }

        ensures oldest { result ≡ slice_get (queue_of group self.old) 0 }
        ensures none { IsNone result ↔ (queue_of group self.old ≡ []) }
        ensures rest { self.new.queues ≡ slice_set self.old.queues (group - 1) (drop 1 (queue_of group self.old)) }

        ensures groups { length self.new.queues ≡ length self.old.queues }

        // The terminal goes on waiting for its reply.
        ensures busy { self.new.busy ≡ self.old.busy }
    {
        self.queues[usize::from(group) - 1].pop_front()
    }

    /// The oldest message of a group, which stays; `None` exactly where the group has none.
    pub fn oldest(&self, group: u8) -> Option<&Message>
        requires some { 1 ≤ group }
        requires within { group ≤ length self.now.queues }

        ensures { option_copied result ≡ slice_get (queue_of group self.now) 0 }
    {
        self.queues[usize::from(group) - 1].front()
    }

    /// How many messages are queued.
    pub fn count(&self) -> u128
        ensures total { result ≡ sum_by length self.now.queues }
        ensures bounded { result ≤ 16 * 2 ^ 64 }
    {
        let mut count = 0;
        for queue in &self.queues {
            count += queue.len() as u128;
        }
        count
    }

    /// Whether no group has a message.
    pub fn is_empty(&self) -> bool
        ensures { IsTrue result ↔ (sum_by length self.now.queues ≡ 0) }
    {
        self.count() == 0
    }

    /// Whether a terminal waits for a reply.
    pub fn busy(&self, lterm: &Name) -> bool
        ensures { result ≡ is_among self.now.busy lterm.now }
    {
        self.waiting.contains(&number_of(*lterm))
    }

    /// Makes a terminal busy: one whose line is answered without a queue. It may be busy already.
    pub fn mark(&mut self, lterm: &Name) -> Result<(), AllocError>
        ensures ok { OnOk result (AreSame self.new.busy (self.old.busy ++ lterm.now ∷ [])) }
        ensures queues { self.new.queues ≡ self.old.queues }
        ensures err { OnErr result (self.new ≡ self.old) }
    {
        self.waiting.insert(number_of(*lterm))?;
        Ok(())
    }

    /// Makes a terminal free, once its reply is sent. It may be free already.
    pub fn answered(&mut self, lterm: &Name)
        ensures freed { AreSame self.new.busy (without lterm.now self.old.busy) }
        ensures queues { self.new.queues ≡ self.old.queues }
    {
        self.waiting.remove(&number_of(*lterm));
    }
}
