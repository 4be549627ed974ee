ghost use Rattle.std.specs.Prelude.{◌≡◌, ◌<◌, ◌≤◌, ◌∷◌, [], List, IfOk, length};
ghost use Rattle.sent_log.specs.Log.{LogStandsFor, empty_log, is_logged, is_logged_at_all, with_frame};
ghost use Rattle.sent_log.specs.declared.log.Noted.{Noted as NotedFrame};

use aip_addr::KeyId;
use circular_buffer::HeapCircularBuffer;
use std::alloc::{AllocError, Global};
use std::marker::Model;

/// A frame that was put, as a log keeps it.
#[derive(Clone, Copy, Debug, PartialEq, Eq)]
pub struct Noted {
    /// Its packet hash.
    pub hash: [u8; 32],
    /// The key identifier of its destination.
    pub to: KeyId,
}

/// The log of a host. Contracts see how many frames it has room for, and those that it keeps, the newest first.
#[derive(Drop)]
pub struct SentLog {
    ring: HeapCircularBuffer<Noted>,
}

impl Model for SentLog {
    ghost use Rattle.sent_log.specs.Log.{Log};

    ghost Value = { Log };

    ghost view = { λ log. record { room = log.ring.capacity; frames = log.ring.items } };
}

impl SentLog {
    /// A log with room for so many frames, which keeps none yet. The only error is want of memory.
    pub fn new(alloc: Global, room: u16) -> Result<SentLog, AllocError>
        requires { 1 ≤ room }
        ensures empty { IfOk result (λ log. log ≡ empty_log room) }
        ensures stands { IfOk result (λ log. LogStandsFor [] log) }
    {
        let ring = HeapCircularBuffer::with_capacity(alloc, room.into())?;
        Ok(SentLog { ring })
    }

    /// Notes a frame that was put, by its packet hash and the key identifier of its destination. Where there is no room
    /// the oldest frame is forgotten. It takes no memory.
    #[tactic(auto, using(crate::proofs::Standing::still_stands))]
    pub fn note(&mut self, hash: &[u8; 32], to: &KeyId)
        ensures noted { self.new ≡ with_frame self.old (record { hash = hash.now; to = to.now }) }
        ensures stands { (put : List NotedFrame) → LogStandsFor put self.old
            → LogStandsFor (record { hash = hash.now; to = to.now } ∷ put) self.new }
    {
        let _pushed_out = self.ring.push_front(Noted {
            hash: *hash,
            to: *to,
        });
    }

    /// Whether a frame of this packet hash for this key identifier is in the log.
    pub fn holds(&self, hash: &[u8; 32], to: &KeyId) -> bool
        ensures { result ≡ is_logged self.now.frames hash.now to.now.bytes }
    {
        self.ring
            .iter()
            .any(|frame| frame.hash == *hash && frame.to == *to)
    }

    /// Whether a frame of this packet hash is in the log.
    pub fn holds_any(&self, hash: &[u8; 32]) -> bool
        ensures { result ≡ is_logged_at_all self.now.frames hash.now }
    {
        self.ring.iter().any(|frame| frame.hash == *hash)
    }

    /// Forgets all frames. The room stays, and no memory is taken.
    pub fn clear(&mut self)
        ensures empty { self.new ≡ empty_log self.old.room }
        ensures stands { LogStandsFor [] self.new }
    {
        self.ring.clear();
    }
}
