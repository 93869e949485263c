ghost use Rattle.std.specs.Prelude.{◌≡◌, ◌+◌, ◌-◌, ◌<◌, ◌≤◌, ◌↔◌, ℕ, List, [], ◌∷◌, ◌++◌, length, drop, Some, Ok, Err, IsOk, IsTrue, IfOk, IfErr, OnOk, OnErr, slice_get};
ghost use Rattle.std.specs.Bool.{OnTrue, OnFalse};
ghost use Rattle.response_buffer.specs.Window.{high_of, weight_of, weight_after_oldest, kept, FitsBuffer, IsLeast, HasLengths, KeptIsLeast};

use crate::queue;
use cn_base::Bytes;
use std::alloc::Global;
use std::collections::VecDeque;
use std::marker::Model;
use thiserror::Error;

/// Why a place is not kept.
#[derive(Clone, Copy, Debug, PartialEq, Eq, Error)]
pub enum Missing {
    /// It was sent and is dropped. The first kept place is `first`, which is one more than the highest sent place where none is kept.
    #[error("the response is dropped, the first kept place is {first}")]
    Dropped { first: u32 },
    /// It was not sent yet. The highest sent place is `high`, 0 where none was sent.
    #[error("the response is not sent yet, the highest place is {high}")]
    NotSent { high: u32 },
}

/// The responses of one execution that can be sent again. Each has a place, counted from 1. A response is kept while those after it
/// weigh less than the buffer, so the last one sent is always kept until it is released.
#[derive(Debug, Drop)]
pub struct Retained {
    buffer: u64,
    first: u32,
    /// The weight of the kept responses without the oldest.
    after_oldest: u64,
    responses: VecDeque<Bytes>,
}

impl Model for Retained {
    ghost use Rattle.response_buffer.specs.Window.{Window, IsWindow};

    ghost Value = { Window };

    ghost view = { λ r. record { buffer = r.buffer; first = r.first; responses = r.responses.items } };

    ghost invariant = { λ r. IsWindow r.buffer r.first r.after_oldest r.responses.items };
}

impl Retained {
    /// A window with a buffer of 1 to 67,108,864 bytes, before the first response. It takes no memory.
    pub fn new(alloc: Global, buffer: u64) -> Retained
        requires low { 1 ≤ buffer }
        requires high { buffer ≤ 67108864 }
        ensures { result ≡ record { buffer = buffer; first = 1; responses = [] } }
    {
        Retained {
            buffer,
            first: 1,
            after_oldest: 0,
            responses: VecDeque::new(alloc),
        }
    }

    /// Keeps the response of the next place, and drops the oldest ones that are more than the buffer asks for. `Err` is want of memory:
    /// it hands the response back, and nothing has changed.
    pub fn push(&mut self, response: Bytes) -> Result<(), Bytes>
        requires { high_of self.old < 4194306 }
        ensures first { OnOk result ((lengths : List ℕ)
            → HasLengths lengths self.old.first (self.old.responses ++ response ∷ [])
            → self.new.first ≡ kept lengths self.old.first (high_of self.new) self.old.buffer) }
        ensures least { OnOk result ((lengths : List ℕ)
            → HasLengths lengths self.old.first (self.old.responses ++ response ∷ [])
            → IsLeast (FitsBuffer lengths self.old.first (high_of self.new) self.old.buffer) self.new.first) }
        ensures high { OnOk result (high_of self.new ≡ high_of self.old + 1) }
        ensures responses { OnOk result (self.new.responses
            ≡ drop (self.new.first - self.old.first) (self.old.responses ++ response ∷ [])) }
        ensures buffer { self.new.buffer ≡ self.old.buffer }
        ensures unchanged { OnErr result (self.new ≡ self.old) }
        ensures handed_back { IfErr result (λ given. given ≡ response) }
    {
        let length = response.as_slice().len() as u64;
        let is_oldest = self.responses.is_empty();
        self.responses
            .push_back(response)
            .map_err(|refused| refused.value)?;
        let after_oldest = if is_oldest {
            0
        } else {
            self.after_oldest + length
        };
        let (dropped, after_oldest) = queue::drop_surplus(
            &mut self.responses,
            after_oldest,
            self.buffer,
        );
        self.first += dropped;
        self.after_oldest = after_oldest;
        Ok(())
    }

    /// Lends the response of a place. It takes no memory.
    pub fn take(&self, place: u32) -> Result<&[u8], Missing>
        ensures lent { IsOk result ↔ ((self.now.first ≤ place) × (place ≤ high_of self.now)) }
        ensures bytes { IfOk result (λ bytes. slice_get self.now.responses (place - self.now.first) ≡ Some bytes.now) }
        ensures dropped { (result ≡ Err (Missing.Dropped self.now.first)) ↔ (place < self.now.first) }
        ensures not_sent { (result ≡ Err (Missing.NotSent (high_of self.now))) ↔ (high_of self.now < place) }
    {
        if place < self.first {
            return Err(Missing::Dropped { first: self.first });
        }
        match self.responses.get((place - self.first) as usize) {
            Some(response) => Ok(response.as_slice()),
            None => Err(Missing::NotSent { high: self.high() }),
        }
    }

    /// Drops the responses up to this place and says `true` where the place is kept. Else it says `false`, and nothing changes. It takes
    /// no memory.
    pub fn release_until(&mut self, place: u32) -> bool
        ensures known { IsTrue result ↔ ((self.old.first ≤ place) × (place ≤ high_of self.old)) }
        ensures released { OnTrue result (self.new ≡ record self.old {
          first = place + 1;
          responses = drop (place + 1 - self.old.first) self.old.responses;
        }) }
        ensures unchanged { OnFalse result (self.new ≡ self.old) }
    {
        if place < self.first || self.high() < place {
            return false;
        }
        let count = place + 1 - self.first;
        self.after_oldest = queue::drop_count(&mut self.responses, self.after_oldest, count);
        self.first = place + 1;
        true
    }

    /// The first kept place, which is one more than the highest sent place where none is kept. It takes no memory.
    pub fn first_kept(&self) -> u32
        ensures first { result ≡ self.now.first }
        ensures at_least_1 { 1 ≤ result }
    {
        self.first
    }

    /// The highest sent place, 0 where none was sent. It takes no memory.
    pub fn high(&self) -> u32
        ensures high { result ≡ high_of self.now }
        ensures at_most { result ≤ 4194306 }
    {
        self.first - 1 + self.responses.len() as u32
    }

    /// The sum of the kept lengths. Without the oldest kept response it is below the buffer. It takes no memory.
    pub fn weight(&self) -> u64
        ensures weight { result ≡ weight_of self.now.responses }
        ensures without_oldest { weight_after_oldest self.now.responses < self.now.buffer }
    {
        match self.responses.front() {
            Some(oldest) => oldest.as_slice().len() as u64 + self.after_oldest,
            None => 0,
        }
    }
}

/// The first place to keep is the least one whose successors weigh less than the buffer.
pub fn kept_is_least()
    ensures { KeptIsLeast }
{}
