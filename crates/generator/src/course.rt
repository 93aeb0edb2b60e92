//! What the generator keeps beside the run.
ghost use Rattle.std.specs.Prelude.{◌≡◌, ◌+◌, ◌<◌, ◌≤◌, ◌++◌, ◌==◌, ℕ, length, [], false, IfOk, OnOk};
ghost use Rattle.rand_pcg.specs.Lcg.{Lcg};
ghost use Rattle.generator.specs.Courses.{first_course, chosen, fixed_or, with_word, by_word, goes_on, begins, moves, delivers_first, delivers_second, with_notes, numbers_behind, HasRoom};
ghost use Rattle.generator.specs.Words.{word, later};

use crate::accounts::{Reading, account_name, transfer_payload};
use crate::doings::{Doing, fixed_at};
use crate::transfers::Transfer;
use rand_core::utils::NextWord;
use rand_pcg::Lcg64Xsh32;
use std::alloc::Global;
use std::collections::VecDeque;
use std::marker::Model;
use std::mem;
use store_client::SessionFault;
use tcs_terms::{Note, OutOfMemory};

/// What the generator keeps beside the run: the words that are left, the numbers of messages that were sent and not yet
/// delivered from the queue, and the transfer that is being collected.
#[derive(Drop)]
pub struct Course {
    alloc: Global,
    words: Lcg64Xsh32,
    queue: VecDeque<u32>,
    transfer: Transfer,
}

impl Model for Course {
    ghost use Rattle.generator.specs.Courses.{CourseState, IsTransfer};

    ghost Value = { CourseState };

    ghost view = { λ c. record { words = c.words; queue = c.queue.items; transfer = c.transfer } };

    ghost invariant = { λ c. IsTransfer c.transfer };
}

impl Course {
    /// What is kept before the first event.
    #[tactic(auto, unfolding(crate::specs::Words::words_from))]
    pub fn first(alloc: Global, seed: u64) -> Course
        ensures { result ≡ first_course seed }
    {
        Course {
            alloc,
            words: Lcg64Xsh32::new(seed, 1),
            queue: VecDeque::new(alloc),
            transfer: Transfer::Idle,
        }
    }

    /// What happens at a place, from 1, of a schedule of so many events. `waits` says whether node 9 has an open case, and
    /// `sent` is the number of messages so far.
    pub fn choose(
        &mut self,
        count: u32,
        place: u32,
        waits: bool,
        sent: u32,
    ) -> Result<Doing, OutOfMemory>
        requires count { count ≤ 50000 }
        requires sent { 0 < length self.old.queue → 0 < sent }
        requires room { HasRoom self.old.transfer }
        ensures doing { IfOk result (λ doing. doing ≡ (chosen count place waits sent self.old).doing) }
        ensures course { OnOk result (self.new ≡ (chosen count place waits sent self.old).course) }
    {
        match fixed_at(count, place) {
            Some(doing) => Ok(doing),
            None => self.choose_by_word(waits, sent),
        }
    }

    /// What the next word lets happen.
    fn choose_by_word(&mut self, waits: bool, sent: u32) -> Result<Doing, OutOfMemory>
        requires sent { 0 < length self.old.queue → 0 < sent }
        requires room { HasRoom self.old.transfer }
        ensures doing { IfOk result (λ doing. doing ≡ (with_word waits sent self.old).doing) }
        ensures course { OnOk result (self.new ≡ (with_word waits sent self.old).course) }
    {
        let word = self.draw();
        let none = self.queue.is_empty();
        if none && waits && word % 2 == 0 {
            return Ok(Doing::Nudge);
        }
        if none || self.transfer.is_collecting() || word % 16 == 0 {
            return self.go_on();
        }
        match word % 16 {
            1 => Ok(Doing::Deliver(1 + word / 16 % sent)),
            2 if self.queue.len() >= 2 => self.deliver_second(),
            _ => Ok(self.deliver_first()),
        }
    }

    /// The next step of a transfer.
    fn go_on(&mut self) -> Result<Doing, OutOfMemory>
        requires room { HasRoom self.old.transfer }
        ensures doing { IfOk result (λ doing. doing ≡ (goes_on self.old self.old.transfer).doing) }
        ensures course { OnOk result (self.new ≡ (goes_on self.old self.old.transfer).course) }
    {
        match mem::replace(&mut self.transfer, Transfer::Idle) {
            Transfer::Idle => Ok(self.begin()),
            Transfer::Begun { from, to } => {
                self.transfer = Transfer::Begun { from, to };
                Ok(Doing::Read(account_name(from)))
            }
            Transfer::Half { from, to } => {
                self.transfer = Transfer::Half { from, to };
                Ok(Doing::Read(account_name(to)))
            }
            Transfer::Whole { from, to } => self.finish(from, to),
        }
    }

    /// Begins a transfer: one word for each account.
    fn begin(&mut self) -> Doing
        ensures doing { result ≡ (begins self.old).doing }
        ensures course { self.new ≡ (begins self.old).course }
    {
        let from = (self.draw() % 10) as u8;
        let to = ((u32::from(from) + 1 + self.draw() % 9) % 10) as u8;
        self.transfer = Transfer::Begun { from, to };
        Doing::Read(account_name(from))
    }

    /// Both accounts were read: a word names the amount.
    fn finish(&mut self, from: Reading, to: Reading) -> Result<Doing, OutOfMemory>
        requires first { from.account < 10 }
        requires second { to.account < 10 }
        requires others { (from.account == to.account) ≡ false }
        requires from_room { from.version < 18446744073709551615 }
        requires to_room { to.version < 18446744073709551615 }
        requires idle { self.old.transfer ≡ Transfer.Idle }
        ensures doing { IfOk result (λ doing. doing ≡ (moves self.old from to).doing) }
        ensures course { OnOk result (self.new ≡ (moves self.old from to).course) }
    {
        let word = self.draw();
        match transfer_payload(self.alloc, from, to, word) {
            Ok(payload) => Ok(Doing::Certify(payload)),
            Err(SessionFault::OutOfMemory) => Err(OutOfMemory),
            Err(_) => unreachable!(),
        }
    }

    /// Delivers the first of the queue.
    fn deliver_first(&mut self) -> Doing
        ensures doing { result ≡ (delivers_first self.old self.old.queue).doing }
        ensures course { self.new ≡ (delivers_first self.old self.old.queue).course }
    {
        match self.queue.pop_front() {
            Some(number) => Doing::Deliver(number),
            None => Doing::Nudge,
        }
    }

    /// Delivers the second of the queue.
    fn deliver_second(&mut self) -> Result<Doing, OutOfMemory>
        requires { 2 ≤ length self.old.queue }
        ensures doing { IfOk result (λ doing. doing ≡ (delivers_second self.old self.old.queue).doing) }
        ensures course { OnOk result (self.new ≡ (delivers_second self.old self.old.queue).course) }
    {
        match self.queue.remove(1) {
            Some(number) => Ok(Doing::Deliver(number)),
            None => unreachable!(),
        }
    }

    /// The next word.
    #[tactic(auto, unfolding(crate::specs::Words::word, crate::specs::Words::later))]
    fn draw(&mut self) -> u32
        ensures word { result ≡ word self.old.words }
        ensures rest { self.new ≡ record self.old { words = later self.old.words } }
    {
        self.words.next_word()
    }

    /// The notes of a reading tell the transfer what was read; without one it is dropped.
    pub fn take_notes(&mut self, notes: &[Note])
        ensures { self.new ≡ record self.old { transfer = with_notes self.old.transfer notes.now } }
    {
        self.transfer = mem::replace(&mut self.transfer, Transfer::Idle).with_notes(notes);
    }

    /// So many messages were sent behind the first so many: their numbers end the queue.
    pub fn queue_sent(&mut self, before: u32, sent: u32) -> Result<(), OutOfMemory>
        requires { before + sent < 4294967295 }
        ensures { OnOk result (self.new ≡ record self.old { queue = self.old.queue ++ numbers_behind before sent }) }
    {
        for number in before + 1..before + sent + 1 {
            self.queue.push_back(number)?;
        }
        Ok(())
    }

    /// How many numbers the queue has.
    pub fn queued(&self) -> usize
        ensures { result ≡ length self.now.queue }
    {
        self.queue.len()
    }
}
