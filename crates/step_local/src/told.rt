//! What follows from what a step found.

ghost use Rattle.std.specs.Prelude.{◌≡◌};
ghost use Rattle.step_local.specs.Learn.{learn};

use crate::frames::{At, Local};
use pool_types::Turn;
use pool_words::Seen;
use word_codes::link_of;

impl Local {
    /// Takes what the next step found, and tells what the turn came to. A `Seen` without a word is read as 0. Where no
    /// call is begun, nothing changes.
    pub fn told(&mut self, seen: Seen) -> Turn
        ensures { (self.new, result) ≡ learn self.old seen }
    {
        let found = seen.word();
        match self.at {
            At::Idle => Turn::Idle,
            At::Ready(answer) => self.answers(answer),
            At::Look(at) => self.told_look(at, found),
            At::End(at) => self.told_end(at, found),
            At::Post(at) => self.told_post(at, found),
            At::Mail(at) => self.told_mail(at, found),
            At::Mailbox(at) => self.told_box(at, found),
            At::Adopt(at) => self.told_adopt(at, found),
            At::Join { slab, rest, at } => self.told_join(slab, rest, at, found),
            At::Spare(at) => self.told_spare(at, found),
            At::Leave { slab, at } => self.told_leave(slab, at, found),
            At::Locate(at) => self.told_locate(at, found),
            At::Small(at) => self.told_small(at, found),
            At::Large(at) => self.told_large(at, found),
            At::Get(at) => self.told_get(at, found),
            At::Undo { cause, at } => self.told_undo(cause, at, found),
            At::Keep(at) => self.told_keep(at, found),
            At::Sweep(at) => self.told_sweep(at, found),
            At::Scan(at) => self.told_scan(at, found),
            At::Cut(at) => self.told_cut(at, found),
            At::Queue => self.told_queue(link_of(found)),
            At::Whole(at) => self.told_whole(at, found),
            At::Drain(at) => self.told_drain(at, found),
            At::Put(at) => self.told_put(at, found),
            At::Office { job, at } => self.told_office(job, at, seen),
            At::Reset(at) => self.told_reset(at, found),
        }
    }
}
