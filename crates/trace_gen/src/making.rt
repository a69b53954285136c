//! The calls of a trace, one after another.
ghost use Rattle.std.specs.Prelude.{◌≡◌, ◌+◌, ◌<◌, ◌≤◌, ◌-◌, ◌^◌, OnOk, IfOk, length};
ghost use Rattle.trace_gen.specs.Draws.{drawn, next_number};
ghost use Rattle.trace_gen.specs.Generated.{after_call, after_free, after_malloc, is_free, made_of, size_of};

use crate::draws::{drawn, next_number};
use crate::lines::{add_free, add_malloc};
use std::alloc::AllocError;

/// What there is of a trace: the number that was drawn last, the names whose objects are held, the number of the next
/// name, and the text.
#[derive(Drop)]
pub struct Making {
    pub number: u64,
    pub live: Vec<u32>,
    pub next: u32,
    pub text: Vec<u8>,
}

/// The size that two draws make.
fn size_of(chance: u64, size: u64) -> u64
    ensures { result ≡ size_of chance size }
{
    if chance % 16 == 0 {
        8129 + size % 60000
    } else {
        size % 2000
    }
}

/// Whether a draw says that the call is a free.
fn is_free(draw: u64, live: &[u32]) -> bool
    ensures { result ≡ is_free draw live.now }
{
    !live.is_empty() && draw % 8 < 4
}

impl Making {
    /// Draws once.
    fn draw(&mut self) -> u64
        ensures number { self.new ≡ record self.old { number = next_number self.old.number } }
        ensures drawn { result ≡ drawn (next_number self.old.number) }
    {
        self.number = next_number(self.number);
        drawn(self.number)
    }

    /// A malloc by this thread.
    fn malloc(&mut self, thread: u64) -> Result<(), AllocError>
        requires { self.old.next < 2 ^ 32 - 1 }
        ensures made { OnOk result (made_of self.new ≡ after_malloc thread (made_of self.old)) }
        ensures next { OnOk result (self.new.next ≡ self.old.next + 1) }
    {
        let chance = self.draw();
        let size = self.draw();
        add_malloc(&mut self.text, thread, self.next, size_of(chance, size))?;
        self.live.push(self.next)?;
        self.next += 1;
        Ok(())
    }

    /// A free by this thread.
    fn free(&mut self, thread: u64) -> Result<(), AllocError>
        requires { 0 < length self.old.live.items }
        ensures made { OnOk result (made_of self.new ≡ after_free thread (made_of self.old)) }
        ensures next { self.new.next ≡ self.old.next }
    {
        let at = (self.draw() % self.live.len() as u64) as usize;
        let name = self.live.remove(at);
        add_free(&mut self.text, thread, name)
    }

    /// One call, where there are so many threads.
    #[tactic(auto, unfolding(crate::specs::Generated::after_call))]
    pub fn call(&mut self, threads: u8) -> Result<(), AllocError>
        requires some { 0 < threads }
        requires room { self.old.next < 2 ^ 32 - 1 }
        ensures made { OnOk result (made_of self.new ≡ after_call threads (made_of self.old)) }
        ensures next { OnOk result (self.new.next ≤ self.old.next + 1) }
    {
        let thread = self.draw() % u64::from(threads);
        let draw = self.draw();
        if is_free(draw, self.live.as_slice()) {
            self.free(thread)
        } else {
            self.malloc(thread)
        }
    }
}
