//! What a thread passes before each of its calls.

use std::sync::Wait;

/// A thread passes before each of its calls, which are counted from 1. It may be made to wait there.
pub trait Gate {
    fn pass<W: Wait>(&self, rt: &W, thread: u8, call: u32);
}

/// Lets every thread pass.
pub struct OpenGate;

impl Gate for OpenGate {
    fn pass<W: Wait>(&self, _rt: &W, _thread: u8, _call: u32) {}
}
