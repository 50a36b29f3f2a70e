use crate::frame::Frame;

/// How a frame came onto the call stack.
#[derive(Clone, Copy, Debug, PartialEq, Eq)]
pub enum Origin {
    /// It was called plainly.
    Plain,
    /// It is that of the generator with this number.
    Generator(u32, By),
}

/// What resumed a generator.
#[derive(Clone, Copy, Debug, PartialEq, Eq)]
pub enum By {
    /// A `for` loop.
    For,
    /// A call of the builtin with this number.
    Call(u8),
}

/// A frame on the call stack.
#[derive(Debug, Drop)]
pub struct Call {
    /// The frame itself.
    pub frame: Frame,
    /// How it came there.
    pub origin: Origin,
}
