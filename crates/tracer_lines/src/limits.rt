//! The limits of a tracer's message, by name. Every test of one reads it here.
ghost use Rattle.std.specs.Prelude.{◌≡◌};
ghost use Rattle.tracer_lines.specs.Named.{named};

/// In bytes; the last in digits. They belong to the message, so a test says `MessageLimits::VALUE` and never a number.
#[derive(Clone, Copy)]
pub struct MessageLimits;

impl MessageLimits {
    pub const MESSAGE: usize = 4096;

    pub const NAME: usize = 8;

    pub const VALUE: usize = 80;

    pub const WHOLE: usize = 6;
}

/// The limits as values, so that a contract can speak of them all at once.
#[derive(Clone, Copy)]
pub struct MessageNamed {
    pub message: usize,
    pub name: usize,
    pub value: usize,
    pub whole: usize,
}

/// Each constant is the definitions' number of that name: constants are inlined, so only a contract can tie the two.
pub fn all() -> MessageNamed
    ensures { result ≡ named }
{
    MessageNamed {
        message: MessageLimits::MESSAGE,
        name: MessageLimits::NAME,
        value: MessageLimits::VALUE,
        whole: MessageLimits::WHOLE,
    }
}
