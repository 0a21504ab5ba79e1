//! The label that a name becomes.
ghost use Rattle.std.specs.Prelude.{◌≡◌, ◌<◌, IfSome};
ghost use Rattle.spec_trees.specs.Readers.{big_value};
ghost use Rattle.spec_tracer.specs.Traced.{label_named};
ghost use Rattle.tracer_lines.specs.Piece.{part};
ghost use Rattle.tracer_lines.specs.Label.{word_label, label_of, NameBytes, NameAt};

/// The seven names, each as one number, its bytes high byte first.
#[derive(Clone, Copy)]
pub struct Name;

impl Name {
    pub const JOB: u64 = 0x4A4F42;

    pub const DBL: u64 = 0x44424C;

    pub const HBOX: u64 = 0x48424F58;

    pub const VBOX: u64 = 0x56424F58;

    pub const FED: u64 = 0x464544;

    pub const IPD: u64 = 0x495044;

    pub const DO: u64 = 0x444F;
}

/// The bytes of a name as one number, high byte first.
fn name_word(name: &[u8]) -> u64
    requires { NameBytes name.now }
    ensures { result ≡ big_value name.now }
{
    let mut word = 0;
    for byte in name {
        word = word * 256 + u64::from(*byte);
    }
    word
}

/// The label of the name with this number.
fn word_label(word: u64) -> Option<usize>
    ensures { (result ≡ word_label word) × IfSome result (λ label. label < 8) }
{
    match word {
        Name::JOB => Some(1),
        Name::DBL => Some(2),
        Name::HBOX => Some(3),
        Name::VBOX => Some(4),
        Name::FED => Some(5),
        Name::IPD => Some(6),
        Name::DO => Some(7),
        _ => None,
    }
}

/// The label of the name that stands from `from` to `to`, if it is one of the seven.
pub fn label_at(message: &[u8], from: usize, to: usize) -> Option<usize>
    requires { NameAt message.now from to }
    ensures { (result ≡ label_of (label_named (part from to message.now))) × IfSome result (λ label. label < 8) }
{
    word_label(name_word(&message[from..to]))
}
