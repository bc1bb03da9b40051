// The kinds of a job file's record: which there are, what the byte behind each must be, and how long a record is. docs/RULES.md, 'Job file and program'.
#![tactic(auto)]

ghost use Rattle.std.specs.Prelude.{◌≡◌};
ghost use Rattle.run.specs.Answers.{verdict_of};
ghost use Rattle.kinds.specs.Rule.{second_verdict, size_of, shape_of};
ghost use Rattle.kinds.specs.Kinds.{byte_of, Names, told};

use dpch::format_of;
use run::{Reason, Refusal, require};

// The channel that a record is of, by the record's first byte.
#[derive(Clone, Copy, PartialEq, Eq)]
pub enum Kind {
    Aich = 1,
    Pich = 2,
    Dpch = 3,
}

// A byte that stands for no kind.
#[derive(Clone, Copy)]
pub struct UnknownKind(pub u8);

impl TryFrom<u8> for Kind {
    type Error = UnknownKind;

    ghost try_from_gives = { Names };

    fn try_from(byte: u8) -> Result<Kind, UnknownKind> {
        match byte {
            1 => Ok(Kind::Aich),
            2 => Ok(Kind::Pich),
            3 => Ok(Kind::Dpch),
            _ => Err(UnknownKind(byte)),
        }
    }
}

// What a record's first two bytes say: whether there is such a kind, what is wrong with the byte behind it, and how many bytes it has.
#[derive(Clone, Copy)]
pub struct Shape {
    pub known: bool,
    pub second: Result<(), Refusal>,
    pub size: usize,
}

// What the byte behind the kind must be: Np of a PICH record, the format of a DPCH record.
fn check_second(kind: Kind, second: u8) -> Result<(), Refusal>
    ensures { verdict_of result ≡ second_verdict (byte_of kind) second }
{
    match kind {
        Kind::Aich => Ok(()),
        Kind::Pich => require(pich::is_np(second as usize), Reason::Np, 0),
        Kind::Dpch => require(second <= 16, Reason::Format, 0),
    }
}

// The bytes of a record, its kind among them.
fn size_of(kind: Kind, second: u8) -> usize
    ensures { result ≡ size_of (byte_of kind) second }
{
    match kind {
        Kind::Aich => 17,
        Kind::Pich => 2 + second as usize,
        Kind::Dpch => {
            let f = format_of(second as usize);
            4 + f.tfci + (f.data1 + f.data2)
        }
    }
}

// What a record's kind and the byte behind it say of it; a byte that is no kind is taken for a DPCH record's.
pub fn shape_of(kind: u8, second: u8) -> Shape
    ensures { told result ≡ shape_of kind second }
{
    let named = Kind::try_from(kind);
    let kind = named.unwrap_or(Kind::Dpch);
    Shape {
        known: named.is_ok(),
        second: check_second(kind, second),
        size: size_of(kind, second),
    }
}
