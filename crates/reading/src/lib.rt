// Command bytes: the next command of a stream, or why it cannot be read. What the bytes mean is said in specs/, from document 01 alone, with the
// numbers of `endian` and `signed`; what a command does is not known here.
#![tactic(auto)]

ghost use Rattle.std.specs.Prelude.{◌≡◌, ok_or};
ghost use Rattle.history.specs.declared.Refusal.TheVariants.{UnknownKind};
ghost use Rattle.reading.specs.Kinds.{kind_of, argument_bytes, command_of};
ghost use Rattle.reading.specs.Outcomes.{read_as, reading_of};

use history::{Command, Position, Refusal};

// The kinds of command that the table of command bytes lists.
#[derive(Clone, Copy)]
enum Kind {
    Value,
    Mark,
    Query,
    Close,
}

// A command that is read, and its length in bytes, the kind byte with them.
#[derive(Clone, Copy)]
pub struct Next {
    pub command: Command,
    pub length: usize,
}

// The kind that a byte stands for, or 2.
impl TryFrom<u8> for Kind {
    type Error = Refusal;

    ghost try_from_gives = { λ byte kind. kind ≡ ok_or (kind_of byte) UnknownKind };

    fn try_from(byte: u8) -> Result<Kind, Refusal> {
        match byte {
            1 => Ok(Kind::Value),
            2 => Ok(Kind::Mark),
            3 => Ok(Kind::Query),
            4 => Ok(Kind::Close),
            _ => Err(Refusal::UnknownKind),
        }
    }
}

fn argument_bytes(kind: Kind) -> usize
    ensures { result ≡ argument_bytes kind }
{
    match kind {
        Kind::Value => 4,
        Kind::Mark => 0,
        Kind::Query => 4,
        Kind::Close => 4,
    }
}

// A match is plainest: what a command carries differs by its kind.
fn command_of(kind: Kind, argument: u32) -> Command
    ensures { result ≡ command_of kind argument }
{
    match kind {
        Kind::Value => Command::Value(signed::signed_of(argument)),
        Kind::Mark => Command::Mark,
        Kind::Query => Command::Query(Position(argument)),
        Kind::Close => Command::Close(Position(argument)),
    }
}

// The next command of the rest of a stream, which starts wherever the last command ended, if anything is left, or why it cannot be read.
pub fn read(rest: &[u8]) -> Result<Option<Next>, Refusal>
    ensures { read_as result ≡ reading_of rest.now }
{
    let Some((first, behind)) = rest.split_first() else {
        return Ok(None);
    };
    let kind = Kind::try_from(*first)?;
    let width = argument_bytes(kind);
    if behind.len() < width {
        return Err(Refusal::ArgumentCutOff);
    }
    let argument = endian::little_endian(&behind[..width]);
    Ok(Some(Next {
        command: command_of(kind, argument),
        length: 1 + width,
    }))
}
