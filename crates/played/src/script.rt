// Scripts: steps as words, as `V5 M V16 Q1 13*8`. A command is a letter and its argument: a number, `+` for the greatest value or position, or of a Value also `-` for the least. `13*8` is 13 rounds
// of a Value of 8, a Mark and a Close of that position.
use history::{Command, Position};
use std::str::FromStr;

pub enum Step {
    Call(Command),
    Rounds { turns: u32, value: i32 },
}

fn value_of(argument: &str) -> Option<i32> {
    match argument {
        "-" => Some(i32::MIN),
        "+" => Some(i32::MAX),
        _ => argument.parse().ok(),
    }
}

fn position_of(argument: &str) -> Option<Position> {
    match argument {
        "+" => Some(Position(u32::MAX)),
        _ => argument.parse().ok().map(Position),
    }
}

// The command that a word says, if it says one. A function, as the two above, and no `FromStr`: the type is another crate's.
fn command_of(word: &str) -> Option<Command> {
    if word == "M" {
        return Some(Command::Mark);
    }
    if let Some(argument) = word.strip_prefix('V') {
        return value_of(argument).map(Command::Value);
    }
    if let Some(argument) = word.strip_prefix('Q') {
        return position_of(argument).map(Command::Query);
    }
    let argument = word.strip_prefix('C')?;
    position_of(argument).map(Command::Close)
}

// That a word says no step.
#[derive(Drop)]
pub struct NoStep;

impl FromStr for Step {
    type Err = NoStep;

    fn from_str(word: &str) -> Result<Step, NoStep> {
        let Some((turns, value)) = word.split_once('*') else {
            return command_of(word).map(Step::Call).ok_or(NoStep);
        };
        let turns = turns.parse().or(Err(NoStep))?;
        let value = value.parse().or(Err(NoStep))?;
        Ok(Step::Rounds { turns, value })
    }
}
