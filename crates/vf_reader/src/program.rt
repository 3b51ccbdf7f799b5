//! The commands of a packet.
ghost use Rattle.std.specs.Prelude.{◌≡◌, ◌+◌, ◌<◌, ◌^◌, List, IfErr, IfOk, OnOk, None, Some};
ghost use Rattle.std.specs.List.{list_all};
ghost use Rattle.dvi_commands.specs.Spelling.{DviCommand, value_of_command};
ghost use Rattle.vf_reader.specs.Programs.{AreCommandsOf, IsProgramFault, command_fault, dimensions, is_dimension as is_dimension_of, open_after};

use crate::VfFault;
use crate::limits::{FIX_WORDS, LEAST_FIX_WORD};
use dvi_commands::{Command, Context, read_command};

fn is_dimension(x: i32) -> bool
    ensures { result ≡ is_dimension_of x }
{
    LEAST_FIX_WORD <= x && x < FIX_WORDS
}

// Whether the motion or the sides of the rule are in range.
fn are_dimensions_right(command: &Command) -> bool
    ensures { result ≡ list_all is_dimension_of (dimensions (value_of_command command.now)) }
{
    match *command {
        Command::SetRule { height, width } => is_dimension(height) && is_dimension(width),
        Command::PutRule { height, width } => is_dimension(height) && is_dimension(width),
        Command::Right(by) => is_dimension(by),
        Command::W(by) => is_dimension(by),
        Command::X(by) => is_dimension(by),
        Command::Down(by) => is_dimension(by),
        Command::Y(by) => is_dimension(by),
        Command::Z(by) => is_dimension(by),
        _ => true,
    }
}

// How many pushes are open after a command of a character's packet. `Dimension` where a dimension
// is out of range, `Unbalanced` at a pop where no push is open.
fn depth_after(code: u32, depth: usize, command: &Command) -> Result<usize, VfFault>
    requires { depth + 1 < 2 ^ 64 }
    ensures depth { IfOk result (λ after. after ≡ open_after depth (value_of_command command.now)) }
    ensures right { OnOk result (command_fault code depth (value_of_command command.now) ≡ None) }
    ensures fault { IfErr result (λ f. command_fault code depth (value_of_command command.now)
        ≡ Some f) }
{
    if !are_dimensions_right(command) {
        return Err(VfFault::Dimension(code));
    }
    match *command {
        Command::Push => Ok(depth + 1),
        Command::Pop => depth.checked_sub(1).ok_or(VfFault::Unbalanced(code)),
        _ => Ok(depth),
    }
}

/// Judges the commands of a character's packet, from the left.
pub fn judge_program(code: u32, bytes: &[u8]) -> Result<(), VfFault>
    ensures sound { OnOk result ((commands : List DviCommand) ×
        AreCommandsOf code bytes.now commands) }
    ensures fault { IfErr result (IsProgramFault code bytes.now) }
{
    let mut at = 0;
    let mut depth = 0;
    while at < bytes.len() {
        match read_command(bytes, at, Context::Packet) {
            Ok((command, after)) => {
                depth = depth_after(code, depth, &command)?;
                at = after;
            }
            Err(fault) => return Err(VfFault::Packet(code, fault)),
        }
    }
    if depth > 0 {
        return Err(VfFault::Unbalanced(code));
    }
    Ok(())
}
