// MAC commands.
ghost use Rattle.std.specs.Prelude.{◌≡◌, eqb, length};
ghost use Rattle.mac_commands.specs.Commands.{step_at, fields_written, fields_in};
ghost use Rattle.command_numbers.specs.Numbers.{id_given, values_given};
ghost use Rattle.frame_c.specs.CAnswers.{value_answer_of};
ghost use Rattle.frame_c.specs.CCommands.{step_next, step_answer, step_into};

use crate::conversions::answers::value_answer;
use command_numbers::{numbers_of, write_numbers};
use frame::refusals::Refusal;
use mac_commands::maccommands::read_raw;

// The place of the next command, 0 at the end of the list. The six numbers of a command that was found are stored; at the end
// and by a refusal nothing is.
fn read_numbers(
    uplink: bool,
    bytes: &[u8],
    offset: usize,
    command: &mut [i64; 6],
) -> Result<usize, Refusal>
    ensures value { result ≡ step_next (step_at uplink bytes.now offset) }
    ensures command_after { command.new ≡ step_into (step_at uplink bytes.now offset) command.old }
{
    let step = read_raw(uplink, bytes, offset)?;
    match step {
        Some(found) => {
            *command = numbers_of(found.row, found.number);
            Ok(found.next)
        }
        None => Ok(0),
    }
}

pub fn zinovoky_read_command(uplink: u8, bytes: &[u8], offset: usize, command: &mut [i64; 6]) -> u64
    ensures value { result ≡ step_answer (step_at (eqb uplink 1) bytes.now offset) }
    ensures command_after { command.new ≡ step_into (step_at (eqb uplink 1) bytes.now offset) command.old }
{
    let next = read_numbers(uplink == 1, bytes, offset, command);
    value_answer(next)
}

pub fn zinovoky_write_command(uplink: u8, command: &[i64; 6], out: &mut [u8], offset: usize) -> u64
    ensures value { result
        ≡ value_answer_of
        (fields_written (eqb uplink 1) (id_given command.now) (values_given (eqb uplink 1) command.now)
        (length out.old) offset) }
    ensures out_after { out.new
        ≡ fields_in (eqb uplink 1) (id_given command.now) (values_given (eqb uplink 1) command.now)
        out.old offset }
{
    let numbers = *command;
    let written = write_numbers(uplink == 1, numbers, out, offset);
    value_answer(written)
}
