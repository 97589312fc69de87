// MAC commands.
ghost use Rattle.std.specs.Prelude.{◌≡◌, eqb, length};
ghost use Rattle.mac_commands.specs.Commands.{step_at, fields_written, fields_in};
ghost use Rattle.command_numbers.specs.Numbers.{id_given, values_given};
ghost use Rattle.frame_c.specs.CAnswers.{value_answer_of};
ghost use Rattle.frame_c.specs.CCommands.{step_answer, step_into};

#[unsafe(no_mangle)]
pub extern "C" fn zinovoky_read_command(
    uplink: u8,
    bytes: &[u8],
    offset: usize,
    command: &mut [i64; 6],
) -> u64
    ensures value { result ≡ step_answer (step_at (eqb uplink 1) bytes.now offset) }
    ensures command_after { command.new ≡ step_into (step_at (eqb uplink 1) bytes.now offset) command.old }
{
    frame_c::commands::zinovoky_read_command(uplink, bytes, offset, command)
}

#[unsafe(no_mangle)]
pub extern "C" fn zinovoky_write_command(
    uplink: u8,
    command: &[i64; 6],
    out: &mut [u8],
    offset: usize,
) -> u64
    ensures value { result
        ≡ value_answer_of
        (fields_written (eqb uplink 1) (id_given command.now) (values_given (eqb uplink 1) command.now)
        (length out.old) offset) }
    ensures out_after { out.new
        ≡ fields_in (eqb uplink 1) (id_given command.now) (values_given (eqb uplink 1) command.now)
        out.old offset }
{
    frame_c::commands::zinovoky_write_command(uplink, command, out, offset)
}
