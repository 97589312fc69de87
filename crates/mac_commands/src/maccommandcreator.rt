// Writing commands (maccommandcreator.rs of the crate).
ghost use Rattle.std.specs.Prelude.{◌≡◌, ◌+◌, ◌*◌, ◌^◌, ◌≤◌, ◌<◌, leb, length};
ghost use Rattle.base.specs.Storing.{Put};
ghost use Rattle.mac_commands.specs.Layout.{row, place_in_row, width_at, bytes_of};
ghost use Rattle.mac_commands.specs.Commands.{raw_of, fields_as, packed_of, put_as, put_in, written_as, written_in, command_written, command_in, fields_written, fields_in};

use crate::maccommands::Command;
use crate::table::{FIELDS_MAX, is_known, power, row_at, row_of};
use frame::refusals::{BUFFER_TOO_SHORT, Refusal, UNKNOWN_COMMAND, VALUE_OUT_OF_RANGE};

// A command as numbers: its row in the table (the nine that go down by their identifiers, then the nine that go up) and its
// values in the order of its fields, with zeros behind them.
#[derive(Clone, Copy)]
pub struct Fields {
    pub row: usize,
    pub values: [u32; FIELDS_MAX],
}

// The margin in six bits; 64, which they cannot hold, for one outside -32 to 31 (5.5).
pub fn raw_of(m: i64) -> u32
    ensures { result ≡ raw_of m }
{
    match m {
        -32..=-1 => (m + 64) as u32,
        0..=31 => m as u32,
        _ => 64,
    }
}

// A command as its row and its values. It is one table, and so is as long as there are commands.
#[tactic(auto, unfolding(crate::specs::Commands::fields_as))]
pub fn fields_of(command: Command) -> Fields
    ensures { result ≡ fields_as command }
{
    match command {
        Command::LinkCheckAns { margin, gateways } => Fields {
            row: 0,
            values: [margin as u32, gateways as u32, 0, 0, 0],
        },
        Command::LinkADRReq {
            data_rate,
            tx_power,
            mask,
            control,
            transmissions,
        } => Fields {
            row: 1,
            values: [
                data_rate as u32,
                tx_power as u32,
                mask as u32,
                control as u32,
                transmissions as u32,
            ],
        },
        Command::DutyCycleReq { max } => Fields {
            row: 2,
            values: [max as u32, 0, 0, 0, 0],
        },
        Command::RXParamSetupReq {
            rx1_offset,
            rx2_data_rate,
            frequency,
        } => Fields {
            row: 3,
            values: [rx1_offset as u32, rx2_data_rate as u32, frequency, 0, 0],
        },
        Command::DevStatusReq => Fields {
            row: 4,
            values: [0, 0, 0, 0, 0],
        },
        Command::NewChannelReq {
            index,
            frequency,
            max_data_rate,
            min_data_rate,
        } => Fields {
            row: 5,
            values: [
                index as u32,
                frequency,
                max_data_rate as u32,
                min_data_rate as u32,
                0,
            ],
        },
        Command::RXTimingSetupReq { delay } => Fields {
            row: 6,
            values: [delay as u32, 0, 0, 0, 0],
        },
        Command::TxParamSetupReq {
            downlink_dwell,
            uplink_dwell,
            max_eirp,
        } => Fields {
            row: 7,
            values: [
                downlink_dwell as u32,
                uplink_dwell as u32,
                max_eirp as u32,
                0,
                0,
            ],
        },
        Command::DlChannelReq { index, frequency } => Fields {
            row: 8,
            values: [index as u32, frequency, 0, 0, 0],
        },
        Command::LinkCheckReq => Fields {
            row: 9,
            values: [0, 0, 0, 0, 0],
        },
        Command::LinkADRAns {
            power,
            data_rate,
            mask,
        } => Fields {
            row: 10,
            values: [power as u32, data_rate as u32, mask as u32, 0, 0],
        },
        Command::DutyCycleAns => Fields {
            row: 11,
            values: [0, 0, 0, 0, 0],
        },
        Command::RXParamSetupAns {
            rx1_offset,
            rx2_data_rate,
            channel,
        } => Fields {
            row: 12,
            values: [
                rx1_offset as u32,
                rx2_data_rate as u32,
                channel as u32,
                0,
                0,
            ],
        },
        Command::DevStatusAns { battery, margin } => Fields {
            row: 13,
            values: [battery as u32, raw_of(margin as i64), 0, 0, 0],
        },
        Command::NewChannelAns { range, frequency } => Fields {
            row: 14,
            values: [range as u32, frequency as u32, 0, 0, 0],
        },
        Command::RXTimingSetupAns => Fields {
            row: 15,
            values: [0, 0, 0, 0, 0],
        },
        Command::TxParamSetupAns => Fields {
            row: 16,
            values: [0, 0, 0, 0, 0],
        },
        Command::DlChannelAns { uplink, frequency } => Fields {
            row: 17,
            values: [uplink as u32, frequency as u32, 0, 0, 0],
        },
    }
}

// The number behind an identifier, if every value fits its field.
fn pack(r: usize, x: [u32; FIELDS_MAX]) -> Option<u64>
    requires { r < 18 }
    ensures { result ≡ packed_of r x }
{
    let mut v: u64 = 0;
    for (k, &(place, width)) in row_at(r).1.iter().enumerate() {
        let y = x[k] as u64;
        if power(width) <= y {
            return None;
        }
        v += y * power(place);
    }
    Some(v)
}

// Stores the `n` low bytes of a number from `from` on, low byte first; answers the place past them. They are few, and a copy out of
// all eight takes more steps.
fn put_number(out: &mut [u8], from: usize, n: usize, v: u64) -> usize
    requires { from + n ≤ length out.old }
    ensures { Put out.old from (bytes_of n v) result out.new }
{
    let mut rest = v;
    for place in from..from + n {
        out[place] = (rest % 256) as u8;
        rest /= 256;
    }
    from + n
}

// The identifier of a row and the number behind it, where there is room for them. A refusal of writing has no place: nothing is
// read here that could be bad at one.
#[tactic(auto, unfolding(crate::specs::Commands::put_as, crate::specs::Commands::put_in))]
fn put_row(out: &mut [u8], at: usize, r: usize, v: u64) -> Result<usize, Refusal>
    requires { r < 18 }
    ensures value { result ≡ put_as r (length out.old) at }
    ensures out_after { out.new ≡ put_in r v out.old at }
{
    let n = row_at(r).0;
    if out.len() <= at {
        return Err(Refusal::of(BUFFER_TOO_SHORT));
    }
    if out.len() - at <= n {
        return Err(Refusal::of(BUFFER_TOO_SHORT));
    }
    out[at] = (2 + r % 9) as u8;
    Ok(put_number(out, at + 1, n, v))
}

#[tactic(auto, unfolding(crate::specs::Commands::packed_of, crate::specs::Commands::written_as, crate::specs::Commands::written_in))]
fn write_row(
    r: usize,
    values: [u32; FIELDS_MAX],
    out: &mut [u8],
    at: usize,
) -> Result<usize, Refusal>
    requires { r < 18 }
    ensures value { result ≡ written_as r values (length out.old) at }
    ensures out_after { out.new ≡ written_in r values out.old at }
{
    let Some(v) = pack(r, values) else {
        return Err(Refusal::of(VALUE_OUT_OF_RANGE));
    };
    put_row(out, at, r, v)
}

// Writes a command from a place on, and answers the place past it. A refusal writes nothing.
pub fn write_command(command: Command, out: &mut [u8], at: usize) -> Result<usize, Refusal>
    ensures value { result ≡ command_written command (length out.old) at }
    ensures out_after { out.new ≡ command_in command out.old at }
{
    let fields = fields_of(command);
    let values = fields.values;
    write_row(fields.row, values, out, at)
}

// Writes the command with this direction and identifier, whose fields have these values; a value past its last field is not
// looked at. A margin is given by its six bits.
#[tactic(auto, unfolding(crate::specs::Commands::fields_written, crate::specs::Commands::fields_in))]
pub fn write_fields(
    uplink: bool,
    id: u8,
    values: [u32; FIELDS_MAX],
    out: &mut [u8],
    at: usize,
) -> Result<usize, Refusal>
    ensures value { result ≡ fields_written uplink id values (length out.old) at }
    ensures out_after { out.new ≡ fields_in uplink id values out.old at }
{
    if !is_known(id) {
        return Err(Refusal::of(UNKNOWN_COMMAND));
    }
    write_row(row_of(uplink, id), values, out, at)
}
