// The commands, by the names of LoRaWAN 1.0.2, section 5, and reading them (maccommands.rs of the crate).
ghost use Rattle.std.specs.Prelude.{◌≡◌, true, ◌+◌, ◌≤◌, ◌<◌, length};
ghost use Rattle.base.specs.Bytes.{part};
ghost use Rattle.mac_commands.specs.Layout.{row, fits, fields_of, low_first};
ghost use Rattle.mac_commands.specs.Commands.{margin_of, command_of, raw_at, raw_step_at, step_at};

use crate::table::{FIELDS_MAX, is_known, row_at, row_of};
use frame::refusals::{COMMAND_CUT_SHORT, Refusal, UNKNOWN_COMMAND};

// A command with its fields. The first nine go down, the last nine up, both by their identifiers 02 to 0A. Frequencies are in
// units of 100 Hz.
#[derive(Clone, Copy)]
pub enum Command {
    LinkCheckAns {
        margin: u8,
        gateways: u8,
    },
    LinkADRReq {
        data_rate: u8,
        tx_power: u8,
        mask: u16,
        control: u8,
        transmissions: u8,
    },
    DutyCycleReq {
        max: u8,
    },
    RXParamSetupReq {
        rx1_offset: u8,
        rx2_data_rate: u8,
        frequency: u32,
    },
    DevStatusReq,
    NewChannelReq {
        index: u8,
        frequency: u32,
        max_data_rate: u8,
        min_data_rate: u8,
    },
    RXTimingSetupReq {
        delay: u8,
    },
    TxParamSetupReq {
        downlink_dwell: u8,
        uplink_dwell: u8,
        max_eirp: u8,
    },
    DlChannelReq {
        index: u8,
        frequency: u32,
    },
    LinkCheckReq,
    LinkADRAns {
        power: u8,
        data_rate: u8,
        mask: u8,
    },
    DutyCycleAns,
    RXParamSetupAns {
        rx1_offset: u8,
        rx2_data_rate: u8,
        channel: u8,
    },
    DevStatusAns {
        battery: u8,
        margin: i8,
    },
    NewChannelAns {
        range: u8,
        frequency: u8,
    },
    RXTimingSetupAns,
    TxParamSetupAns,
    DlChannelAns {
        uplink: u8,
        frequency: u8,
    },
}

// A command as it stands in the bytes: its row in the table and the number behind its identifier; and the place of the next one.
#[derive(Clone, Copy)]
pub struct RawCommand {
    pub row: usize,
    pub number: u64,
    pub next: usize,
}

// The margin of its six bits, in two's complement (5.5); -1 for a number that has more of them.
pub fn margin_of(x: u32) -> i8
    ensures { result ≡ margin_of x }
{
    match x {
        0..=31 => x as i8,
        32..=63 => x as i8 - 64,
        _ => -1,
    }
}

// The values of a row's fields, of the number behind its identifier; 0 for a field that it lacks, as for one of no row. Dividing by 1
// names a field's place as the others do. The fields are written out, since a walk over those of `row_at` takes half as many steps again.
#[tactic(auto, unfolding(crate::specs::Layout::row, crate::specs::Layout::downs, crate::specs::Layout::ups, crate::specs::Layout::place_in_row, crate::specs::Layout::width_at))]
pub fn values_of(r: usize, v: u64) -> [u32; FIELDS_MAX]
    ensures { result ≡ fields_of (row r) v }
{
    match r {
        0 => [(v / 1 % 256) as u32, (v / 256 % 256) as u32, 0, 0, 0],
        1 => [
            (v / 16 % 16) as u32,
            (v / 1 % 16) as u32,
            (v / 256 % 65536) as u32,
            (v / 268435456 % 8) as u32,
            (v / 16777216 % 16) as u32,
        ],
        2 => [(v / 1 % 16) as u32, 0, 0, 0, 0],
        3 => [
            (v / 16 % 8) as u32,
            (v / 1 % 16) as u32,
            (v / 256 % 16777216) as u32,
            0,
            0,
        ],
        4 => [0, 0, 0, 0, 0],
        5 => [
            (v / 1 % 256) as u32,
            (v / 256 % 16777216) as u32,
            (v / 68719476736 % 16) as u32,
            (v / 4294967296 % 16) as u32,
            0,
        ],
        6 => [(v / 1 % 16) as u32, 0, 0, 0, 0],
        7 => [
            (v / 32 % 2) as u32,
            (v / 16 % 2) as u32,
            (v / 1 % 16) as u32,
            0,
            0,
        ],
        8 => [(v / 1 % 256) as u32, (v / 256 % 16777216) as u32, 0, 0, 0],
        9 => [0, 0, 0, 0, 0],
        10 => [
            (v / 4 % 2) as u32,
            (v / 2 % 2) as u32,
            (v / 1 % 2) as u32,
            0,
            0,
        ],
        11 => [0, 0, 0, 0, 0],
        12 => [
            (v / 4 % 2) as u32,
            (v / 2 % 2) as u32,
            (v / 1 % 2) as u32,
            0,
            0,
        ],
        13 => [(v / 1 % 256) as u32, (v / 256 % 64) as u32, 0, 0, 0],
        14 => [(v / 2 % 2) as u32, (v / 1 % 2) as u32, 0, 0, 0],
        15 => [0, 0, 0, 0, 0],
        16 => [0, 0, 0, 0, 0],
        17 => [(v / 2 % 2) as u32, (v / 1 % 2) as u32, 0, 0, 0],
        _ => [0, 0, 0, 0, 0],
    }
}

// The command of a row and of the values of its fields. It is one table, and so is as long as there are commands.
#[tactic(auto, unfolding(crate::specs::Commands::commands, crate::specs::Commands::command_of, crate::specs::Layout::row, crate::specs::Layout::downs, crate::specs::Layout::ups, crate::specs::Layout::width_at))]
fn command_of(r: usize, x: [u32; FIELDS_MAX]) -> Command
    requires { fits (row r) x ≡ true }
    ensures { result ≡ command_of r x }
{
    match r {
        0 => Command::LinkCheckAns {
            margin: x[0] as u8,
            gateways: x[1] as u8,
        },
        1 => Command::LinkADRReq {
            data_rate: x[0] as u8,
            tx_power: x[1] as u8,
            mask: x[2] as u16,
            control: x[3] as u8,
            transmissions: x[4] as u8,
        },
        2 => Command::DutyCycleReq { max: x[0] as u8 },
        3 => Command::RXParamSetupReq {
            rx1_offset: x[0] as u8,
            rx2_data_rate: x[1] as u8,
            frequency: x[2],
        },
        4 => Command::DevStatusReq,
        5 => Command::NewChannelReq {
            index: x[0] as u8,
            frequency: x[1],
            max_data_rate: x[2] as u8,
            min_data_rate: x[3] as u8,
        },
        6 => Command::RXTimingSetupReq { delay: x[0] as u8 },
        7 => Command::TxParamSetupReq {
            downlink_dwell: x[0] as u8,
            uplink_dwell: x[1] as u8,
            max_eirp: x[2] as u8,
        },
        8 => Command::DlChannelReq {
            index: x[0] as u8,
            frequency: x[1],
        },
        9 => Command::LinkCheckReq,
        10 => Command::LinkADRAns {
            power: x[0] as u8,
            data_rate: x[1] as u8,
            mask: x[2] as u8,
        },
        11 => Command::DutyCycleAns,
        12 => Command::RXParamSetupAns {
            rx1_offset: x[0] as u8,
            rx2_data_rate: x[1] as u8,
            channel: x[2] as u8,
        },
        13 => Command::DevStatusAns {
            battery: x[0] as u8,
            margin: margin_of(x[1]),
        },
        14 => Command::NewChannelAns {
            range: x[0] as u8,
            frequency: x[1] as u8,
        },
        15 => Command::RXTimingSetupAns,
        16 => Command::TxParamSetupAns,
        17 => Command::DlChannelAns {
            uplink: x[0] as u8,
            frequency: x[1] as u8,
        },
        _ => Command::LinkCheckReq,
    }
}

// The number of `n` bytes from `from` on, low byte first. It is written out, since the steps of a loop would cost more than its bytes.
fn number_at(bytes: &[u8], from: usize, n: usize) -> u64
    requires { (n ≤ 5) × (from + n ≤ length bytes.now) }
    ensures { result ≡ low_first (part from n bytes.now) }
{
    if n == 0 {
        return 0;
    }
    let one = bytes[from] as u64;
    if n == 1 {
        return one;
    }
    let two = one + 256 * (bytes[from + 1] as u64);
    if n == 2 {
        return two;
    }
    let three = two + 65536 * (bytes[from + 2] as u64);
    if n == 3 {
        return three;
    }
    let four = three + 16777216 * (bytes[from + 3] as u64);
    if n == 4 {
        return four;
    }
    four + 4294967296 * (bytes[from + 4] as u64)
}

#[tactic(auto, unfolding(crate::specs::Commands::raw_at))]
fn read_row(bytes: &[u8], at: usize, r: usize) -> Result<Option<RawCommand>, Refusal>
    requires { (r < 18) × (at < length bytes.now) }
    ensures { result ≡ raw_at r bytes.now at }
{
    let n = row_at(r).0;
    if bytes.len() - at <= n {
        return Err(Refusal::at(COMMAND_CUT_SHORT, at));
    }
    let v = number_at(bytes, at + 1, n);
    Ok(Some(RawCommand {
        row: r,
        number: v,
        next: at + 1 + n,
    }))
}

// Finds the command at a place of a list that goes up or down. At or past the end of the list there is none.
#[tactic(auto, unfolding(crate::specs::Commands::raw_step_at))]
pub fn read_raw(uplink: bool, bytes: &[u8], at: usize) -> Result<Option<RawCommand>, Refusal>
    ensures { result ≡ raw_step_at uplink bytes.now at }
{
    if bytes.len() <= at {
        return Ok(None);
    }
    let id = bytes[at];
    if !is_known(id) {
        return Err(Refusal::at(UNKNOWN_COMMAND, at));
    }
    read_row(bytes, at, row_of(uplink, id))
}

// Reads the command there; answers it with the place of the next one.
#[tactic(auto, unfolding(crate::specs::Commands::step_at))]
pub fn read_step(uplink: bool, bytes: &[u8], at: usize) -> Result<Option<(Command, usize)>, Refusal>
    ensures { result ≡ step_at uplink bytes.now at }
{
    let Some(raw) = read_raw(uplink, bytes, at)? else {
        return Ok(None);
    };
    let values = values_of(raw.row, raw.number);
    Ok(Some((command_of(raw.row, values), raw.next)))
}
