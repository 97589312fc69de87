// The MAC commands of a frame as text for a person, on standard output (docs/RULES.md, "Text"). Each function here writes all
// that it has to say, or ends with the error of the writer.
#![tactic(auto)]

ghost use Rattle.std.specs.Prelude.{◌≤◌, OnOk, length};
ghost use Rattle.std.specs.Io.KnownBytes.{Appends};
ghost use Rattle.commands_text.specs.Text.{status_line};
ghost use Rattle.commands_text.specs.Within.{Within};

use frame::packet_length::{FOPTS_AT, PHY_PAYLOAD_MAX_LEN};
use frame::refusals::{FRAME_TOO_LONG, Refusal};
use mac_commands::in_frame::{CommandLists, command_lists};
use mac_commands::maccommands::{Command, read_step};
use std::io;
use std::io::Write;

fn print_refusal<W: Write>(out: &mut W, refusal: Refusal) -> io::Result<()> {
    writeln!(out, "refused {} at {}", refusal.number, refusal.place)
}

// The one line with a number that may be below 0.
fn print_status<W: Write>(out: &mut W, battery: u8, margin: i8) -> io::Result<()>
    ensures { OnOk result (Appends (W.contents out.old) (W.contents out.new) (status_line battery margin)) }
{
    writeln!(out, "DevStatusAns battery {battery} margin {margin}")
}

// The line of a command.
fn print_command<W: Write>(out: &mut W, command: Command) -> io::Result<()> {
    match command {
        Command::LinkCheckAns { margin, gateways } => {
            writeln!(out, "LinkCheckAns margin {margin} gateways {gateways}")
        }
        Command::LinkADRReq {
            data_rate,
            tx_power,
            mask,
            control,
            transmissions,
        } => writeln!(
            out,
            "LinkADRReq data_rate {data_rate} tx_power {tx_power} mask {mask} control {control} transmissions {transmissions}"
        ),
        Command::DutyCycleReq { max } => writeln!(out, "DutyCycleReq max {max}"),
        Command::RXParamSetupReq {
            rx1_offset,
            rx2_data_rate,
            frequency,
        } => writeln!(
            out,
            "RXParamSetupReq rx1_offset {rx1_offset} rx2_data_rate {rx2_data_rate} frequency {frequency}"
        ),
        Command::DevStatusReq => writeln!(out, "DevStatusReq"),
        Command::NewChannelReq {
            index,
            frequency,
            max_data_rate,
            min_data_rate,
        } => writeln!(
            out,
            "NewChannelReq index {index} frequency {frequency} max_data_rate {max_data_rate} min_data_rate {min_data_rate}"
        ),
        Command::RXTimingSetupReq { delay } => writeln!(out, "RXTimingSetupReq delay {delay}"),
        Command::TxParamSetupReq {
            downlink_dwell,
            uplink_dwell,
            max_eirp,
        } => writeln!(
            out,
            "TxParamSetupReq downlink_dwell {downlink_dwell} uplink_dwell {uplink_dwell} max_eirp {max_eirp}"
        ),
        Command::DlChannelReq { index, frequency } => {
            writeln!(out, "DlChannelReq index {index} frequency {frequency}")
        }
        Command::LinkCheckReq => writeln!(out, "LinkCheckReq"),
        Command::LinkADRAns {
            power,
            data_rate,
            mask,
        } => {
            writeln!(
                out,
                "LinkADRAns power {power} data_rate {data_rate} mask {mask}"
            )
        }
        Command::DutyCycleAns => writeln!(out, "DutyCycleAns"),
        Command::RXParamSetupAns {
            rx1_offset,
            rx2_data_rate,
            channel,
        } => writeln!(
            out,
            "RXParamSetupAns rx1_offset {rx1_offset} rx2_data_rate {rx2_data_rate} channel {channel}"
        ),
        Command::DevStatusAns { battery, margin } => print_status(out, battery, margin),
        Command::NewChannelAns { range, frequency } => {
            writeln!(out, "NewChannelAns range {range} frequency {frequency}")
        }
        Command::RXTimingSetupAns => writeln!(out, "RXTimingSetupAns"),
        Command::TxParamSetupAns => writeln!(out, "TxParamSetupAns"),
        Command::DlChannelAns { uplink, frequency } => {
            writeln!(out, "DlChannelAns uplink {uplink} frequency {frequency}")
        }
    }
}

// The commands of the bytes start..end of a frame, each with its place in the frame, and the fault that ends them.
fn print_list<W: Write>(
    out: &mut W,
    word: &str,
    uplink: bool,
    frame: &[u8],
    start: usize,
    end: usize,
) -> io::Result<()>
    requires { (start ≤ end) × (end ≤ length frame.now) }
{
    let length = end - start;
    writeln!(out, "{word} {length}")?;
    let list = &frame[..end];
    let mut at = start;
    // Nothing is counted here: a step says where the next one begins, or that there is none.
    loop {
        match read_step(uplink, list, at) {
            Ok(Some((command, next))) => {
                print_placed(out, at, command)?;
                at = next;
            }
            Ok(None) => return Ok(()),
            Err(refusal) => return print_refusal(out, refusal),
        }
    }
}

fn print_placed<W: Write>(out: &mut W, at: usize, command: Command) -> io::Result<()> {
    write!(out, "{at} ")?;
    print_command(out, command)
}

// The list on port 0, if there is one.
fn print_payload<W: Write>(
    out: &mut W,
    frame: &[u8],
    lists: CommandLists,
    clear: bool,
) -> io::Result<()>
    requires { Within frame.now lists }
{
    let Some(list) = lists.port_0 else {
        return Ok(());
    };
    if !clear {
        return writeln!(out, "payload encrypted");
    }
    print_list(out, "payload", lists.uplink, frame, list.start, list.end)
}

fn print_data<W: Write>(
    out: &mut W,
    frame: &[u8],
    lists: CommandLists,
    clear: bool,
) -> io::Result<()>
    requires { Within frame.now lists }
{
    let direction = if lists.uplink { "up" } else { "down" };
    writeln!(out, "direction {direction}")?;
    print_list(out, "fopts", lists.uplink, frame, FOPTS_AT, lists.fopts_end)?;
    print_payload(out, frame, lists, clear)
}

// Prints the commands of an input of count bytes. Up to 255 bytes the input is start; a longer one is refused by its count, whatever
// start holds. With clear a payload on port 0 is taken as decrypted. After an error part of the text is written.
pub fn print_commands<W: Write>(
    out: &mut W,
    start: &[u8],
    count: usize,
    clear: bool,
) -> io::Result<()> {
    if count > PHY_PAYLOAD_MAX_LEN {
        return print_refusal(out, Refusal::at(FRAME_TOO_LONG, count));
    }
    match command_lists(start) {
        Ok(lists) => print_data(out, start, lists, clear),
        Err(refusal) => print_refusal(out, refusal),
    }
}
