// Kinds 9 to 11: the builders. Every byte of the output is 0xA5 ahead of the call, and the output is shown whole.
use crate::arguments::{ROOM, Record};
use crate::output::{put_all, put_count};
use frame_build::creator::data_frame::{DataParts, build_data};
use frame_build::creator::join::{
    JoinAcceptParts, JoinRequestParts, build_join_accept, build_join_request,
};
use std::io;
use std::io::Write;

// A byte's worth of channels.
const CHANNELS: usize = 256;

fn request_parts(record: &mut Record) -> JoinRequestParts {
    let mut app_eui = [0u8; 8];
    let mut dev_eui = [0u8; 8];
    let mut dev_nonce = [0u8; 2];
    record.fill(&mut app_eui);
    record.fill(&mut dev_eui);
    record.fill(&mut dev_nonce);
    JoinRequestParts {
        app_eui,
        dev_eui,
        dev_nonce,
    }
}

pub fn join_request<W: Write>(line: &mut W, record: &mut Record) -> io::Result<()> {
    let parts = request_parts(record);
    let key = record.run();
    let mut room = [0xA5u8; ROOM];
    let out = record.part(&mut room);
    put_count(line, build_join_request(parts, key, out))?;
    put_all(line, out)
}

fn accept_parts(record: &mut Record) -> JoinAcceptParts {
    JoinAcceptParts {
        app_nonce: record.run(),
        net_id: record.run(),
        dev_addr: record.run(),
        dl_settings: record.byte(),
        rx_delay: record.byte(),
        with_c_f_list: record.flag(),
    }
}

pub fn join_accept<W: Write>(line: &mut W, record: &mut Record) -> io::Result<()> {
    let parts = accept_parts(record);
    let n = usize::from(record.byte());
    let mut channels_room = [0u32; CHANNELS];
    let channels = &mut channels_room[..n];
    record.fill_numbers(channels);
    let key = record.run();
    let mut room = [0xA5u8; ROOM];
    let out = record.part(&mut room);
    put_count(line, build_join_accept(parts, channels, key, out))?;
    put_all(line, out)
}

fn port(record: &mut Record) -> Option<u8> {
    let given = record.flag();
    let port = record.byte();
    given.then_some(port)
}

fn data_parts(record: &mut Record) -> DataParts {
    DataParts {
        confirmed: record.flag(),
        uplink: record.flag(),
        dev_addr: record.run(),
        fctrl: record.byte(),
        fcnt: record.number(),
        port: port(record),
    }
}

pub fn data<W: Write>(line: &mut W, record: &mut Record) -> io::Result<()> {
    let parts = data_parts(record);
    let mut commands_room = [0u8; ROOM];
    let commands = record.bytes(&mut commands_room);
    let mut payload_room = [0u8; ROOM];
    let payload = record.bytes(&mut payload_room);
    let nwk_skey = record.run();
    let app_skey = record.run();
    let mut room = [0xA5u8; ROOM];
    let out = record.part(&mut room);
    put_count(
        line,
        build_data(parts, commands, payload, nwk_skey, app_skey, out),
    )?;
    put_all(line, out)
}
