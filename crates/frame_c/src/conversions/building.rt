// The parts of a frame from numbers and bytes.
ghost use Rattle.std.specs.Prelude.{◌≡◌};
ghost use Rattle.frame_c.specs.CGiven.{accept_parts_of, port_given_by, data_parts_of};

use frame_bits::fctrl::{is_confirmed, is_uplink};
use frame_build::creator::data_frame::DataParts;
use frame_build::creator::join::JoinAcceptParts;

// The fixed fields of a join-accept, in frame order.
pub(crate) fn accept_parts(f: [u8; 12], with_list: bool) -> JoinAcceptParts
    ensures { result ≡ accept_parts_of f with_list }
{
    let app_nonce = [f[0], f[1], f[2]];
    let net_id = [f[3], f[4], f[5]];
    let dev_addr = [f[6], f[7], f[8], f[9]];
    JoinAcceptParts {
        app_nonce,
        net_id,
        dev_addr,
        dl_settings: f[10],
        rx_delay: f[11],
        with_c_f_list: with_list,
    }
}

// A number above 255 says that there is no port.
fn port_of(port: u16) -> Option<u8>
    ensures { result ≡ port_given_by port }
{
    if port < 256 {
        return Some(port as u8);
    }
    None
}

pub(crate) fn data_parts(
    kind: u8,
    dev_addr: [u8; 4],
    fctrl: u8,
    counter: u32,
    port: u16,
) -> DataParts
    ensures { result ≡ data_parts_of kind dev_addr fctrl counter port }
{
    let confirmed = is_confirmed(kind);
    let uplink = is_uplink(kind);
    let place = port_of(port);
    DataParts {
        confirmed,
        uplink,
        dev_addr,
        fctrl,
        fcnt: counter,
        port: place,
    }
}
