// Where the commands of a data frame lie.
ghost use Rattle.std.specs.Prelude.{◌≡◌};
ghost use Rattle.mac_commands.specs.InFrame.{port_0_of, lists_of, in_frame_of};

use frame::parser::{DataFrame, FrmPayload, read_as_data};
use frame::refusals::Refusal;
use frame_bits::fctrl::is_uplink;

// The places of the list on port 0, which may be empty: that of its first byte, and the one past its last.
#[derive(Clone, Copy)]
pub struct PayloadList {
    pub start: usize,
    pub end: usize,
}

// The direction of a frame's commands, and where its two lists lie: `read_step` on the bytes up to fopts_end gives those of FOpts,
// from place 8 on; on the bytes up to the end of port_0, of a clear payload, those on port 0, from its start on.
#[derive(Clone, Copy)]
pub struct CommandLists {
    pub uplink: bool,
    pub fopts_end: usize,
    pub port_0: Option<PayloadList>,
}

// The list that a payload is.
fn port_0_of(payload: FrmPayload) -> Option<PayloadList>
    ensures { result ≡ port_0_of payload }
{
    match payload {
        FrmPayload::Nothing => None,
        FrmPayload::Data(_, _) => None,
        FrmPayload::MacCommands(start, end) => Some(PayloadList { start, end }),
    }
}

#[tactic(auto, unfolding(crate::specs::InFrame::lists_of))]
fn lists_of(d: DataFrame) -> CommandLists
    ensures { result ≡ lists_of d }
{
    CommandLists {
        uplink: is_uplink(d.mtype),
        fopts_end: d.fopts_end,
        port_0: port_0_of(d.payload),
    }
}

// The lists of commands of a data frame. A frame of another type is refused by 4.
#[tactic(auto, unfolding(crate::specs::InFrame::in_frame_of))]
pub fn command_lists(frame: &[u8]) -> Result<CommandLists, Refusal>
    ensures { result ≡ in_frame_of frame.now }
{
    let fields = read_as_data(frame)?;
    Ok(lists_of(fields))
}
