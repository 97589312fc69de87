// 1,000 tags, MICs or amendments, for the longest frame.
use crate::KEY;
use amend::amending::Open;
use amend::opening::open_frame;
use frame::refusals::Refusal;
use frame_build::creator::data_frame::{DataParts, build_data};

// The tag of a helper block and 251 bytes, as the MIC of the longest frame has it; each tag is the next one's key.
pub(crate) fn tags() -> [u8; 16] {
    let message = [7u8; 267];
    (0..1000).fold(KEY, |key, _| cmac::tag(key, &message))
}

// The MIC of those 251 bytes, each under another counter.
pub(crate) fn mics() -> [u8; 4] {
    let message = [7u8; 251];
    (0..1000).fold([0u8; 4], |_, n| {
        frame_security::securityhelpers::calculate_data_mic(KEY, &message, n)
    })
}

// The longest frame, open: 242 bytes of payload on port 1.
fn longest() -> Result<Open, Refusal> {
    let parts = DataParts {
        confirmed: false,
        uplink: true,
        dev_addr: [4, 3, 2, 1],
        fctrl: 0,
        fcnt: 1,
        port: Some(1),
    };
    let payload = [7u8; 242];
    let mut out = [0u8; 255];
    build_data(parts, b"", &payload, KEY, KEY, &mut out)?;
    open_frame(&out, KEY, KEY, 1)
}

// The longest frame after so many amendments of one byte of its payload.
pub(crate) fn amendments(offset: usize, turns: usize) -> Result<[u8; 255], Refusal> {
    let mut state = longest()?;
    for n in 0..turns {
        state.amend(offset, (n % 256) as u8)?;
    }
    Ok(state.frame)
}
