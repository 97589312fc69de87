// An open frame, and one amendment of it: a payload byte is set, and the frame signed anew from the block that holds it.
ghost use Rattle.std.specs.Prelude.{◌≡◌, ◌+◌, ◌-◌, ◌*◌, ◌%◌, ◌≤◌, ◌<◌, leb, length};
ghost use Rattle.base.specs.Bytes.{pick};
ghost use Rattle.frame.specs.Layout.{payload_start_of};
ghost use Rattle.frame_security.specs.Security.{stream_at, payload_key_of};
ghost use Rattle.amend.specs.Amending.{last_place, chained, signed_from, carried, resigned, amended_to, amend_of};

use base::storing::{put, run_at};
use frame::packet_length::{FCTRL_AT, MIC_LEN, PHY_PAYLOAD_MAX_LEN};
use frame::parser::fhdr_length;
use frame::refusals::{OFFSET_OUTSIDE, Refusal};
use frame_security::mic::mic_of;
use frame_security::securityhelpers::{by_network_key, start_of, stream_block};

// An open frame: the bytes of the frame (zeros behind them) and how many they are, both keys expanded, the whole
// counter, and what the MIC's chain holds ahead of each 16-byte block of the frame, sixteen bytes each. The rooms are fixed, with a
// length beside: there is no heap, and a buffer from C holds the same bytes.
#[derive(Clone, Copy)]
pub struct Open {
    pub frame: [u8; 255],
    pub length: usize,
    pub nwk_schedule: [u8; 176],
    pub app_schedule: [u8; 176],
    pub counter: u32,
    pub chains: [u8; 256],
}

// The chain values at the places after `from`, up to `to`, each from the one before it and the frame's block there.
pub(crate) fn carry_on(
    schedule: &[u8; 176],
    frame: &[u8],
    chains: &mut [u8],
    from: usize,
    to: usize,
)
    requires { (from ≤ to) × (16 * to ≤ length frame.now) × (16 * to + 16 ≤ length chains.old) × (to ≤ 15) }
    ensures { chains.new ≡ chained schedule.now frame.now (to - from) from chains.old }
{
    for i in from..to {
        let chain = run_at(chains, 16 * i);
        let block = run_at(frame, 16 * i);
        let next = cmac::next_chain(schedule, chain, block);
        put(chains, 16 * (i + 1), &next);
    }
}

// The MIC of the first `n` bytes of the frame, from the last chain value on.
pub(crate) fn sign_from(schedule: &[u8; 176], frame: &[u8], n: usize, chains: &[u8]) -> [u8; 4]
    requires { (0 < n) × (n ≤ length frame.now) × (16 * last_place n + 16 ≤ length chains.now) }
    ensures { result ≡ signed_from schedule.now frame.now n chains.now }
{
    let start = 16 * ((n - 1) / 16);
    let chain = run_at(chains, start);
    let expanded = *schedule;
    let tag = cmac::Cmac::resume(expanded, chain)
        .update(&frame[start..n])
        .finish();
    mic_of(tag)
}

// The key stream's byte for payload byte `k`.
fn mask_at(schedule: &[u8; 176], frame: &[u8], counter: u32, k: usize) -> u8
    ensures { result ≡ stream_at schedule.now frame.now counter k }
{
    let start = start_of(frame);
    let stream = stream_block(schedule, start, counter, k);
    stream[k % 16]
}

// The schedule of the key of a payload of `count` bytes.
pub(crate) fn payload_schedule<'a>(
    nwk: &'a [u8; 176],
    app: &'a [u8; 176],
    frame: &[u8],
    count: usize,
) -> &'a [u8; 176]
    ensures { result.now ≡ payload_key_of frame.now count nwk.now app.now }
{
    if by_network_key(frame, count) {
        nwk
    } else {
        app
    }
}

// The frame and its chain values after byte `p` of it was changed, signed anew; `n` bytes are ahead of the MIC.
pub(crate) fn resign(schedule: &[u8; 176], frame: &mut [u8], chains: &mut [u8], n: usize, p: usize)
    requires { (p < n) × (n + 4 ≤ length frame.old) × (length chains.old ≡ 256) × (n ≤ 251) }
    ensures chains_after { chains.new ≡ carried schedule.now frame.old n p chains.old }
    ensures frame_after { frame.new ≡ resigned schedule.now frame.old n p chains.old }
{
    carry_on(schedule, frame, chains, p / 16, (n - 1) / 16);
    let mic = sign_from(schedule, frame, n, chains);
    put(frame, n, &mic);
}

// How many payload bytes there are, by FCtrl and the length of the frame; past 255 bytes there are none.
pub(crate) fn payload_length(fctrl: u8, total: usize) -> usize
    ensures { result ≡ pick (leb total 255) (total - 4 - (7 + fctrl % 16 + 2)) 0 }
{
    let start = fhdr_length(fctrl) + 2;
    if PHY_PAYLOAD_MAX_LEN < total {
        return 0;
    }
    if total < start + MIC_LEN {
        return 0;
    }
    total - MIC_LEN - start
}

impl Open {
    // The payload byte at the offset set, and the frame signed anew.
    fn amend_inside(&mut self, offset: usize, value: u8)
        requires { (payload_start_of self.old.frame + offset < self.old.length - 4) × (self.old.length ≤ 255) }
        ensures { self.new ≡ amended_to self.old offset value }
    {
        let p = fhdr_length(self.frame[FCTRL_AT]) + 2 + offset;
        let count = payload_length(self.frame[FCTRL_AT], self.length);
        let schedule = payload_schedule(&self.nwk_schedule, &self.app_schedule, &self.frame, count);
        let mask = mask_at(schedule, &self.frame, self.counter, offset);
        self.frame[p] = value ^ mask;
        resign(
            &self.nwk_schedule,
            &mut self.frame,
            &mut self.chains,
            self.length - MIC_LEN,
            p,
        );
    }

    // Sets the payload byte at the offset to the clear value; the frame is then encrypted and signed anew. 15 where
    // there is no such byte, with the state as it was.
    pub fn amend(&mut self, offset: usize, value: u8) -> Result<(), Refusal>
        ensures value { result ≡ (amend_of self.old offset value).answer }
        ensures state_after { self.new ≡ (amend_of self.old offset value).state }
    {
        let count = payload_length(self.frame[FCTRL_AT], self.length);
        if count <= offset {
            return Err(Refusal::of(OFFSET_OUTSIDE));
        }
        self.amend_inside(offset, value);
        Ok(())
    }
}
