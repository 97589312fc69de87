// An open frame in a buffer of 868 bytes, which C lends: its fields at fixed places.
ghost use Rattle.std.specs.Prelude.{◌≡◌};
ghost use Rattle.amend_held.specs.HeldBuffer.{stored_open, loaded_open};

use amend::amending::Open;
use base::storing::{put, run_at};

pub const HELD_LEN: usize = 868;

pub(crate) const LENGTH_AT: usize = 255;

const NWK_AT: usize = 256;

const APP_AT: usize = 432;

const CHAINS_AT: usize = 608;

const COUNTER_AT: usize = 864;

// The state that a buffer holds.
pub(crate) fn load(bytes: [u8; 868]) -> Open
    ensures { result ≡ loaded_open bytes }
{
    let length = usize::from(bytes[LENGTH_AT]);
    let frame = run_at(&bytes, 0);
    let nwk_schedule = run_at(&bytes, NWK_AT);
    let app_schedule = run_at(&bytes, APP_AT);
    let chains = run_at(&bytes, CHAINS_AT);
    let counter = u32::from_le_bytes(run_at(&bytes, COUNTER_AT));
    Open {
        frame,
        length,
        nwk_schedule,
        app_schedule,
        counter,
        chains,
    }
}

// A state as a buffer holds it.
pub(crate) fn store(state: Open) -> [u8; 868]
    ensures { result ≡ stored_open state }
{
    let frame = state.frame;
    let nwk_schedule = state.nwk_schedule;
    let app_schedule = state.app_schedule;
    let chains = state.chains;
    let length = [(state.length % 256) as u8];
    let counter = state.counter.to_le_bytes();
    let mut out = [0u8; 868];
    put(&mut out, 0, &frame);
    put(&mut out, LENGTH_AT, &length);
    put(&mut out, NWK_AT, &nwk_schedule);
    put(&mut out, APP_AT, &app_schedule);
    put(&mut out, CHAINS_AT, &chains);
    put(&mut out, COUNTER_AT, &counter);
    out
}
