// The decryption of payloads (of the cryptographic half of parser.rs of the crate).
ghost use Rattle.std.specs.Prelude.{◌≡◌, ◌+◌, ◌≤◌, min};
ghost use Rattle.frame.specs.Conditions.{IsData};
ghost use Rattle.frame.specs.Reading.{data_of};
ghost use Rattle.frame_security.specs.Security.{frame_key};
ghost use Rattle.frame_opening.specs.FrameOpening.{outcome, decrypted, opened_under, data_opened};

use frame::parser::{DataFrame, read_as_data};
use frame::refusals::{INVALID_KEY, Refusal};
use frame_security::securityhelpers::{by_network_key, encrypt_part, full_counter};

// Where the payload begins, or the MIC where there is none.
fn header_end(fields: DataFrame) -> usize
    requires { fields.fopts_end ≤ 255 }
    ensures { result ≡ min (fields.fopts_end + 1) fields.mic }
{
    (fields.fopts_end + 1).min(fields.mic)
}

// 4.3.3: the key of a frame that was read as data.
fn key_of(
    frame: &[u8],
    fields: DataFrame,
    nwk_skey: Option<[u8; 16]>,
    app_skey: Option<[u8; 16]>,
) -> Option<[u8; 16]>
    requires { IsData frame.now × (fields ≡ data_of frame.now) }
    ensures { result ≡ frame_key frame.now nwk_skey app_skey }
{
    let start = header_end(fields);
    if by_network_key(&frame[..start], fields.mic - start) {
        return nwk_skey;
    }
    app_skey
}

// 4.3.3: decrypts the payload of a frame that was read as data. Where there is no payload nothing is written.
fn decrypt_payload(frame: &mut [u8], fields: DataFrame, key: [u8; 16], counter: u32)
    requires { IsData frame.old × (fields ≡ data_of frame.old) }
    ensures { frame.new ≡ decrypted key counter frame.old }
{
    let start = header_end(fields);
    let mic = fields.mic;
    if start == mic {
        return;
    }
    let whole = full_counter(counter, fields.fcnt);
    encrypt_part(key, frame, whole, start, mic);
}

fn decrypt_under(
    frame: &mut [u8],
    fields: DataFrame,
    key: Option<[u8; 16]>,
    counter: u32,
) -> Result<(), Refusal>
    requires { IsData frame.old × (fields ≡ data_of frame.old) }
    ensures { outcome result frame.new ≡ opened_under key counter frame.old }
{
    let Some(given) = key else {
        return Err(Refusal::of(INVALID_KEY));
    };
    decrypt_payload(frame, fields, given, counter);
    Ok(())
}

// Decrypts a data frame where it lies, with no test of its MIC. Of `counter` the high half counts.
pub fn decrypt_data(
    frame: &mut [u8],
    nwk_skey: Option<[u8; 16]>,
    app_skey: Option<[u8; 16]>,
    counter: u32,
) -> Result<(), Refusal>
    ensures { outcome result frame.new ≡ data_opened nwk_skey app_skey counter frame.old }
{
    let fields = read_as_data(frame)?;
    let key = key_of(frame, fields, nwk_skey, app_skey);
    decrypt_under(frame, fields, key, counter)
}
