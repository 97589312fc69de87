// Buildings.
ghost use Rattle.std.specs.Prelude.{eqb, length};
ghost use Rattle.frame_build.specs.JoinBuilding.{join_request_refusal, join_accept_refusal_of};
ghost use Rattle.frame_build.specs.DataFrames.{data_frame_of};
ghost use Rattle.frame_build.specs.JoinFrames.{join_request_of, join_accept_of};
ghost use Rattle.frame_c.specs.CGiven.{accept_parts_of, data_parts_of, request_parts_of, data_refused};
ghost use Rattle.frame_c.specs.CAnswers.{BuildsInC};

#[unsafe(no_mangle)]
pub extern "C" fn zinovoky_build_join_request(
    app_eui: &[u8; 8],
    dev_eui: &[u8; 8],
    dev_nonce: &[u8; 2],
    app_key: &[u8; 16],
    out: &mut [u8],
) -> u64
    ensures { BuildsInC (join_request_refusal (length out.old))
        (join_request_of app_key.now
        (request_parts_of app_eui.now dev_eui.now dev_nonce.now))
        out.old result out.new }
{
    frame_c::building::zinovoky_build_join_request(app_eui, dev_eui, dev_nonce, app_key, out)
}

#[unsafe(no_mangle)]
pub extern "C" fn zinovoky_build_join_accept(
    fixed: &[u8; 12],
    with_list: u8,
    channels: &[u32],
    app_key: &[u8; 16],
    out: &mut [u8],
) -> u64
    ensures { BuildsInC
        (join_accept_refusal_of (accept_parts_of fixed.now (eqb with_list 1)) channels.now
        (length out.old))
        (join_accept_of app_key.now (accept_parts_of fixed.now (eqb with_list 1)) channels.now)
        out.old result out.new }
{
    frame_c::building::zinovoky_build_join_accept(fixed, with_list, channels, app_key, out)
}

#[unsafe(no_mangle)]
pub extern "C" fn zinovoky_build_data(
    kind: u8,
    dev_addr: &[u8; 4],
    fctrl: u8,
    counter: u32,
    port: u16,
    commands: &[u8],
    payload: &[u8],
    nwk_skey: &[u8; 16],
    app_skey: &[u8; 16],
    out: &mut [u8],
) -> u64
    ensures { BuildsInC
        (data_refused kind (data_parts_of kind dev_addr.now fctrl counter port) commands.now
        payload.now (length out.old))
        (data_frame_of nwk_skey.now app_skey.now
        (data_parts_of kind dev_addr.now fctrl counter port) commands.now payload.now)
        out.old result out.new }
{
    frame_c::building::zinovoky_build_data(
        kind, dev_addr, fctrl, counter, port, commands, payload, nwk_skey, app_skey, out,
    )
}
