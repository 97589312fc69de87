// Reading.
ghost use Rattle.std.specs.Prelude.{◌≡◌};
ghost use Rattle.frame.specs.PackedReading.{packed_of};
ghost use Rattle.frame_bits.specs.Fctrl.{nwk_id_of};
ghost use Rattle.frame.specs.Reading.{read_of};
ghost use Rattle.frame.specs.JoinFields.{join_request_fields_of, join_accept_fields_of};
ghost use Rattle.frame_c.specs.CStored.{RequestInto, AcceptInto};

#[unsafe(no_mangle)]
pub extern "C" fn zinovoky_read(frame: &[u8]) -> u64
    ensures { result ≡ packed_of (read_of frame.now) }
{
    frame_c::reading::zinovoky_read(frame)
}

#[unsafe(no_mangle)]
pub extern "C" fn zinovoky_join_request_fields(frame: &[u8], fields: &mut [u8]) -> u64
    ensures { RequestInto (join_request_fields_of frame.now) fields.old result fields.new }
{
    frame_c::reading::zinovoky_join_request_fields(frame, fields)
}

#[unsafe(no_mangle)]
pub extern "C" fn zinovoky_join_accept_fields(frame: &[u8], fields: &mut [u8]) -> u64
    ensures { AcceptInto (join_accept_fields_of frame.now) fields.old result fields.new }
{
    frame_c::reading::zinovoky_join_accept_fields(frame, fields)
}

#[unsafe(no_mangle)]
pub extern "C" fn zinovoky_nwk_id(dev_addr: &[u8; 4]) -> u8
    ensures { result ≡ nwk_id_of dev_addr.now }
{
    frame_c::reading::zinovoky_nwk_id(dev_addr)
}
