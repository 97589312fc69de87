// A view of a frame: the caller's bytes with the place of each field in them. A part that is shown is that part of the
// caller's own slice; nothing is copied.
#![tactic(auto)]

ghost use Rattle.std.specs.Prelude.{◌≡◌};
ghost use Rattle.frame.specs.Reading.{read_of};
ghost use Rattle.frame.specs.ReadingNumbers.{values_of};
ghost use Rattle.view.specs.FrameFields.{field_of};
ghost use Rattle.view.specs.Parts.{seen, within};
ghost use Rattle.view.specs.Viewed.{view_of, part_of};

use crate::parts::{Field, shown};
use frame::numbers::{Values, values_of};
use frame::parser::read;

pub mod parts;

// The numbers are those of docs/RULES.md, of a refusal too, so that a view is there of any bytes.
#[derive(Clone, Copy)]
pub struct View<'a> {
    pub bytes: &'a [u8],
    pub numbers: Values,
}

// What a frame says in numbers, and where its parts lie.
fn numbers_of(frame: &[u8]) -> Values
    ensures { result ≡ values_of (read_of frame.now) }
{
    values_of(read(frame))
}

impl<'a> View<'a> {
    // The view of a frame, accepted or refused.
    pub fn of(frame: &'a [u8]) -> View<'a>
        ensures { result ≡ view_of frame.entry }
    {
        let found = numbers_of(frame);
        View {
            bytes: frame,
            numbers: found,
        }
    }

    // A field as a part of the caller's bytes: the empty part where the view has none, whoever made the view.
    pub fn part(self, field: Field) -> &'a [u8]
        ensures { seen result ≡ part_of self.entry field }
    {
        shown(self.bytes, self.numbers, field)
    }

    // What follows are names for `part`, one a field, as callers know the fields.

    // DevAddr of a data frame (4.3.1), in frame order.
    pub fn dev_addr(self) -> &'a [u8]
        ensures { seen result ≡ part_of self.entry Field.DevAddr }
    {
        self.part(Field::DevAddr)
    }

    // FOpts of a data frame (4.3.1.6).
    pub fn fopts(self) -> &'a [u8]
        ensures { seen result ≡ part_of self.entry Field.FOpts }
    {
        self.part(Field::FOpts)
    }

    // FRMPayload of a data frame (4.3.3), encrypted as it came.
    pub fn payload(self) -> &'a [u8]
        ensures { seen result ≡ part_of self.entry Field.Payload }
    {
        self.part(Field::Payload)
    }

    // AppEUI of a join-request (6.2.4).
    pub fn app_eui(self) -> &'a [u8]
        ensures { seen result ≡ part_of self.entry Field.AppEui }
    {
        self.part(Field::AppEui)
    }

    // DevEUI of a join-request.
    pub fn dev_eui(self) -> &'a [u8]
        ensures { seen result ≡ part_of self.entry Field.DevEui }
    {
        self.part(Field::DevEui)
    }

    // DevNonce of a join-request.
    pub fn dev_nonce(self) -> &'a [u8]
        ensures { seen result ≡ part_of self.entry Field.DevNonce }
    {
        self.part(Field::DevNonce)
    }

    // The MIC of a data frame or a join-request (4.4).
    pub fn mic(self) -> &'a [u8]
        ensures { seen result ≡ part_of self.entry Field.Mic }
    {
        self.part(Field::Mic)
    }
}

// The same of a frame, for a caller that keeps no view.
pub fn part_of(frame: &[u8], field: Field) -> &[u8]
    ensures { seen result ≡ within frame.entry (field_of frame.now field) }
{
    View::of(frame).part(field)
}
