// MAC commands as six numbers, for callers that know no enum: the identifier, then the values in the order of the fields, 0 past
// the last one. The margin of DevStatusAns is signed.
#![tactic(auto)]

ghost use Rattle.std.specs.Prelude.{◌≡◌, [], ◌∷◌, length};
ghost use Rattle.mac_commands.specs.Layout.{row, fields_of};
ghost use Rattle.mac_commands.specs.Commands.{fields_written, fields_in};
ghost use Rattle.command_numbers.specs.Numbers.{signed_of, six_of, unsigned_of, id_of_number, bits_of_number, id_given, values_given};

use frame::refusals::Refusal;
use mac_commands::maccommandcreator::{raw_of, write_fields};
use mac_commands::maccommands::{margin_of, values_of};

// The row and the identifier of DevStatusAns, the one command with a signed value, which is its second.
const STATUS_ROW: usize = 13;

const STATUS_ID: u8 = 6;

// The second value of a row.
fn signed_of(row: usize, x: u32) -> i64
    ensures { result ≡ signed_of row x }
{
    if row == STATUS_ROW {
        return margin_of(x) as i64;
    }
    x as i64
}

fn six_of(row: usize, a: u32, b: u32, c: u32, d: u32, e: u32) -> [i64; 6]
    ensures { result ≡ six_of row (a ∷ b ∷ c ∷ d ∷ e ∷ []) }
{
    let second = signed_of(row, b);
    [
        (2 + row % 9) as i64,
        a as i64,
        second,
        c as i64,
        d as i64,
        e as i64,
    ]
}

// The six numbers of a row and of the number behind its identifier, as reading finds them.
pub fn numbers_of(r: usize, v: u64) -> [i64; 6]
    ensures { result ≡ six_of r (fields_of (row r) v) }
{
    let x = values_of(r, v);
    six_of(r, x[0], x[1], x[2], x[3], x[4])
}

// A number as a value. What 32 bits cannot hold becomes the largest that they can, which no field holds either.
fn unsigned_of(z: i64) -> u32
    ensures { result ≡ unsigned_of z }
{
    if z < 0 {
        return 4294967295;
    }
    if 4294967295 < z {
        return 4294967295;
    }
    z as u32
}

// A number as an identifier; 0, which is none, for what is no byte.
fn id_of(z: i64) -> u8
    ensures { result ≡ id_of_number z }
{
    let x = unsigned_of(z);
    if x < 256 {
        return x as u8;
    }
    0
}

// A number as the second value: a margin in six bits, or a value as the others are.
fn bits_of(uplink: bool, id: u8, z: i64) -> u32
    ensures { result ≡ bits_of_number uplink id z }
{
    if uplink {
        if id == STATUS_ID {
            return raw_of(z);
        }
        return unsigned_of(z);
    }
    unsigned_of(z)
}

// Writes the command of six numbers for a direction, from a place on, and answers the place past it. A refusal writes nothing.
pub fn write_numbers(
    uplink: bool,
    numbers: [i64; 6],
    out: &mut [u8],
    at: usize,
) -> Result<usize, Refusal>
    ensures value { result ≡ fields_written uplink (id_given numbers) (values_given uplink numbers) (length out.old) at }
    ensures out_after { out.new ≡ fields_in uplink (id_given numbers) (values_given uplink numbers) out.old at }
{
    let id = id_of(numbers[0]);
    let values = [
        unsigned_of(numbers[1]),
        bits_of(uplink, id, numbers[2]),
        unsigned_of(numbers[3]),
        unsigned_of(numbers[4]),
        unsigned_of(numbers[5]),
    ];
    write_fields(uplink, id, values, out, at)
}
