// The layouts: a row for each command, those that go down by their identifiers and then those that go up.
ghost use Rattle.std.specs.Prelude.{◌≡◌, ◌^◌, ◌≤◌, ◌<◌};
ghost use Rattle.mac_commands.specs.Layout.{row, row_of, known, size_of};
ghost use Rattle.mac_commands.specs.Table.{field_list};

// A command has at most so many fields.
pub(crate) const FIELDS_MAX: usize = 5;

// How many bytes stand behind the identifier, and of each field its lowest bit and how many bits it has.
#[derive(Clone, Copy)]
pub(crate) struct Row(pub(crate) usize, pub(crate) &'static [(u8, u8)]);

#[tactic(auto, unfolding(crate::specs::Layout::row, crate::specs::Layout::downs, crate::specs::Layout::ups, crate::specs::Layout::bits_of, crate::specs::Layout::size_of, crate::specs::Layout::count_in_row, crate::specs::Layout::place_in_row, crate::specs::Layout::width_at))]
pub(crate) fn row_at(r: usize) -> Row
    requires { r < 18 }
    ensures size { result.0 ≡ size_of r }
    ensures fields { result.1.now ≡ field_list (row r) }
{
    match r {
        0 => Row(2, &[(0, 8), (8, 8)]),
        1 => Row(4, &[(4, 4), (0, 4), (8, 16), (28, 3), (24, 4)]),
        2 => Row(1, &[(0, 4)]),
        3 => Row(4, &[(4, 3), (0, 4), (8, 24)]),
        4 => Row(0, &[]),
        5 => Row(5, &[(0, 8), (8, 24), (36, 4), (32, 4)]),
        6 => Row(1, &[(0, 4)]),
        7 => Row(1, &[(5, 1), (4, 1), (0, 4)]),
        8 => Row(4, &[(0, 8), (8, 24)]),
        9 => Row(0, &[]),
        10 => Row(1, &[(2, 1), (1, 1), (0, 1)]),
        11 => Row(0, &[]),
        12 => Row(1, &[(2, 1), (1, 1), (0, 1)]),
        13 => Row(2, &[(0, 8), (8, 6)]),
        14 => Row(1, &[(1, 1), (0, 1)]),
        15 => Row(0, &[]),
        16 => Row(0, &[]),
        17 => Row(1, &[(1, 1), (0, 1)]),
        _ => Row(0, &[]),
    }
}

// Whether there is a command with this identifier, in both directions.
pub(crate) fn is_known(id: u8) -> bool
    ensures { result ≡ known id }
{
    matches!(id, 2..=10)
}

pub(crate) fn row_of(uplink: bool, id: u8) -> usize
    requires { (2 ≤ id) × (id ≤ 10) }
    ensures { result ≡ row_of uplink id }
{
    let n = (id - 2) as usize;
    if uplink { 9 + n } else { n }
}

// 2 to the n.
pub(crate) fn power(n: u8) -> u64
    requires { n < 64 }
    ensures { result ≡ 2 ^ n }
{
    1u64 << n
}
