// The arguments of a record, which are read one after the other. What does not lie inside a record is taken as zeros.
ghost use Rattle.std.specs.Prelude.{◌≤◌};

// No record, frame or output of a case is longer.
pub const ROOM: usize = 1000;

// What is still to be read of a record.
#[derive(Clone, Copy)]
pub struct Record<'a> {
    pub rest: &'a [u8],
}

impl<'a> Record<'a> {
    // The next `N` bytes, or only zeros where there are not so many.
    pub fn run<const N: usize>(&mut self) -> [u8; N] {
        let Some((run, rest)) = self.rest.split_first_chunk::<N>() else {
            self.rest = &[];
            return [0u8; N];
        };
        self.rest = rest;
        *run
    }

    pub fn byte(&mut self) -> u8 {
        let [byte] = self.run::<1>();
        byte
    }

    // A yes is 1.
    pub fn flag(&mut self) -> bool {
        self.byte() == 1
    }

    // A number of four bytes, low byte first.
    pub fn number(&mut self) -> u32 {
        u32::from_le_bytes(self.run())
    }

    // An offset of eight bytes, low byte first.
    pub fn offset(&mut self) -> usize {
        let low = self.number();
        let high = self.number();
        (low as usize) + (high as usize) * 4294967296
    }

    // A length of two bytes, low byte first, or all the room where it says more.
    pub fn length(&mut self) -> usize
        ensures { result ≤ 1000 }
    {
        let low = self.byte();
        let high = self.byte();
        input::record_length([low, high], ROOM)
    }

    // A key that may not be given: 1 and the key, or another number and sixteen bytes that are passed over.
    pub fn maybe_key(&mut self) -> Option<[u8; 16]> {
        let given = self.flag();
        let key = self.run();
        given.then_some(key)
    }

    // Fills `to` with the next bytes, and with zeros once there are no more.
    pub fn fill(&mut self, to: &mut [u8]) {
        for b in to.iter_mut() {
            *b = self.byte();
        }
    }

    pub fn fill_numbers(&mut self, to: &mut [u32]) {
        for n in to.iter_mut() {
            *n = self.number();
        }
    }

    // As much of the room as a length says.
    pub fn part<'b>(&mut self, room: &'b mut [u8; ROOM]) -> &'b mut [u8] {
        let n = self.length();
        &mut room[..n]
    }

    // Bytes behind their length.
    pub fn bytes<'b>(&mut self, room: &'b mut [u8; ROOM]) -> &'b mut [u8] {
        let bytes = self.part(room);
        self.fill(bytes);
        bytes
    }

    // Numbers behind their count.
    pub fn numbers<'b>(&mut self, room: &'b mut [u32; ROOM]) -> &'b mut [u32] {
        let n = self.length();
        let numbers = &mut room[..n];
        self.fill_numbers(numbers);
        numbers
    }
}
