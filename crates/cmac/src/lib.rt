// CMAC with AES-128 (RFC 4493): a running state that takes the message in parts, and the tag. The cipher is cited by what
// its crate states.
#![tactic(auto)]

ghost use Rattle.std.specs.Prelude.{◌≡◌, ◌<◌, ◌≤◌, length};
ghost use Rattle.base.specs.Bytes.{xor_lists};
ghost use Rattle.aes.specs.KeyExpansion.{key_expansion_of};
ghost use Rattle.aes.specs.Fips197.{cipher};
ghost use Rattle.cmac.specs.Rfc4493.{mac};
ghost use Rattle.cmac.specs.Running.{started, resumed, pushed, absorbed, finished};

mod blocks;

// A tag under way. `chain` already holds the bytes of the open block, `filled` says how many those are. A full block
// is enciphered only when a further byte comes, since the last block of a message is treated apart. A state may be built with
// any `filled`: sixteen or more is a full block, so that no call needs a bound on it.
#[derive(Clone, Copy)]
pub struct Cmac {
    pub schedule: [u8; 176],
    pub chain: [u8; 16],
    pub filled: usize,
}

// One step of the chain: what stands after `block`, where `chain` stood before it.
pub fn next_chain(schedule: &[u8; 176], chain: [u8; 16], block: [u8; 16]) -> [u8; 16]
    ensures { result ≡ cipher schedule.now (xor_lists chain block) }
{
    let open = blocks::xored(chain, &block);
    aes::encrypt_under(schedule, open)
}

impl Cmac {
    // Before the first byte of a message.
    pub fn new(key: [u8; 16]) -> Self
        ensures { result ≡ started (key_expansion_of key) }
    {
        let schedule = aes::key_expansion::expand(key);
        Cmac::with_schedule(schedule)
    }

    pub fn with_schedule(schedule: [u8; 176]) -> Self
        ensures { result ≡ started schedule }
    {
        Cmac::resume(schedule, [0u8; 16])
    }

    // At a block's edge, after the chain value `chain`.
    pub fn resume(schedule: [u8; 176], chain: [u8; 16]) -> Self
        ensures { result ≡ resumed schedule chain }
    {
        Cmac {
            schedule,
            chain,
            filled: 0,
        }
    }

    // One byte more.
    fn push(&mut self, byte: u8)
        ensures { self.new ≡ pushed self.old byte }
    {
        if self.filled < 16 {
            self.chain[self.filled] ^= byte;
            self.filled += 1;
        } else {
            let mut next = aes::encrypt_under(&self.schedule, self.chain);
            next[0] ^= byte;
            self.chain = next;
            self.filled = 1;
        }
    }

    fn push_each(&mut self, bytes: &[u8])
        ensures { self.new ≡ absorbed self.old bytes.now }
    {
        for byte in bytes {
            self.push(*byte);
        }
    }

    // What comes behind a full block: whole blocks go a block a turn.
    fn push_blocks(&mut self, bytes: &[u8])
        requires { 0 < length bytes.now → 16 ≤ self.old.filled }
        ensures { self.new ≡ absorbed self.old bytes.now }
    {
        let (blocks, last) = bytes.as_chunks::<16>();
        for block in blocks {
            let next = aes::encrypt_under(&self.schedule, self.chain);
            let open = blocks::xored(next, block);
            self.chain = open;
            self.filled = 16;
        }
        self.push_each(last);
    }

    // A part of the message: what the open block has room for, then the rest.
    pub fn update(self, part: &[u8]) -> Self
        ensures { result ≡ absorbed self part.now }
    {
        let room = 16usize.saturating_sub(self.filled);
        let (head, tail) = part.split_at(room.min(part.len()));
        let mut state = self;
        state.push_each(head);
        state.push_blocks(tail);
        state
    }

    // Section 2.4: the tag of what was taken in.
    pub fn finish(self) -> [u8; 16]
        ensures { result ≡ finished self }
    {
        let l = aes::encrypt_under(&self.schedule, [0u8; 16]);
        let last = blocks::last_block(l, self.chain, self.filled);
        aes::encrypt_under(&self.schedule, last)
    }
}

// The tag of a message in one part.
pub fn tag(key: [u8; 16], message: &[u8]) -> [u8; 16]
    ensures { result ≡ mac key message.now }
{
    Cmac::new(key).update(message).finish()
}
