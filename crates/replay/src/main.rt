// Makes a call of the codec for each recorded case of standard input: a line of hex has its answer, the last line says how
// many there were. tools/oracle/README.md has the formats; tools/oracle/record.py lays the cases and the right answers
// beside this program, whose contracts say only that it is safe and ends.
#![tactic(auto)]

use crate::arguments::{ROOM, Record};
use frame_opening::default_crypto::decrypt_join_accept_checked;
use frame_opening::join_accept::decrypt_join_accept;
use frame_opening::mic_tests;
use input::Answers;
use std::io;
use std::io::{BufWriter, Write};

mod amending;
mod arguments;
mod building;
mod commands;
mod holding;
mod opening;
mod output;
mod reading;

// The call that a record tells of. What its first byte says is named here alone.
fn answer<W: Write>(line: &mut W, record: &mut Record) -> io::Result<()> {
    match record.byte() {
        1 => opening::test_join(line, record, mic_tests::join_request_mic),
        2 => opening::test_join(line, record, mic_tests::join_accept_mic),
        3 => opening::test_data(line, record),
        4 => opening::decrypt_data(line, record),
        5 => opening::decrypt_data_checked(line, record),
        6 => opening::decrypt_accept(line, record, decrypt_join_accept),
        7 => opening::decrypt_accept(line, record, decrypt_join_accept_checked),
        9 => building::join_request(line, record),
        10 => building::join_accept(line, record),
        11 => building::data(line, record),
        12 => amending::open_and_amend(line, record),
        13 => reading::frame(line, record),
        14 => reading::clear_accept(line, record),
        15 => holding::hold(line, record),
        16 => reading::request(line, record),
        17 => amending::amend_lent(line, record),
        18 => commands::of_list(line, record),
        19 => commands::written(line, record),
        20 => commands::of_frame(line, record),
        kind => opening::session_keys(line, record, kind),
    }
}

fn answer_line<W: Write>(line: &mut W, record: &[u8]) -> io::Result<()> {
    answer(line, &mut Record { rest: record })?;
    line.write_all(b"\n")
}

// Writes the answer to each record that is read to `out`.
#[derive(Drop)]
struct Lines<'a, W> {
    out: &'a mut W,
}

impl<W: Write> Answers for Lines<'_, W> {
    fn answer(&mut self, _head: &[u8], record: &[u8]) -> io::Result<()> {
        answer_line(self.out, record)
    }
}

fn put_count<W: Write>(out: &mut W, cases: u64) -> io::Result<()> {
    writeln!(out, "{cases} cases")?;
    out.flush()
}

fn main(rt: HostRuntime) -> io::Result<()> {
    let mut out = BufWriter::new(rt.alloc(), rt.stdout())?;
    let mut prefix = [0u8; 2];
    let mut room = [0u8; ROOM];
    let mut lines = Lines { out: &mut out };
    let cases = input::each_record(&mut rt.reader(), &mut prefix, &mut room, &mut lines)?;
    if put_count(&mut out, cases).is_err() {
        // Where this cannot be written either, there is nothing left to say it by.
        let _ = eprintln!(rt; "replay: the output could not be written");
    }
    Ok(())
}
