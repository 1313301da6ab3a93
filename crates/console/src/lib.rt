// What the programs read and print.
#![tactic(auto)]

ghost use Rattle.std.specs.Prelude.{◌≡◌, ◌<◌, ◌≤◌, length};
ghost use Rattle.console.specs.Tables.{Few};
ghost use Rattle.station.specs.Probes.{at_bit};
ghost use Rattle.station.specs.Stations.{held, LeftByPair, LeftByDrawn};

use arrayvec::ArrayVec;
use cell::State;
use rows::{MOST, row_of};
use station::report::{Decline, Origin};
use station::station::Station;
use station::station::probe::WORK;
use std::fs::File;
use std::io;
use std::io::{ErrorKind, Read, Write};
use text::fault::Fault;
use text::lines::LIMIT;

// The text of a file, a missing one being empty, and no more of it than shows that it is too long.
pub fn text_of(rt: &HostRuntime, path: &str) -> io::Result<Vec<u8>> {
    let mut text = Vec::new(rt.alloc());
    match File::open(rt, path) {
        Ok(file) => {
            file.take(LIMIT as u64 + 1).read_to_end(&mut text)?;
        }
        Err(error) if error.kind() == ErrorKind::NotFound => {}
        Err(error) => return Err(error),
    }
    Ok(text)
}

// Reads a pair of texts and prints its line: the first decline, or how much was read.
pub fn print_pair(
    rt: &HostRuntime,
    station: &mut Station,
    drawn: &[u8],
    intended: &[u8],
) -> io::Result<()>
    ensures { LeftByPair drawn.now intended.now (held station.old) (held station.new) }
{
    match station.read_pair(drawn, intended) {
        Ok(read) => println!(rt;
            "READ\t{}\t{}\t{}\t{}",
            read.ins, read.outs, read.devices, read.gates
        ),
        Err(decline) => print!(rt; "{}", decline.line()),
    }
}

// Prints a decline of the drawn text as its line.
fn print_decline(rt: &HostRuntime, fault: Fault) -> io::Result<()> {
    let decline = Decline {
        origin: Origin::Drawn,
        fault,
    };
    print!(rt; "{}", decline.line())
}

// The settings of a block.
const BLOCK: u32 = 64;

// The states of the outputs under the settings of a block, as the bits of two words each.
fn survey_outs(
    station: &Station,
    outs: &[u8],
    block: u32,
    work: &mut [u64],
) -> Result<ArrayVec<State<u64>, MOST>, Fault>
    requires { length outs.now ≤ 16 }
{
    let mut words = ArrayVec::new();
    for net in outs {
        words.push(station.survey(block, *net, work)?);
    }
    Ok(words)
}

// The state at one bit of two words.
fn at_lane(words: &State<u64>, lane: u32) -> State<bool>
    requires { lane < 64 }
    ensures { result ≡ at_bit words.now lane }
{
    State {
        may0: (words.may0 >> lane) % 2 == 1,
        may1: (words.may1 >> lane) % 2 == 1,
    }
}

// Prints the row of a setting: each output's state is a bit of its two words. A circuit that is held has at most 16 inputs.
fn print_row(
    rt: &HostRuntime,
    inputs: usize,
    setting: u32,
    words: &ArrayVec<State<u64>, MOST>,
) -> io::Result<()>
    requires { inputs ≤ 16 }
{
    let mut states: ArrayVec<State<bool>, MOST> = ArrayVec::new();
    for word in words.as_slice() {
        states.push(at_lane(word, setting % BLOCK));
    }
    let Some(row) = row_of(inputs, setting, &states) else {
        unreachable!();
    };
    rt.stdout().write_all(&row)
}

// Prints the rows of all settings of the drawn circuit that is held.
fn print_rows(rt: &HostRuntime, station: &Station, inputs: usize) -> io::Result<()>
    requires { Few inputs (held station.now).drawn }
{
    let Some(outs) = station.outs() else {
        unreachable!();
    };
    let mut work = [0; WORK];
    let settings = 1_u32 << inputs;
    for block in 0..settings.div_ceil(BLOCK) {
        let words = match survey_outs(station, outs, block, &mut work) {
            Ok(words) => words,
            Err(fault) => return print_decline(rt, fault),
        };
        for lane in 0..settings.min(BLOCK) {
            print_row(rt, inputs, block * BLOCK + lane, &words)?;
        }
    }
    Ok(())
}

// Reads a drawn text and prints the states of its outputs under every setting, a row for each, or the decline.
pub fn print_table(rt: &HostRuntime, station: &mut Station, drawn: &[u8]) -> io::Result<()>
    ensures { LeftByDrawn drawn.now (held station.old) (held station.new) }
{
    match station.read_drawn(drawn) {
        Ok(inputs) => print_rows(rt, station, inputs),
        Err(fault) => print_decline(rt, fault),
    }
}
