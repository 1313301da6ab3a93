// A table of drawn cells, read one after another by one station: prints the states of nets 0 to 15 under every setting, and then what
// probing declines.
//
// A line of data/cells.txt has a name and a drawn text, written short, with a tab between.
#![tactic(auto)]

ghost use Rattle.std.specs.Prelude.{◌≤◌};

use anyhow::Context;
use cell::State;
use rows::letter;
use shorthand::bytes_of;
use station::station::Station;
use station::station::probe::WORK;
use std::{fs, io};
use text::fault::Fault;

// The letter of a state, or the number of the decline.
fn print_probe(rt: &HostRuntime, answer: Result<State<bool>, Fault>) -> io::Result<()> {
    match answer {
        Ok(
            State {
                may0: false,
                may1: false,
            },
        ) => print!(rt; "?"),
        Ok(state) => print!(rt; "{}", char::from(letter(state))),
        Err(fault) => print!(rt; " {}", fault.reason.number()),
    }
}

// The states of nets 0 to 15 under every setting. A circuit that is held has at most 16 inputs.
fn show_states(rt: &HostRuntime, station: &Station, name: &str, inputs: usize) -> io::Result<()>
    requires { inputs ≤ 16 }
{
    let mut work = [false; WORK];
    for setting in 0..1_u32 << inputs {
        print!(rt; "{name}\t{setting}\t")?;
        for net in 0..16 {
            print_probe(rt, station.probe(setting, net, &mut work))?;
        }
        println!(rt; "")?;
    }
    Ok(())
}

fn show(rt: &HostRuntime, station: &mut Station, line: &str) -> anyhow::Result<()> {
    let (name, drawn) = line.split_once('\t').context("no drawn text")?;
    let drawn = bytes_of(rt, drawn)?;
    match station.read_drawn(&drawn) {
        Ok(inputs) => show_states(rt, station, name, inputs)?,
        Err(fault) => println!(rt; "{name}\tdeclined {}", fault.reason.number())?,
    }
    Ok(())
}

// What is declined, and in which order: no circuit, a short table, a net or a setting that does not exist.
fn show_declines(rt: &HostRuntime, station: &mut Station) -> io::Result<()> {
    let mut work = [false; WORK];
    let mut short = [false; WORK - 1];
    station
        .read_drawn(b"CELL\tINV\nIN\t2\nOUT\t3\nP\t2\t1\t3\nN\t2\t3\t0\nEND\n")
        .ok();
    print!(rt; "declines\t")?;
    print_probe(rt, station.probe(1, 3, &mut work))?;
    print_probe(rt, station.probe(2, 3, &mut work))?;
    print_probe(rt, station.probe(1, 127, &mut work))?;
    print_probe(rt, station.probe(1, 128, &mut work))?;
    print_probe(rt, station.probe(2, 128, &mut short))?;
    station.wipe();
    print_probe(rt, station.probe(2, 128, &mut short))?;
    println!(rt; "")
}

fn main(rt: HostRuntime) -> anyhow::Result<()> {
    let mut station = Station::open(rt.alloc())?;
    for line in fs::read_to_string(&rt, "cells.txt")?.lines() {
        show(&rt, &mut station, line)?;
    }
    show_declines(&rt, &mut station)?;
    Ok(())
}
