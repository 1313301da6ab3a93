// A table of pairs of texts, read one after another by one station: prints each pair's name and its line.
//
// A line of data/cases.txt has a name, a drawn text and an intended text, written short, with tabs between.
#![tactic(auto)]

use anyhow::Context;
use console::print_pair;
use shorthand::bytes_of;
use station::station::Station;
use std::fs;

fn show(rt: &HostRuntime, station: &mut Station, case: &str) -> anyhow::Result<()> {
    let (name, texts) = case.split_once('\t').context("no drawn text")?;
    let (drawn, intended) = texts.split_once('\t').context("no intended text")?;
    let drawn = bytes_of(rt, drawn)?;
    let intended = bytes_of(rt, intended)?;
    print!(rt; "{name}\t")?;
    print_pair(rt, station, &drawn, &intended)?;
    Ok(())
}

fn main(rt: HostRuntime) -> anyhow::Result<()> {
    let mut station = Station::open(rt.alloc())?;
    for case in fs::read_to_string(&rt, "cases.txt")?.lines() {
        show(&rt, &mut station, case)?;
    }
    Ok(())
}
