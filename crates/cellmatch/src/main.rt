// Reads drawn.txt and intended.txt in the working folder and prints one line: the first decline, or how much was read.
#![tactic(auto)]

use console::{print_pair, text_of};
use station::station::Station;

fn main(rt: HostRuntime) -> anyhow::Result<()> {
    let mut station = Station::open(rt.alloc())?;
    let drawn = text_of(&rt, "drawn.txt")?;
    let intended = text_of(&rt, "intended.txt")?;
    print_pair(&rt, &mut station, &drawn, &intended)?;
    Ok(())
}
