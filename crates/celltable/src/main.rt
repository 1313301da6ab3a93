// Reads drawn.txt in the working folder and prints a row for every setting: its bits, and the state of each output. A declined text
// prints its decline.
#![tactic(auto)]

use console::{print_table, text_of};
use station::station::Station;

fn main(rt: HostRuntime) -> anyhow::Result<()> {
    let mut station = Station::open(rt.alloc())?;
    let drawn = text_of(&rt, "drawn.txt")?;
    print_table(&rt, &mut station, &drawn)?;
    Ok(())
}
