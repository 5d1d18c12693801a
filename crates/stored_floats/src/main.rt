// Replays the stored answers of the float helpers: a list on standard input, counts on standard output.
// `oracle/compare --store floats` makes both anew.
#![tactic(auto)]

use std::io;
use stored::floats::Helper;
use stored::{List, ROOM};

fn main(rt: HostRuntime) -> io::Result<()> {
    let mut room = [0; ROOM];
    let list = List::<3>::read(&rt, &mut room)?;
    for helper in Helper::ALL {
        list.report(&rt, helper)?;
    }
    list.report_size(&rt)
}
