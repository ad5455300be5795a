// Checks the chart text chart.txt of the current folder, and prints what the chart holds or why it is refused.
#![tactic(auto)]

use self::report::report_on;
use anyhow::Context;
use chart_reader::reader::MOST_TEXT_BYTES;
use std::fs::File;
use std::io;
use std::io::Read;

mod refusal;
mod report;

const PATH: &str = "chart.txt";

// One byte more than a chart has is enough to see that there are too many.
const MOST_READ_BYTES: u64 = MOST_TEXT_BYTES as u64 + 1;

// The start of the file, with no more bytes than are needed.
fn load(rt: &HostRuntime) -> io::Result<Vec<u8>> {
    let mut text = Vec::new(rt.alloc());
    File::open(rt, PATH)?
        .take(MOST_READ_BYTES)
        .read_to_end(&mut text)?;
    Ok(text)
}

fn main(rt: HostRuntime) -> anyhow::Result<()> {
    let text = load(&rt).context(format_args!("{PATH} cannot be read"))?;
    let report = report_on(rt.alloc(), text.as_slice())?;
    println!(rt; "{report}")?;
    Ok(())
}
