// Runs outside vectors on the library, and writes what it answers; the answers that are right stand in stdout.
#![tactic(auto)]

mod feed;
mod named;
mod on_entries;
mod on_records;
mod on_tables;
mod parts;
mod print;

use std::io::Result;

fn main(rt: HostRuntime) -> Result<()> {
    feed::run(rt, "parts", parts::show)?;
    feed::run(rt, "entries", on_entries::show)?;
    feed::run(rt, "heads", on_entries::show)?;
    feed::run(rt, "decoders", on_records::show)?;
    feed::run(rt, "tables", on_tables::show)?;
    for path in [
        "c05_faststart_cut.3gp",
        "f02_amrnb_time.3gp",
        "f04_amrwb.3gp",
        "f06_amrnb_bitexact_faststart.3gp",
        "f33_h264_aac.3gp",
        "g01_amrnb.3gp",
    ] {
        feed::run_file(rt, path)?;
    }
    Ok(())
}
