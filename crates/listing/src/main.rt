//! Reads a card from standard input, and writes its listing to standard output.
#![tactic(auto)]

use host::{ROW_LENGTH, write_listing};
use sources::READ_LIMIT;
use std::io;
use std::io::{Read, Write};

fn main(rt: HostRuntime) -> io::Result<()> {
    let mut card = Vec::new(rt.alloc());
    rt.stdin().take(READ_LIMIT).read_to_end(&mut card)?;
    // A row of this length has room for every listing.
    let mut row = [0; ROW_LENGTH];
    let length = write_listing(&card, &mut row).unwrap();
    rt.stdout().write_all(&row[..length])
}
