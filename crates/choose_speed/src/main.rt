//! How long a choice takes: chooses again and again for the card on standard input, and tells the mean time on standard error.
#![tactic(auto)]

use cutset::choose_cutset;
use graph::NumberSet;
use plan::Source;
use sources::{Card, READ_LIMIT};
use std::io::Read;
use std::time::Instant;

/// How often the choice is made.
const ROUNDS: u32 = 200;

fn main(rt: HostRuntime) -> anyhow::Result<()> {
    let mut card = Vec::new(rt.alloc());
    rt.stdin().take(READ_LIMIT).read_to_end(&mut card)?;
    let source = Card::open(&card);
    let taken = NumberSet::empty();
    let measures = source.count();
    let start = Instant::now(&rt)?;
    let mut held = 0;
    let mut weight = 0;
    for _ in 0..ROUNDS {
        if let Ok(cutset) = choose_cutset(&source, &taken) {
            held = cutset.members().len();
            weight = cutset.weight();
        }
    }
    let mean = start.elapsed(&rt)?.as_micros() / u128::from(ROUNDS);
    eprintln!(rt; "one choice took {mean} microseconds, on the mean of {ROUNDS}")?;
    println!(rt; "of {measures} measures {held} are held, with weight {weight}")?;
    Ok(())
}
