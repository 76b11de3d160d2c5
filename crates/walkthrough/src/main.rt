//! Follows one plan from its card to its listing, and says in plain words what was done at each step.
#![tactic(auto)]

mod cycles;
mod names;

use crate::cycles::{measures_in, measures_on_loops};
use crate::names::name_of;
use cutset::{Cutset, Pick, Picks, choose_cutset, pick_measures};
use graph::{NumberSet, SplitGraph};
use host::{ROW_LENGTH, write_listing};
use plan::Source;
use sources::{Card, READ_LIMIT};
use std::alloc::{AllocError, Global};
use std::io::{Read, Write};

/// The members of a set below `count`, by name.
fn named(heap: Global, set: &NumberSet, count: u8) -> Result<String, AllocError> {
    let names: Vec<&str> = (0..count)
        .filter(|m| set.contains(*m as usize))
        .map(name_of)
        .collect(heap)?;
    if names.is_empty() {
        return String::from_str(heap, "none");
    }
    names.join(heap, ", ")
}

/// The drivers of a measure.
fn drivers<S: Source>(source: &S, m: u8) -> NumberSet {
    let mut set = NumberSet::empty();
    for driver in (0..source.drivers(m)).filter_map(|position| source.driver(m, position)) {
        set.insert(driver as usize);
    }
    set
}

/// Says what the card holds.
// The functions that print take what they print: a struct of it all would be no plainer.
fn show_measures<S: Source>(rt: &HostRuntime, source: &S) -> anyhow::Result<()> {
    let count = source.count();
    println!(rt; "It holds a plan of {count} measures:")?;
    for m in 0..count {
        let name = name_of(m);
        let classes = source.classes(m);
        let weight = source.weight(m);
        let mark = if source.barred(m) { ", barred" } else { "" };
        print!(rt; "  {m:2} {name}: {classes} classes, weight {weight}{mark}")?;
        if source.drivers(m) > 0 {
            let by = named(rt.alloc(), &drivers(source, m), count)?;
            print!(rt; "; driven by {by}")?;
        }
        println!(rt; "")?;
    }
    Ok(())
}

/// Says which measures lie on loops.
fn show_loops(rt: &HostRuntime, graph: &SplitGraph, count: u8) -> anyhow::Result<()> {
    let on_loops = named(rt.alloc(), &measures_on_loops(graph), count)?;
    println!(rt; "On loops lie: {on_loops}.")?;
    Ok(())
}

/// Says what was picked, in which order, and at which share.
fn show_picks(rt: &HostRuntime, picks: &Picks) -> anyhow::Result<()> {
    println!(rt; "Picked, each time the smallest share of what is left:")?;
    for Pick { measure, share } in picks.as_slice() {
        let name = name_of(*measure);
        println!(rt; "  {name}, at share {share}")?;
    }
    Ok(())
}

/// Goes through the picks from the last to the first, and says which are left out again and why the others stay.
fn show_thinning(
    rt: &HostRuntime,
    graph: &SplitGraph,
    picks: &Picks,
    count: u8,
) -> anyhow::Result<()> {
    println!(rt; "From the last pick back to the first:")?;
    let mut held = picks.set();
    for pick in picks.as_slice().iter().rev() {
        let name = name_of(pick.measure);
        let mut others = held;
        others.remove(pick.measure as usize);
        let mut left = graph.without(&others);
        graph.prune(&mut left);
        if left.is_empty_below(graph.nodes()) {
            println!(rt; "  {name} is left out: the others still held open every loop")?;
            held = others;
        } else {
            let open = named(rt.alloc(), &measures_in(graph, &left), count)?;
            println!(rt; "  {name} stays: without it a loop stays shut among {open}")?;
        }
    }
    Ok(())
}

/// Says what is held.
fn show_choice(rt: &HostRuntime, cutset: &Cutset) -> anyhow::Result<()> {
    let weight = cutset.weight();
    let settings = cutset.settings();
    println!(rt; "Held, with weight {weight} and {settings} settings:")?;
    for &m in cutset.members() {
        let name = name_of(m);
        println!(rt; "  {m:2} {name}")?;
    }
    Ok(())
}

/// Follows the choice of a held set, with nothing taken.
fn follow<S: Source>(rt: &HostRuntime, source: &S) -> anyhow::Result<()> {
    let taken = NumberSet::empty();
    let graph = SplitGraph::of(source);
    let count = source.count();
    show_measures(rt, source)?;
    show_loops(rt, &graph, count)?;
    if let Ok(picks) = pick_measures(source, &taken) {
        show_picks(rt, &picks)?;
        show_thinning(rt, &graph, &picks, count)?;
    }
    match choose_cutset(source, &taken) {
        Ok(cutset) => show_choice(rt, &cutset),
        Err(_) => {
            println!(rt; "Nothing is held: some loop can be opened only by barred measures.")?;
            Ok(())
        }
    }
}

/// Shows the listing of the card.
fn show_listing(rt: &HostRuntime, card: &[u8]) -> anyhow::Result<()> {
    println!(rt; "The listing:")?;
    let mut row = [0; ROW_LENGTH];
    let length = write_listing(card, &mut row)?;
    rt.stdout().write_all(&row[..length])?;
    Ok(())
}

fn main(rt: HostRuntime) -> anyhow::Result<()> {
    let mut card = Vec::new(rt.alloc());
    rt.stdin().take(READ_LIMIT).read_to_end(&mut card)?;
    let length = card.len();
    match Card::check(&card) {
        Ok(()) => println!(rt; "The card has {length} bytes and no fault.")?,
        Err(fault) => println!(rt; "The card has {length} bytes and is refused: {fault}")?,
    }
    let source = Card::open(&card);
    follow(&rt, &source)?;
    show_listing(&rt, &card)
}
