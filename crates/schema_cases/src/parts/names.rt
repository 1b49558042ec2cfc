//! Names entered in tables and looked up.
use anyhow::Error;
use name_tables::NameTable;
use std::alloc::Global;

const LARGE: u32 = 100_000;

/// The places of the words behind `?`.
pub(crate) fn found(alloc: Global, line: &str) -> Result<String, Error> {
    let mut table = NameTable::new(alloc);
    let mut places = String::new(alloc);
    let mut asking = false;
    let mut count = 0;
    for word in line.split(' ') {
        if word == "?" {
            asking = true;
        } else if asking {
            push_place(alloc, &mut places, table.place(word))?;
        } else {
            table.insert(word, count)?;
            count = count.saturating_add(1);
        }
    }
    Ok(places)
}

fn push_place(alloc: Global, places: &mut String, place: Option<u32>) -> Result<(), Error> {
    let text = match place {
        Some(place) => format!(in alloc; " {place}")?,
        None => String::from_str(alloc, " none")?,
    };
    places.push_str(&text)?;
    Ok(())
}

/// How many names of a large table aren't found at their places.
pub(crate) fn missed_text(alloc: Global) -> Result<String, Error> {
    let missed = missed(alloc)?;
    Ok(format!(in alloc; " {LARGE} names, {missed} missed")?)
}

fn missed(alloc: Global) -> Result<u32, Error> {
    let mut table = NameTable::new(alloc);
    for place in 0..LARGE {
        let name = name_of(alloc, place)?;
        table.insert(&name, place)?;
    }
    let mut missed: u32 = 0;
    for place in 0..LARGE {
        let name = name_of(alloc, place)?;
        if table.place(&name) != Some(place) {
            missed = missed.saturating_add(1);
        }
    }
    Ok(missed)
}

fn name_of(alloc: Global, place: u32) -> Result<String, Error> {
    Ok(format!(in alloc; "field{place:06}")?)
}
