//! Vectors of images: each line of standard input says an image and what is known of it, and the answer is whether a pair that is made of the
//! image agrees, or where it differs. With the word `restore` the answer is the pair's own image.
#![tactic(auto)]

mod checking;
mod differences;
mod pairs;
mod scripts;
mod vectors;

use crate::checking::{check, restored_as};
use crate::vectors::{Vector, vector_of};
use anyhow::{Context, Result, bail};
use std::alloc::Global;
use std::io::{BufRead, BufReader};
use strm_raw::RawStore;

// Answers a line; whether what it says holds.
fn answer(rt: &impl Print, alloc: Global, line: &str) -> Result<bool> {
    let fields: Vec<&str> = line.split('\t').collect(alloc)?;
    let vector = vector_of(alloc, fields.as_slice())?;
    tell(rt, alloc, &vector)
}

// Tells whether what a line says holds, or the image that it asks for.
fn tell(rt: &impl Print, alloc: Global, vector: &Vector) -> Result<bool> {
    if let Vector::Untold { text } = vector {
        let told = restored_as::<RawStore>(alloc, text.as_slice())?;
        println!(rt; "{told}")?;
        return Ok(true);
    }
    match check::<RawStore>(alloc, vector) {
        Ok(()) => {
            println!(rt; "holds")?;
            Ok(true)
        }
        Err(difference) => {
            println!(rt; "differs: {difference}")?;
            Ok(false)
        }
    }
}

fn main(rt: HostRuntime) -> Result<()> {
    let (mut number, mut differ) = (0u64, 0u64);
    for line in BufReader::new(rt.alloc(), rt.reader())?.lines(rt.alloc()) {
        let line = line?;
        number = number.saturating_add(1);
        if !answer(&rt, rt.alloc(), line.as_str()).context(format_args!("line {number}"))? {
            differ = differ.saturating_add(1);
        }
    }
    if differ > 0 {
        bail!("{differ} lines differ");
    }
    Ok(())
}
