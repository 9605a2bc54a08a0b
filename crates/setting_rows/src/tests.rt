//! The rules of the rows among the settings, alone and beside each other, in both kinds of text.

mod rows;
mod whole;

use crate::{Ahead, Head, Known, Misread, read_head};
use ld_base::Reason;
use std::alloc::Global;
use std::test::Fail;

// Both kinds of text.
static BOTH: [Known; 2] = [Known::Scenario, Known::Recording];

// What is wrong with a text among its settings.
fn verdict(alloc: Global, known: Known, text: &[u8]) -> Result<(), Misread> {
    let mut rows = Ahead::new(alloc, text)?;
    match read_head(alloc, known, &mut rows) {
        Ok(_) => Ok(()),
        Err(misread) => Err(misread),
    }
}

// The settings of a text that has no fault among them.
fn head(alloc: Global, known: Known, text: &[u8]) -> Result<Head, Fail> {
    let mut rows = Ahead::new(alloc, text)?;
    Ok(read_head(alloc, known, &mut rows).ok().ok_or("settings")?)
}

fn bad(row: u64, reason: Reason) -> Result<(), Misread> {
    Err(Misread::Bad { row, reason })
}
