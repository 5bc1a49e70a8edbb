//! Works a split of the course: what a question leaves to be bought where some regions are held, and what that costs.
//!
//! With no words it works the last worked split of the course. Otherwise six words are the question's numbers, birth,
//! service and band, each with its lower end before its upper end, and each six words after them are a region.

#![tactic(auto)]

use crate::statement::{Statement, state};
use crate::words::regions_of;
use anyhow::anyhow;
use boxes::{CellBox, Pieces};
use domain::{Bounds, Refusal};
use std::env;
use std::process::ExitCode;
use thiserror::Error;
use worked::worked_examples;

mod statement;
mod words;

fn main(rt: HostRuntime) -> ExitCode {
    match run(&rt) {
        Ok(()) => ExitCode::SUCCESS,
        Err(fault) => {
            let _ = eprintln!(rt; "exercise: {fault}");
            ExitCode::FAILURE
        }
    }
}

/// Reads the words and works their split.
fn run(rt: &HostRuntime) -> anyhow::Result<()> {
    let numbers = numbers_given(rt)?;
    if numbers.is_empty() {
        let last = worked_examples();
        return work(rt, last.question, &[last.region]);
    }
    let Some((question, rest)) = numbers.as_slice().split_first_chunk::<6>() else {
        return Err(anyhow!("a box has six numbers"));
    };
    let Some(regions) = regions_of(rt.alloc(), rest)? else {
        return Err(anyhow!("a region has six numbers"));
    };
    work(rt, Bounds::from(*question), regions.as_slice())
}

/// The numbers on the command line.
fn numbers_given(rt: &HostRuntime) -> anyhow::Result<Vec<u16>> {
    let mut numbers = Vec::new(rt.alloc());
    for word in env::args(rt)?.skip(1) {
        let Ok(number) = word.as_str().parse::<u16>() else {
            return Err(anyhow!("every word is a number from 0 to 65535"));
        };
        numbers.push(number)?;
    }
    Ok(numbers)
}

/// Prints the question, the regions and the statement.
fn work(rt: &HostRuntime, question: Bounds, regions: &[Bounds]) -> anyhow::Result<()> {
    let question = CellBox::new(question).map_err(Refused)?;
    println!(rt; "question: {question}")?;
    for (place, numbers) in regions.iter().enumerate() {
        let region = CellBox::new(*numbers).map_err(Refused)?;
        println!(rt; "region {place}: {region}")?;
    }
    let Statement {
        pieces,
        charge,
        saved,
    } = state(question, regions).map_err(Refused)?;
    println!(rt; "remainder {}", pieces.len())?;
    print_pieces(rt, &pieces)?;
    println!(rt; "charge {charge}")?;
    println!(rt; "without the cache {}, saved {saved}", question.cells())?;
    Ok(())
}

/// Prints the remainder boxes, a line each.
fn print_pieces(rt: &HostRuntime, pieces: &Pieces) -> anyhow::Result<()> {
    for piece in pieces.as_slice() {
        println!(rt; "  {piece}")?;
    }
    Ok(())
}

/// A refusal as the program tells it: by its number, before its sentence.
#[derive(Clone, Copy, Debug, Error)]
#[error("refused {}: {}", .0.number(), .0)]
struct Refused(Refusal);
