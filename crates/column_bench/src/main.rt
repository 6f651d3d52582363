//! Measurements of the operations on columns: `column_bench [OPERATION [CELLS [time]]]`.
//!
//! `OPERATION` is `add`, `floor_div`, `lt`, `and`, `sum`, `cumsum`, `shift`, `take` or `cast`, or `all`,
//! which is each of them; `CELLS` is how many cells a column has. The columns are made cell by cell, and
//! then the operation is done on them. A line gives the name and a number of the answer's cells, by which
//! other programs that do the same can be compared. With `time` the operation is done several times, and
//! a line gives the microseconds of each.
#![tactic(auto)]

ghost use Rattle.column_bench.specs.Work.{IsReady};

mod checks;
mod data;
mod operation;
mod work;

use cell_core::{NoMemory, TextDict};
use nullable_array::ArrayFault;
use operation::Operation;
use std::alloc::{AllocError, Global};
use std::rt::Clock;
use std::time::Instant;
use std::{env, io};
use work::Work;

// How many cells a column has where this isn't given.
const FEW_CELLS: usize = 1000;

// How often an operation is timed.
const RUNS: usize = 7;

/// Why the program ends early.
#[derive(Debug, Drop)]
enum Failure {
    /// The words of the command line aren't as they should be.
    Usage,
    /// Memory was refused, or the operation.
    Refused(ArrayFault),
    /// A line couldn't be written, or the clock not be read.
    Outside(io::Error),
}

impl From<io::Error> for Failure {
    fn from(error: io::Error) -> Failure {
        Failure::Outside(error)
    }
}

impl From<AllocError> for Failure {
    fn from(_: AllocError) -> Failure {
        Failure::Refused(ArrayFault::NoMemory)
    }
}

impl From<ArrayFault> for Failure {
    fn from(fault: ArrayFault) -> Failure {
        Failure::Refused(fault)
    }
}

impl From<NoMemory> for Failure {
    fn from(_: NoMemory) -> Failure {
        Failure::Refused(ArrayFault::NoMemory)
    }
}

fn main(rt: HostRuntime) -> Result<(), Failure> {
    let words: Vec<String> = env::args(&rt)?.collect(rt.alloc())?;
    measure_worded(&rt, &words)
}

fn measure_worded(
    rt: &(impl Clock + Print + AllocGlobal),
    words: &[String],
) -> Result<(), Failure> {
    match words {
        [_] => measure_all(rt, FEW_CELLS, false),
        [_, name] => measure_named(rt, name.as_str(), FEW_CELLS, false),
        [_, name, cells] => measure_named(rt, name.as_str(), count_of(cells.as_str())?, false),
        [_, name, cells, word] if word.as_str() == "time" => {
            measure_named(rt, name.as_str(), count_of(cells.as_str())?, true)
        }
        _ => Err(Failure::Usage),
    }
}

fn count_of(word: &str) -> Result<usize, Failure> {
    match word.parse::<usize>() {
        Ok(count) => Ok(count),
        Err(_) => Err(Failure::Usage),
    }
}

fn measure_named(
    rt: &(impl Clock + Print + AllocGlobal),
    name: &str,
    count: usize,
    timed: bool,
) -> Result<(), Failure> {
    if name == "all" {
        return measure_all(rt, count, timed);
    }
    match Operation::named(name) {
        Some(operation) => measure(rt, operation, count, timed),
        None => Err(Failure::Usage),
    }
}

fn measure_all(
    rt: &(impl Clock + Print + AllocGlobal),
    count: usize,
    timed: bool,
) -> Result<(), Failure> {
    for operation in Operation::ALL {
        measure(rt, operation, count, timed)?;
    }
    Ok(())
}

fn measure(
    rt: &(impl Clock + Print + AllocGlobal),
    operation: Operation,
    count: usize,
    timed: bool,
) -> Result<(), Failure> {
    let work = operation.work(rt.alloc(), count)?;
    if timed {
        time(rt, operation.name(), &work)?;
    }
    let number = number_of(rt.alloc(), &work)?;
    println!(rt; "{} {number}", operation.name())?;
    Ok(())
}

// The number of the cells that are answered.
fn number_of(alloc: Global, work: &Work) -> Result<i64, ArrayFault>
    requires { IsReady work.now }
{
    let mut dict = TextDict::new(alloc);
    let answer = work.run(alloc, &mut dict)?;
    Ok(answer.number())
}

// A line for each time that the operation is done.
fn time(rt: &(impl Clock + Print + AllocGlobal), name: &str, work: &Work) -> Result<(), Failure>
    requires { IsReady work.now }
{
    let mut dict = TextDict::new(rt.alloc());
    for _ in 0..RUNS {
        let start = Instant::now(rt)?;
        let _answer = work.run(rt.alloc(), &mut dict)?;
        let micros = start.elapsed(rt)?.as_micros();
        println!(rt; "{name} took {micros}")?;
    }
    Ok(())
}
