ghost use Rattle.std.specs.Prelude.{◌≡◌};
ghost use Rattle.cm_core.specs.Consistent.{IsConsistent};
ghost use Rattle.cm_core.specs.Flats.{IsSmall, NamesLeaves};
ghost use Rattle.graph_order.specs.Order.{IsOrder};

use crate::lines::{chain_line, leaf_line, leaf_path, refusal_line};
use cm_base::{Fail, LeafId, Name, Refused};
use cm_core::{Filled, Flat, Program};
use graph_flat::flatten;
use graph_order::order;
use latency_fill::fill;
use program_shape::is_consistent;
use std::alloc::{AllocError, Global};

/// How a program is answered: by the names of its units, and in full or in brief.
#[derive(Clone, Copy)]
pub struct Manner<'a> {
    pub units: &'a [String],
    pub brief: bool,
}

/// One line as an answer.
fn alone(alloc: Global, line: String) -> Result<Vec<String>, AllocError> {
    let mut lines = Vec::new(alloc);
    lines.push(line)?;
    Ok(lines)
}

/// The position at which a cycle of leaves is begun: that of the leaf that counts first.
fn first_of(flat: &Flat, cycle: &[Name]) -> usize {
    for leaf in flat.leaves.as_slice() {
        let found = cycle
            .iter()
            .position(|name| name.as_str() == leaf.path.as_str());
        if let Some(at) = found {
            return at;
        }
    }
    0
}

/// The line of a refusal, with the leaves of a cycle, or in brief with their count.
fn refusal(
    alloc: Global,
    flat: Option<&Flat>,
    refused: &Refused,
    brief: bool,
) -> Result<String, AllocError> {
    let mut line = refusal_line(alloc, refused)?;
    let cycle = refused.cycle.as_slice();
    let count = cycle.len();
    if count > 0 && brief {
        write!(line, " of {count}")?;
        return Ok(line);
    }
    let first = flat.map_or(0, |flat| first_of(flat, cycle));
    for part in [&cycle[first.min(count)..], &cycle[..first.min(count)]] {
        for name in part {
            let path = name.as_str();
            write!(line, " {path}")?;
        }
    }
    Ok(line)
}

/// The answer where a phase gives no result.
fn failed(
    alloc: Global,
    flat: Option<&Flat>,
    fail: &Fail,
    brief: bool,
) -> Result<Vec<String>, AllocError> {
    match fail {
        Fail::Refused(refused) => alone(alloc, refusal(alloc, flat, refused, brief)?),
        Fail::NoMemory => Err(AllocError),
    }
}

/// The sum of numbers.
fn total(numbers: &[u32]) -> u64 {
    let mut sum: u64 = 0;
    for number in numbers {
        sum = sum.saturating_add(*number as u64);
    }
    sum
}

/// The answer in brief: how many leaves and chains there are, the sums of arrivals and of extra delays, and the latency.
fn counts(alloc: Global, flat: &Flat, filled: &Filled) -> Result<Vec<String>, AllocError> {
    let (leaves, chains) = (flat.leaves.len(), flat.chains.len());
    let (arrive, extra) = (
        total(filled.arrive.as_slice()),
        total(filled.extra.as_slice()),
    );
    let latency = filled.latency;
    let line = format!(in alloc;
        "counts leaves {leaves} chains {chains} arrive {arrive} fill {extra} latency {latency}"
    )?;
    alone(alloc, line)
}

fn leaf_lines(
    alloc: Global,
    lines: &mut Vec<String>,
    flat: &Flat,
    filled: &Filled,
    units: &[String],
) -> Result<(), AllocError> {
    let leaves = flat.leaves.as_slice();
    for at in 0..leaves.len() {
        let leaf = &leaves[at];
        let unit = units
            .get(leaf.unit as usize)
            .map_or("no unit", |name| name.as_str());
        let arrive = filled.arrive.get(at).map_or(u32::MAX, |frames| *frames);
        lines.push(leaf_line(alloc, leaf, unit, arrive)?)?;
    }
    Ok(())
}

fn chain_lines(
    alloc: Global,
    lines: &mut Vec<String>,
    program: &Program,
    flat: &Flat,
    filled: &Filled,
) -> Result<(), AllocError> {
    let chains = flat.chains.as_slice();
    for at in 0..chains.len() {
        let extra = filled.extra.get(at).map_or(u32::MAX, |frames| *frames);
        lines.push(chain_line(alloc, program, flat, &chains[at], extra)?)?;
    }
    Ok(())
}

fn order_line(alloc: Global, flat: &Flat, order: &[LeafId]) -> Result<String, AllocError> {
    let mut line = String::from_str(alloc, "order")?;
    for leaf in order {
        let path = leaf_path(flat, leaf.0);
        write!(line, " {path}")?;
    }
    Ok(line)
}

/// The answer of a flat graph that has an order.
fn filled_answer(
    alloc: Global,
    program: &Program,
    flat: &Flat,
    order: &[LeafId],
    filled: &Filled,
    manner: Manner<'_>,
) -> Result<Vec<String>, AllocError> {
    if manner.brief {
        return counts(alloc, flat, filled);
    }
    let mut lines = Vec::new(alloc);
    leaf_lines(alloc, &mut lines, flat, filled, manner.units)?;
    chain_lines(alloc, &mut lines, program, flat, filled)?;
    lines.push(order_line(alloc, flat, order)?)?;
    let latency = filled.latency;
    lines.push(format!(in alloc; "latency {latency}")?)?;
    Ok(lines)
}

/// The answer of a flat graph.
fn ordered_answer(
    alloc: Global,
    program: &Program,
    flat: &Flat,
    manner: Manner<'_>,
) -> Result<Vec<String>, AllocError>
    requires small { IsSmall flat.now }
    requires within { NamesLeaves flat.now }
{
    match order(alloc, flat) {
        Ok(found) => match fill(alloc, flat, &found) {
            Ok(filled) => filled_answer(alloc, program, flat, found.as_slice(), &filled, manner),
            Err(_) => Err(AllocError),
        },
        Err(fail) => failed(alloc, Some(flat), &fail, manner.brief),
    }
}

/// The answer of a program whose parts fit together.
fn flat_answer(
    alloc: Global,
    program: &Program,
    manner: Manner<'_>,
) -> Result<Vec<String>, AllocError>
    requires { IsConsistent program.now }
{
    match flatten(alloc, program) {
        Ok(flat) => ordered_answer(alloc, program, &flat, manner),
        Err(fail) => failed(alloc, None, &fail, manner.brief),
    }
}

/// The lines that tell what becomes of a program: that its parts don't fit together, that its graphs are refused, or
/// its leaves and chains with their latencies, and the order.
pub fn answer_of(
    alloc: Global,
    program: &Program,
    manner: Manner<'_>,
) -> Result<Vec<String>, AllocError> {
    match is_consistent(alloc, program) {
        Ok(true) => flat_answer(alloc, program, manner),
        Ok(false) => alone(alloc, String::from_str(alloc, "inconsistent")?),
        Err(_) => Err(AllocError),
    }
}
